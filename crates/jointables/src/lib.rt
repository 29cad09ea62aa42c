// The solver's tables of a joined day, written file by file into the lent scratch.
//
// The oven comes first, as the first shop group. Then each file is written where it stands, with the oven over its top shop groups. The
// joined file itself is never written.
#![tactic(auto)]

ghost use Rattle.std.specs.Prelude.{◌≡◌, ◌+◌, ◌<◌};
ghost use Rattle.scratch.specs.Map.{Room};
ghost use Rattle.jointables.specs.Filled.{next_spot, MemberStands, WroteMember, PutOven, FilledAll, JoinGiven, JoinWrote};

use claimfile::Layout;
use claimwriter::layout_in;
use entries::{set_parent, set_spare};
use members::length_at;
use scratch::Shape;
use tables::Spot;
use tables::write::{cut_off, write_file};

// Where the file after one with that layout stands.
fn after(spot: Spot, layout: Layout) -> Spot
    requires { (spot.card + layout.cards < 65536) × (spot.shop + layout.shops < 65536) × (spot.row + layout.rows < 65536) }
    ensures { result ≡ next_spot spot layout }
{
    Spot {
        card: spot.card + layout.cards,
        shop: spot.shop + layout.shops,
        over: spot.over,
        row: spot.row + layout.rows,
    }
}

// Writes the tables of an accepted file, and tells where the next one stands.
fn write_member(file: &[u8], day: usize, sh: Shape, spot: Spot, scratch: &mut [u32]) -> Spot
    requires { MemberStands day file.now sh spot scratch.old }
    ensures { WroteMember day file.now sh spot scratch.old scratch.new result }
{
    let layout = layout_in(file, day);
    write_file(file, layout, sh, spot, scratch);
    after(spot, layout)
}

// Writes the oven: the first shop group, above all top shop groups.
fn write_oven(sh: Shape, oven: usize, scratch: &mut [u32])
    requires { (Room sh scratch.old) × (sh.cards < sh.groups) }
    ensures { PutOven sh scratch.old scratch.new oven }
{
    let node = sh.cards;
    let sink = sh.groups + 1;
    let limit = cut_off(oven);
    set_parent(sh, node, sink, scratch);
    set_spare(sh, node, limit, scratch);
}

// Writes the files, one after the other, under the oven that is written.
fn write_files(files: &[u8], lengths: &[u32], day: usize, sh: Shape, scratch: &mut [u32])
    requires { JoinGiven day files.now lengths.now sh scratch.old }
    ensures { FilledAll day files.now lengths.now sh scratch.old scratch.new }
{
    let mut spot = Spot {
        card: 0,
        shop: sh.cards + 1,
        over: sh.cards,
        row: 0,
    };
    let mut at = 0;
    for k in 0..lengths.len() {
        let end = at + length_at(lengths, k);
        spot = write_member(&files[at..end], day, sh, spot, scratch);
        at = end;
    }
}

// Writes every table of the joined day.
pub fn write_joined(
    files: &[u8],
    lengths: &[u32],
    day: usize,
    sh: Shape,
    oven: usize,
    scratch: &mut [u32],
)
    requires { JoinGiven day files.now lengths.now sh scratch.old }
    ensures { JoinWrote day files.now lengths.now oven sh scratch.old scratch.new }
{
    write_oven(sh, oven, scratch);
    write_files(files, lengths, day, sh, scratch);
}
