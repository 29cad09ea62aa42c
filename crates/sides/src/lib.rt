// One side of an accepted file: whether a selection fits its limits, and its rank there.
//
// A selection is one byte a row, 1 where the row is in it; bytes past the last row are not read.
// Each selected row is counted at the group that it names; an earned row (of kind 1, under the second terms 1 to 3), on the card side,
// above that group. Then the rows rise, from the last group to the first: a group passes on to its parent as many as came to it, but no
// more than its limit. Since each parent has a smaller number, all that comes to a group has come when its turn is. What comes to the top
// is the rank, and the selection fits where each group passed on all that came to it.
// A stored file's limits are read as they are written: what fits these fits the lowered ones, with the same rank.
// The cost is rows + groups; the memory is one count for each group of one side, and one for the top.
#![tactic(auto)]

ghost use Rattle.std.specs.Prelude.{◌≡◌, min, ◌<◌, ◌≤◌};
ghost use Rattle.theory.specs.Bounds.{max_groups};
ghost use Rattle.claimfile.specs.Day.{instance_of};
ghost use Rattle.claimfile.specs.Sound.{Sound};
ghost use Rattle.sides.specs.Ready.{Ready};
ghost use Rattle.sides.specs.Side.{hangs, Zero, Counted, Passes, PassedOn, Begun, Rose, Placed};
ghost use Rattle.sides.specs.Found.{Finds};

use claimfile::{Layout, claim_of, group_of, groups_on};
use instance::{above, card_node};
use theory::MAX_GROUPS;

// The counts of a side: one for each of its groups, and one for the top.
pub const CELLS: usize = MAX_GROUPS + 1;

// Whether a selection fits a side, and its rank there, for an accepted file: whether all rows came to the top, and how many did.
#[derive(Clone, Copy)]
pub struct Found {
    pub fits: bool,
    pub rank: usize,
}

// Where row `c` hangs on a side: at the group that it names, or, where it is earned, on the card side above that group. The number of
// the side's groups stands for the top.
pub fn hangs_at(file: &[u8], layout: Layout, side: usize, c: usize) -> usize
    requires { (Sound file.now layout) × (c < layout.rows) }
    ensures { (result ≡ hangs file.now layout side c) × (result ≤ max_groups) }
{
    let claim = claim_of(file, layout, c);
    if side != 0 {
        return claim.shop;
    }
    card_node(file, layout, claim, layout.cards)
}

// Counts each selected row where it hangs.
fn count_rows(file: &[u8], layout: Layout, side: usize, selection: &[u8], counts: &mut [u16])
    requires ready { Ready file.now selection.now layout }
    requires zero { Zero counts.old }
    ensures { Counted file.now selection.now layout side counts.new }
{
    for c in 0..layout.rows {
        let g = hangs_at(file, layout, side, c);
        counts[g] += u16::from(selection[c]);
    }
}

// Passes on what came to group `g`, and tells whether that was all.
fn pass_on(file: &[u8], layout: Layout, side: usize, g: usize, counts: &mut [u16]) -> bool
    requires { Passes file.now layout side counts.old g }
    ensures { PassedOn file.now layout side counts.old counts.new g result }
{
    let group = group_of(file, layout, side, g);
    let up = above(g, group.parent, 0, groups_on(layout, side));
    let come = counts[g];
    counts[up] += come.min(group.limit as u16);
    usize::from(come) <= group.limit
}

// Lets the rows that are counted at their own groups rise, from the last group to the first. Where all came to the top, each count
// is then the number of rows that count in that group.
fn rise(file: &[u8], layout: Layout, side: usize, counts: &mut [u16]) -> Found
    requires { Begun file.now layout side counts.old }
    ensures { Rose file.now layout side counts.old counts.new result }
{
    let top = groups_on(layout, side);
    let mut fits = true;
    for g in (0..top).rev() {
        fits &= pass_on(file, layout, side, g, counts);
    }
    Found {
        fits,
        rank: usize::from(counts[top]),
    }
}

// Counts the selected rows and lets them rise, on a side of an accepted file.
pub fn rise_on(
    file: &[u8],
    layout: Layout,
    side: usize,
    selection: &[u8],
    counts: &mut [u16],
) -> Found
    requires ready { Ready file.now selection.now layout }
    requires zero { Zero counts.old }
    ensures { Placed file.now selection.now layout side counts.new result }
{
    count_rows(file, layout, side, selection, counts);
    rise(file, layout, side, counts)
}

// Whether a selection of an accepted file fits a side, and its rank there.
pub fn rank_on(file: &[u8], layout: Layout, side: usize, selection: &[u8]) -> Found
    requires { Ready file.now selection.now layout }
    ensures { Finds (instance_of file.now layout) selection.now side result }
{
    let mut counts = [0u16; CELLS];
    rise_on(file, layout, side, selection, &mut counts)
}
