// Writing a claim file: the week layout for given counts, and the counts and records put at their places in a lent buffer.
//
// The counts are put once; records may be put in any order, and a group that was put can be read back. A buffer that has them all
// starts with the file (`written-cells`, proofs/WrittenLaws.antt). The counts of an accepted file give its layout back (`layout_in`).
#![tactic(auto)]

ghost use Rattle.std.specs.Prelude.{◌≡◌, ◌+◌, ◌*◌, ◌<◌, ◌≤◌, ◌++◌, length, Ok};
ghost use Rattle.theory.specs.Bounds.{max_groups, max_rows};
ghost use Rattle.theory.specs.Matroid.{row};
ghost use Rattle.claimfile.specs.File.{days, new_week};
ghost use Rattle.claimfile.specs.Day.{count_of, group_of, on_day};
ghost use Rattle.reader.specs.Reading.{reading};
ghost use Rattle.claimwriter.specs.Written.{week_group, bytes_of, records, group_bytes, claim_bytes, layout_for, layout_in, length_for};
ghost use Rattle.claimwriter.specs.Put.{Put, group_place, claim_place, Laid, Room, CountsPut};

use claimfile::{
    CLAIM_WIDTH, Claim, DAYS, Group, Layout, WEEK_WIDTH, group_at, on_day, start_of, u16_at,
};

// The layout of a file with so many card groups, shop groups and claims.
pub fn layout_for(cards: usize, shops: usize, rows: usize) -> Layout
    requires { (cards ≤ max_groups) × (shops ≤ max_groups) × (rows ≤ max_rows) }
    ensures { (result ≡ layout_for cards shops rows) × Laid result }
{
    Layout {
        week: true,
        day: 0,
        cards,
        shops,
        rows,
        card_at: 2,
        shop_at: 4 + WEEK_WIDTH * cards,
        row_at: 6 + WEEK_WIDTH * (cards + shops),
    }
}

// The layout of a file that was read before and accepted, as a new one in the week layout for a day: by its three counts alone, no record
// is judged again.
pub fn layout_in(file: &[u8], day: usize) -> Layout
    requires { reading (new_week day) file.now ≡ Ok (layout_in (reading (new_week day) file.now)) }
    ensures { result ≡ layout_in (reading (new_week day) file.now) }
{
    let cards = u16_at(file, 0);
    let shops = u16_at(file, 2 + WEEK_WIDTH * cards);
    let rows = u16_at(file, 4 + WEEK_WIDTH * (cards + shops));
    on_day(layout_for(cards, shops, rows), day)
}

// How many bytes a file with this layout has.
pub fn length_of(layout: Layout) -> usize
    requires { Laid layout }
    ensures { result ≡ length_for layout.cards layout.shops layout.rows }
{
    layout.row_at + CLAIM_WIDTH * layout.rows
}

// How many bytes an accepted file would have in the week layout.
pub fn week_length(layout: Layout) -> usize
    requires { (layout.cards ≤ max_groups) × (layout.shops ≤ max_groups) × (layout.rows ≤ max_rows) }
    ensures { result ≡ length_for layout.cards layout.shops layout.rows }
{
    length_of(layout_for(layout.cards, layout.shops, layout.rows))
}

// Puts a 16-bit number at a place, low byte first.
fn put_u16(at: usize, n: usize, out: &mut [u8])
    requires { (at + 2 ≤ length out.old) × (n < 65536) }
    ensures { Put out.old out.new at (bytes_of n) }
{
    out[at] = (n % 256) as u8;
    out[at + 1] = (n / 256) as u8;
}

// Puts two 16-bit numbers, one behind the other.
fn put_pair(at: usize, first: usize, second: usize, out: &mut [u8])
    requires { (at + 4 ≤ length out.old) × (first < 65536) × (second < 65536) }
    ensures { Put out.old out.new at (bytes_of first ++ bytes_of second) }
{
    put_u16(at, first, out);
    put_u16(at + 2, second, out);
}

// Puts the three counts.
pub fn put_counts(layout: Layout, out: &mut [u8])
    requires { Room layout out.old }
    ensures { CountsPut layout out.old out.new }
{
    put_u16(layout.card_at - 2, layout.cards, out);
    put_u16(layout.shop_at - 2, layout.shops, out);
    put_u16(layout.row_at - 2, layout.rows, out);
}

// Puts the limits of a group, one behind the other.
fn put_limits(at: usize, limits: &[u16; DAYS], out: &mut [u8])
    requires { (at + 2 * days ≤ length out.old) × (length limits.now ≡ days) }
    ensures { Put out.old out.new at (records days (λ k. bytes_of (row limits.now k))) }
{
    for k in 0..DAYS {
        put_u16(at + 2 * k, usize::from(limits[k]), out);
    }
}

// Puts the record of group `g` of a side: its parent, and its limit of each day.
pub fn put_group(
    layout: Layout,
    side: usize,
    g: usize,
    parent: usize,
    limits: &[u16; DAYS],
    out: &mut [u8],
)
    requires { (Room layout out.old) × (g < count_of layout side) × (parent < 65536) × (length limits.now ≡ days) }
    ensures { Put out.old out.new (group_place layout side g) (group_bytes (week_group parent (row limits.now))) }
{
    let at = start_of(layout, side) + WEEK_WIDTH * g;
    put_u16(at, parent, out);
    put_limits(at + 2, limits, out);
}

// The record that stands at the place of group `g` of a side, with its limit of a day.
pub fn group_put(layout: Layout, day: usize, side: usize, g: usize, out: &[u8]) -> Group
    requires { (Room layout out.now) × (g < count_of layout side) × (day < days) }
    ensures { (result ≡ group_of out.now (on_day layout day) side g) × (result.parent < 65536) × (result.limit < 65536) }
{
    group_at(out, true, day, start_of(layout, side), g)
}

// Puts the record of row `c`.
pub fn put_claim(layout: Layout, c: usize, claim: Claim, out: &mut [u8])
    requires { (Room layout out.old) × (c < layout.rows) × (claim.card < 65536) × (claim.shop < 65536) }
    ensures { Put out.old out.new (claim_place layout c) (claim_bytes claim) }
{
    let at = layout.row_at + CLAIM_WIDTH * c;
    put_pair(at, claim.card, claim.shop, out);
    out[at + 4] = claim.kind;
}
