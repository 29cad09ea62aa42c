// The new numbers of the groups of a side.
//
// The rows are gone through from the first to the last. The group that a row names and those above it get the next numbers where
// they have none yet: one walk up counts them, and a second gives the last of these numbers to the group itself, the one before
// to its parent, and so on. So a parent comes before its child. A group that gets no number has no claim in it or beneath it.
// The cost is rows + groups.
// The table has a cell for each group. A number below 256 is the group's new number. A group without one has in its cell where to
// go on from it: 256 + its parent, or 65535 at the top. So a walk takes a table of fixed length and numbers only, and its own
// call comes last, so that a compiler can make it a loop: a deep chain of groups needs no more memory than a short one.
#![tactic(auto)]

ghost use Rattle.std.specs.Prelude.{◌≡◌, ◌+◌, ◌<◌, length};
ghost use Rattle.theory.specs.Bounds.{max_groups};
ghost use Rattle.claimfile.specs.Day.{count_of};
ghost use Rattle.claimfile.specs.Sound.{Sound};
ghost use Rattle.renumber.specs.Canonical.{named, side_of};
ghost use Rattle.renumber.specs.Numbers.{way_from, Rowed, Numbers, Unnumbered, Climbs, NumberedUp};

use claimfile::{Layout, TOP, claim_of, group_of, groups_on};
use theory::MAX_GROUPS;

// The cell of group `g` while it has no number.
fn way_from(file: &[u8], layout: Layout, side: usize, g: usize) -> u16
    requires { (Sound file.now layout) × (g < count_of layout side) }
    ensures { result ≡ way_from (side_of file.now layout side) g }
{
    let group = group_of(file, layout, side, g);
    if group.parent < g {
        return (MAX_GROUPS + group.parent) as u16;
    }
    TOP as u16
}

// Puts into the cell of each group of a side where to go on from it: none has a number.
fn put_ways(file: &[u8], layout: Layout, side: usize, cells: &mut [u16; MAX_GROUPS])
    requires sound { Sound file.now layout }
    requires cells_len { length cells.old ≡ max_groups }
    ensures { Rowed (side_of file.now layout side) 0 cells.new 0 }
{
    for g in 0..groups_on(layout, side) {
        cells[g] = way_from(file, layout, side, g);
    }
}

// The group that row `c` names on a side.
fn named_on(file: &[u8], layout: Layout, side: usize, c: usize) -> usize
    requires { (Sound file.now layout) × (c < layout.rows) }
    ensures { (result ≡ named file.now layout side c) × (result < max_groups) }
{
    let claim = claim_of(file, layout, c);
    if side == 0 {
        return claim.card;
    }
    claim.shop
}

// `n` plus how many of group `g` and those above it have no number. Where a group has one, all above it have one.
fn unnumbered(cells: &[u16; MAX_GROUPS], g: usize, n: usize) -> usize
    requires { (g < max_groups) × (n + g < max_groups + max_groups) }
    ensures { Unnumbered cells.now g n result }
{
    let cell = usize::from(cells[g]);
    if cell < MAX_GROUPS {
        return n;
    }
    let up = cell - MAX_GROUPS;
    if g <= up {
        return n + 1;
    }
    unnumbered(cells, up, n + 1)
}

// Gives numbers to group `g` and to those above it that have none: `end - 1` to `g`, the one before to its parent, and so on.
fn number_up(cells: &mut [u16; MAX_GROUPS], g: usize, end: usize)
    requires { Climbs cells.old g end }
    ensures { NumberedUp cells.old cells.new g end }
{
    let cell = usize::from(cells[g]);
    if cell < MAX_GROUPS {
        return;
    }
    let last = end - 1;
    cells[g] = last as u16;
    let up = cell - MAX_GROUPS;
    if g <= up {
        return;
    }
    number_up(cells, up, last)
}

// Gives numbers from `next` on to the groups that row `c` counts in and that have none. Answers the one after the last given.
fn number_row(
    file: &[u8],
    layout: Layout,
    side: usize,
    c: usize,
    next: usize,
    cells: &mut [u16; MAX_GROUPS],
) -> usize
    requires sound { (Sound file.now layout) × (c < layout.rows) }
    requires rowed { Rowed (side_of file.now layout side) c cells.old next }
    ensures { Rowed (side_of file.now layout side) (c + 1) cells.new result }
{
    let g = named_on(file, layout, side, c);
    let end = unnumbered(cells, g, next);
    number_up(cells, g, end);
    end
}

// Gives numbers to the groups of a side, row by row. Answers how many have one.
fn number_rows(file: &[u8], layout: Layout, side: usize, cells: &mut [u16; MAX_GROUPS]) -> usize
    requires sound { Sound file.now layout }
    requires rowed { Rowed (side_of file.now layout side) 0 cells.old 0 }
    ensures { Numbers (side_of file.now layout side) cells.new result }
{
    let mut next = 0;
    for c in 0..layout.rows {
        next = number_row(file, layout, side, c, next, cells);
    }
    next
}

// Numbers the groups of a side, whatever the cells hold, and answers how many have a number.
pub fn number_side(file: &[u8], layout: Layout, side: usize, cells: &mut [u16; MAX_GROUPS]) -> usize
    requires { (Sound file.now layout) × (length cells.old ≡ max_groups) }
    ensures { Numbers (side_of file.now layout side) cells.new result }
{
    put_ways(file, layout, side, cells);
    number_rows(file, layout, side, cells)
}
