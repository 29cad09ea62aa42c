// How many claims more would fit beside a selection of an accepted file.
//
// A walk through the parents, from the group where a row hangs, lists the groups that it counts in. It takes tables of fixed length and two
// numbers, and its own call comes last, so that a compiler can make it a loop: a deep chain of groups needs no more memory than a short
// one. Each of these groups has as many places left as its limit is above its count, which crate `sides` finds. A stored file's limits are
// read as they are written: what fits these fits the lowered ones, with the same spare places.
#![tactic(auto)]

ghost use Rattle.std.specs.Prelude.{◌≡◌, ◌+◌, ◌-◌, min, ◌<◌, ◌≤◌, length};
ghost use Rattle.theory.specs.Bounds.{max_groups};
ghost use Rattle.claimfile.specs.Day.{instance_of};
ghost use Rattle.claimfile.specs.Sound.{Sound};
ghost use Rattle.sides.specs.Ready.{Ready};
ghost use Rattle.spare.specs.Chain.{Ups, Climbed, Chained};
ghost use Rattle.spare.specs.Spare.{SparesOn, Spared};

use claimfile::{Form, Layout, group_of, groups_on};
use instance::above;
use limits::enter;
use reader::FIRST_TERMS;
use refusal::Reason;
use sides::{CELLS, hangs_at, rise_on};
use theory::MAX_LIMIT;

// The group above each group of a side: its parent, or the top.
fn ups_of(file: &[u8], layout: Layout, side: usize) -> [u16; CELLS]
    requires { Sound file.now layout }
    ensures { Ups file.now layout side result }
{
    let top = groups_on(layout, side);
    let mut ups = [0u16; CELLS];
    for g in 0..top {
        let group = group_of(file, layout, side, g);
        ups[g] = above(g, group.parent, 0, top) as u16;
    }
    ups
}

// Puts group `g` and the groups above it into a list that holds `n` groups, and answers how many it then holds.
fn climb(ups: &[u16; CELLS], g: usize, n: usize, list: &mut [u16; CELLS]) -> usize
    requires { (n + g ≤ max_groups) × (max_groups < length list.old) }
    ensures { Climbed ups.now g n list.old list.new result }
{
    list[n] = g as u16;
    let up = usize::from(ups[g]);
    if g <= up {
        return n + 1;
    }
    climb(ups, up, n + 1, list)
}

// Lists the groups that row `row` counts in on a side, and answers how many they are.
fn chain_of(file: &[u8], layout: Layout, side: usize, row: usize, list: &mut [u16; CELLS]) -> usize
    requires { (Sound file.now layout) × (row < layout.rows) × (max_groups < length list.old) }
    ensures { Chained file.now layout side row list.new result }
{
    let g = hangs_at(file, layout, side, row);
    if groups_on(layout, side) <= g {
        // it hangs at the top, and counts in no group
        return 0;
    }
    let ups = ups_of(file, layout, side);
    climb(&ups, g, 0, list)
}

// How many further claims like row `row` would fit beside a selection of an accepted file: the smallest, over all groups that the row
// counts in on both sides, of limit minus rows counted, and 0 where the selection itself does not fit both sides.
pub fn spare_on(file: &[u8], layout: Layout, row: usize, selection: &[u8]) -> usize
    requires ready { Ready file.now selection.now layout }
    requires row_lt_rows { row < layout.rows }
    ensures { SparesOn (instance_of file.now layout) selection.now row result }
{
    let mut spare = MAX_LIMIT;
    'sides: for side in 0..2usize {
        let mut counts = [0u16; CELLS];
        let found = rise_on(file, layout, side, selection, &mut counts);
        if !found.fits {
            // a limit is already passed
            spare = 0;
            break 'sides;
        }
        let mut list = [0u16; CELLS];
        let groups = chain_of(file, layout, side, row, &mut list);
        for k in 0..groups {
            let g = usize::from(list[k]);
            let group = group_of(file, layout, side, g);
            spare = spare.min(group.limit - usize::from(counts[g]));
            if spare == 0 {
                break 'sides;
            }
        }
    }
    spare
}

// How many further claims like the row would fit beside a selection that does not hold it, for a file in a form.
pub fn spare_places(file: &[u8], form: Form, selection: &[u8], row: usize) -> Result<usize, Reason>
    ensures { Spared form file.now selection.now row result }
{
    let layout = enter(file, form, FIRST_TERMS, selection)?;
    if layout.rows <= row {
        return Err(Reason::Value);
    }
    if selection[row] == 1 {
        return Err(Reason::Selected);
    }
    Ok(spare_on(file, layout, row, selection))
}
