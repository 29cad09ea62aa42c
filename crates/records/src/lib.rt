// The record of a group in the canonical file: its parent in the new numbers, its limits lowered on each day, put at the place of its
// number.
//
// A parent's record is put before its child's, so each limit is lowered to the one that stands there for the same day; in a new file it is
// nowhere above that one. The memory beside the lent buffer is a week's limits.
#![tactic(auto)]

ghost use Rattle.std.specs.Prelude.{◌≡◌, ◌+◌, ◌<◌};
ghost use Rattle.theory.specs.Bounds.{max_groups};
ghost use Rattle.claimfile.specs.File.{days};
ghost use Rattle.claimfile.specs.Day.{count_of};
ghost use Rattle.claimwriter.specs.Put.{Room};
ghost use Rattle.records.specs.Records.{parent_for, limit_for, LimitsTo, Numbered, PutTo, Given, Ready};

use claimfile::{DAYS, Layout, TOP, group_of, groups_on, on_day};
use claimwriter::{group_put, put_group};
use instance::lesser;
use theory::MAX_GROUPS;

// The parent of group `g` in the new numbers, by the one in its record: a group at the top stays there.
fn parent_for(g: usize, parent: usize, cells: &[u16; MAX_GROUPS]) -> usize
    requires { g < max_groups }
    ensures { (result ≡ parent_for cells.now g parent) × (result < 65536) }
{
    if g <= parent {
        return TOP;
    }
    usize::from(cells[parent])
}

// The limit of a day of a group with the parent `parent` in the new numbers, by the one in its record: no more than the limit that was
// put for that parent and day. At the top it stays.
fn limit_for(new: Layout, day: usize, side: usize, parent: usize, limit: usize, out: &[u8]) -> usize
    requires { (Room new out.now) × (limit < 65536) × (day < days) }
    ensures { (result ≡ limit_for out.now new day side parent limit) × (result < 65536) }
{
    if groups_on(new, side) <= parent {
        return limit;
    }
    let above = group_put(new, day, side, parent, out);
    lesser(limit, above.limit)
}

// The limits of group `g` in the canonical file, where `g` has a new number and the parent `parent` there, and the groups before it are
// put.
fn limits_for(
    file: &[u8],
    layout: Layout,
    new: Layout,
    side: usize,
    g: usize,
    parent: usize,
    out: &[u8],
) -> [u16; DAYS]
    requires { (Given file.now layout new out.now) × (g < count_of layout side) }
    ensures { LimitsTo file.now layout new side g parent out.now days result }
{
    let mut limits = [0u16; DAYS];
    for day in 0..DAYS {
        let group = group_of(file, on_day(layout, day), side, g);
        limits[day] = limit_for(new, day, side, parent, group.limit, out) as u16;
    }
    limits
}

// Puts the record of group `g` at the place of its new number, where it has one.
pub fn put_record(
    file: &[u8],
    layout: Layout,
    new: Layout,
    side: usize,
    g: usize,
    cells: &[u16; MAX_GROUPS],
    out: &mut [u8],
)
    requires ready { (Ready file.now layout new side g 0 out.old) × (g < count_of layout side) }
    requires numbered { Numbered file.now layout new side cells.now }
    ensures { PutTo file.now layout side (g + 1) 0 out.old out.new }
{
    let number = usize::from(cells[g]);
    if MAX_GROUPS <= number {
        return;
    }
    let group = group_of(file, layout, side, g);
    let parent = parent_for(g, group.parent, cells);
    let limits = limits_for(file, layout, new, side, g, parent, out);
    put_group(new, side, number, parent, &limits, out);
}
