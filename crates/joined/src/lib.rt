// Several counters under one oven: their files settled together, as one joined file would be.
//
// `settle_joined` takes any bytes, any list of lengths and any buffers. The files are judged first (crate `members`); then the joined day is
// closed as the day of one file is, by its tables (crate `jointables`) and by counting the kept rows of each file.
#![tactic(auto)]

ghost use Rattle.std.specs.Prelude.{◌≡◌, ◌+◌, ◌<◌, ◌≤◌};
ghost use Rattle.theory.specs.Bounds.{max_groups, max_rows};
ghost use Rattle.claimfile.specs.Day.{instance_of};
ghost use Rattle.closing.specs.Settle.{SettlesOn};
ghost use Rattle.closing.specs.Close.{Settlement, ClosedBy};
ghost use Rattle.members.specs.Members.{ovened};
ghost use Rattle.joined.specs.Call.{together, JoinsAs};
ghost use Rattle.joined.specs.Close.{Joins, JoinLent, JoinCounts, TallyOf, MemberCount, CountedMember};

use claimfile::{DAYS, Layout, on_day};
use claimwriter::{layout_for, layout_in};
use closing::{Totals, marks_of, scratch_of, solve_on};
use jointables::write_joined;
use members::{Fault, Sizes, judge_files, length_at};
use refusal::Reason;
use scratch::cells::Width;
use selection::{ORDINARY, count_rows};
use tables::write::shape_of;

// How many rows the files so far have, how many of these are kept, and how many of those are earned.
#[derive(Clone, Copy)]
pub struct Tally {
    pub row: usize,
    pub earned: usize,
    pub kept: usize,
}

// Leaves the best choice of the joined day and the marks in buffers of just the needed lengths.
fn decide_joined(
    files: &[u8],
    lengths: &[u32],
    oven: usize,
    day: usize,
    layout: Layout,
    choice: &mut [u8],
    sheet: &mut [u32],
    scratch: &mut [u32],
)
    requires { JoinLent day files.now lengths.now oven layout choice.old sheet.old scratch.old }
    ensures { Settlement (instance_of (together day files.now lengths.now oven) layout) choice.new sheet.new }
{
    // with no row there is nothing to choose, and the scratch may be too short for the tables
    if layout.rows == 0 {
        u32::clear(sheet);
        return;
    }
    write_joined(files, lengths, day, shape_of(layout), oven, scratch);
    solve_on(layout, choice, sheet, scratch);
}

// The counts with the rows of an accepted file, which are those of the choice from the tally's row on.
fn count_member(file: &[u8], day: usize, tally: Tally, choice: &[u8]) -> Tally
    requires { MemberCount day file.now tally choice.now }
    ensures { CountedMember day file.now tally choice.now result }
{
    let layout = layout_in(file, day);
    let row = tally.row;
    let counts = count_rows(file, layout, ORDINARY, &choice[row..]);
    let kept = counts.kept;
    let earned = kept - counts.matched;
    Tally {
        row: row + layout.rows,
        earned: tally.earned + earned,
        kept: tally.kept + kept,
    }
}

// Counts the kept rows of the joined day, file by file.
fn count_files(files: &[u8], lengths: &[u32], day: usize, choice: &[u8]) -> Tally
    requires { JoinCounts day files.now lengths.now choice.now }
    ensures { TallyOf day files.now lengths.now choice.now result }
{
    let mut tally = Tally {
        row: 0,
        earned: 0,
        kept: 0,
    };
    let mut at = 0;
    for k in 0..lengths.len() {
        let end = at + length_at(lengths, k);
        tally = count_member(&files[at..end], day, tally, choice);
        at = end;
    }
    tally
}

// Closes the joined day in buffers of just the needed lengths.
fn close_joined(
    files: &[u8],
    lengths: &[u32],
    oven: usize,
    day: usize,
    layout: Layout,
    choice: &mut [u8],
    sheet: &mut [u32],
    scratch: &mut [u32],
) -> Totals
    requires { JoinLent day files.now lengths.now oven layout choice.old sheet.old scratch.old }
    ensures { ClosedBy (instance_of (together day files.now lengths.now oven) layout) choice.new sheet.new scratch.new result }
{
    decide_joined(files, lengths, oven, day, layout, choice, sheet, scratch);
    u32::clear(scratch);
    let tally = count_files(files, lengths, day, choice);
    let earned = tally.earned;
    let kept = tally.kept;
    let rows = layout.rows;
    Totals {
        earned,
        kept,
        total: rows * earned + kept,
    }
}

// Settles files that are all accepted and together not too large: 8 where a buffer is too short for the joined day, 12 where the week does
// not have the day, else its best choice, the marks and a cleared scratch. The layout is that of the joined file.
fn settle_ready(
    files: &[u8],
    lengths: &[u32],
    oven: usize,
    day: usize,
    layout: Layout,
    choice: &mut [u8],
    sheet: &mut [u32],
    scratch: &mut [u32],
) -> Result<Totals, Reason>
    requires { Joins day files.now lengths.now oven layout }
    ensures { SettlesOn (instance_of (together day files.now lengths.now oven) layout) day choice.old sheet.old scratch.old choice.new sheet.new scratch.new result }
{
    let rows = layout.rows;
    let marks = marks_of(layout);
    let cells = scratch_of(layout);
    if choice.len() < rows {
        return Err(Reason::Short);
    }
    if sheet.len() < marks {
        return Err(Reason::Short);
    }
    if scratch.len() < cells {
        return Err(Reason::Short);
    }
    if DAYS <= day {
        return Err(Reason::Day);
    }
    Ok(close_joined(
        files,
        lengths,
        oven,
        day,
        layout,
        &mut choice[..rows],
        &mut sheet[..marks],
        &mut scratch[..cells],
    ))
}

// The layout of the joined file, for a day.
fn layout_of(sizes: Sizes, day: usize) -> Layout
    requires { (sizes.cards ≤ max_groups) × (1 + sizes.shops ≤ max_groups) × (sizes.rows ≤ max_rows) }
    ensures { result ≡ ovened sizes day }
{
    on_day(layout_for(sizes.cards, 1 + sizes.shops, sizes.rows), day)
}

// Settles the files of up to eight counters together under an oven limit, by the limits of a day: as settle does with the joined file: what
// the joined day comes to, or why the call is turned away. The lent buffers are those that settle needs for the joined file.
pub fn settle_joined(
    files: &[u8],
    lengths: &[u32],
    oven: u16,
    day: usize,
    choice: &mut [u8],
    sheet: &mut [u32],
    scratch: &mut [u32],
) -> Result<Totals, Fault>
    ensures { JoinsAs day files.now lengths.now oven choice.old sheet.old scratch.old choice.new sheet.new scratch.new result }
{
    let sizes = judge_files(files, lengths, day)?;
    let totals = settle_ready(
        files,
        lengths,
        usize::from(oven),
        day,
        layout_of(sizes, day),
        choice,
        sheet,
        scratch,
    )?;
    Ok(totals)
}
