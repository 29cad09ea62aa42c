// Settling a claim file under the second terms: there are four kinds, 0 to 3, and a row weighs N + 1 to the power of its kind. Sheet and
// scratch are of 64-bit cells.
//
// `settle_kinds` takes any bytes, as a new file in the week layout, and any buffers. `settle_kinds_on` does the same for a file that is
// accepted with a known layout.
#![tactic(auto)]

ghost use Rattle.std.specs.Prelude.{◌≡◌, ◌+◌, ◌*◌, ◌^◌, ◌≤◌, ◌<◌};
ghost use Rattle.theory.specs.Bounds.{max_rows};
ghost use Rattle.claimfile.specs.File.{second_terms};
ghost use Rattle.claimfile.specs.Day.{instance_of};
ghost use Rattle.claimfile.specs.Sound.{Sound, Kinds};
ghost use Rattle.scratch.specs.Memory.{lows};
ghost use Rattle.closing.specs.Close.{Countable, Lent, SettlementIn, CountedIn, ClosedIn};
ghost use Rattle.kinds.specs.Settle.{count_of, SettlesKindsOn, SettlesKinds};

use claimfile::{DAYS, Layout};
use closing::{marks_of, scratch_of};
use instance::power;
use reader::read_kinds;
use refusal::Reason;
use scratch::cells::{CELL_BOUND, Width};
use selection::kept_of_kind;
use solver::solve;
use tables::write::{shape_of_kinds, write_tables};

// How many rows of each kind are kept, how many in all, and the sheet's total.
#[derive(Clone, Copy)]
pub struct KindTotals {
    pub kind0: usize,
    pub kind1: usize,
    pub kind2: usize,
    pub kind3: usize,
    pub kept: usize,
    pub total: usize,
}

// What so many rows of each kind weigh, where there are so many rows.
fn weigh(rows: usize, kind0: usize, kind1: usize, kind2: usize, kind3: usize) -> usize
    requires { (rows ≤ max_rows) × (kind0 ≤ max_rows) × (kind1 ≤ max_rows) × (kind2 ≤ max_rows) × (kind3 ≤ max_rows) }
    ensures { result ≡ kind0 + kind1 * (rows + 1) ^ 1 + kind2 * (rows + 1) ^ 2 + kind3 * (rows + 1) ^ 3 }
{
    kind0 + kind1 * power(rows, 1) + kind2 * power(rows, 2) + kind3 * power(rows, 3)
}

// What the choice comes to.
fn count_kinds(file: &[u8], layout: Layout, choice: &[u8]) -> KindTotals
    requires { Countable second_terms file.now layout choice.now }
    ensures { CountedIn second_terms (instance_of file.now layout) choice.now (count_of result) result.kept result.total }
{
    let kind0 = kept_of_kind(file, layout, 0, choice);
    let kind1 = kept_of_kind(file, layout, 1, choice);
    let kind2 = kept_of_kind(file, layout, 2, choice);
    let kind3 = kept_of_kind(file, layout, 3, choice);
    KindTotals {
        kind0,
        kind1,
        kind2,
        kind3,
        kept: kind0 + kind1 + kind2 + kind3,
        total: weigh(layout.rows, kind0, kind1, kind2, kind3),
    }
}

// Of each cell the low half stays.
fn keep_low(cells: &mut [u64])
    ensures { cells.new ≡ lows cells.old }
{
    for i in 0..cells.len() {
        cells[i] %= CELL_BOUND;
    }
}

// Leaves the best choice and the marks in buffers of just the needed lengths. The solver counts the low halves of the cells alone; in the end
// each mark is its whole cell.
fn decide_kinds(
    file: &[u8],
    layout: Layout,
    choice: &mut [u8],
    sheet: &mut [u64],
    scratch: &mut [u64],
)
    requires { Lent second_terms file.now layout choice.old sheet.old scratch.old }
    ensures { SettlementIn second_terms ((layout.rows + 1) ^ 3) (instance_of file.now layout) choice.new sheet.new }
{
    // with no row there is nothing to choose, and the scratch may be too short for the tables
    if layout.rows == 0 {
        u64::clear(sheet);
        return;
    }
    let sh = shape_of_kinds(layout);
    write_tables(file, layout, sh, scratch);
    solve(sh, choice, sheet, scratch);
    keep_low(sheet);
}

// Closes an accepted file in buffers of just the needed lengths.
fn close_kinds(
    file: &[u8],
    layout: Layout,
    choice: &mut [u8],
    sheet: &mut [u64],
    scratch: &mut [u64],
) -> KindTotals
    requires { Lent second_terms file.now layout choice.old sheet.old scratch.old }
    ensures { ClosedIn second_terms (instance_of file.now layout) choice.new sheet.new scratch.new (count_of result) result.kept result.total }
{
    decide_kinds(file, layout, choice, sheet, scratch);
    u64::clear(scratch);
    count_kinds(file, layout, choice)
}

// Settles an accepted file: 8 where a buffer is too short, 12 where the week does not have the day, else the best choice, the marks and a
// cleared scratch.
pub fn settle_kinds_on(
    file: &[u8],
    layout: Layout,
    choice: &mut [u8],
    sheet: &mut [u64],
    scratch: &mut [u64],
) -> Result<KindTotals, Reason>
    requires { (Sound file.now layout) × (Kinds second_terms file.now layout) }
    ensures { SettlesKindsOn (instance_of file.now layout) layout.day choice.old sheet.old scratch.old choice.new sheet.new scratch.new result }
{
    let rows = layout.rows;
    let marks = marks_of(layout);
    let cells = scratch_of(layout);
    if choice.len() < rows {
        return Err(Reason::Short);
    }
    if sheet.len() < marks {
        return Err(Reason::Short);
    }
    if scratch.len() < cells {
        return Err(Reason::Short);
    }
    if DAYS <= layout.day {
        return Err(Reason::Day);
    }
    Ok(close_kinds(
        file,
        layout,
        &mut choice[..rows],
        &mut sheet[..marks],
        &mut scratch[..cells],
    ))
}

// Settles a new file in the week layout under the second terms, for a day. The lent buffers have the lengths of
// those of `settle`, and sheet and scratch hold numbers of 64 bits.
pub fn settle_kinds(
    file: &[u8],
    day: usize,
    choice: &mut [u8],
    sheet: &mut [u64],
    scratch: &mut [u64],
) -> Result<KindTotals, Reason>
    ensures { SettlesKinds day file.now choice.old sheet.old scratch.old choice.new sheet.new scratch.new result }
{
    let layout = read_kinds(file, day)?;
    settle_kinds_on(file, layout, choice, sheet, scratch)
}
