// Which lists of rows fit the limits of a side, and what their ranks are.
//
// A selection is one byte a row, 1 where the row is in it; bytes past the last row are not read. The file is read and the selection judged
// here (`enter`); whether it fits a side, and its rank there, crate `sides` tells.
#![tactic(auto)]

ghost use Rattle.std.specs.Prelude.{◌≡◌, Ok};
ghost use Rattle.limits.specs.Answers.{entered_by, entered_in, AnsweredIn, Answered, AnsweredKinds};

use claimfile::{DAYS, Form, Layout};
use reader::{FIRST_TERMS, SECOND_TERMS, read_in};
use refusal::Reason;
use selection::all_bits;
use sides::{Found, rank_on};

// Judges a selection of the rows of an accepted file.
fn judge(layout: Layout, selection: &[u8]) -> Result<Layout, Reason>
    ensures { result ≡ entered_by selection.now (Ok layout) }
{
    let rows = layout.rows;
    if selection.len() < rows {
        return Err(Reason::Short);
    }
    if DAYS <= layout.day {
        return Err(Reason::Day);
    }
    if all_bits(selection, rows) {
        return Ok(layout);
    }
    Err(Reason::Value)
}

// Reads a file whose claims have so many kinds and judges a selection of its rows: the file's layout, or why the call is turned away.
pub fn enter(file: &[u8], form: Form, kinds: u8, selection: &[u8]) -> Result<Layout, Reason>
    ensures { result ≡ entered_in kinds form file.now selection.now }
{
    let layout = read_in(file, form, kinds)?;
    judge(layout, selection)
}

// Whether a selection fits a side (0 card, 1 shop), and its rank there, for a file in a form whose claims have so many kinds.
fn rank_in(
    file: &[u8],
    form: Form,
    kinds: u8,
    selection: &[u8],
    side: usize,
) -> Result<Found, Reason>
    ensures { AnsweredIn kinds form file.now selection.now side result }
{
    let layout = enter(file, form, kinds, selection)?;
    if 1 < side {
        return Err(Reason::Value);
    }
    Ok(rank_on(file, layout, side, selection))
}

// Whether a selection fits a side, and its rank there, under the first terms.
pub fn fits_and_rank(
    file: &[u8],
    form: Form,
    selection: &[u8],
    side: usize,
) -> Result<Found, Reason>
    ensures { Answered form file.now selection.now side result }
{
    rank_in(file, form, FIRST_TERMS, selection, side)
}

// The same under the second terms, for a new file in the week layout and a day.
pub fn fits_and_rank_kinds(
    file: &[u8],
    day: usize,
    selection: &[u8],
    side: usize,
) -> Result<Found, Reason>
    ensures { AnsweredKinds day file.now selection.now side result }
{
    let form = Form {
        week: true,
        stored: false,
        day,
    };
    rank_in(file, form, SECOND_TERMS, selection, side)
}
