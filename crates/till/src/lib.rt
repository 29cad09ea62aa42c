// The calls for the till's own program, which is in C: c/claims.h declares them. Each call has a file of its own, and the calls on a tally
// have one together.
//
// A slice is passed as a pointer and a length, and a tally as a pointer. Each call on a file answers a struct of numbers by value; accept
// and the calls on a tally answer one number, except that a count is answered in a struct. Only settle, the slip, the canonical form, the
// codes, and the calls that begin a tally, put a row in and take a row out change lent memory. A call takes a new file in the week layout;
// of the three beside it the one with `_stored` in its name takes a stored file, the one with `_old` a file in the old layout, and the one
// with both a stored file in the old layout. For each of the four sorts a function here makes the form, and an export is one line that gives
// the form to the call and makes the answer's numbers, and three where a row is put into a tally or taken out of it. All take their files
// under the first terms; crate `till_kinds` has the calls for the second.
#![tactic(auto)]

ghost use Rattle.std.specs.Prelude.{◌≡◌};
ghost use Rattle.claimfile.specs.File.{new_week, stored_week, new_old, stored_old};
ghost use Rattle.till.specs.Version.{version};

use claimfile::Form;

mod accept_closing;
mod fits_and_rank;
mod settle;
mod settle_joined;
mod spare_places;
mod tallies;
mod write_canonical;
mod write_codes;
mod write_slip;

// Which library this is. It rises by one with each change of a call, a needed length or an answer.
pub const VERSION: u32 = 13;

// The version, for a box to be asked.
#[unsafe(no_mangle)]
pub extern "C" fn claims_version() -> u32
    ensures { result ≡ version }
{
    VERSION
}

// stays: the C interface: each call on a file has four exports that differ in the form alone.
//
// The form of a new file in the week layout.
fn new_week(day: u32) -> Form
    ensures { result ≡ new_week day }
{
    Form {
        week: true,
        stored: false,
        day: day as usize,
    }
}

// The form of a stored file.
fn stored_week(day: u32) -> Form
    ensures { result ≡ stored_week day }
{
    Form {
        stored: true,
        ..new_week(day)
    }
}

// The form of a file in the old layout.
fn new_old(day: u32) -> Form
    ensures { result ≡ new_old day }
{
    Form {
        week: false,
        ..new_week(day)
    }
}

// The form of a stored file in the old layout.
fn stored_old(day: u32) -> Form
    ensures { result ≡ stored_old day }
{
    Form {
        stored: true,
        ..new_old(day)
    }
}
