// The calls that write the slip for the counter.
ghost use Rattle.claimfile.specs.File.{new_week, stored_week, new_old, stored_old};
ghost use Rattle.slip.specs.Write.{outcome};
ghost use Rattle.till.specs.Calls.{WriteIs};

use super::{new_old, new_week, stored_old, stored_week};
use answers::WriteAnswer;
use numbers::written_numbers;
use slip::write_slip;

// Writes the slip of the rows that a selection keeps.
#[unsafe(no_mangle)]
pub extern "C" fn claims_write_slip(
    file: &[u8],
    selection: &[u8],
    day: u32,
    slip: &mut [u8],
) -> WriteAnswer
    ensures { WriteIs (outcome (new_week day) file.now selection.now slip.old) slip.new result }
{
    written_numbers(write_slip(file, new_week(day), selection, slip))
}

// The same for a stored file.
#[unsafe(no_mangle)]
pub extern "C" fn claims_write_slip_stored(
    file: &[u8],
    selection: &[u8],
    day: u32,
    slip: &mut [u8],
) -> WriteAnswer
    ensures { WriteIs (outcome (stored_week day) file.now selection.now slip.old) slip.new result }
{
    written_numbers(write_slip(file, stored_week(day), selection, slip))
}

// The same for a file in the old layout.
#[unsafe(no_mangle)]
pub extern "C" fn claims_write_slip_old(
    file: &[u8],
    selection: &[u8],
    day: u32,
    slip: &mut [u8],
) -> WriteAnswer
    ensures { WriteIs (outcome (new_old day) file.now selection.now slip.old) slip.new result }
{
    written_numbers(write_slip(file, new_old(day), selection, slip))
}

// The same for a stored file in the old layout.
#[unsafe(no_mangle)]
pub extern "C" fn claims_write_slip_old_stored(
    file: &[u8],
    selection: &[u8],
    day: u32,
    slip: &mut [u8],
) -> WriteAnswer
    ensures { WriteIs (outcome (stored_old day) file.now selection.now slip.old) slip.new result }
{
    written_numbers(write_slip(file, stored_old(day), selection, slip))
}
