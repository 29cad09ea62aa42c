// The calls that write the canonical form. They name no day, and the day of a form plays no part in it.
ghost use Rattle.claimfile.specs.File.{new_week, stored_week, new_old, stored_old};
ghost use Rattle.canonical.specs.Write.{outcome};
ghost use Rattle.till.specs.Calls.{WriteIs};

use super::{new_old, new_week, stored_old, stored_week};
use answers::WriteAnswer;
use canonical::write_canonical;
use numbers::written_numbers;

// Writes the canonical form of a file, in the week layout.
#[unsafe(no_mangle)]
pub extern "C" fn claims_write_canonical(file: &[u8], canonical: &mut [u8]) -> WriteAnswer
    ensures { WriteIs (outcome (new_week 0) file.now canonical.old) canonical.new result }
{
    written_numbers(write_canonical(file, new_week(0), canonical))
}

// The same for a stored file: its limits are written as lowered.
#[unsafe(no_mangle)]
pub extern "C" fn claims_write_canonical_stored(file: &[u8], canonical: &mut [u8]) -> WriteAnswer
    ensures { WriteIs (outcome (stored_week 0) file.now canonical.old) canonical.new result }
{
    written_numbers(write_canonical(file, stored_week(0), canonical))
}

// The same for a file in the old layout.
#[unsafe(no_mangle)]
pub extern "C" fn claims_write_canonical_old(file: &[u8], canonical: &mut [u8]) -> WriteAnswer
    ensures { WriteIs (outcome (new_old 0) file.now canonical.old) canonical.new result }
{
    written_numbers(write_canonical(file, new_old(0), canonical))
}

// The same for a stored file in the old layout: its limits are written as lowered.
#[unsafe(no_mangle)]
pub extern "C" fn claims_write_canonical_old_stored(
    file: &[u8],
    canonical: &mut [u8],
) -> WriteAnswer
    ensures { WriteIs (outcome (stored_old 0) file.now canonical.old) canonical.new result }
{
    written_numbers(write_canonical(file, stored_old(0), canonical))
}
