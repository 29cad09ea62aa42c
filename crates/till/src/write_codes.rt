// The calls that tell what holds each earned row.
ghost use Rattle.claimfile.specs.File.{new_week, stored_week, new_old, stored_old};
ghost use Rattle.till.specs.Calls.{CodesAre};

use super::{new_old, new_week, stored_old, stored_week};
use answers::WriteAnswer;
use codes::write_codes;
use numbers::written_numbers;

// Writes the code of each row, which tells what holds an earned row by the limits of a day, and clears the scratch.
#[unsafe(no_mangle)]
pub extern "C" fn claims_write_codes(
    file: &[u8],
    day: u32,
    codes: &mut [u8],
    scratch: &mut [u32],
) -> WriteAnswer
    ensures { CodesAre (new_week day) file.now codes.old scratch.old codes.new scratch.new result }
{
    written_numbers(write_codes(file, new_week(day), codes, scratch))
}

// The same for a stored file.
#[unsafe(no_mangle)]
pub extern "C" fn claims_write_codes_stored(
    file: &[u8],
    day: u32,
    codes: &mut [u8],
    scratch: &mut [u32],
) -> WriteAnswer
    ensures { CodesAre (stored_week day) file.now codes.old scratch.old codes.new scratch.new result }
{
    written_numbers(write_codes(file, stored_week(day), codes, scratch))
}

// The same for a file in the old layout.
#[unsafe(no_mangle)]
pub extern "C" fn claims_write_codes_old(
    file: &[u8],
    day: u32,
    codes: &mut [u8],
    scratch: &mut [u32],
) -> WriteAnswer
    ensures { CodesAre (new_old day) file.now codes.old scratch.old codes.new scratch.new result }
{
    written_numbers(write_codes(file, new_old(day), codes, scratch))
}

// The same for a stored file in the old layout.
#[unsafe(no_mangle)]
pub extern "C" fn claims_write_codes_old_stored(
    file: &[u8],
    day: u32,
    codes: &mut [u8],
    scratch: &mut [u32],
) -> WriteAnswer
    ensures { CodesAre (stored_old day) file.now codes.old scratch.old codes.new scratch.new result }
{
    written_numbers(write_codes(file, stored_old(day), codes, scratch))
}
