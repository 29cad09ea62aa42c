// The calls that settle a file.
ghost use Rattle.claimfile.specs.File.{new_week, stored_week, new_old, stored_old};
ghost use Rattle.till.specs.Calls.{SettleIs};

use super::{new_old, new_week, stored_old, stored_week};
use answers::SettleAnswer;
use closing::settle;
use numbers::settled_numbers;

// Settles a file by the limits of a day: leaves the best choice and the marks, and clears the scratch.
#[unsafe(no_mangle)]
pub extern "C" fn claims_settle(
    file: &[u8],
    day: u32,
    choice: &mut [u8],
    sheet: &mut [u32],
    scratch: &mut [u32],
) -> SettleAnswer
    ensures { SettleIs (new_week day) file.now choice.old sheet.old scratch.old choice.new sheet.new scratch.new result }
{
    settled_numbers(settle(file, new_week(day), choice, sheet, scratch))
}

// The same for a stored file.
#[unsafe(no_mangle)]
pub extern "C" fn claims_settle_stored(
    file: &[u8],
    day: u32,
    choice: &mut [u8],
    sheet: &mut [u32],
    scratch: &mut [u32],
) -> SettleAnswer
    ensures { SettleIs (stored_week day) file.now choice.old sheet.old scratch.old choice.new sheet.new scratch.new result }
{
    settled_numbers(settle(file, stored_week(day), choice, sheet, scratch))
}

// The same for a file in the old layout.
#[unsafe(no_mangle)]
pub extern "C" fn claims_settle_old(
    file: &[u8],
    day: u32,
    choice: &mut [u8],
    sheet: &mut [u32],
    scratch: &mut [u32],
) -> SettleAnswer
    ensures { SettleIs (new_old day) file.now choice.old sheet.old scratch.old choice.new sheet.new scratch.new result }
{
    settled_numbers(settle(file, new_old(day), choice, sheet, scratch))
}

// The same for a stored file in the old layout.
#[unsafe(no_mangle)]
pub extern "C" fn claims_settle_old_stored(
    file: &[u8],
    day: u32,
    choice: &mut [u8],
    sheet: &mut [u32],
    scratch: &mut [u32],
) -> SettleAnswer
    ensures { SettleIs (stored_old day) file.now choice.old sheet.old scratch.old choice.new sheet.new scratch.new result }
{
    settled_numbers(settle(file, stored_old(day), choice, sheet, scratch))
}
