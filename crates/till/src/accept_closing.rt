// The calls that judge a closing.
ghost use Rattle.claimfile.specs.File.{new_week, stored_week, new_old, stored_old};
ghost use Rattle.till.specs.Calls.{AcceptIs};

use super::{new_old, new_week, stored_old, stored_week};
use accept::accept;
use refusal::outcome_number;

// Whether head office accepts a closing: the choice and the sheet that were sent with a file, however they were made. It answers the
// number of the refusal, or 0 where the closing is accepted.
#[unsafe(no_mangle)]
pub extern "C" fn claims_accept(file: &[u8], choice: &[u8], sheet: &[u32], day: u32) -> u32
    ensures { AcceptIs (new_week day) file.now choice.now sheet.now result }
{
    outcome_number(accept(file, new_week(day), choice, sheet))
}

// The same for a stored file.
#[unsafe(no_mangle)]
pub extern "C" fn claims_accept_stored(file: &[u8], choice: &[u8], sheet: &[u32], day: u32) -> u32
    ensures { AcceptIs (stored_week day) file.now choice.now sheet.now result }
{
    outcome_number(accept(file, stored_week(day), choice, sheet))
}

// The same for a file in the old layout.
#[unsafe(no_mangle)]
pub extern "C" fn claims_accept_old(file: &[u8], choice: &[u8], sheet: &[u32], day: u32) -> u32
    ensures { AcceptIs (new_old day) file.now choice.now sheet.now result }
{
    outcome_number(accept(file, new_old(day), choice, sheet))
}

// The same for a stored file in the old layout.
#[unsafe(no_mangle)]
pub extern "C" fn claims_accept_old_stored(
    file: &[u8],
    choice: &[u8],
    sheet: &[u32],
    day: u32,
) -> u32
    ensures { AcceptIs (stored_old day) file.now choice.now sheet.now result }
{
    outcome_number(accept(file, stored_old(day), choice, sheet))
}
