// The calls under the second terms for the till's own program, which is in C: c/claims.h declares them.
//
// They take a new file in the week layout with four kinds of claims, 0 to 3. They stand in an archive of their own, beside that of
// crate `till`, so that the calls under the first terms keep a solver that is compiled for them alone.
#![tactic(auto)]

ghost use Rattle.till_kinds.specs.Calls.{FitsAndRankKindsIs, SettleKindsIs};

use answers::{FitsAndRankAnswer, SettleKindsAnswer};
use kinds::settle_kinds;
use limits::fits_and_rank_kinds;
use numbers::{ranked_numbers, settled_kinds_numbers};

// Whether a selection fits a side (0 card, 1 shop) by the limits of a day, and its rank there. A claim of kind 1, 2 or 3 counts from
// the parent of the card group that it names upward.
#[unsafe(no_mangle)]
pub extern "C" fn claims_fits_and_rank_kinds(
    file: &[u8],
    selection: &[u8],
    side: u32,
    day: u32,
) -> FitsAndRankAnswer
    ensures { FitsAndRankKindsIs day file.now selection.now side result }
{
    ranked_numbers(fits_and_rank_kinds(file, day as usize, selection, side as usize))
}

// Settles a file by the limits of a day: leaves the best choice and the marks, and clears the scratch.
#[unsafe(no_mangle)]
pub extern "C" fn claims_settle_kinds(
    file: &[u8],
    day: u32,
    choice: &mut [u8],
    sheet: &mut [u64],
    scratch: &mut [u64],
) -> SettleKindsAnswer
    ensures { SettleKindsIs day file.now choice.old sheet.old scratch.old choice.new sheet.new scratch.new result }
{
    settled_kinds_numbers(settle_kinds(file, day as usize, choice, sheet, scratch))
}
