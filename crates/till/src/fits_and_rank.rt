// The calls that tell whether a selection fits a side, and its rank there.
ghost use Rattle.claimfile.specs.File.{new_week, stored_week, new_old, stored_old};
ghost use Rattle.till.specs.Calls.{FitsAndRankIs};

use super::{new_old, new_week, stored_old, stored_week};
use answers::FitsAndRankAnswer;
use limits::fits_and_rank;
use numbers::ranked_numbers;

// Whether a selection fits a side (0 card, 1 shop) by the limits of a day, and its rank there.
#[unsafe(no_mangle)]
pub extern "C" fn claims_fits_and_rank(
    file: &[u8],
    selection: &[u8],
    side: u32,
    day: u32,
) -> FitsAndRankAnswer
    ensures { FitsAndRankIs (new_week day) file.now selection.now side result }
{
    ranked_numbers(fits_and_rank(file, new_week(day), selection, side as usize))
}

// The same for a stored file.
#[unsafe(no_mangle)]
pub extern "C" fn claims_fits_and_rank_stored(
    file: &[u8],
    selection: &[u8],
    side: u32,
    day: u32,
) -> FitsAndRankAnswer
    ensures { FitsAndRankIs (stored_week day) file.now selection.now side result }
{
    ranked_numbers(fits_and_rank(file, stored_week(day), selection, side as usize))
}

// The same for a file in the old layout.
#[unsafe(no_mangle)]
pub extern "C" fn claims_fits_and_rank_old(
    file: &[u8],
    selection: &[u8],
    side: u32,
    day: u32,
) -> FitsAndRankAnswer
    ensures { FitsAndRankIs (new_old day) file.now selection.now side result }
{
    ranked_numbers(fits_and_rank(file, new_old(day), selection, side as usize))
}

// The same for a stored file in the old layout.
#[unsafe(no_mangle)]
pub extern "C" fn claims_fits_and_rank_old_stored(
    file: &[u8],
    selection: &[u8],
    side: u32,
    day: u32,
) -> FitsAndRankAnswer
    ensures { FitsAndRankIs (stored_old day) file.now selection.now side result }
{
    ranked_numbers(fits_and_rank(file, stored_old(day), selection, side as usize))
}
