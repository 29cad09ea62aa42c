// The calls that tell how many further claims like a row would fit.
ghost use Rattle.claimfile.specs.File.{new_week, stored_week, new_old, stored_old};
ghost use Rattle.till.specs.Calls.{SparePlacesIs};

use super::{new_old, new_week, stored_old, stored_week};
use answers::SparePlacesAnswer;
use numbers::spare_numbers;
use spare::spare_places;

// How many further claims like the row would fit beside a selection that does not hold it, by the limits of a day.
#[unsafe(no_mangle)]
pub extern "C" fn claims_spare_places(
    file: &[u8],
    selection: &[u8],
    row: u32,
    day: u32,
) -> SparePlacesAnswer
    ensures { SparePlacesIs (new_week day) file.now selection.now row result }
{
    spare_numbers(spare_places(file, new_week(day), selection, row as usize))
}

// The same for a stored file.
#[unsafe(no_mangle)]
pub extern "C" fn claims_spare_places_stored(
    file: &[u8],
    selection: &[u8],
    row: u32,
    day: u32,
) -> SparePlacesAnswer
    ensures { SparePlacesIs (stored_week day) file.now selection.now row result }
{
    spare_numbers(spare_places(file, stored_week(day), selection, row as usize))
}

// The same for a file in the old layout.
#[unsafe(no_mangle)]
pub extern "C" fn claims_spare_places_old(
    file: &[u8],
    selection: &[u8],
    row: u32,
    day: u32,
) -> SparePlacesAnswer
    ensures { SparePlacesIs (new_old day) file.now selection.now row result }
{
    spare_numbers(spare_places(file, new_old(day), selection, row as usize))
}

// The same for a stored file in the old layout.
#[unsafe(no_mangle)]
pub extern "C" fn claims_spare_places_old_stored(
    file: &[u8],
    selection: &[u8],
    row: u32,
    day: u32,
) -> SparePlacesAnswer
    ensures { SparePlacesIs (stored_old day) file.now selection.now row result }
{
    spare_numbers(spare_places(file, stored_old(day), selection, row as usize))
}
