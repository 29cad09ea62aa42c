// The calls on a tally, which is lent to each of them.
//
// These calls are thin. Where a row is put in or taken out, the state goes to a method by value and comes back, and for a count it goes to
// one; the tables are lent by themselves, so that no call copies them. A beginning is lent both. A refused call changes nothing, except that
// a refused beginning leaves a tally without rows or groups.
ghost use Rattle.claimfile.specs.File.{new_week, stored_week, new_old, stored_old};
ghost use Rattle.tally.specs.Tally.{PutIn, TakenOut, CountRead};
ghost use Rattle.tallytables.specs.Begin.{Started};

use super::{new_old, new_week, stored_old, stored_week};
use answers::TallyCountAnswer;
use refusal::outcome_number;
use tally::Tally;
use tallytables::begin_tally;

// Begins a tally from a file and a day, whatever the memory held: no row is in, or it has no rows and no groups and the number says why.
#[unsafe(no_mangle)]
pub extern "C" fn claims_tally_begin(file: &[u8], day: u32, tally: &mut Tally) -> u32
    ensures { Started (new_week day) file.now result tally.new }
{
    outcome_number(begin_tally(file, new_week(day), &mut tally.tables, &mut tally.state))
}

// The same for a stored file.
#[unsafe(no_mangle)]
pub extern "C" fn claims_tally_begin_stored(file: &[u8], day: u32, tally: &mut Tally) -> u32
    ensures { Started (stored_week day) file.now result tally.new }
{
    outcome_number(begin_tally(file, stored_week(day), &mut tally.tables, &mut tally.state))
}

// The same for a file in the old layout.
#[unsafe(no_mangle)]
pub extern "C" fn claims_tally_begin_old(file: &[u8], day: u32, tally: &mut Tally) -> u32
    ensures { Started (new_old day) file.now result tally.new }
{
    outcome_number(begin_tally(file, new_old(day), &mut tally.tables, &mut tally.state))
}

// The same for a stored file in the old layout.
#[unsafe(no_mangle)]
pub extern "C" fn claims_tally_begin_old_stored(file: &[u8], day: u32, tally: &mut Tally) -> u32
    ensures { Started (stored_old day) file.now result tally.new }
{
    outcome_number(begin_tally(file, stored_old(day), &mut tally.tables, &mut tally.state))
}

// Puts a row in.
#[unsafe(no_mangle)]
pub extern "C" fn claims_tally_put_in(tally: &mut Tally, row: u32) -> u32
    ensures { PutIn tally.old row result tally.new }
{
    let placed = tally.state.put_in(&tally.tables, row);
    tally.state = placed.state;
    placed.number
}

// Takes a row out.
#[unsafe(no_mangle)]
pub extern "C" fn claims_tally_take_out(tally: &mut Tally, row: u32) -> u32
    ensures { TakenOut tally.old row result tally.new }
{
    let placed = tally.state.take_out(&tally.tables, row);
    tally.state = placed.state;
    placed.number
}

// How many of the rows that are in count in a group of a side (0 card, 1 shop).
#[unsafe(no_mangle)]
pub extern "C" fn claims_tally_count(tally: &mut Tally, side: u32, group: u32) -> TallyCountAnswer
    ensures { CountRead tally.old side group result tally.new }
{
    tally.state.count_of(side, group)
}
