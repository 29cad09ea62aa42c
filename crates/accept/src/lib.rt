// Which closings head office accepts, however they were made.
//
// A closing is a file with a choice and a sheet of marks. `accept` takes any bytes, in a form, and any choice and sheet;
// `accept_on` does the same for a file that is accepted with a known layout. Nothing is changed. Whether a sheet covers the claims,
// and its total, crate `sheets` tells, in one table with a cell of 16 bits for each group. The cost is rows + groups; the table is
// all the memory.
#![tactic(auto)]

ghost use Rattle.std.specs.Prelude.{true, ◌≡◌, Ok};
ghost use Rattle.theory.specs.Matroid.{row};
ghost use Rattle.theory.specs.Network.{fits_both};
ghost use Rattle.claimfile.specs.Day.{limit_of, network_of, instance_of};
ghost use Rattle.claimfile.specs.File.{first_terms};
ghost use Rattle.claimfile.specs.Sound.{Sound, Kinds};
ghost use Rattle.closing.specs.Close.{Countable};
ghost use Rattle.sides.specs.Ready.{Ready};
ghost use Rattle.accept.specs.Accept.{judged, weight_kept, verdict_by, Judges};
ghost use Rattle.accept.specs.Judgeable.{Judgeable};

use claimfile::{DAYS, Form, Layout};
use closing::{marks_of, totals_of};
use instance::{CARD_SIDE, SHOP_SIDE};
use reader::read;
use refusal::Reason;
use selection::all_bits;
use sheets::cover::is_covered;
use sheets::total::total_of;
use sides::rank_on;
use theory::MAX_GROUPS;

// A cell for each group of both sides, and one for each root.
const NODES: usize = 2 * MAX_GROUPS + 2;

// The weight of the kept rows.
fn weight_kept(file: &[u8], layout: Layout, choice: &[u8]) -> u64
    requires { Countable first_terms file.now layout choice.now }
    ensures { result ≡ weight_kept (instance_of file.now layout) choice.now }
{
    let totals = totals_of(file, layout, choice);
    // stays: the new form is no plainer: as in Rust, the library has no `From` from usize to u64, and no bit is lost here.
    totals.total as u64
}

// Whether a choice fits both sides.
fn fits_both(file: &[u8], layout: Layout, choice: &[u8]) -> bool
    requires { Ready file.now choice.now layout }
    ensures { result ≡ fits_both (network_of file.now layout) (limit_of file.now layout) (row choice.now) }
{
    let card = rank_on(file, layout, CARD_SIDE, choice);
    let shop = rank_on(file, layout, SHOP_SIDE, choice);
    card.fits & shop.fits
}

// Judges the sheet of a closing whose choice fits.
fn judge_sheet(file: &[u8], layout: Layout, choice: &[u8], sheet: &[u32]) -> Result<(), Reason>
    requires { (Judgeable file.now layout choice.now sheet.now) × (fits_both (network_of file.now layout) (limit_of file.now layout) (row choice.now) ≡ true) }
    ensures { result ≡ judged (instance_of file.now layout) choice.now sheet.now }
{
    let mut cells = [0u16; NODES];
    if !is_covered(file, layout, sheet, &mut cells) {
        return Err(Reason::Uncovered);
    }
    if total_of(file, layout, sheet, &mut cells) != weight_kept(file, layout, choice) {
        return Err(Reason::Unequal);
    }
    Ok(())
}

// Judges the closing of an accepted file.
fn judge(file: &[u8], layout: Layout, choice: &[u8], sheet: &[u32]) -> Result<(), Reason>
    requires { Judgeable file.now layout choice.now sheet.now }
    ensures { result ≡ judged (instance_of file.now layout) choice.now sheet.now }
{
    if fits_both(file, layout, choice) {
        return judge_sheet(file, layout, choice, sheet);
    }
    Err(Reason::Unfit)
}

// Judges a choice and a sheet that were sent with an accepted file.
pub fn accept_on(file: &[u8], layout: Layout, choice: &[u8], sheet: &[u32]) -> Result<(), Reason>
    requires { (Sound file.now layout) × (Kinds first_terms file.now layout) }
    ensures { result ≡ verdict_by file.now (Ok layout) choice.now sheet.now }
{
    let rows = layout.rows;
    let marks = marks_of(layout);
    if choice.len() < rows {
        return Err(Reason::Short);
    }
    if sheet.len() < marks {
        return Err(Reason::Short);
    }
    if DAYS <= layout.day {
        return Err(Reason::Day);
    }
    if all_bits(choice, rows) {
        return judge(file, layout, choice, sheet);
    }
    Err(Reason::Value)
}

// Judges a closing: a file in a form, with the choice and the sheet that were sent with it.
pub fn accept(file: &[u8], form: Form, choice: &[u8], sheet: &[u32]) -> Result<(), Reason>
    ensures { Judges form file.now choice.now sheet.now result }
{
    let layout = read(file, form)?;
    accept_on(file, layout, choice, sheet)
}
