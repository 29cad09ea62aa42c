// The first fault in a section of the claim file: its count, then its records from the first on.
ghost use Rattle.std.specs.Prelude.{◌≡◌, ◌+◌, ◌*◌, ◌<◌, ◌≤◌, length};
ghost use Rattle.theory.specs.Bounds.{max_groups, max_rows};
ghost use Rattle.claimfile.specs.File.{columns, group_width, record_at};
ghost use Rattle.reader.specs.Reading.{none_above, group_fault, claim_fault};
ghost use Rattle.reader.specs.Reading.{groups_from, rows_from, count_fault, section_at, claims_at};

use super::{Refusal, Section};
use claimfile::{
    CLAIM_WIDTH, Claim, Form, OLD_WIDTH, TOP, WEEK_WIDTH, claim_at, columns_of, record_at, u16_at,
    width_of,
};
use theory::{MAX_GROUPS, MAX_ROWS};

// Whether none of the limits of the group record at `own` is above that of the one at `parent`.
fn none_above(file: &[u8], week: bool, own: usize, parent: usize) -> bool
    requires { (own + group_width week ≤ length file.now) × (parent + group_width week ≤ length file.now) }
    ensures { result ≡ none_above file.now own parent (columns week) }
{
    let columns = columns_of(week);
    for k in 0..columns {
        if u16_at(file, parent + 2 + 2 * k) < u16_at(file, own + 2 + 2 * k) {
            return false;
        }
    }
    true
}

// The first fault of the fields of the group record with number `own`: its parent, and then its limits.
fn check_group(file: &[u8], form: Form, start: usize, own: usize) -> Result<(), Refusal>
    requires { record_at form.week start own + group_width form.week ≤ length file.now }
    ensures { result ≡ group_fault form file.now start own }
{
    let week = form.week;
    let at = record_at(week, start, own);
    let parent = u16_at(file, at);
    if own <= parent {
        if parent != TOP {
            return Err(Refusal::Parent);
        }
        return Ok(());
    }
    if form.stored {
        return Ok(());
    }
    if none_above(file, week, at, record_at(week, start, parent)) {
        return Ok(());
    }
    Err(Refusal::LimitAbove)
}

// The first fault of one claim's fields, in their order, where there are so many kinds.
fn check_claim(claim: Claim, kinds: u8, cards: usize, shops: usize) -> Result<(), Refusal>
    ensures { result ≡ claim_fault kinds claim cards shops }
{
    if cards <= claim.card {
        return Err(Refusal::NoSuchGroup);
    }
    if shops <= claim.shop {
        return Err(Refusal::NoSuchGroup);
    }
    if kinds <= claim.kind {
        return Err(Refusal::Kind);
    }
    Ok(())
}

// How many group records are whole in so many bytes.
fn whole_in(bytes: usize, week: bool) -> usize
    ensures { (group_width week * result ≤ bytes) × (bytes < group_width week * result + group_width week) }
{
    if week {
        return bytes / WEEK_WIDTH;
    }
    bytes / OLD_WIDTH
}

// The first fault of the group records that start at `start`: of those that are whole, and then that one is not.
fn check_groups(file: &[u8], form: Form, start: usize, count: usize) -> Result<(), Refusal>
    requires { (start ≤ length file.now) × (count ≤ max_groups) }
    ensures { result ≡ groups_from form file.now start 0 count }
{
    let whole = whole_in(file.len() - start, form.week);
    for own in 0..whole.min(count) {
        check_group(file, form, start, own)?;
    }
    if whole < count {
        return Err(Refusal::CutOff);
    }
    Ok(())
}

// The first fault of a claims section, given from its first record on: of the records that are whole, and then that one is not.
fn check_rows(
    rows: &[u8],
    kinds: u8,
    count: usize,
    cards: usize,
    shops: usize,
) -> Result<(), Refusal>
    requires { count ≤ max_rows }
    ensures { result ≡ rows_from kinds rows.now cards shops 0 count }
{
    let whole = rows.len() / CLAIM_WIDTH;
    for c in 0..whole.min(count) {
        check_claim(claim_at(rows, c), kinds, cards, shops)?;
    }
    if whole < count {
        return Err(Refusal::CutOff);
    }
    Ok(())
}

// The first fault of the count that stands at `at`: it is not whole, or over the most, for which `over` is told.
fn check_count(file: &[u8], at: usize, most: usize, over: Refusal) -> Result<(), Refusal>
    ensures { result ≡ count_fault file.now at most over }
{
    let len = file.len();
    if len < 2 {
        return Err(Refusal::CutOff);
    }
    if len - 2 < at {
        return Err(Refusal::CutOff);
    }
    if most < u16_at(file, at) {
        return Err(over);
    }
    Ok(())
}

// The group section, of cards or of shops, whose count stands at `at`.
pub fn read_groups(file: &[u8], form: Form, at: usize) -> Result<Section, Refusal>
    ensures { result ≡ section_at form file.now at }
{
    check_count(file, at, MAX_GROUPS, Refusal::GroupCount)?;
    let count = u16_at(file, at);
    let start = at + 2;
    check_groups(file, form, start, count)?;
    Ok(Section {
        count,
        start,
        next: start + width_of(form.week) * count,
    })
}

// The claims section whose count stands at `at`.
pub fn read_claims(
    file: &[u8],
    kinds: u8,
    at: usize,
    cards: usize,
    shops: usize,
) -> Result<Section, Refusal>
    ensures { result ≡ claims_at kinds file.now at cards shops }
{
    check_count(file, at, MAX_ROWS, Refusal::ClaimCount)?;
    let count = u16_at(file, at);
    let start = at + 2;
    check_rows(&file[start..], kinds, count, cards, shops)?;
    Ok(Section {
        count,
        start,
        next: start + CLAIM_WIDTH * count,
    })
}
