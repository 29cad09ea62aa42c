// Reading a claim file: whether any bytes are an accepted file, or why they are refused.
//
// `read` takes any bytes, in one of four forms, and says whether they are an accepted file, with its counts and the places of its
// sections, or why they are refused; module `check` finds the first fault.
#![tactic(auto)]

mod check;

ghost use Rattle.std.specs.Prelude.{◌≡◌, ◌<◌};
ghost use Rattle.reader.specs.Reading.{reading_in, reading, reading_kinds};

use check::{read_claims, read_groups};
use claimfile::{Form, Layout};

// How many kinds the claims have under the first terms, 0 and 1, and under the second, 0 to 3.
pub const FIRST_TERMS: u8 = 2;

pub const SECOND_TERMS: u8 = 4;

// Why a file is turned away: numbers 1 to 7 of document 01, in its order, and 11 of document 02.
#[derive(Clone, Copy, Debug, PartialEq, Eq)]
pub enum Refusal {
    CutOff,
    GroupCount,
    Parent,
    ClaimCount,
    NoSuchGroup,
    Kind,
    Trailing,
    LimitAbove,
}

// A section that was read: how many records, where the first starts and what follows the last.
#[derive(Clone, Copy)]
pub struct Section {
    pub count: usize,
    pub start: usize,
    pub next: usize,
}

// What stands for a section before it is read.
const NO_SECTION: Section = Section {
    count: 0,
    start: 0,
    next: 0,
};

// Reads a file whose claims have so many kinds from the front: accepted with its layout, or refused by the first fault met. The group
// sections of both sides are read by one body, the card section first and the shop section behind it.
pub fn read_in(file: &[u8], form: Form, kinds: u8) -> Result<Layout, Refusal>
    ensures { result ≡ reading_in kinds form file.now }
{
    let mut sections = [NO_SECTION; 2];
    let mut at = 0;
    for side in 0..2usize {
        let groups = read_groups(file, form, at);
        let Ok(section) = groups else {
            return Err(groups.unwrap_err());
        };
        at = section.next;
        sections[side] = section;
    }
    let cards = sections[0];
    let shops = sections[1];
    let rows = read_claims(file, kinds, at, cards.count, shops.count);
    let Ok(claims) = rows else {
        return Err(rows.unwrap_err());
    };
    if claims.next < file.len() {
        return Err(Refusal::Trailing);
    }
    Ok(Layout {
        week: form.week,
        day: form.day,
        cards: cards.count,
        shops: shops.count,
        rows: claims.count,
        card_at: cards.start,
        shop_at: shops.start,
        row_at: claims.start,
    })
}

// Reads a file under the first terms.
pub fn read(file: &[u8], form: Form) -> Result<Layout, Refusal>
    ensures { result ≡ reading form file.now }
{
    read_in(file, form, FIRST_TERMS)
}

// Reads a file under the second terms, for a day: a new file in the week layout.
pub fn read_kinds(file: &[u8], day: usize) -> Result<Layout, Refusal>
    ensures { result ≡ reading_kinds day file.now }
{
    let form = Form {
        week: true,
        stored: false,
        day,
    };
    read_in(file, form, SECOND_TERMS)
}
