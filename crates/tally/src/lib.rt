// The tally during the day: which rows are in, and how many of them count in each group.
//
// A tally is its tables, which nothing changes once it is begun, and its state, which a call on a row changes; it needs the file no more.
// The methods do the counting: the state goes in by value and comes back by value, and the tables are only lent, so that a call that is
// lent a tally copies the state alone.
//
// A row counts at its card node and at its shop node, and at each node above these. First each node of both chains is tested for a place
// left; then each count on them changes by 1: a refused call has nothing to undo. A walk takes tables of fixed length and a number, and its own call comes
// last, so that a compiler can make it a loop: a deep chain of groups needs no more memory than a short one.
//
// A tally that was not begun by `tallytables` may answer anything, but every call on it ends.
#![tactic(auto)]

ghost use Rattle.std.specs.Prelude.{◌≡◌, ◌<◌};
ghost use Rattle.theory.specs.Bounds.{max_rows};
ghost use Rattle.refusal.specs.Table.{outcome_number};
ghost use Rattle.tally.specs.Walks.{stepped, HasPlace, HasPlaces, Counted, CountedRow, LacksRow, PutTold, TakeTold, node_of};
ghost use Rattle.tally.specs.Tally.{tally, PutIn, TakenOut, Shows};

use answers::TallyCountAnswer;
use refusal::{Reason, number, outcome_number};
use theory::{MAX_GROUPS, MAX_ROWS};

// Card group g is node g, and shop group h is node cards + h. NODES stands for what is above the tops of both sides.
pub const NODES: usize = 2 * MAX_GROUPS;

pub const ROWS: usize = MAX_ROWS;
// The tables, one behind the other: of each node the one above it, from cell 0 on, and its limit; of each row its card node and its shop
// node.
pub const LIMITS: usize = NODES;

pub const CARD_NODES: usize = 2 * NODES;

pub const SHOP_NODES: usize = 2 * NODES + ROWS;

pub const CELLS: usize = 2 * NODES + 2 * ROWS;

// How many groups and rows there are, how many of the rows that are in count at each node, and 1 for each row that is in.
#[repr(C)]
#[derive(Clone, Copy)]
pub struct State {
    pub cards: usize,
    pub shops: usize,
    pub rows: usize,
    pub counts: [u16; NODES],
    pub selection: [u8; ROWS],
}

#[repr(C)]
#[derive(Drop)]
pub struct Tally {
    pub tables: [u16; CELLS],
    pub state: State,
}

// What putting in and taking out answer: 0 or the number of the refusal, with the state as it is then.
#[derive(Drop)]
pub struct Placed {
    pub number: u32,
    pub state: State,
}

// A count with one row more or one row less, from 0 to 65535.
fn step(count: u16, more: bool) -> u16
    ensures { result ≡ stepped more count }
{
    if more {
        return count.saturating_add(1);
    }
    count.saturating_sub(1)
}

// Whether node `u` and each node above it has a place left.
fn has_place(tables: &[u16; CELLS], counts: &[u16; NODES], u: usize) -> bool
    ensures { HasPlace tables.now counts.now u result }
{
    if NODES <= u {
        return true;
    }
    if tables[LIMITS + u] <= counts[u] {
        return false;
    }
    let up = usize::from(tables[u]);
    if u <= up {
        return true;
    }
    has_place(tables, counts, up)
}

// Counts one row more or one row less at node `u` and at each node above it.
fn count_from(tables: &[u16; CELLS], counts: &mut [u16; NODES], u: usize, more: bool)
    ensures { Counted more tables.now counts.old counts.new u }
{
    if NODES <= u {
        return;
    }
    counts[u] = step(counts[u], more);
    let up = usize::from(tables[u]);
    if up < u {
        count_from(tables, counts, up, more);
    }
}

// Whether row `c` has a place left on both sides.
fn has_places(tables: &[u16; CELLS], counts: &[u16; NODES], c: usize) -> bool
    requires { c < max_rows }
    ensures { HasPlaces tables.now counts.now c result }
{
    if !has_place(tables, counts, usize::from(tables[CARD_NODES + c])) {
        return false;
    }
    has_place(tables, counts, usize::from(tables[SHOP_NODES + c]))
}

// Counts row `c` in, or out, on both sides.
fn count_row(tables: &[u16; CELLS], counts: &mut [u16; NODES], c: usize, more: bool)
    requires { c < max_rows }
    ensures { CountedRow more tables.now counts.old counts.new c }
{
    count_from(tables, counts, usize::from(tables[CARD_NODES + c]), more);
    count_from(tables, counts, usize::from(tables[SHOP_NODES + c]), more);
}

// Whether there is no row `c`. A tally that was not begun may say that it has more rows than cells.
fn lacks_row(rows: usize, c: usize) -> bool
    ensures { LacksRow rows c result }
{
    if rows <= c {
        return true;
    }
    ROWS <= c
}

// Why row `c` cannot be put in.
fn judge_put(tables: &[u16; CELLS], state: &State, c: usize) -> Result<(), Reason>
    ensures { PutTold tables.now state.now.rows state.now.counts state.now.selection c (outcome_number result) }
{
    if lacks_row(state.rows, c) {
        return Err(Reason::Value);
    }
    if state.selection[c] != 0 {
        return Err(Reason::Inside);
    }
    if !has_places(tables, &state.counts, c) {
        return Err(Reason::Full);
    }
    Ok(())
}

// Why row `c` cannot be taken out.
fn judge_take(state: &State, c: usize) -> Result<(), Reason>
    ensures { TakeTold state.now.rows state.now.selection c (outcome_number result) }
{
    if lacks_row(state.rows, c) {
        return Err(Reason::Value);
    }
    if state.selection[c] == 0 {
        return Err(Reason::Outside);
    }
    Ok(())
}

// The node of a group of a side (0 card, 1 shop), and at least NODES where there is no such group.
fn node_of(cards: usize, shops: usize, side: u32, group: u32) -> usize
    ensures { result ≡ node_of cards shops side group }
{
    let g = group as usize;
    if side == 0 {
        if g < cards {
            return g;
        }
        return NODES;
    }
    if side != 1 {
        return NODES;
    }
    if shops <= g {
        return NODES;
    }
    if NODES <= cards {
        return NODES;
    }
    cards + g
}

impl State {
    // stays: a rule of the project: the calls of `till` are lent a tally, are thin, and stand on methods by value that do the counting.
    //
    // stays: the new form is no plainer: `put_in` and `take_out` share `count_row`, and one function for both would take a flag, the byte and
    // the number, and its clause would name both promises.
    //
    // Puts a row in.
    pub fn put_in(mut self, tables: &[u16; CELLS], row: u32) -> Placed
        ensures { PutIn (tally tables.now self) row result.number (tally tables.now result.state) }
    {
        let c = row as usize;
        let put_refusal = outcome_number(judge_put(tables, &self, c));
        if put_refusal == 0 {
            count_row(tables, &mut self.counts, c, true);
            self.selection[c] = 1;
        }
        Placed {
            number: put_refusal,
            state: self,
        }
    }

    // Takes a row out.
    pub fn take_out(mut self, tables: &[u16; CELLS], row: u32) -> Placed
        ensures { TakenOut (tally tables.now self) row result.number (tally tables.now result.state) }
    {
        let c = row as usize;
        let take_refusal = outcome_number(judge_take(&self, c));
        if take_refusal == 0 {
            count_row(tables, &mut self.counts, c, false);
            self.selection[c] = 0;
        }
        Placed {
            number: take_refusal,
            state: self,
        }
    }

    // How many of the rows that are in count in a group of a side (0 card, 1 shop).
    pub fn count_of(self, side: u32, group: u32) -> TallyCountAnswer
        ensures { Shows self side group result }
    {
        let node = node_of(self.cards, self.shops, side, group);
        if NODES <= node {
            return TallyCountAnswer {
                refusal: number(Reason::Value),
                count: 0,
            };
        }
        TallyCountAnswer {
            refusal: 0,
            count: u32::from(self.counts[node]),
        }
    }
}
