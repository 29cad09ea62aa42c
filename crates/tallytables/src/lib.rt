// The beginning of a tally: its tables are filled from an accepted file, cell by cell from the front, and no row is in.
//
// A cell is found from the file and from the cells before it: a limit is lowered by the limit of the node above, whose cell stands before.
#![tactic(auto)]

ghost use Rattle.std.specs.Prelude.{◌≡◌, ◌+◌, ◌<◌, ◌≤◌, length, Ok, Err};
ghost use Rattle.claimfile.specs.Day.{groups_of, instance_of, network_of};
ghost use Rattle.claimfile.specs.Sound.{Sound};
ghost use Rattle.tally.specs.Cells.{nodes, cells, Table, to_cell, parent_cell, limit_cell, row_cell, cell_of};
ghost use Rattle.tally.specs.Tally.{tally, none_in, none, Holds};
ghost use Rattle.refusal.specs.Table.{outcome_number};
ghost use Rattle.tallytables.specs.Begin.{Reads, Empty, Started};

use claimfile::{DAYS, Form, Layout, claim_of};
use instance::{card_node, lesser, node_at, shop_node};
use reader::read;
use refusal::Reason;
use tally::{CARD_NODES, CELLS, LIMITS, NODES, ROWS, SHOP_NODES, State};

// A node as a cell has it: one that is no group stands above the tops.
fn to_cell(groups: usize, node: usize) -> usize
    requires { groups ≤ nodes }
    ensures { (result ≡ to_cell groups node) × (result < 65536) }
{
    if node < groups {
        return node;
    }
    NODES
}

// The node above node `v`, and 0 where `v` is no group.
fn parent_cell(file: &[u8], layout: Layout, v: usize) -> usize
    requires { Sound file.now layout }
    ensures { (result ≡ parent_cell (network_of file.now layout) v) × (result < 65536) }
{
    let groups = layout.cards + layout.shops;
    if groups <= v {
        return 0;
    }
    to_cell(groups, node_at(file, layout, v).parent)
}

// The limit of node `v`, lowered to that of the node above it, and 0 where `v` is no group.
fn limit_cell(file: &[u8], layout: Layout, v: usize, tables: &[u16; CELLS]) -> usize
    requires { (Reads file.now layout (512 + v) tables.now) × (v < 512) }
    ensures { (result ≡ limit_cell (instance_of file.now layout) v) × (result < 65536) }
{
    if layout.cards + layout.shops <= v {
        return 0;
    }
    let limit = node_at(file, layout, v).limit;
    let up = usize::from(tables[v]);
    if v <= up {
        return limit;
    }
    lesser(limit, usize::from(tables[LIMITS + up]))
}

// The card node of row `c`, and 0 where there is no such row.
fn card_cell(file: &[u8], layout: Layout, c: usize) -> usize
    requires { Sound file.now layout }
    ensures { (result ≡ row_cell (network_of file.now layout) 0 c) × (result < 65536) }
{
    if layout.rows <= c {
        return 0;
    }
    let groups = layout.cards + layout.shops;
    let claim = claim_of(file, layout, c);
    to_cell(groups, card_node(file, layout, claim, groups))
}

// The shop node of row `c`, and 0 where there is no such row.
fn shop_cell(file: &[u8], layout: Layout, c: usize) -> usize
    requires { Sound file.now layout }
    ensures { (result ≡ row_cell (network_of file.now layout) 1 c) × (result < 65536) }
{
    if layout.rows <= c {
        return 0;
    }
    let claim = claim_of(file, layout, c);
    shop_node(layout, claim)
}

// Cell `i` of the tables, by the cells before it.
fn cell(file: &[u8], layout: Layout, i: usize, tables: &[u16; CELLS]) -> usize
    requires { (Reads file.now layout i tables.now) × (i < cells) }
    ensures { (result ≡ cell_of (instance_of file.now layout) i) × (result < 65536) }
{
    if i < LIMITS {
        return parent_cell(file, layout, i);
    }
    if i < CARD_NODES {
        return limit_cell(file, layout, i - LIMITS, tables);
    }
    if i < SHOP_NODES {
        return card_cell(file, layout, i - CARD_NODES);
    }
    shop_cell(file, layout, i - SHOP_NODES)
}

// Fills the tables.
fn fill(file: &[u8], layout: Layout, tables: &mut [u16; CELLS])
    requires { (Sound file.now layout) × (length tables.old ≡ cells) }
    ensures { Table cells (cell_of (instance_of file.now layout)) tables.new }
{
    for i in 0..CELLS {
        tables[i] = cell(file, layout, i, tables) as u16;
    }
}

// Clears the tables.
fn clear(tables: &mut [u16; CELLS])
    requires { length tables.old ≡ cells }
    ensures { Table cells none tables.new }
{
    tables.fill(0);
}

// The state of a tally with so many groups and rows, in which no row is in.
fn none_in(cards: usize, shops: usize, rows: usize) -> State
    ensures { result ≡ none_in cards shops rows }
{
    State {
        cards,
        shops,
        rows,
        counts: [0u16; NODES],
        selection: [0u8; ROWS],
    }
}

// A refused beginning: leaves a tally without rows or groups, and answers why.
fn refuse(why: Reason, tables: &mut [u16; CELLS], state: &mut State) -> Result<(), Reason>
    requires { length tables.old ≡ cells }
    ensures { (result ≡ Err why) × Empty (tally tables.new state.new) }
{
    clear(tables);
    *state = none_in(0, 0, 0);
    Err(why)
}

// Leaves the tally of an accepted file, in which no row is in.
fn enter(
    file: &[u8],
    layout: Layout,
    tables: &mut [u16; CELLS],
    state: &mut State,
) -> Result<(), Reason>
    requires { (Sound file.now layout) × (length tables.old ≡ cells) }
    ensures { (result ≡ Ok tt) × Holds (instance_of file.now layout) (tally tables.new state.new) none }
{
    fill(file, layout, tables);
    *state = none_in(layout.cards, layout.shops, layout.rows);
    Ok(())
}

// Begins a tally from a file in a form: one in which no row is in, or one without rows or groups, and why.
pub fn begin_tally(
    file: &[u8],
    form: Form,
    tables: &mut [u16; CELLS],
    state: &mut State,
) -> Result<(), Reason>
    requires { length tables.old ≡ cells }
    ensures { Started form file.now (outcome_number result) (tally tables.new state.new) }
{
    match read(file, form) {
        Err(why) => refuse(Reason::File(why), tables, state),
        Ok(layout) => {
            if DAYS <= layout.day {
                return refuse(Reason::Day, tables, state);
            }
            enter(file, layout, tables, state)
        }
    }
}
