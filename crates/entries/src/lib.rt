// The map of the lent buffers: a reader and a writer for each table of the scratch slice, for the prices in the sheet and for
// the bytes of the choice. Scratch and sheet are lent in cells of one width; `scratch::cells` knows where a cell lies.
#![tactic(auto)]

ghost use Rattle.std.specs.Prelude.{◌≡◌, ◌+◌, ◌≤◌, ◌<◌, length};
ghost use Rattle.theory.specs.Bounds.{cell_bound};
ghost use Rattle.scratch.specs.Map.{half, arc_in, label_of, pred_of, queue_of, spare_of, first_of, after_child_of, after_card_of, after_shop_of, parent_of, card_of, shop_of, weight_of, price_of, row_price, kept_of};
ghost use Rattle.scratch.specs.Map.{labels, queues, spares, firsts, parents, card_nodes, shop_nodes, weights};
ghost use Rattle.scratch.specs.Map.{Room, Put, PutPrice, PutKept};

use scratch::Shape;
use scratch::cells::{Table, Width, cell, number, set_cell};
use theory::MAX_ROWS;

// The greatest price, and the greatest toll: two prices and the toll add up within a cell.
pub const HIGHEST: usize = 1000000000;

// How many labels one class has: more than there are arcs.
pub const SPAN: usize = 2048;

// The most places that a group is given: one more than there are rows.
pub const MAX_SPARE: usize = MAX_ROWS + 1;

// The label of node v: that of its class; where it was reached, more by the arc by which it was reached, plus 1.
pub fn label<W: Width>(sh: Shape, v: usize, scratch: &[W]) -> usize
    requires room { Room sh (W.memory scratch.now) }
    requires v_bound { v < sh.groups + 2 }
    ensures { (result ≡ label_of sh (W.memory scratch.now) v) × (result < cell_bound) }
{
    cell(sh, Table::Labels, v, scratch)
}

pub fn set_label<W: Width>(sh: Shape, v: usize, x: usize, scratch: &mut [W])
    requires room { Room sh (W.memory scratch.old) }
    requires v_bound { v < sh.groups + 2 }
    requires x_lt_cell_bound { x < cell_bound }
    ensures { Put sh (W.memory scratch.old) (W.memory scratch.new) labels v x }
{
    set_cell(sh, Table::Labels, v, x, scratch);
}

// What label x says in the class with label b: the arc by which its node was reached, plus 1; 0 where x is b or a label of another class.
pub fn arc_in(b: usize, x: usize) -> usize
    ensures { result ≡ arc_in b x }
{
    if x < b {
        return 0;
    }
    let by = x - b;
    if by < SPAN {
        return by;
    }
    0
}

// The arc by which node v was reached, plus 1; 0 where it was not reached.
pub fn pred<W: Width>(sh: Shape, v: usize, scratch: &[W]) -> usize
    requires room { Room sh (W.memory scratch.now) }
    requires v_bound { v < sh.groups + 2 }
    ensures { result ≡ pred_of sh (W.memory scratch.now) v }
{
    let fresh = sh.fresh;
    arc_in(fresh, label(sh, v, scratch))
}

// The node that was reached in place i.
pub fn queue<W: Width>(sh: Shape, i: usize, scratch: &[W]) -> usize
    requires room { Room sh (W.memory scratch.now) }
    requires i_bound { i < sh.groups + 3 }
    ensures { result ≡ queue_of sh (W.memory scratch.now) i }
{
    cell(sh, Table::Queues, i, scratch)
}

pub fn set_queue<W: Width>(sh: Shape, i: usize, x: usize, scratch: &mut [W])
    requires room { Room sh (W.memory scratch.old) }
    requires i_bound { i < sh.groups + 3 }
    requires x_lt_half { x < half }
    ensures { Put sh (W.memory scratch.old) (W.memory scratch.new) queues i x }
{
    set_cell(sh, Table::Queues, i, x, scratch);
}

// How many places group v has left.
pub fn spare<W: Width>(sh: Shape, v: usize, scratch: &[W]) -> usize
    requires room { Room sh (W.memory scratch.now) }
    requires v_lt_groups { v < sh.groups }
    ensures { result ≡ spare_of sh (W.memory scratch.now) v }
{
    cell(sh, Table::Spares, v, scratch)
}

pub fn set_spare<W: Width>(sh: Shape, v: usize, x: usize, scratch: &mut [W])
    requires room { Room sh (W.memory scratch.old) }
    requires v_lt_groups { v < sh.groups }
    requires x_lt_half { x < half }
    ensures { Put sh (W.memory scratch.old) (W.memory scratch.new) spares v x }
{
    set_cell(sh, Table::Spares, v, x, scratch);
}

// The least item that hangs at node v.
pub fn first<W: Width>(sh: Shape, v: usize, scratch: &[W]) -> usize
    requires room { Room sh (W.memory scratch.now) }
    requires v_bound { v < sh.groups + 2 }
    ensures { result ≡ first_of sh (W.memory scratch.now) v }
{
    cell(sh, Table::Firsts, v, scratch)
}

pub fn set_first<W: Width>(sh: Shape, v: usize, x: usize, scratch: &mut [W])
    requires room { Room sh (W.memory scratch.old) }
    requires v_bound { v < sh.groups + 2 }
    requires x_lt_half { x < half }
    ensures { Put sh (W.memory scratch.old) (W.memory scratch.new) firsts v x }
{
    set_cell(sh, Table::Firsts, v, x, scratch);
}

// The item after group v at its parent.
pub fn after_child<W: Width>(sh: Shape, v: usize, scratch: &[W]) -> usize
    requires room { Room sh (W.memory scratch.now) }
    requires v_lt_groups { v < sh.groups }
    ensures { result ≡ after_child_of sh (W.memory scratch.now) v }
{
    cell(sh, Table::ChildAfters, v, scratch)
}

// The item after row c at its card node.
pub fn after_card<W: Width>(sh: Shape, c: usize, scratch: &[W]) -> usize
    requires room { Room sh (W.memory scratch.now) }
    requires c_lt_rows { c < sh.rows }
    ensures { result ≡ after_card_of sh (W.memory scratch.now) c }
{
    cell(sh, Table::CardAfters, c, scratch)
}

// The item after row c at its shop node.
pub fn after_shop<W: Width>(sh: Shape, c: usize, scratch: &[W]) -> usize
    requires room { Room sh (W.memory scratch.now) }
    requires c_lt_rows { c < sh.rows }
    ensures { result ≡ after_shop_of sh (W.memory scratch.now) c }
{
    cell(sh, Table::ShopAfters, c, scratch)
}

// The parent of group v.
pub fn parent<W: Width>(sh: Shape, v: usize, scratch: &[W]) -> usize
    requires room { Room sh (W.memory scratch.now) }
    requires v_lt_groups { v < sh.groups }
    ensures { result ≡ parent_of sh (W.memory scratch.now) v }
{
    cell(sh, Table::Parents, v, scratch)
}

pub fn set_parent<W: Width>(sh: Shape, v: usize, x: usize, scratch: &mut [W])
    requires room { Room sh (W.memory scratch.old) }
    requires v_lt_groups { v < sh.groups }
    requires x_lt_half { x < half }
    ensures { Put sh (W.memory scratch.old) (W.memory scratch.new) parents v x }
{
    set_cell(sh, Table::Parents, v, x, scratch);
}

// The card node where row c hangs.
pub fn card<W: Width>(sh: Shape, c: usize, scratch: &[W]) -> usize
    requires room { Room sh (W.memory scratch.now) }
    requires c_lt_rows { c < sh.rows }
    ensures { result ≡ card_of sh (W.memory scratch.now) c }
{
    cell(sh, Table::CardNodes, c, scratch)
}

pub fn set_card<W: Width>(sh: Shape, c: usize, x: usize, scratch: &mut [W])
    requires room { Room sh (W.memory scratch.old) }
    requires c_lt_rows { c < sh.rows }
    requires x_lt_half { x < half }
    ensures { Put sh (W.memory scratch.old) (W.memory scratch.new) card_nodes c x }
{
    set_cell(sh, Table::CardNodes, c, x, scratch);
}

// The shop node where row c hangs.
pub fn shop<W: Width>(sh: Shape, c: usize, scratch: &[W]) -> usize
    requires room { Room sh (W.memory scratch.now) }
    requires c_lt_rows { c < sh.rows }
    ensures { result ≡ shop_of sh (W.memory scratch.now) c }
{
    cell(sh, Table::ShopNodes, c, scratch)
}

pub fn set_shop<W: Width>(sh: Shape, c: usize, x: usize, scratch: &mut [W])
    requires room { Room sh (W.memory scratch.old) }
    requires c_lt_rows { c < sh.rows }
    requires x_lt_half { x < half }
    ensures { Put sh (W.memory scratch.old) (W.memory scratch.new) shop_nodes c x }
{
    set_cell(sh, Table::ShopNodes, c, x, scratch);
}

// The weight of row c.
pub fn weight<W: Width>(sh: Shape, c: usize, scratch: &[W]) -> usize
    requires room { Room sh (W.memory scratch.now) }
    requires c_lt_rows { c < sh.rows }
    ensures { (result ≡ weight_of sh (W.memory scratch.now) c) × (result < cell_bound) }
{
    cell(sh, Table::Weights, c, scratch)
}

pub fn set_weight<W: Width>(sh: Shape, c: usize, x: usize, scratch: &mut [W])
    requires room { Room sh (W.memory scratch.old) }
    requires c_lt_rows { c < sh.rows }
    requires x_lt_cell_bound { x < cell_bound }
    ensures { Put sh (W.memory scratch.old) (W.memory scratch.new) weights c x }
{
    set_cell(sh, Table::Weights, c, x, scratch);
}

// The price of node v: a group's from the sheet, a root's 0.
pub fn price<W: Width>(sh: Shape, v: usize, sheet: &[W]) -> usize
    requires { sh.groups ≤ length (W.memory sheet.now) }
    ensures { (result ≡ price_of sh (W.memory sheet.now) v) × (result < cell_bound) }
{
    let g = sh.groups;
    if v < g {
        return number(W::get(sheet, v));
    }
    0
}

pub fn set_price<W: Width>(sh: Shape, v: usize, x: usize, sheet: &mut [W])
    requires groups_in_bounds { sh.groups ≤ length (W.memory sheet.old) }
    requires v_lt_groups { v < sh.groups }
    requires x_lt_cell_bound { x < cell_bound }
    ensures { PutPrice sh (W.memory sheet.old) (W.memory sheet.new) v x }
{
    W::put(sheet, v, x as u32);
}

// The prices of the two nodes where row c hangs.
pub fn row_price<W: Width>(sh: Shape, c: usize, sheet: &[W], scratch: &[W]) -> usize
    requires room { Room sh (W.memory scratch.now) }
    requires groups_in_bounds { sh.groups ≤ length (W.memory sheet.now) }
    requires c_lt_rows { c < sh.rows }
    ensures { result ≡ row_price sh (W.memory sheet.now) (W.memory scratch.now) c }
{
    let a = card(sh, c, scratch);
    let b = shop(sh, c, scratch);
    price(sh, a, sheet) + price(sh, b, sheet)
}

// 1 where row c is in the choice, else 0.
pub fn kept(c: usize, choice: &[u8]) -> u8
    requires { c < length choice.now }
    ensures { result ≡ kept_of choice.now c }
{
    choice[c]
}

pub fn set_kept(c: usize, x: u8, choice: &mut [u8])
    requires { c < length choice.old }
    ensures { PutKept choice.old choice.new c x }
{
    choice[c] = x;
}
