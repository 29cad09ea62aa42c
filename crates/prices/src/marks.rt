// Reading the marks off the prices, in place: the sheet turns from prices into marks.
ghost use Rattle.std.specs.Prelude.{◌≡◌, ◌+◌, ◌-◌, ◌<◌, length};
ghost use Rattle.theory.specs.Bounds.{cell_bound};
ghost use Rattle.theory.specs.Level.{mark, rest};
ghost use Rattle.scratch.specs.Map.{weight_of, price_of};
ghost use Rattle.scratch.specs.View.{net_of};
ghost use Rattle.prices.specs.Marks.{PutMark, Priced, Marking, Marked};

use entries::{parent, price, row_price, weight};
use scratch::Shape;
use scratch::cells::Width;

// Writes cell i of the sheet.
fn set_mark<W: Width>(i: usize, x: usize, sheet: &mut [W])
    requires i_in_bounds { i < length (W.memory sheet.old) }
    requires x_lt_cell_bound { x < cell_bound }
    ensures { PutMark (W.memory sheet.old) (W.memory sheet.new) i x }
{
    W::put(sheet, i, x as u32);
}

// Row c's mark: what is left of its weight when its two nodes are paid.
fn mark_row<W: Width>(sh: Shape, c: usize, sheet: &mut [W], scratch: &[W])
    requires priced { Priced sh (W.memory sheet.old) (W.memory scratch.now) }
    requires c_lt_rows { c < sh.rows }
    ensures { let sheet₀ = W.memory sheet.old in
        let scratch₀ = W.memory scratch.now in
        let sheet' = W.memory sheet.new in
        PutMark sheet₀ sheet' (sh.groups + c) (rest (net_of sh scratch₀) (weight_of sh scratch₀) (price_of sh sheet₀) c) }
{
    let g = sh.groups;
    let paid = row_price(sh, c, sheet, scratch);
    let left = weight(sh, c, scratch).saturating_sub(paid);
    set_mark(g + c, left, sheet);
}

// Group v's mark: how far its price lies above its parent's.
fn mark_group<W: Width>(sh: Shape, v: usize, sheet: &mut [W], scratch: &[W])
    requires priced { Priced sh (W.memory sheet.old) (W.memory scratch.now) }
    requires v_lt_groups { v < sh.groups }
    ensures { PutMark (W.memory sheet.old) (W.memory sheet.new) v (mark (net_of sh (W.memory scratch.now)) (price_of sh (W.memory sheet.old)) v) }
{
    let up = parent(sh, v, scratch);
    let base = price(sh, up, sheet);
    let left = price(sh, v, sheet).saturating_sub(base);
    set_mark(v, left, sheet);
}

fn mark_rows<W: Width>(sh: Shape, sheet: &mut [W], scratch: &[W])
    requires { Priced sh (W.memory sheet.old) (W.memory scratch.now) }
    ensures { Marking sh (W.memory sheet.old) (W.memory scratch.now) (W.memory sheet.new) sh.groups sh.rows }
{
    for c in 0..sh.rows {
        mark_row(sh, c, sheet, scratch);
    }
}

// From the last group down: a group's parent has a smaller number, and its price is still there.
fn mark_groups<W: Width>(sh: Shape, sheet: &mut [W], scratch: &[W])
    requires { Priced sh (W.memory sheet.old) (W.memory scratch.now) }
    ensures { Marking sh (W.memory sheet.old) (W.memory scratch.now) (W.memory sheet.new) 0 0 }
{
    for v in (0..sh.groups).rev() {
        mark_group(sh, v, sheet, scratch);
    }
}

// The marks of all groups and rows, in the place of the prices.
pub fn read_marks<W: Width>(sh: Shape, sheet: &mut [W], scratch: &[W])
    requires { Priced sh (W.memory sheet.old) (W.memory scratch.now) }
    ensures { Marked sh (W.memory sheet.old) (W.memory scratch.now) (W.memory sheet.new) }
{
    mark_rows(sh, sheet, scratch);
    mark_groups(sh, sheet, scratch);
}
