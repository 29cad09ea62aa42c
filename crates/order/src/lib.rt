// The order of the rows, at toll 0: a row left out that costs its weight goes in where rows above it can make way, and the
// choice stays as heavy and as large.
//
// The nodes are parted into classes, each with its own label, so that no cycle of open arcs goes through two classes. At first all are
// in one. A search goes from both ends and stays in one class; where it fails, the nodes of the end that it exhausted become a class of
// their own. So a row whose two nodes are of different classes stays out without a search. A row that goes in turns a cycle, which lies in
// one class, and the classes stay as they are.
#![tactic(auto)]

ghost use Rattle.std.specs.Prelude.{◌≡◌, ◌+◌, ◌<◌};
ghost use Rattle.theory.specs.Bounds.{cell_bound};
ghost use Rattle.residual.specs.Items.{Raw, Links};
ghost use Rattle.prices.specs.State.{with_class};
ghost use Rattle.search.specs.Search.{Queued, QueuedIn, from_last};
ghost use Rattle.order.specs.Order.{Paid, Placing, Placed, Arranged, Parted, Staying, EndsNamed, Swapping};

use entries::{SPAN, card, kept, label, row_price, set_kept, shop, weight};
use meet::search_both;
use moves::join::turn_joined;
use residual::lists::drop_row;
use scratch::Shape;
use scratch::cells::Width;
use scratch::pick::pick;
use search::{relabel, relabel_last};

// The shape for a search that turns the rows from `free` on and reaches the nodes with the label `fresh`.
fn with_class(sh: Shape, free: usize, fresh: usize) -> Shape
    ensures { result ≡ with_class sh free fresh }
{
    Shape { free, fresh, ..sh }
}

// Whether the two nodes of row i are of different classes.
fn parted<W: Width>(sh: Shape, i: usize, scratch: &[W]) -> bool
    requires raw { Raw sh (W.memory scratch.now) }
    requires i_lt_rows { i < sh.rows }
    ensures { Parted sh (W.memory scratch.now) i result }
{
    let a = card(sh, i, scratch);
    let b = shop(sh, i, scratch);
    label(sh, a, scratch) != label(sh, b, scratch)
}

// Whether row i stays as it is: it is kept, or costs more than it weighs, or its two nodes are of different classes.
fn stays<W: Width>(
    sh: Shape,
    i: usize,
    next: usize,
    choice: &[u8],
    sheet: &[W],
    scratch: &[W],
) -> bool
    requires { Placing sh choice.now (W.memory sheet.now) (W.memory scratch.now) i next }
    ensures { Staying sh choice.now (W.memory sheet.now) (W.memory scratch.now) i result }
{
    let keeps = kept(i, choice) != 0;
    let dear = row_price(sh, i, sheet, scratch) != weight(sh, i, scratch);
    keeps | dear | parted(sh, i, scratch)
}

// After a search that did not meet: the nodes of the end that has no arc left get the label x, and those of the other end are fresh again.
fn name_ends<W: Width>(sh: Shape, n: usize, m: usize, out: bool, x: usize, scratch: &mut [W])
    requires queues { Queued sh (W.memory scratch.old) n × QueuedIn sh (W.memory scratch.old) (from_last sh (W.memory scratch.old)) m }
    requires x_lt_cell_bound { x < cell_bound }
    ensures { EndsNamed sh (W.memory scratch.old) (W.memory scratch.new) n m out x }
{
    let fresh = sh.fresh;
    relabel(sh, n, pick(out, x, fresh), scratch);
    relabel_last(sh, m, pick(out, fresh, x), scratch);
}

// Puts row i in, where a search from its shop node b and from its card node a finds rows above it that make way; else the nodes of the end
// that has no arc left become class `next`. Answers how many classes there are then.
fn swap_in<W: Width>(
    sh: Shape,
    i: usize,
    a: usize,
    b: usize,
    next: usize,
    choice: &mut [u8],
    sheet: &[W],
    scratch: &mut [W],
) -> usize
    requires { Swapping sh choice.old (W.memory sheet.now) (W.memory scratch.old) i a b next }
    ensures { Placed sh choice.old (W.memory sheet.now) (W.memory scratch.old) choice.new (W.memory scratch.new) (i + 1) result }
{
    let ends = search_both(sh, b, a, choice, sheet, scratch);
    let n = ends.n;
    let m = ends.m;
    let hit = ends.hit;
    if hit == 0 {
        let out = ends.out;
        name_ends(sh, n, m, out, 2 * SPAN * next, scratch);
        return next + 1;
    }
    turn_joined(sh, b, a, n, m, hit, choice, sheet, scratch);
    set_kept(i, 1, choice);
    next
}

// Places row i, where there are `next` classes: it leaves the item lists, and goes in where it may. Answers how many classes there are
// then.
fn place_row<W: Width>(
    sh: Shape,
    i: usize,
    next: usize,
    choice: &mut [u8],
    sheet: &[W],
    scratch: &mut [W],
) -> usize
    requires placing { Placing sh choice.old (W.memory sheet.now) (W.memory scratch.old) i next }
    requires links { Links sh (W.memory sheet.now) (W.memory scratch.old) i }
    ensures { Placed sh choice.old (W.memory sheet.now) (W.memory scratch.old) choice.new (W.memory scratch.new) (i + 1) result }
{
    drop_row(sh, i, sheet, scratch);
    if stays(sh, i, next, choice, sheet, scratch) {
        return next;
    }
    let a = card(sh, i, scratch);
    let b = shop(sh, i, scratch);
    let mine = with_class(sh, i + 1, label(sh, a, scratch));
    swap_in(mine, i, a, b, next, choice, sheet, scratch)
}

// Places all rows, from the first on.
pub fn order_rows<W: Width>(sh: Shape, choice: &mut [u8], sheet: &[W], scratch: &mut [W])
    requires { Paid sh choice.old (W.memory sheet.now) (W.memory scratch.old) }
    ensures { Arranged sh choice.old (W.memory sheet.now) (W.memory scratch.old) choice.new (W.memory scratch.new) }
{
    let mut next: usize = 1;
    for i in 0..sh.rows {
        next = place_row(sh, i, next, choice, sheet, scratch);
    }
}
