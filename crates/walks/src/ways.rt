// Ways on from a node: open arcs to fresh nodes. Cell v of the queue is the item of node v that is looked along next.
ghost use Rattle.std.specs.Prelude.{◌≡◌, true, false, ◌+◌, ◌<◌, ltb, eqb};
ghost use Rattle.scratch.specs.Map.{label_of, parent_of, Room};
ghost use Rattle.scratch.specs.View.{net_of, residual_of};
ghost use Rattle.residual.specs.State.{Ready};
ghost use Rattle.residual.specs.Items.{AtItem, ChildItem, rise_at, fall_at, arc_at};
ghost use Rattle.search.specs.Search.{Rising};
ghost use Rattle.walks.specs.Walk.{Pointed, Beyond, Onto, FreshOf, GoesOf, WaysOf, Standing, Chosen, Opened, Went};

use super::Way;
use entries::{card, kept, label, parent, price, queue, set_queue, shop, spare};
use residual::lists::after;
use scratch::Shape;
use scratch::cells::Width;

// Whether node v is fresh.
fn is_fresh<W: Width>(sh: Shape, v: usize, scratch: &[W]) -> bool
    requires room { Room sh (W.memory scratch.now) }
    requires v_bound { v < sh.groups + 2 }
    ensures { result ≡ eqb (label_of sh (W.memory scratch.now) v) sh.fresh }
{
    let fresh = sh.fresh;
    label(sh, v, scratch) == fresh
}

// Whether there is a way from node u down to its child v, which has the price of u.
fn goes_down<W: Width>(
    sh: Shape,
    u: usize,
    v: usize,
    choice: &[u8],
    sheet: &[W],
    scratch: &[W],
) -> bool
    requires ready { Ready sh choice.now (W.memory sheet.now) (W.memory scratch.now) }
    requires child_item { ChildItem (residual_of sh (W.memory sheet.now) (W.memory scratch.now)) u (sh.rows + v) }
    ensures { GoesOf sh choice.now (W.memory sheet.now) (W.memory scratch.now) (fall_at (net_of sh (W.memory scratch.now)) false v) u result }
{
    let cards = sh.cards;
    if is_fresh(sh, v, scratch) {
        return (cards <= v) | (spare(sh, v, scratch) != 0);
    }
    false
}

// Whether there is a way from group u up to its parent v.
fn goes_up<W: Width>(
    sh: Shape,
    u: usize,
    v: usize,
    choice: &[u8],
    sheet: &[W],
    scratch: &[W],
) -> bool
    requires ready { Ready sh choice.now (W.memory sheet.now) (W.memory scratch.now) }
    requires u_lt_groups { (u < sh.groups) × (v ≡ parent_of sh (W.memory scratch.now) u) }
    ensures { GoesOf sh choice.now (W.memory sheet.now) (W.memory scratch.now) (rise_at (net_of sh (W.memory scratch.now)) false u) u result }
{
    let cards = sh.cards;
    if is_fresh(sh, v, scratch) {
        let room = (u < cards) | (spare(sh, u, scratch) != 0);
        if room {
            return price(sh, u, sheet) == price(sh, v, sheet);
        }
    }
    false
}

// Whether there is a way along item j of node u.
fn goes_along<W: Width>(
    sh: Shape,
    u: usize,
    j: usize,
    choice: &[u8],
    sheet: &[W],
    scratch: &[W],
) -> bool
    requires ready { Ready sh choice.now (W.memory sheet.now) (W.memory scratch.now) }
    requires at_item { AtItem sh (W.memory sheet.now) (W.memory scratch.now) u j }
    ensures { GoesOf sh choice.now (W.memory sheet.now) (W.memory scratch.now) (arc_at (net_of sh (W.memory scratch.now)) false j) u result }
{
    let rows = sh.rows;
    if rows <= j {
        return goes_down(sh, u, j - rows, choice, sheet, scratch);
    }
    let a = card(sh, j, scratch);
    if a == u {
        if kept(j, choice) == 0 {
            return is_fresh(sh, shop(sh, j, scratch), scratch);
        }
        return false;
    }
    if kept(j, choice) == 1 {
        return is_fresh(sh, a, scratch);
    }
    false
}

// The first item from j on at node u along which there is a way.
fn open_item<W: Width>(
    sh: Shape,
    u: usize,
    j: usize,
    choice: &[u8],
    sheet: &[W],
    scratch: &[W],
) -> usize
    requires standing { Standing sh choice.now (W.memory sheet.now) (W.memory scratch.now) u }
    requires pointed { Pointed (residual_of sh (W.memory sheet.now) (W.memory scratch.now)) u j }
    ensures { Opened sh choice.now (W.memory sheet.now) (W.memory scratch.now) u j result }
{
    let g = sh.groups;
    let rows = sh.rows;
    let end = rows + g;
    let mut i = j;
    // stays: the items of a node are a linked list, and the next item is read from the scratch
    while i < end {
        if goes_along(sh, u, i, choice, sheet, scratch) {
            return i;
        }
        i = after(sh, u, i, sheet, scratch);
    }
    i
}

// The way along item j of node u, where there is one.
fn way_along<W: Width>(
    sh: Shape,
    u: usize,
    j: usize,
    choice: &[u8],
    sheet: &[W],
    scratch: &[W],
) -> Way
    requires standing { Standing sh choice.now (W.memory sheet.now) (W.memory scratch.now) u }
    requires at_item { AtItem sh (W.memory sheet.now) (W.memory scratch.now) u j }
    requires fresh_of { FreshOf sh choice.now (W.memory sheet.now) (W.memory scratch.now) (arc_at (net_of sh (W.memory scratch.now)) false j) u }
    ensures { Onto sh choice.now (W.memory sheet.now) (W.memory scratch.now) u result.by result.to }
{
    let g = sh.groups;
    let rows = sh.rows;
    if rows <= j {
        return Way {
            by: j - rows,
            to: j - rows,
        };
    }
    let a = card(sh, j, scratch);
    if a == u {
        return Way {
            by: g + j,
            to: shop(sh, j, scratch),
        };
    }
    Way { by: g + j, to: a }
}

// The way up from node u, where `rises` holds and there is one.
fn way_up<W: Width>(
    sh: Shape,
    u: usize,
    rises: bool,
    choice: &[u8],
    sheet: &[W],
    scratch: &[W],
) -> Way
    requires standing { Standing sh choice.now (W.memory sheet.now) (W.memory scratch.now) u }
    requires u_lt_groups { rises ≡ true → u < sh.groups }
    ensures { WaysOf sh choice.now (W.memory sheet.now) (W.memory scratch.now) u (Rising sh false u rises) result.by result.to }
{
    let g = sh.groups;
    let rows = sh.rows;
    if rises {
        let v = parent(sh, u, scratch);
        if goes_up(sh, u, v, choice, sheet, scratch) {
            return Way {
                by: g + rows + u,
                to: v,
            };
        }
    }
    Way { by: 0, to: u }
}

// The way along item j of node u, where it is an item; else of a card the way up.
fn way_from<W: Width>(
    sh: Shape,
    u: usize,
    j: usize,
    choice: &[u8],
    sheet: &[W],
    scratch: &[W],
) -> Way
    requires standing { Standing sh choice.now (W.memory sheet.now) (W.memory scratch.now) u }
    requires chosen { Chosen sh choice.now (W.memory sheet.now) (W.memory scratch.now) u j }
    ensures { let sheet₀ = W.memory sheet.now in
        let scratch₀ = W.memory scratch.now in
        WaysOf sh choice.now sheet₀ scratch₀ u (Beyond (residual_of sh sheet₀ scratch₀) u j (ltb u sh.cards)) result.by result.to }
{
    let g = sh.groups;
    let rows = sh.rows;
    let end = rows + g;
    let cards = sh.cards;
    if j < end {
        return way_along(sh, u, j, choice, sheet, scratch);
    }
    way_up(sh, u, u < cards, choice, sheet, scratch)
}

// The way along the first item of node u, from its cell on, along which there is one. Of a card that has none the way up.
fn way_on<W: Width>(sh: Shape, u: usize, choice: &[u8], sheet: &[W], scratch: &mut [W]) -> Way
    requires { Standing sh choice.now (W.memory sheet.now) (W.memory scratch.old) u }
    ensures { Went sh choice.now (W.memory sheet.now) (W.memory scratch.old) (W.memory scratch.new) u (ltb u sh.cards) result.by result.to }
{
    let at = queue(sh, u, scratch);
    let j = open_item(sh, u, at, choice, sheet, scratch);
    set_queue(sh, u, j, scratch);
    way_from(sh, u, j, choice, sheet, scratch)
}

// The next way from node u: from a shop up before its items, from a card after them.
pub fn next_way<W: Width>(sh: Shape, u: usize, choice: &[u8], sheet: &[W], scratch: &mut [W]) -> Way
    requires { Standing sh choice.now (W.memory sheet.now) (W.memory scratch.old) u }
    ensures { Went sh choice.now (W.memory sheet.now) (W.memory scratch.old) (W.memory scratch.new) u (ltb u sh.groups) result.by result.to }
{
    let g = sh.groups;
    let cards = sh.cards;
    let up = way_up(sh, u, (cards <= u) & (u < g), choice, sheet, scratch);
    if up.to != u {
        return up;
    }
    way_on(sh, u, choice, sheet, scratch)
}
