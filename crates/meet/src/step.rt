// All steps from one node, in a direction. A step is taken where its arc is open: to a fresh node, which is reached, or to one that the
// other end reached, and then the search is over. The two scans are written for each direction, so that no test of it is left in them.
ghost use Rattle.std.specs.Prelude.{◌≡◌, true, false, ◌+◌, ◌≤◌, ◌<◌};
ghost use Rattle.theory.specs.Sum.{pick};
ghost use Rattle.scratch.specs.Map.{spare_of, card_of, shop_of, span, Room};
ghost use Rattle.scratch.specs.View.{net_of, residual_of};
ghost use Rattle.residual.specs.Items.{Raw, AtItem, ChildItem, ItemArc, Least, rise_at, fall_at, arc_at};
ghost use Rattle.meet.specs.Meet.{byte_from, SideOf, Tried, Looking, Looked, Open, Scanned, Rising, Every};

use super::Seen;
use entries::{
    SPAN, after_card, after_child, after_shop, arc_in, card, first, kept, label, parent, set_label,
    set_queue, shop, spare,
};
use look::leads_up;
use scratch::Shape;
use scratch::cells::Width;
use scratch::pick::pick;

// Takes the step of arc e to node v, where n nodes are reached in this direction.
fn take<W: Width>(sh: Shape, back: bool, v: usize, e: usize, n: usize, scratch: &mut [W]) -> Seen
    requires room { Room sh (W.memory scratch.old) }
    requires v_bound { (v < sh.groups + 2) × ((n ≤ sh.groups + 2) × (e + 1 < span)) }
    ensures { Tried sh back (W.memory scratch.old) (W.memory scratch.new) v e n result.count result.hit }
{
    let g = sh.groups;
    let fresh = sh.fresh;
    let was = label(sh, v, scratch);
    if was == fresh {
        let name = pick(back, fresh + SPAN, fresh) + e + 1;
        set_label(sh, v, name, scratch);
        set_queue(sh, pick(back, g + 2 - n, n), v, scratch);
        return Seen {
            count: n + 1,
            hit: 0,
        };
    }
    if arc_in(pick(back, fresh, fresh + SPAN), was) > 0 {
        return Seen {
            count: n,
            hit: e + 1,
        };
    }
    Seen { count: n, hit: 0 }
}

// Looks up from node u, where it is a group.
fn look_up<W: Width>(
    sh: Shape,
    back: bool,
    u: usize,
    n: usize,
    choice: &[u8],
    sheet: &[W],
    scratch: &mut [W],
) -> Seen
    requires looking { Looking sh choice.now (W.memory sheet.now) (W.memory scratch.old) n }
    requires u_lt_groups { u < sh.groups }
    ensures { let sheet₀ = W.memory sheet.now in
        let scratch₀ = W.memory scratch.old in
        let scratch' = W.memory scratch.new in
        Looked sh back choice.now sheet₀ scratch₀ scratch' u (rise_at (net_of sh scratch₀) back u) n result.count result.hit }
{
    let g = sh.groups;
    let rows = sh.rows;
    let v = parent(sh, u, scratch);
    if leads_up(sh, back, u, v, choice, sheet, scratch) {
        let e = pick(back, u, g + rows + u);
        return take(sh, back, v, e, n, scratch);
    }
    Seen { count: n, hit: 0 }
}

// Looks down from node u to its child v, which has the price of u.
fn look_child<W: Width>(
    sh: Shape,
    back: bool,
    u: usize,
    v: usize,
    n: usize,
    choice: &[u8],
    sheet: &[W],
    scratch: &mut [W],
) -> Seen
    requires looking { Looking sh choice.now (W.memory sheet.now) (W.memory scratch.old) n }
    requires child_item { ChildItem (residual_of sh (W.memory sheet.now) (W.memory scratch.old)) u (sh.rows + v) }
    ensures { let sheet₀ = W.memory sheet.now in
        let scratch₀ = W.memory scratch.old in
        let scratch' = W.memory scratch.new in
        Looked sh back choice.now sheet₀ scratch₀ scratch' u (fall_at (net_of sh scratch₀) back v) n result.count result.hit }
{
    let g = sh.groups;
    let rows = sh.rows;
    let cards = sh.cards;
    let easy = pick(back, v < cards, cards <= v);
    if easy | (spare(sh, v, scratch) != 0) {
        let e = pick(back, g + rows + v, v);
        return take(sh, back, v, e, n, scratch);
    }
    Seen { count: n, hit: 0 }
}

// The byte in the choice of a row that is a step from a node of the shop side, where `shops` holds, or of the card side.
fn byte_from(back: bool, shops: bool) -> u8
    ensures { result ≡ byte_from back shops }
{
    if shops {
        if back {
            return 0;
        }
        return 1;
    }
    if back {
        return 1;
    }
    0
}

// The node of row c on the side where `shops` does not hold.
fn across<W: Width>(sh: Shape, c: usize, shops: bool, scratch: &[W]) -> usize
    requires room { Room sh (W.memory scratch.now) }
    requires c_lt_rows { c < sh.rows }
    ensures { result ≡ pick shops (card_of sh (W.memory scratch.now) c) (shop_of sh (W.memory scratch.now) c) }
{
    if shops {
        return card(sh, c, scratch);
    }
    shop(sh, c, scratch)
}

// Looks along item j of node u, which is of the shop side where `shops` holds.
fn look_item<W: Width>(
    sh: Shape,
    back: bool,
    u: usize,
    shops: bool,
    j: usize,
    n: usize,
    choice: &[u8],
    sheet: &[W],
    scratch: &mut [W],
) -> Seen
    requires looking { Looking sh choice.now (W.memory sheet.now) (W.memory scratch.old) n }
    requires at_item { AtItem sh (W.memory sheet.now) (W.memory scratch.old) u j }
    requires side_of { SideOf (net_of sh (W.memory scratch.old)) u shops }
    ensures { let sheet₀ = W.memory sheet.now in
        let scratch₀ = W.memory scratch.old in
        let scratch' = W.memory scratch.new in
        Looked sh back choice.now sheet₀ scratch₀ scratch' u (arc_at (net_of sh scratch₀) back j) n result.count result.hit }
{
    let g = sh.groups;
    let rows = sh.rows;
    if rows <= j {
        return look_child(sh, back, u, j - rows, n, choice, sheet, scratch);
    }
    if kept(j, choice) == byte_from(back, shops) {
        let v = across(sh, j, shops, scratch);
        return take(sh, back, v, g + j, n, scratch);
    }
    Seen { count: n, hit: 0 }
}

// The item after j at node u, which is of the shop side where `shops` holds.
fn after_item<W: Width>(
    sh: Shape,
    u: usize,
    shops: bool,
    j: usize,
    sheet: &[W],
    scratch: &[W],
) -> usize
    requires at_item { AtItem sh (W.memory sheet.now) (W.memory scratch.now) u j }
    requires raw { Raw sh (W.memory scratch.now) }
    requires side_of { SideOf (net_of sh (W.memory scratch.now)) u shops }
    ensures { Least (residual_of sh (W.memory sheet.now) (W.memory scratch.now)) (spare_of sh (W.memory scratch.now)) u (j + 1) result }
{
    let rows = sh.rows;
    if rows <= j {
        return after_child(sh, j - rows, scratch);
    }
    if shops {
        return after_shop(sh, j, scratch);
    }
    after_card(sh, j, scratch)
}

// Looks along the items of node u, which is of the shop side where `shops` holds, until one leads to the other end. There m nodes are
// reached.
fn look_items<W: Width>(
    sh: Shape,
    back: bool,
    u: usize,
    shops: bool,
    n: usize,
    m: usize,
    choice: &[u8],
    sheet: &[W],
    scratch: &mut [W],
) -> Seen
    requires opened { Open sh choice.now (W.memory sheet.now) (W.memory scratch.old) back u n m }
    requires side_of { SideOf (net_of sh (W.memory scratch.old)) u shops }
    ensures { let sheet₀ = W.memory sheet.now in
        let scratch₀ = W.memory scratch.old in
        let scratch' = W.memory scratch.new in
        Scanned sh back choice.now sheet₀ scratch₀ scratch' u n m result.count result.hit (ItemArc (residual_of sh sheet₀ scratch₀) back u) }
{
    let g = sh.groups;
    let rows = sh.rows;
    let end = rows + g;
    let mut j = first(sh, u, scratch);
    let mut k = n;
    // stays: the items of a node are a linked list, and the next item is read from the scratch
    while j < end {
        let seen = look_item(sh, back, u, shops, j, k, choice, sheet, scratch);
        let hit = seen.hit;
        if hit > 0 {
            return seen;
        }
        k = seen.count;
        j = after_item(sh, u, shops, j, sheet, scratch);
    }
    Seen { count: k, hit: 0 }
}

// Looks up from node u, where it is a group. At the other end m nodes are reached.
fn look_above<W: Width>(
    sh: Shape,
    back: bool,
    u: usize,
    n: usize,
    m: usize,
    choice: &[u8],
    sheet: &[W],
    scratch: &mut [W],
) -> Seen
    requires { Open sh choice.now (W.memory sheet.now) (W.memory scratch.old) back u n m }
    ensures { let sheet₀ = W.memory sheet.now in
        let scratch₀ = W.memory scratch.old in
        let scratch' = W.memory scratch.new in
        Scanned sh back choice.now sheet₀ scratch₀ scratch' u n m result.count result.hit (Rising sh back u) }
{
    let g = sh.groups;
    if u < g {
        return look_up(sh, back, u, n, choice, sheet, scratch);
    }
    Seen { count: n, hit: 0 }
}

// Looks along all arcs out of node u, until one leads to a node that was reached from the target. From there m nodes are
// reached.
pub fn scan_out<W: Width>(
    sh: Shape,
    u: usize,
    n: usize,
    m: usize,
    choice: &[u8],
    sheet: &[W],
    scratch: &mut [W],
) -> Seen
    requires { Open sh choice.now (W.memory sheet.now) (W.memory scratch.old) false u n m }
    ensures { Scanned sh false choice.now (W.memory sheet.now) (W.memory scratch.old) (W.memory scratch.new) u n m result.count result.hit Every }
{
    let g = sh.groups;
    let cards = sh.cards;
    let above = look_above(sh, false, u, n, m, choice, sheet, scratch);
    let hit = above.hit;
    if hit > 0 {
        return above;
    }
    let k = above.count;
    let shops = (cards <= u) & (u != g);
    look_items(sh, false, u, shops, k, m, choice, sheet, scratch)
}

// Looks against all arcs into node u, until one comes from a node that was reached from the start. From there m nodes are
// reached.
pub fn scan_in<W: Width>(
    sh: Shape,
    u: usize,
    n: usize,
    m: usize,
    choice: &[u8],
    sheet: &[W],
    scratch: &mut [W],
) -> Seen
    requires { Open sh choice.now (W.memory sheet.now) (W.memory scratch.old) true u n m }
    ensures { Scanned sh true choice.now (W.memory sheet.now) (W.memory scratch.old) (W.memory scratch.new) u n m result.count result.hit Every }
{
    let g = sh.groups;
    let cards = sh.cards;
    let above = look_above(sh, true, u, n, m, choice, sheet, scratch);
    let hit = above.hit;
    if hit > 0 {
        return above;
    }
    let k = above.count;
    let shops = (cards <= u) & (u != g);
    look_items(sh, true, u, shops, k, m, choice, sheet, scratch)
}
