// One step of the search: what looks along one arc, or against it where `back` holds. A node is fresh where its label is the shape's.
#![tactic(auto)]

ghost use Rattle.std.specs.Prelude.{◌≡◌, ◌+◌, ◌≤◌, ◌<◌, length};
ghost use Rattle.scratch.specs.Map.{parent_of, price_of, span, Room};
ghost use Rattle.scratch.specs.View.{net_of, residual_of};
ghost use Rattle.residual.specs.State.{Ready};
ghost use Rattle.residual.specs.Items.{AtItem, RowItem, ChildItem, rise_at, fall_at, arc_at};
ghost use Rattle.look.specs.Look.{Reached, Tried, Leads, Looking, Looked, Ends};

use entries::{card, kept, label, parent, price, set_label, set_queue, shop, spare};
use scratch::Shape;
use scratch::cells::Width;
use scratch::pick::pick;

// Node v is reached by arc e, in place n.
pub fn reach<W: Width>(sh: Shape, v: usize, e: usize, n: usize, scratch: &mut [W])
    requires room { Room sh (W.memory scratch.old) }
    requires v_bound { (v < sh.groups + 2) × ((n < sh.groups + 2) × (e + 1 < span)) }
    ensures { Reached sh (W.memory scratch.old) (W.memory scratch.new) v e n }
{
    let fresh = sh.fresh;
    set_label(sh, v, fresh + e + 1, scratch);
    set_queue(sh, n, v, scratch);
}

// Looks at node v, to which arc e leads, where n nodes are reached. Where the arc is open and the node is fresh, it is reached. The
// answer is how many are reached then. What is stored where it is not changes nothing: no branch depends on the tests, whose answers
// no processor foresees.
fn look<W: Width>(sh: Shape, v: usize, e: usize, leads: bool, n: usize, scratch: &mut [W]) -> usize
    requires room { Room sh (W.memory scratch.old) }
    requires v_bound { (v < sh.groups + 2) × ((n ≤ sh.groups + 2) × (e + 1 < span)) }
    ensures { Tried sh (W.memory scratch.old) (W.memory scratch.new) v e leads n result }
{
    let fresh = sh.fresh;
    let was = label(sh, v, scratch);
    let takes = leads & (was == fresh);
    set_label(sh, v, was + pick(takes, e + 1, 0), scratch);
    set_queue(sh, n, v, scratch);
    n + pick(takes, 1, 0)
}

// The price of node v, beside a group u: no branch depends on whether v is a root.
fn price_above<W: Width>(sh: Shape, u: usize, v: usize, sheet: &[W]) -> usize
    requires groups_in_bounds { sh.groups ≤ length (W.memory sheet.now) }
    requires u_lt_groups { u < sh.groups }
    ensures { result ≡ price_of sh (W.memory sheet.now) v }
{
    let g = sh.groups;
    let inside = v < g;
    let at = pick(inside, v, u);
    pick(inside, price(sh, at, sheet), 0)
}

// Whether there is a step from group u up to its parent v.
pub fn leads_up<W: Width>(
    sh: Shape,
    back: bool,
    u: usize,
    v: usize,
    choice: &[u8],
    sheet: &[W],
    scratch: &[W],
) -> bool
    requires ready { Ready sh choice.now (W.memory sheet.now) (W.memory scratch.now) }
    requires u_lt_groups { (u < sh.groups) × (v ≡ parent_of sh (W.memory scratch.now) u) }
    ensures { Leads sh back choice.now (W.memory sheet.now) (W.memory scratch.now) (rise_at (net_of sh (W.memory scratch.now)) back u) u v result }
{
    let cards = sh.cards;
    let even = price(sh, u, sheet) == price_above(sh, u, v, sheet);
    let easy = pick(back, cards <= u, u < cards);
    let room = easy | (spare(sh, u, scratch) != 0);
    even & room
}

// Looks up from group u.
pub fn look_up<W: Width>(
    sh: Shape,
    back: bool,
    u: usize,
    n: usize,
    choice: &[u8],
    sheet: &[W],
    scratch: &mut [W],
) -> usize
    requires looking { Looking sh choice.now (W.memory sheet.now) (W.memory scratch.old) n }
    requires u_lt_groups { u < sh.groups }
    ensures { let sheet₀ = W.memory sheet.now in
        let scratch₀ = W.memory scratch.old in
        let scratch' = W.memory scratch.new in
        Looked sh back choice.now sheet₀ scratch₀ scratch' u (rise_at (net_of sh scratch₀) back u) n result }
{
    let g = sh.groups;
    let rows = sh.rows;
    let v = parent(sh, u, scratch);
    let leads = leads_up(sh, back, u, v, choice, sheet, scratch);
    if back {
        return look(sh, v, u, leads, n, scratch);
    }
    look(sh, v, g + rows + u, leads, n, scratch)
}

// Looks down from node u to its child v, which has the price of u.
fn look_down<W: Width>(
    sh: Shape,
    back: bool,
    u: usize,
    v: usize,
    n: usize,
    choice: &[u8],
    sheet: &[W],
    scratch: &mut [W],
) -> usize
    requires looking { Looking sh choice.now (W.memory sheet.now) (W.memory scratch.old) n }
    requires child_item { ChildItem (residual_of sh (W.memory sheet.now) (W.memory scratch.old)) u (sh.rows + v) }
    ensures { let sheet₀ = W.memory sheet.now in
        let scratch₀ = W.memory scratch.old in
        let scratch' = W.memory scratch.new in
        Looked sh back choice.now sheet₀ scratch₀ scratch' u (fall_at (net_of sh scratch₀) back v) n result }
{
    let cards = sh.cards;
    let g = sh.groups;
    let rows = sh.rows;
    let easy = pick(back, v < cards, cards <= v);
    let leads = easy | (spare(sh, v, scratch) != 0);
    if back {
        return look(sh, v, g + rows + v, leads, n, scratch);
    }
    look(sh, v, v, leads, n, scratch)
}

// Looks along row c, which costs its weight and leads from node u to node v where its byte in the choice is `when`.
fn look_row<W: Width>(
    sh: Shape,
    back: bool,
    u: usize,
    v: usize,
    c: usize,
    when: u8,
    n: usize,
    choice: &[u8],
    sheet: &[W],
    scratch: &mut [W],
) -> usize
    requires looking { Looking sh choice.now (W.memory sheet.now) (W.memory scratch.old) n }
    requires ends { Ends sh back (W.memory scratch.old) c u v when }
    requires free_le_c { (sh.free ≤ c) × RowItem (residual_of sh (W.memory sheet.now) (W.memory scratch.old)) u c }
    ensures { Looked sh back choice.now (W.memory sheet.now) (W.memory scratch.old) (W.memory scratch.new) u (sh.groups + c) n result }
{
    let g = sh.groups;
    let leads = kept(c, choice) == when;
    look(sh, v, g + c, leads, n, scratch)
}

// Looks along item j of node u.
pub fn look_item<W: Width>(
    sh: Shape,
    back: bool,
    u: usize,
    j: usize,
    n: usize,
    choice: &[u8],
    sheet: &[W],
    scratch: &mut [W],
) -> usize
    requires looking { Looking sh choice.now (W.memory sheet.now) (W.memory scratch.old) n }
    requires at_item { AtItem sh (W.memory sheet.now) (W.memory scratch.old) u j }
    ensures { let sheet₀ = W.memory sheet.now in
        let scratch₀ = W.memory scratch.old in
        let scratch' = W.memory scratch.new in
        Looked sh back choice.now sheet₀ scratch₀ scratch' u (arc_at (net_of sh scratch₀) back j) n result }
{
    let rows = sh.rows;
    if rows <= j {
        return look_down(sh, back, u, j - rows, n, choice, sheet, scratch);
    }
    let a = card(sh, j, scratch);
    let b = shop(sh, j, scratch);
    if back {
        if a == u {
            return look_row(sh, back, a, b, j, 1, n, choice, sheet, scratch);
        }
        return look_row(sh, back, b, a, j, 0, n, choice, sheet, scratch);
    }
    if a == u {
        return look_row(sh, back, a, b, j, 0, n, choice, sheet, scratch);
    }
    look_row(sh, back, b, a, j, 1, n, choice, sheet, scratch)
}
