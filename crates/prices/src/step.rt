// The step after a search from the source that did not come to the sink: the toll falls, and prices rise round the reached
// nodes.
ghost use Rattle.std.specs.Prelude.{◌+◌, ◌*◌, ◌≤◌, ◌<◌, length};
ghost use Rattle.theory.specs.Level.{Range};
ghost use Rattle.theory.specs.Step.{arcs};
ghost use Rattle.scratch.specs.Map.{Room, pred_of, price_of};
ghost use Rattle.residual.specs.State.{highest, Ready};
ghost use Rattle.scratch.specs.View.{net_of};
ghost use Rattle.prices.specs.Step.{BoundOf, GroupsOf, AlongOf, Moving, Raised, Cutting, Stepped};

use entries::{card, kept, parent, pred, price, set_price, shop};
use residual::arcs::arc;
use scratch::Shape;
use scratch::cells::Width;
use scratch::pick::pick;

// The lesser of best and the slack of arc e, where e leaves the reached nodes. Most arcs do not, so the labels of its two ends are
// looked at before it is decoded.
fn lower<W: Width>(
    sh: Shape,
    e: usize,
    from: usize,
    to: usize,
    best: usize,
    choice: &[u8],
    sheet: &[W],
    scratch: &[W],
) -> usize
    requires ready { Ready sh choice.now (W.memory sheet.now) (W.memory scratch.now) }
    requires e_bound { e < 2 * sh.groups + sh.rows }
    requires along_of { AlongOf sh choice.now (W.memory sheet.now) (W.memory scratch.now) e from to }
    ensures { BoundOf sh choice.now (W.memory sheet.now) (W.memory scratch.now) e (e + 1) best result }
{
    let stays = (pred(sh, from, scratch) == 0) | (pred(sh, to, scratch) > 0);
    if stays {
        return best;
    }
    let a = arc(sh, e, choice, sheet, scratch);
    let usable = a.usable;
    let slack = a.slack;
    if slack >= best {
        return best;
    }
    if usable {
        return slack;
    }
    best
}

// The same for both arcs of group v, down to it and up from it.
fn lower_group<W: Width>(
    sh: Shape,
    v: usize,
    best: usize,
    choice: &[u8],
    sheet: &[W],
    scratch: &[W],
) -> usize
    requires ready { Ready sh choice.now (W.memory sheet.now) (W.memory scratch.now) }
    requires v_lt_groups { v < sh.groups }
    ensures { GroupsOf sh choice.now (W.memory sheet.now) (W.memory scratch.now) v (v + 1) best result }
{
    let g = sh.groups;
    let n = sh.rows;
    let p = parent(sh, v, scratch);
    let below = lower(sh, v, p, v, best, choice, sheet, scratch);
    lower(sh, g + n + v, v, p, below, choice, sheet, scratch)
}

// The same for row c.
fn lower_row<W: Width>(
    sh: Shape,
    c: usize,
    best: usize,
    choice: &[u8],
    sheet: &[W],
    scratch: &[W],
) -> usize
    requires ready { Ready sh choice.now (W.memory sheet.now) (W.memory scratch.now) }
    requires c_lt_rows { c < sh.rows }
    ensures { BoundOf sh choice.now (W.memory sheet.now) (W.memory scratch.now) (sh.groups + c) (sh.groups + c + 1) best result }
{
    let g = sh.groups;
    let a = card(sh, c, scratch);
    let b = shop(sh, c, scratch);
    let takes = kept(c, choice) == 1;
    let from = pick(takes, b, a);
    let to = pick(takes, a, b);
    lower(sh, g + c, from, to, best, choice, sheet, scratch)
}

// The least slack of the groups' arcs that leave the reached nodes, at most the toll.
fn least_groups<W: Width>(sh: Shape, choice: &[u8], sheet: &[W], scratch: &[W]) -> usize
    requires { Ready sh choice.now (W.memory sheet.now) (W.memory scratch.now) }
    ensures { GroupsOf sh choice.now (W.memory sheet.now) (W.memory scratch.now) 0 sh.groups sh.toll result }
{
    let mut best = sh.toll;
    for v in 0..sh.groups {
        best = lower_group(sh, v, best, choice, sheet, scratch);
    }
    best
}

// The least slack of the rows that leave the reached nodes, at most `most`.
fn least_rows<W: Width>(sh: Shape, most: usize, choice: &[u8], sheet: &[W], scratch: &[W]) -> usize
    requires { Ready sh choice.now (W.memory sheet.now) (W.memory scratch.now) }
    ensures { BoundOf sh choice.now (W.memory sheet.now) (W.memory scratch.now) sh.groups (sh.groups + sh.rows) most result }
{
    let mut best = most;
    for c in 0..sh.rows {
        best = lower_row(sh, c, best, choice, sheet, scratch);
    }
    best
}

// The least slack of the arcs that leave the reached nodes, at most the toll.
fn least<W: Width>(sh: Shape, choice: &[u8], sheet: &[W], scratch: &[W]) -> usize
    requires { Ready sh choice.now (W.memory sheet.now) (W.memory scratch.now) }
    ensures { BoundOf sh choice.now (W.memory sheet.now) (W.memory scratch.now) 0 (arcs (net_of sh (W.memory scratch.now))) sh.toll result }
{
    let most = least_groups(sh, choice, sheet, scratch);
    least_rows(sh, most, choice, sheet, scratch)
}

// Whether the price of group v rises: a card group not reached, or a shop group reached.
fn moves<W: Width>(sh: Shape, v: usize, scratch: &[W]) -> bool
    requires room { Room sh (W.memory scratch.now) }
    requires v_lt_groups { v < sh.groups }
    ensures { Moving (net_of sh (W.memory scratch.now)) (pred_of sh (W.memory scratch.now)) v result }
{
    let cards = sh.cards;
    let by = pred(sh, v, scratch);
    if v < cards {
        return by == 0;
    }
    by > 0
}

// Raises by d the prices that rise. The others are stored as they were: no branch depends on the labels, which no processor foresees.
fn raise<W: Width>(sh: Shape, d: usize, sheet: &mut [W], scratch: &[W])
    requires room { Room sh (W.memory scratch.now) }
    requires groups_in_bounds { sh.groups ≤ length (W.memory sheet.old) }
    requires range { Range highest (price_of sh (W.memory sheet.old)) d }
    ensures { Raised sh (W.memory sheet.old) (W.memory scratch.now) (W.memory sheet.new) d sh.groups }
{
    for v in 0..sh.groups {
        let p = price(sh, v, sheet);
        let rises = moves(sh, v, scratch);
        set_price(sh, v, p + pick(rises, d, 0), sheet);
    }
}

// By how much the toll falls: by the least slack of the arcs that leave the reached nodes. Each of them has some slack, so a toll of 1
// falls to 0, and no arc need be looked at.
fn fall<W: Width>(sh: Shape, choice: &[u8], sheet: &[W], scratch: &[W]) -> usize
    requires { Cutting sh choice.now (W.memory sheet.now) (W.memory scratch.now) }
    ensures { BoundOf sh choice.now (W.memory sheet.now) (W.memory scratch.now) 0 (arcs (net_of sh (W.memory scratch.now))) sh.toll result }
{
    let toll = sh.toll;
    if toll == 1 {
        return 1;
    }
    least(sh, choice, sheet, scratch)
}

// The step. Answers by how much the toll falls.
pub fn reprice<W: Width>(sh: Shape, choice: &[u8], sheet: &mut [W], scratch: &[W]) -> usize
    requires { Cutting sh choice.now (W.memory sheet.old) (W.memory scratch.now) }
    ensures { Stepped sh choice.now (W.memory sheet.old) (W.memory scratch.now) (W.memory sheet.new) result }
{
    let d = fall(sh, choice, sheet, scratch);
    raise(sh, d, sheet, scratch);
    d
}
