// All steps from one node, against the arcs.
ghost use Rattle.std.specs.Prelude.{◌≡◌, true, ◌+◌, ◌<◌};
ghost use Rattle.scratch.specs.View.{residual_of};
ghost use Rattle.residual.specs.Items.{ItemArc};
ghost use Rattle.search.specs.Search.{Open, Scanned, Rising, Every};

use entries::first;
use look::{look_item, look_up};
use residual::lists::after;
use scratch::Shape;
use scratch::cells::Width;

// Looks against the items of node u, which stands in place h of the queue.
fn items_in<W: Width>(
    sh: Shape,
    u: usize,
    h: usize,
    n: usize,
    choice: &[u8],
    sheet: &[W],
    scratch: &mut [W],
) -> usize
    requires { Open sh true choice.now (W.memory sheet.now) (W.memory scratch.old) u h n }
    ensures { let sheet₀ = W.memory sheet.now in
        let scratch₀ = W.memory scratch.old in
        let scratch' = W.memory scratch.new in
        Scanned sh true choice.now sheet₀ scratch₀ scratch' u h n result (ItemArc (residual_of sh sheet₀ scratch₀) true u) }
{
    let g = sh.groups;
    let rows = sh.rows;
    let end = rows + g;
    let mut j = first(sh, u, scratch);
    let mut k = n;
    // stays: the items of a node are a linked list, and the next item is read from the scratch
    while j < end {
        k = look_item(sh, true, u, j, k, choice, sheet, scratch);
        j = after(sh, u, j, sheet, scratch);
    }
    k
}

// Looks up from node u, which stands in place h of the queue, where `rises` holds.
fn look_above<W: Width>(
    sh: Shape,
    back: bool,
    u: usize,
    h: usize,
    n: usize,
    rises: bool,
    choice: &[u8],
    sheet: &[W],
    scratch: &mut [W],
) -> usize
    requires opened { Open sh back choice.now (W.memory sheet.now) (W.memory scratch.old) u h n }
    requires u_lt_groups { rises ≡ true → u < sh.groups }
    ensures { Scanned sh back choice.now (W.memory sheet.now) (W.memory scratch.old) (W.memory scratch.new) u h n result (Rising sh back u rises) }
{
    if rises {
        return look_up(sh, back, u, n, choice, sheet, scratch);
    }
    n
}

// Looks against all arcs into node u, which stands in place h of the queue: its items, and its up arc, at a card before them and at a
// shop after them.
pub fn scan_in<W: Width>(
    sh: Shape,
    u: usize,
    h: usize,
    n: usize,
    choice: &[u8],
    sheet: &[W],
    scratch: &mut [W],
) -> usize
    requires { Open sh true choice.now (W.memory sheet.now) (W.memory scratch.old) u h n }
    ensures { Scanned sh true choice.now (W.memory sheet.now) (W.memory scratch.old) (W.memory scratch.new) u h n result Every }
{
    let cards = sh.cards;
    let g = sh.groups;
    let k = look_above(sh, true, u, h, n, u < cards, choice, sheet, scratch);
    let m = items_in(sh, u, h, k, choice, sheet, scratch);
    let rises = (cards <= u) & (u < g);
    look_above(sh, true, u, h, m, rises, choice, sheet, scratch)
}
