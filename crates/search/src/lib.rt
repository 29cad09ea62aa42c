// The search: from which fresh nodes a start can be reached by open arcs. It changes label and queue alone. Labels are given here too.
#![tactic(auto)]

mod scan;

ghost use Rattle.std.specs.Prelude.{◌≢◌, true, ◌+◌, ◌<◌};
ghost use Rattle.theory.specs.Bounds.{cell_bound};
ghost use Rattle.scratch.specs.Map.{label_of, queue_of, Room};
ghost use Rattle.search.specs.Search.{Seeded, Asked, SearchedBy, Queued, QueuedIn, Relabelled, RelabelledIn, from_last, Refreshed};

use entries::{label, queue, set_label};
use look::reach;
use scan::scan_in;
use scratch::Shape;
use scratch::cells::Width;

// Goes through the queue until the label of the target changes or the queue ends. The answer is how many nodes are reached.
fn spread_in<W: Width>(
    sh: Shape,
    target: usize,
    choice: &[u8],
    sheet: &[W],
    scratch: &mut [W],
) -> usize
    requires { Seeded sh true choice.now (W.memory sheet.now) (W.memory scratch.old) target }
    ensures { let sheet₀ = W.memory sheet.now in
        let scratch₀ = W.memory scratch.old in
        let scratch' = W.memory scratch.new in
        SearchedBy sh true choice.now sheet₀ scratch₀ scratch' (queue_of sh scratch₀ 0) target result }
{
    let was = label(sh, target, scratch);
    let mut n: usize = 1;
    let mut h: usize = 0;
    // stays: the queue grows while it is gone through, so its end is no bound that a range could have
    while h < n {
        if label(sh, target, scratch) != was {
            return n;
        }
        let u = queue(sh, h, scratch);
        n = scan_in(sh, u, h, n, choice, sheet, scratch);
        h += 1;
    }
    n
}

// Searches against open arcs from the start until the target is reached or no arc is left; where the target is not fresh, to the end. The
// nodes that it reaches are those that lead to the start. The answer is how many there are. The source is not fresh: it is not gone on
// from, and its list may be short.
pub fn search_back<W: Width>(
    sh: Shape,
    start: usize,
    target: usize,
    choice: &[u8],
    sheet: &[W],
    scratch: &mut [W],
) -> usize
    requires asked { Asked sh choice.now (W.memory sheet.now) (W.memory scratch.old) start target }
    requires groups_nonzero { label_of sh (W.memory scratch.old) sh.groups ≢ sh.fresh }
    ensures { SearchedBy sh true choice.now (W.memory sheet.now) (W.memory scratch.old) (W.memory scratch.new) start target result }
{
    let g = sh.groups;
    let rows = sh.rows;
    // the start is reached by a number that no arc has
    reach(sh, start, 2 * g + rows, 0, scratch);
    spread_in(sh, target, choice, sheet, scratch)
}

// Gives the label x to the nodes in the first n places of the queue.
pub fn relabel<W: Width>(sh: Shape, n: usize, x: usize, scratch: &mut [W])
    requires queued { Queued sh (W.memory scratch.old) n }
    requires x_lt_cell_bound { x < cell_bound }
    ensures { Relabelled sh (W.memory scratch.old) (W.memory scratch.new) n x }
{
    for i in 0..n {
        let v = queue(sh, i, scratch);
        set_label(sh, v, x, scratch);
    }
}

// The same for the nodes in the last n places, from the last one down.
pub fn relabel_last<W: Width>(sh: Shape, n: usize, x: usize, scratch: &mut [W])
    requires queued { QueuedIn sh (W.memory scratch.old) (from_last sh (W.memory scratch.old)) n }
    requires x_lt_cell_bound { x < cell_bound }
    ensures { RelabelledIn sh (from_last sh (W.memory scratch.old)) (W.memory scratch.old) (W.memory scratch.new) n x }
{
    let g = sh.groups;
    for i in 0..n {
        let v = queue(sh, g + 2 - i, scratch);
        set_label(sh, v, x, scratch);
    }
}

// Every node becomes fresh.
pub fn refresh<W: Width>(sh: Shape, scratch: &mut [W])
    requires { Room sh (W.memory scratch.old) }
    ensures { Refreshed sh (W.memory scratch.old) (W.memory scratch.new) (sh.groups + 2) }
{
    let g = sh.groups;
    let fresh = sh.fresh;
    for v in 0..g + 2 {
        set_label(sh, v, fresh, scratch);
    }
}
