// One walk from the source, on along open arcs to fresh nodes and back where there is none, until it comes to the sink.
ghost use Rattle.std.specs.Prelude.{◌+◌, ◌<◌};
ghost use Rattle.scratch.specs.Map.{queue_of};
ghost use Rattle.scratch.specs.View.{residual_of};
ghost use Rattle.residual.specs.State.{Ready};
ghost use Rattle.paths.specs.Flip.{Good};
ghost use Rattle.walks.specs.Walk.{Ahead, TailOf, Standing, Returns, Stepped, Begun, Set, Walk};

use super::ways::next_way;
use entries::{card, kept, parent, pred, set_label, shop};
use scratch::Shape;
use scratch::cells::Width;

// The node where the arc came from by which node v was reached.
fn tail<W: Width>(sh: Shape, v: usize, choice: &[u8], sheet: &[W], scratch: &[W]) -> usize
    requires ready { Ready sh choice.now (W.memory sheet.now) (W.memory scratch.now) }
    requires v_bound { v < sh.groups + 2 }
    requires good { Good sh choice.now (W.memory sheet.now) (W.memory scratch.now) v }
    ensures { TailOf sh choice.now (W.memory sheet.now) (W.memory scratch.now) v result }
{
    let g = sh.groups;
    let n = sh.rows;
    let e = pred(sh, v, scratch) - 1;
    if e < g {
        return parent(sh, e, scratch);
    }
    if e < g + n {
        if kept(e - g, choice) == 1 {
            return shop(sh, e - g, scratch);
        }
        return card(sh, e - g, scratch);
    }
    e - g - n
}

// One step from node u: on, or back where there is no way on. Answers the node where the walk is then; from the source, where there is no
// way on, a number above all nodes.
fn step<W: Width>(sh: Shape, u: usize, choice: &[u8], sheet: &[W], scratch: &mut [W]) -> usize
    requires standing { Standing sh choice.now (W.memory sheet.now) (W.memory scratch.old) u }
    requires returns { Returns sh choice.now (W.memory sheet.now) (W.memory scratch.old) u }
    ensures { Stepped sh choice.now (W.memory sheet.now) (W.memory scratch.old) (W.memory scratch.new) u result }
{
    let source = sh.groups;
    let fresh = sh.fresh;
    let way = next_way(sh, u, choice, sheet, scratch);
    let v = way.to;
    if v != u {
        set_label(sh, v, fresh + way.by + 1, scratch);
        return v;
    }
    if u == source {
        return source + 2;
    }
    tail(sh, u, choice, sheet, scratch)
}

// Goes on from the source until the walk comes to the sink or can go no further. Answers whether it came there. It ends, since each step on
// reaches a node and each step back undoes one of those: there are fewer steps than twice the nodes.
fn wander<W: Width>(sh: Shape, choice: &[u8], sheet: &[W], scratch: &mut [W]) -> bool
    requires { Set sh choice.now (W.memory sheet.now) (W.memory scratch.old) }
    ensures { Walk sh choice.now (W.memory sheet.now) (W.memory scratch.old) (W.memory scratch.new) result }
{
    let source = sh.groups;
    let sink = source + 1;
    let mut u = source;
    // stays: the walk goes on and back from node to node, and no index counts its steps
    // counted for the proof alone
    let mut steps: usize = 0;
    while u < sink {
        u = step(sh, u, choice, sheet, scratch);
        steps += 1;
    }
    u == sink
}

// Walks from the source to the sink. Answers whether it came there.
pub fn walk<W: Width>(sh: Shape, choice: &[u8], sheet: &[W], scratch: &mut [W]) -> bool
    requires begun { Begun sh choice.now (W.memory sheet.now) (W.memory scratch.old) }
    requires ahead { Ahead (residual_of sh (W.memory sheet.now) (W.memory scratch.old)) (queue_of sh (W.memory scratch.old)) }
    ensures { Walk sh choice.now (W.memory sheet.now) (W.memory scratch.old) (W.memory scratch.new) result }
{
    let source = sh.groups;
    let rows = sh.rows;
    let fresh = sh.fresh;
    // the source is reached by a number that no arc has
    let by = 2 * source + rows;
    set_label(sh, source, fresh + by + 1, scratch);
    wander(sh, choice, sheet, scratch)
}
