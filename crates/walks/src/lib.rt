// Rounds of walks: many paths from the source to the sink are found and turned for about the work of one search.
//
// A walk starts at the source and goes on along the first open arc that leads to a fresh node, and back where there is none, until it comes
// to the sink. The path is turned, every node is fresh again, and the next walk of the round starts. Cell v of the queue is the item of
// node v that is looked along next: an item that was passed is not looked along again in the round.
//
// A round need not find every path: where it turned one, another round follows. In a round that turned none the nodes that have a pred are
// those that can be reached from the source, and no open arc leads from them to another node.
#![tactic(auto)]

mod walk;
mod ways;

ghost use Rattle.std.specs.Prelude.{◌+◌};
ghost use Rattle.scratch.specs.Map.{queue_of, Room};
ghost use Rattle.scratch.specs.View.{residual_of};
ghost use Rattle.walks.specs.Walk.{Ahead, Begun, Turn, Ran, Rewound, Round};

use entries::{first, set_queue};
use paths::flip::flip;
use scratch::Shape;
use scratch::cells::Width;
use search::refresh;
use walk::walk;

// A way on from a node: an open arc to a fresh node, and that node; where there is none, the node itself.
#[derive(Clone, Copy)]
pub struct Way {
    pub by: usize,
    pub to: usize,
}

// Each node's next item is its first.
fn rewind<W: Width>(sh: Shape, scratch: &mut [W])
    requires { Room sh (W.memory scratch.old) }
    ensures { Rewound sh (W.memory scratch.old) (W.memory scratch.new) (sh.groups + 2) }
{
    let g = sh.groups;
    for v in 0..g + 2 {
        let j = first(sh, v, scratch);
        set_queue(sh, v, j, scratch);
    }
}

// Makes one walk. Where it comes to the sink, turns the path and makes every node fresh again. Answers whether it came there.
fn turn_next<W: Width>(sh: Shape, choice: &mut [u8], sheet: &[W], scratch: &mut [W]) -> bool
    requires begun { Begun sh choice.old (W.memory sheet.now) (W.memory scratch.old) }
    requires ahead { Ahead (residual_of sh (W.memory sheet.now) (W.memory scratch.old)) (queue_of sh (W.memory scratch.old)) }
    ensures { Turn sh choice.old (W.memory sheet.now) (W.memory scratch.old) choice.new (W.memory scratch.new) result }
{
    let source = sh.groups;
    let sink = source + 1;
    if walk(sh, choice, sheet, scratch) {
        flip(sh, source, sink, choice, sheet, scratch);
        refresh(sh, scratch);
        return true;
    }
    false
}

// Makes walks and turns their paths until one does not come to the sink.
fn turn_all<W: Width>(sh: Shape, choice: &mut [u8], sheet: &[W], scratch: &mut [W])
    requires begun { Begun sh choice.old (W.memory sheet.now) (W.memory scratch.old) }
    requires ahead { Ahead (residual_of sh (W.memory sheet.now) (W.memory scratch.old)) (queue_of sh (W.memory scratch.old)) }
    ensures { Ran sh choice.old (W.memory sheet.now) (W.memory scratch.old) choice.new (W.memory scratch.new) }
{
    let mut more = true;
    // stays: the loop ends where a walk fails, and no index counts the walks
    while more {
        more = turn_next(sh, choice, sheet, scratch);
    }
}

// One round. Answers whether it turned a path; where it did not, there is none.
pub fn turn_more<W: Width>(sh: Shape, choice: &mut [u8], sheet: &[W], scratch: &mut [W]) -> bool
    requires { Begun sh choice.old (W.memory sheet.now) (W.memory scratch.old) }
    ensures { Round sh choice.old (W.memory sheet.now) (W.memory scratch.old) choice.new (W.memory scratch.new) result }
{
    rewind(sh, scratch);
    if turn_next(sh, choice, sheet, scratch) {
        turn_all(sh, choice, sheet, scratch);
        refresh(sh, scratch);
        return true;
    }
    false
}
