// Labels of nodes, and the codes of the rows that are read off them.
//
// A node that is reached from the source has one label, and a node that reaches the sink another. What holds an earned row is told by the
// labels of its two nodes; an ordinary row weighs less than the toll and has the code 0.
#![tactic(auto)]

ghost use Rattle.std.specs.Prelude.{◌≤◌, ◌<◌, length};
ghost use Rattle.residual.specs.Items.{Raw};
ghost use Rattle.labels.specs.Label.{Reads, Coding};

use entries::{SPAN, card, label, set_kept, shop, weight};
use scratch::Shape;
use scratch::cells::Width;

// The labels of the nodes that are reached from the source, and of those that reach the sink.
pub const FROM_SOURCE: usize = SPAN;

pub const TO_SINK: usize = 2 * SPAN;

// What the labels of row c's two nodes tell.
fn code_at<W: Width>(sh: Shape, c: usize, scratch: &[W]) -> u8
    requires { Raw sh (W.memory scratch.now) × (c < sh.rows) }
    ensures { Reads sh (W.memory scratch.now) c result }
{
    let toll = sh.toll;
    if weight(sh, c, scratch) != toll {
        return 0;
    }
    let a = label(sh, card(sh, c, scratch), scratch);
    let b = label(sh, shop(sh, c, scratch), scratch);
    if a != b {
        return 3;
    }
    if a == FROM_SOURCE {
        return 1;
    }
    if a == TO_SINK {
        return 2;
    }
    3
}

// Puts the code of each row in its byte.
pub fn put_codes<W: Width>(sh: Shape, codes: &mut [u8], scratch: &[W])
    requires { Raw sh (W.memory scratch.now) × (sh.rows ≤ length codes.old) }
    ensures { Coding sh (W.memory scratch.now) codes.old codes.new sh.rows }
{
    for c in 0..sh.rows {
        let code = code_at(sh, c, scratch);
        set_kept(c, code, codes);
    }
}
