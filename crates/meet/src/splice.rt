// The two ways of a search from both ends become one: the nodes on the way from the joining arc to the target get the labels that they had
// if the search had come to them from the start.
ghost use Rattle.std.specs.Prelude.{◌+◌, ◌*◌, ◌<◌};
ghost use Rattle.scratch.specs.Map.{spare_of, kept_of};
ghost use Rattle.scratch.specs.View.{residual_of};
ghost use Rattle.residual.specs.State.{Ready};
ghost use Rattle.meet.specs.Splice.{HeadOf, Joined, Spliced};

use entries::{SPAN, arc_in, card, kept, label, parent, set_label, shop};
use scratch::Shape;
use scratch::cells::Width;

// The node to which arc e leads.
fn head<W: Width>(sh: Shape, e: usize, choice: &[u8], sheet: &[W], scratch: &[W]) -> usize
    requires ready { Ready sh choice.now (W.memory sheet.now) (W.memory scratch.now) }
    requires e_bound { e < 2 * sh.groups + sh.rows }
    ensures { HeadOf (residual_of sh (W.memory sheet.now) (W.memory scratch.now)) (kept_of choice.now) (spare_of sh (W.memory scratch.now)) e result }
{
    let g = sh.groups;
    let n = sh.rows;
    if e < g {
        return e;
    }
    if e < g + n {
        let c = e - g;
        if kept(c, choice) == 1 {
            return card(sh, c, scratch);
        }
        return shop(sh, c, scratch);
    }
    parent(sh, e - g - n, scratch)
}

// Gives the nodes on the way from arc `hit` - 1 to the target labels as if they had been reached from the start.
pub fn splice<W: Width>(
    sh: Shape,
    start: usize,
    target: usize,
    hit: usize,
    choice: &[u8],
    sheet: &[W],
    scratch: &mut [W],
)
    requires { Joined sh choice.now (W.memory sheet.now) (W.memory scratch.old) start target hit }
    ensures { Spliced sh choice.now (W.memory sheet.now) (W.memory scratch.old) (W.memory scratch.new) start target }
{
    let g = sh.groups;
    let rows = sh.rows;
    let fresh = sh.fresh;
    let mut e = hit - 1;
    // stays: the way is followed from arc to arc by the labels of its nodes
    while e < 2 * g + rows {
        let v = head(sh, e, choice, sheet, scratch);
        let next = arc_in(fresh + SPAN, label(sh, v, scratch)) - 1;
        set_label(sh, v, fresh + e + 1, scratch);
        e = next;
    }
}
