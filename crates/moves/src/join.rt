// The path of a search from both ends, turned round.
ghost use Rattle.moves.specs.Join.{Meeting, Exchanged};

use meet::splice::splice;
use paths::flip::flip;
use scratch::Shape;
use scratch::cells::Width;
use search::{relabel, relabel_last};

// Turns the path from the start to the target that goes over arc `hit` - 1, and makes the n nodes fresh again that were reached from the
// start and the m that were reached from the target.
pub fn turn_joined<W: Width>(
    sh: Shape,
    start: usize,
    target: usize,
    n: usize,
    m: usize,
    hit: usize,
    choice: &mut [u8],
    sheet: &[W],
    scratch: &mut [W],
)
    requires { Meeting sh choice.old (W.memory sheet.now) (W.memory scratch.old) start target n m hit }
    ensures { Exchanged sh choice.old (W.memory sheet.now) (W.memory scratch.old) choice.new (W.memory scratch.new) start target }
{
    let fresh = sh.fresh;
    splice(sh, start, target, hit, choice, sheet, scratch);
    flip(sh, start, target, choice, sheet, scratch);
    relabel(sh, n, fresh, scratch);
    relabel_last(sh, m, fresh, scratch);
}
