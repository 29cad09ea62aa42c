// The flip: the path by which a search reached its target is turned round, from the target back to the start.
ghost use Rattle.std.specs.Prelude.{◌≡◌, true, ◌+◌, ◌≤◌, ◌<◌, length};
ghost use Rattle.scratch.specs.Map.{max_spare, spare_of, kept_of, Room};
ghost use Rattle.paths.specs.Flip.{Shifted, RowTurned, Turning, Turned, Path, Walked};

use entries::{card, kept, parent, pred, set_kept, set_spare, shop, spare};
use scratch::Shape;
use scratch::cells::Width;

// A place of group v is taken or given back.
fn shift<W: Width>(sh: Shape, v: usize, takes: bool, scratch: &mut [W])
    requires room { Room sh (W.memory scratch.old) }
    requires v_lt_groups { v < sh.groups }
    requires places { (takes ≡ true → 0 < spare_of sh (W.memory scratch.old) v) × (spare_of sh (W.memory scratch.old) v ≤ max_spare + 1) }
    ensures { Shifted sh (W.memory scratch.old) (W.memory scratch.new) v takes }
{
    let have = spare(sh, v, scratch);
    if takes {
        set_spare(sh, v, have - 1, scratch);
    } else {
        set_spare(sh, v, have + 1, scratch);
    }
}

// Row c goes in or out. The answer is the node where its arc came from.
fn turn_row<W: Width>(sh: Shape, c: usize, choice: &mut [u8], scratch: &[W]) -> usize
    requires room { Room sh (W.memory scratch.now) }
    requires c_lt_rows { (c < sh.rows) × (sh.rows ≤ length choice.old) }
    requires c_bound { kept_of choice.old c ≤ 1 }
    ensures { RowTurned sh choice.old (W.memory scratch.now) choice.new c result }
{
    if kept(c, choice) == 1 {
        set_kept(c, 0, choice);
        return shop(sh, c, scratch);
    }
    set_kept(c, 1, choice);
    card(sh, c, scratch)
}

// The arc by which node v was reached is turned. The answer is the node where it came from.
fn turn<W: Width>(sh: Shape, v: usize, choice: &mut [u8], sheet: &[W], scratch: &mut [W]) -> usize
    requires { Turning sh choice.old (W.memory sheet.now) (W.memory scratch.old) v }
    ensures { Turned sh choice.old (W.memory sheet.now) (W.memory scratch.old) choice.new (W.memory scratch.new) v result }
{
    let g = sh.groups;
    let n = sh.rows;
    let cards = sh.cards;
    let e = pred(sh, v, scratch) - 1;
    if e < g {
        let up = parent(sh, e, scratch);
        shift(sh, e, e < cards, scratch);
        return up;
    }
    if e < g + n {
        return turn_row(sh, e - g, choice, scratch);
    }
    let x = e - g - n;
    shift(sh, x, x >= cards, scratch);
    x
}

// Turns the path round by which the target was reached from the start. It has no more arcs than there are nodes.
pub fn flip<W: Width>(
    sh: Shape,
    start: usize,
    target: usize,
    choice: &mut [u8],
    sheet: &[W],
    scratch: &mut [W],
)
    requires { Path sh choice.old (W.memory sheet.now) (W.memory scratch.old) start target }
    ensures { Walked sh choice.old (W.memory sheet.now) (W.memory scratch.old) choice.new (W.memory scratch.new) start target }
{
    let mut u = target;
    // stays: the path is followed from node to node, and no index counts its arcs
    // counted for the proof alone
    let mut arcs: usize = 0;
    while u != start {
        u = turn(sh, u, choice, sheet, scratch);
        arcs += 1;
    }
}
