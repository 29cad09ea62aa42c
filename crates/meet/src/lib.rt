// A search from both ends: from the start along open arcs, and from the target against them, until an arc leads from what the one reached
// to what the other did, or one of them has no arc left. It changes label and queue alone.
//
// A node that is reached from the start by arc e has the label fresh + e + 1, and one that is reached from the target fresh + SPAN + e + 1.
// The places of the queue from 0 up hold the former, those from groups + 2 down the latter. The end that has reached fewer nodes goes on: a
// search that fails costs about as much as the smaller of the two sets, and that set is known then.
#![tactic(auto)]

pub mod splice;
mod step;

ghost use Rattle.meet.specs.Meet.{Asked, Held, Begun, Met};

use entries::{SPAN, queue, set_label, set_queue};
use scratch::Shape;
use scratch::cells::Width;
use step::{scan_in, scan_out};

// How many nodes are reached in a direction, and an arc that leads to the other end, plus 1; or 0.
#[derive(Clone, Copy)]
pub struct Seen {
    pub count: usize,
    pub hit: usize,
}

// How many nodes are reached from the start and from the target, and the arc that joins them, plus 1. Where that is 0, no path leads from
// the start to the target: where `out` holds no open arc leaves the nodes that were reached from the start, else none enters those from
// which the target is reached.
#[derive(Clone, Copy)]
pub struct Ends {
    pub n: usize,
    pub m: usize,
    pub hit: usize,
    pub out: bool,
}

// Both ends are reached, by a number that no arc has.
fn start_both<W: Width>(
    sh: Shape,
    start: usize,
    target: usize,
    choice: &[u8],
    sheet: &[W],
    scratch: &mut [W],
)
    requires { Asked sh choice.now (W.memory sheet.now) (W.memory scratch.old) start target }
    ensures { Held sh choice.now (W.memory sheet.now) (W.memory scratch.old) (W.memory scratch.new) start target 1 1 }
{
    let g = sh.groups;
    let rows = sh.rows;
    let fresh = sh.fresh;
    let name = fresh + 2 * g + rows + 1;
    set_label(sh, start, name, scratch);
    set_queue(sh, 0, start, scratch);
    set_label(sh, target, name + SPAN, scratch);
    set_queue(sh, g + 2, target, scratch);
}

// Goes on from the two ends, one node after another: from the end that has reached fewer.
fn spread_both<W: Width>(
    sh: Shape,
    start: usize,
    target: usize,
    choice: &[u8],
    sheet: &[W],
    scratch: &mut [W],
) -> Ends
    requires { Begun sh choice.now (W.memory sheet.now) (W.memory scratch.old) start target }
    ensures { let sheet₀ = W.memory sheet.now in
        let scratch₀ = W.memory scratch.old in
        let scratch' = W.memory scratch.new in
        ((B : Begun sh choice.now sheet₀ scratch₀ start target) →
        Met sh choice.now sheet₀ B.old scratch' start target result.n result.m result.hit result.out) }
{
    let g = sh.groups;
    let mut n: usize = 1;
    let mut m: usize = 1;
    let mut h: usize = 0;
    let mut k: usize = 0;
    let mut hit: usize = 0;
    // stays: both queues grow while they are gone through, and the two ends take turns
    while (h < n) & (k < m) & (hit == 0) {
        if n <= m {
            let u = queue(sh, h, scratch);
            let seen = scan_out(sh, u, n, m, choice, sheet, scratch);
            n = seen.count;
            hit = seen.hit;
            h += 1;
        } else {
            let u = queue(sh, g + 2 - k, scratch);
            let seen = scan_in(sh, u, m, n, choice, sheet, scratch);
            m = seen.count;
            hit = seen.hit;
            k += 1;
        }
    }
    let out = h >= n;
    Ends { n, m, hit, out }
}

// Searches from both ends.
pub fn search_both<W: Width>(
    sh: Shape,
    start: usize,
    target: usize,
    choice: &[u8],
    sheet: &[W],
    scratch: &mut [W],
) -> Ends
    requires { Asked sh choice.now (W.memory sheet.now) (W.memory scratch.old) start target }
    ensures { let sheet₀ = W.memory sheet.now in
        let scratch₀ = W.memory scratch.old in
        let scratch' = W.memory scratch.new in
        Met sh choice.now sheet₀ scratch₀ scratch' start target result.n result.m result.hit result.out }
{
    start_both(sh, start, target, choice, sheet, scratch);
    spread_both(sh, start, target, choice, sheet, scratch)
}
