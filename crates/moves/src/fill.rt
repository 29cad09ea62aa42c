// Filling: rows that cost their weight and have a place left in every group that they count in are kept, in one pass and
// without a search. A group under which no row has a place is shut: cell v of the queue, which no search needs meanwhile, is
// 1 where group v is shut, else 0. The marks only save walks, and no contract speaks of them.
ghost use Rattle.std.specs.Prelude.{◌≡◌, true, ◌+◌, ◌<◌};
ghost use Rattle.theory.specs.Formed.{Formed};
ghost use Rattle.scratch.specs.Map.{Room};
ghost use Rattle.scratch.specs.View.{net_of};
ghost use Rattle.prices.specs.State.{State};
ghost use Rattle.moves.specs.Fill.{Rooted, Low, Above, OnlyMarks, Shifts, Climbed, Tried, Tight, Added};

use entries::{
    card, kept, parent, queue, row_price, set_kept, set_queue, set_spare, shop, spare, weight,
};
use scratch::Shape;
use scratch::cells::Width;

// Whether node v is shut.
fn is_shut<W: Width>(sh: Shape, v: usize, scratch: &[W]) -> bool
    requires room { Room sh (W.memory scratch.now) }
    requires v_bound { v < sh.groups + 2 }
{
    queue(sh, v, scratch) != 0
}

// Takes a place in each group from u up, until one has none left. Answers that group, or the root where all had one. The parent is read
// before the place is stored, so that the walk waits for no store.
fn climb<W: Width>(sh: Shape, u: usize, scratch: &mut [W]) -> usize
    requires { Rooted sh (W.memory scratch.old) }
    ensures { Climbed sh (W.memory scratch.old) (W.memory scratch.new) u result }
{
    let g = sh.groups;
    let mut v = u;
    // stays: the groups from u up are followed from parent to parent
    while v < g {
        let left = spare(sh, v, scratch);
        let up = parent(sh, v, scratch);
        if left == 0 {
            return v;
        }
        set_spare(sh, v, left - 1, scratch);
        v = up;
    }
    v
}

// Gives a place back in each group from u up and below `end`.
fn give_back<W: Width>(sh: Shape, u: usize, end: usize, scratch: &mut [W])
    requires rooted { Rooted sh (W.memory scratch.old) }
    requires low { Low sh (W.memory scratch.old) }
    requires above { Above sh (W.memory scratch.old) u end }
    ensures { Shifts sh (W.memory scratch.old) (W.memory scratch.new) end u }
{
    let mut v = u;
    // stays: the groups from u up are followed from parent to parent
    while v != end {
        let left = spare(sh, v, scratch);
        set_spare(sh, v, left + 1, scratch);
        v = parent(sh, v, scratch);
    }
}

// Shuts the groups from u up to `end`: no row below them has a place in this filling.
fn shut_up_to<W: Width>(sh: Shape, u: usize, end: usize, scratch: &mut [W])
    requires { Rooted sh (W.memory scratch.old) }
    ensures { OnlyMarks sh (W.memory scratch.old) (W.memory scratch.new) }
{
    let g = sh.groups;
    let mut v = u;
    // stays: the groups from u up are followed from parent to parent
    while v < g {
        set_queue(sh, v, 1, scratch);
        if v == end {
            return;
        }
        v = parent(sh, v, scratch);
    }
}

// Takes a place in each group from u up and answers the root. Where one has none left, takes no place, shuts the groups up to that one
// and answers it.
fn take_places<W: Width>(sh: Shape, u: usize, scratch: &mut [W]) -> usize
    requires rooted { Rooted sh (W.memory scratch.old) }
    requires low { Low sh (W.memory scratch.old) }
    ensures { Tried sh (W.memory scratch.old) (W.memory scratch.new) u result }
{
    let g = sh.groups;
    let top = climb(sh, u, scratch);
    if top < g {
        give_back(sh, u, top, scratch);
        shut_up_to(sh, u, top, scratch);
    }
    top
}

// Whether neither node of row c is shut.
fn is_open<W: Width>(sh: Shape, c: usize, scratch: &[W]) -> bool
    requires room { Room sh (W.memory scratch.now) }
    requires formed { Formed (net_of sh (W.memory scratch.now)) }
    requires c_lt_rows { c < sh.rows }
{
    let a = card(sh, c, scratch);
    let b = shop(sh, c, scratch);
    !(is_shut(sh, a, scratch) | is_shut(sh, b, scratch))
}

// Whether row c is left out, costs its weight, and hangs at two nodes that are not shut.
fn may_keep<W: Width>(sh: Shape, c: usize, choice: &[u8], sheet: &[W], scratch: &[W]) -> bool
    requires state { State sh choice.now (W.memory sheet.now) (W.memory scratch.now) }
    requires c_lt_rows { c < sh.rows }
    ensures { (result ≡ true → Tight sh choice.now (W.memory sheet.now) (W.memory scratch.now) c) }
{
    let toll = sh.toll;
    let out = kept(c, choice) == 0;
    let even = row_price(sh, c, sheet, scratch) + toll == weight(sh, c, scratch);
    // `&` makes every test: a branch for each would be taken wrongly too often
    out & even & is_open(sh, c, scratch)
}

// Keeps row c where it has a place left in each group that it counts in.
fn keep_row<W: Width>(sh: Shape, c: usize, choice: &mut [u8], sheet: &[W], scratch: &mut [W])
    requires state { State sh choice.old (W.memory sheet.now) (W.memory scratch.old) }
    requires c_lt_rows { c < sh.rows }
    requires tight { Tight sh choice.old (W.memory sheet.now) (W.memory scratch.old) c }
    ensures { Added sh choice.old (W.memory sheet.now) (W.memory scratch.old) choice.new (W.memory scratch.new) }
{
    let g = sh.groups;
    let a = card(sh, c, scratch);
    let b = shop(sh, c, scratch);
    let top = take_places(sh, b, scratch);
    if top < g {
        return;
    }
    if take_places(sh, a, scratch) < g {
        give_back(sh, b, top, scratch);
        return;
    }
    set_kept(c, 1, choice);
}

// Keeps row c where it may be kept.
fn fill_row<W: Width>(sh: Shape, c: usize, choice: &mut [u8], sheet: &[W], scratch: &mut [W])
    requires state { State sh choice.old (W.memory sheet.now) (W.memory scratch.old) }
    requires c_lt_rows { c < sh.rows }
    ensures { Added sh choice.old (W.memory sheet.now) (W.memory scratch.old) choice.new (W.memory scratch.new) }
{
    if may_keep(sh, c, choice, sheet, scratch) {
        keep_row(sh, c, choice, sheet, scratch);
    }
}

// Keeps the rows that may be kept, one after another.
fn fill_rows<W: Width>(sh: Shape, choice: &mut [u8], sheet: &[W], scratch: &mut [W])
    requires { State sh choice.old (W.memory sheet.now) (W.memory scratch.old) }
    ensures { Added sh choice.old (W.memory sheet.now) (W.memory scratch.old) choice.new (W.memory scratch.new) }
{
    for c in 0..sh.rows {
        fill_row(sh, c, choice, sheet, scratch);
    }
}

// Makes every node one that is not shut.
fn open_all<W: Width>(sh: Shape, scratch: &mut [W])
    requires { Room sh (W.memory scratch.old) }
    ensures { OnlyMarks sh (W.memory scratch.old) (W.memory scratch.new) }
{
    let g = sh.groups;
    for v in 0..g + 2 {
        set_queue(sh, v, 0, scratch);
    }
}

// Keeps rows that cost their weight and have a place left in each group that they count in.
pub fn fill<W: Width>(sh: Shape, choice: &mut [u8], sheet: &[W], scratch: &mut [W])
    requires { State sh choice.old (W.memory sheet.now) (W.memory scratch.old) }
    ensures { Added sh choice.old (W.memory sheet.now) (W.memory scratch.old) choice.new (W.memory scratch.new) }
{
    open_all(sh, scratch);
    fill_rows(sh, choice, sheet, scratch);
}

// Fills while there is a toll. With none left no choice is heavier, and so no row that has a weight could be added.
pub fn fill_under_toll<W: Width>(sh: Shape, choice: &mut [u8], sheet: &[W], scratch: &mut [W])
    requires { State sh choice.old (W.memory sheet.now) (W.memory scratch.old) }
    ensures { Added sh choice.old (W.memory sheet.now) (W.memory scratch.old) choice.new (W.memory scratch.new) }
{
    let toll = sh.toll;
    if toll > 0 {
        fill(sh, choice, sheet, scratch);
    }
}
