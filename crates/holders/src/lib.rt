// From tables in the lent scratch to the codes of the rows.
//
// With no prices and the weight of an earned row as the toll the rows of slack 0 are the earned ones. Paths from the source to the
// sink are turned until there is none: the kept rows are then a largest choice of earned rows. The nodes that are reached from the
// source get a label, and those that reach the sink another; a row's code is read off the labels of its two nodes
// (crate `labels`).
#![tactic(auto)]

ghost use Rattle.std.specs.Prelude.{◌+◌, ◌<◌};
ghost use Rattle.scratch.specs.Map.{Room};
ghost use Rattle.solver.specs.Solve.{Tables};
ghost use Rattle.solver.specs.Toll.{Running};
ghost use Rattle.holders.specs.Find.{Augmented, NamedNode, Named, SourceLabelled, BothLabelled, Found};

use entries::{pred, set_label};
use labels::{FROM_SOURCE, TO_SINK, put_codes};
use scratch::Shape;
use scratch::cells::Width;
use search::{relabel, search_back};
use solver::start;
use walks::turn_more;

// Turns paths from the source to the sink until there is none. The nodes that are reached then have a pred.
fn augment<W: Width>(sh: Shape, choice: &mut [u8], sheet: &[W], scratch: &mut [W])
    requires { Running sh choice.old (W.memory sheet.now) (W.memory scratch.old) }
    ensures { Augmented sh choice.old (W.memory sheet.now) (W.memory scratch.old) choice.new (W.memory scratch.new) }
{
    let mut more = true;
    while more {
        more = turn_more(sh, choice, sheet, scratch);
    }
}

// Node v gets the label of those that are reached from the source, where it is one of them.
fn label_reached<W: Width>(sh: Shape, v: usize, scratch: &mut [W])
    requires room { Room sh (W.memory scratch.old) }
    requires v_bound { v < sh.groups + 2 }
    ensures { NamedNode sh (W.memory scratch.old) (W.memory scratch.new) v }
{
    if pred(sh, v, scratch) > 0 {
        set_label(sh, v, FROM_SOURCE, scratch);
    }
}

// The nodes that are reached from the source get their label.
fn label_source<W: Width>(sh: Shape, scratch: &mut [W])
    requires { Room sh (W.memory scratch.old) }
    ensures { Named sh (W.memory scratch.old) (W.memory scratch.new) (sh.groups + 2) }
{
    let g = sh.groups;
    for v in 0..g + 2 {
        label_reached(sh, v, scratch);
    }
}

// The nodes that reach the sink get their label. The source is no fresh node, so the search goes on to its end.
fn label_sink<W: Width>(sh: Shape, choice: &[u8], sheet: &[W], scratch: &mut [W])
    requires { SourceLabelled sh choice.now (W.memory sheet.now) (W.memory scratch.old) }
    ensures { BothLabelled sh choice.now (W.memory sheet.now) (W.memory scratch.old) (W.memory scratch.new) }
{
    let source = sh.groups;
    let sink = source + 1;
    let n = search_back(sh, sink, source, choice, sheet, scratch);
    relabel(sh, n, TO_SINK, scratch);
}

// Leaves the codes of the rows in the lent bytes.
pub fn find_codes<W: Width>(sh: Shape, codes: &mut [u8], sheet: &mut [W], scratch: &mut [W])
    requires { Tables sh codes.old (W.memory sheet.old) (W.memory scratch.old) }
    ensures { Found sh (W.memory scratch.old) codes.old codes.new }
{
    start(sh, codes, sheet, scratch);
    augment(sh, codes, sheet, scratch);
    label_source(sh, scratch);
    label_sink(sh, codes, sheet, scratch);
    put_codes(sh, codes, scratch);
}
