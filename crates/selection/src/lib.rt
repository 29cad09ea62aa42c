// Selections of a file's rows, as lent bytes: whether the bytes are 0 or 1, how many rows are kept, and how many of those are of a kind.
//
// A selection is one byte a row, and a row is kept where its byte is 1; bytes past the last row are not read. The counts are right
// whatever the other bytes are.
#![tactic(auto)]

ghost use Rattle.std.specs.Prelude.{◌≡◌, ◌+◌, ◌≤◌, ◌<◌, length};
ghost use Rattle.theory.specs.Sum.{pick};
ghost use Rattle.selection.specs.Selection.{bits, kept_of, Covers, Counted};

use claimfile::{Layout, claim_of};

// The two kinds of the first terms.
pub const ORDINARY: u8 = 0;

pub const EARNED: u8 = 1;

// How many rows are kept, and how many of those are of a kind.
#[derive(Clone, Copy)]
pub struct Counts {
    pub matched: usize,
    pub kept: usize,
}

// Whether each of the first `rows` bytes of a selection is 0 or 1.
pub fn all_bits(selection: &[u8], rows: usize) -> bool
    requires { rows ≤ length selection.now }
    ensures { result ≡ bits rows selection.now }
{
    selection[..rows].iter().all(|b| *b <= 1)
}

// The counts with row `c`.
fn count_row(
    file: &[u8],
    layout: Layout,
    kind: u8,
    c: usize,
    counts: Counts,
    selection: &[u8],
) -> Counts
    requires { (Covers file.now layout selection.now) × (c < layout.rows) × Counted file.now layout kind c selection.now counts }
    ensures { Counted file.now layout kind (c + 1) selection.now result }
{
    if selection[c] != 1 {
        return counts;
    }
    let claim = claim_of(file, layout, c);
    Counts {
        matched: counts.matched + usize::from(claim.kind == kind),
        kept: counts.kept + 1,
    }
}

// Counts the kept rows of a file, and those of a kind.
pub fn count_rows(file: &[u8], layout: Layout, kind: u8, selection: &[u8]) -> Counts
    requires { Covers file.now layout selection.now }
    ensures { Counted file.now layout kind layout.rows selection.now result }
{
    let mut counts = Counts {
        matched: 0,
        kept: 0,
    };
    for c in 0..layout.rows {
        counts = count_row(file, layout, kind, c, counts, selection);
    }
    counts
}

// How many of the kept rows are of a kind.
pub fn kept_of_kind(file: &[u8], layout: Layout, kind: u8, selection: &[u8]) -> usize
    requires { Covers file.now layout selection.now }
    ensures { (result ≡ kept_of file.now layout kind layout.rows selection.now) × (result ≤ layout.rows) }
{
    let counts = count_rows(file, layout, kind, selection);
    counts.matched
}
