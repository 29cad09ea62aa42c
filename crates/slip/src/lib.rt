// The slip for the counter's roll of 32 columns: which rows are kept, in a text that a lent buffer takes.
//
// `write_slip` takes any bytes, in a form, and any buffer. `slip_on` does the same for a file that is accepted with a known layout. The
// whole slip is written at the buffer's start, or nothing. It has no limit in it, so that a stored file's is the same.
#![tactic(auto)]

ghost use Rattle.std.specs.Prelude.{◌<◌, eqb};
ghost use Rattle.text.specs.Buffer.{Appended, Room};
ghost use Rattle.claimfile.specs.Sound.{Sound};
ghost use Rattle.selection.specs.Selection.{Covers, Counted};
ghost use Rattle.slip.specs.Slip.{first_line, row_line, kept_line, kept_lines, slip};
ghost use Rattle.slip.specs.Write.{WritesOn, Slips};

use claimfile::{DAYS, Form, Layout, claim_of};
use reader::read;
use refusal::Reason;
use selection::{Counts, EARNED, all_bits, count_rows};
use text::{put, put_either, put_right, put_spread};

// The bytes of a line, with its line feed.
const WIDTH: usize = 33;

// The first line: the rows, the earned rows kept and the rows kept.
fn put_first(at: usize, rows: usize, earned: usize, kept: usize, out: &mut [u8]) -> usize
    requires { Room at (first_line rows earned kept) }
    ensures { Appended out.old out.new at result (first_line rows earned kept) }
{
    let after_rows = put_spread(at, 11, b"CLAIMS", rows as u64, out);
    let after_earned = put_spread(after_rows, 11, b"EARNED", earned as u64, out);
    let after_kept = put_spread(after_earned, 10, b"KEPT", kept as u64, out);
    put(after_kept, b'\n', out)
}

// The line of row `c`, with the groups that it names.
fn put_row(at: usize, c: usize, card: usize, shop: usize, kind: u8, out: &mut [u8]) -> usize
    requires { Room at (row_line c card shop (eqb kind 1)) }
    ensures { Appended out.old out.new at result (row_line c card shop (eqb kind 1)) }
{
    let after_row = put_right(at, 8, c as u64, out);
    let after_card = put_right(after_row, 8, card as u64, out);
    let after_shop = put_right(after_card, 8, shop as u64, out);
    let after_kind = put_either(after_shop, kind == 1, b"  EARNED", b"   PLAIN", out);
    put(after_kind, b'\n', out)
}

// The line of row `c` where it is kept, else nothing.
fn put_kept(
    file: &[u8],
    layout: Layout,
    at: usize,
    c: usize,
    selection: &[u8],
    out: &mut [u8],
) -> usize
    requires covers { (Covers file.now layout selection.now) × (c < layout.rows) }
    requires room { Room at (kept_line file.now layout c selection.now) }
    ensures { Appended out.old out.new at result (kept_line file.now layout c selection.now) }
{
    if selection[c] != 1 {
        return at;
    }
    let claim = claim_of(file, layout, c);
    put_row(at, c, claim.card, claim.shop, claim.kind, out)
}

// The lines of the kept rows.
fn put_rows(file: &[u8], layout: Layout, at: usize, selection: &[u8], out: &mut [u8]) -> usize
    requires covers { Covers file.now layout selection.now }
    requires room { Room at (kept_lines file.now layout layout.rows selection.now) }
    ensures { Appended out.old out.new at result (kept_lines file.now layout layout.rows selection.now) }
{
    let mut next = at;
    for c in 0..layout.rows {
        next = put_kept(file, layout, next, c, selection, out);
    }
    next
}

// The whole slip, at the buffer's start.
fn put_slip(file: &[u8], layout: Layout, counts: Counts, selection: &[u8], out: &mut [u8]) -> usize
    requires covers { Covers file.now layout selection.now }
    requires counted { Counted file.now layout 1 layout.rows selection.now counts }
    ensures { Appended out.old out.new 0 result (slip file.now layout selection.now) }
{
    let after_first = put_first(0, layout.rows, counts.matched, counts.kept, out);
    put_rows(file, layout, after_first, selection, out)
}

// Writes the slip of an accepted file: 8 where the selection or the buffer is too short, 12 where the week does not have the day, 9 where a
// byte of the selection is over 1.
pub fn slip_on(
    file: &[u8],
    layout: Layout,
    selection: &[u8],
    out: &mut [u8],
) -> Result<usize, Reason>
    requires { Sound file.now layout }
    ensures { WritesOn file.now layout selection.now out.old out.new result }
{
    let rows = layout.rows;
    if selection.len() < rows {
        return Err(Reason::Short);
    }
    let counts = count_rows(file, layout, EARNED, selection);
    let kept = counts.kept;
    if out.len() < WIDTH * (kept + 1) {
        return Err(Reason::Short);
    }
    if DAYS <= layout.day {
        return Err(Reason::Day);
    }
    if !all_bits(selection, rows) {
        return Err(Reason::Value);
    }
    Ok(put_slip(file, layout, counts, selection, out))
}

// Writes the slip of a file in a form, with a selection whose ones are the kept rows. The selection has N bytes or more, where N is the
// number of claims, and the buffer 33 × (kept + 1) or more, where kept is how many of the N bytes are 1.
pub fn write_slip(
    file: &[u8],
    form: Form,
    selection: &[u8],
    out: &mut [u8],
) -> Result<usize, Reason>
    ensures { Slips form file.now selection.now out.old out.new result }
{
    let layout = read(file, form)?;
    slip_on(file, layout, selection, out)
}
