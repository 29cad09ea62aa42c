// The text that the program `settle` writes, put into a lent buffer.
//
// `write_closed` and `write_refused` write the whole text at the start of `out`, or nothing where `out` is too short, and
// answer how many bytes were written; no text is empty. Both first put the text into one cell of no use, which tells how
// long it is (see crate `text`).
#![tactic(auto)]

ghost use Rattle.std.specs.Prelude.{◌≤◌, length};
ghost use Rattle.theory.specs.Matroid.{row};
ghost use Rattle.text.specs.Buffer.{Appended, Room, Written};
ghost use Rattle.claimfile.specs.Day.{kind_of};
ghost use Rattle.claimfile.specs.Sound.{Sound};
ghost use Rattle.report.specs.Text.{row_line, row_lines, first_line, closed_text, refused_text};

use claimfile::{Layout, claim_of};
use text::{put, put_decimal, put_either, put_field, put_line};

// The line of row `c`.
fn put_row(at: usize, c: usize, kind: u8, chosen: u8, out: &mut [u8]) -> usize
    requires { Room at (row_line c kind chosen) }
    ensures { Appended out.old out.new at result (row_line c kind chosen) }
{
    let after_number = put_decimal(at, c as u64, out);
    let after_fate = put_either(after_number, chosen == 1, b" kept ", b" no ", out);
    let after_kind = put_either(after_fate, kind == 0, b"ordinary", b"earned", out);
    put(after_kind, b'\n', out)
}

// The lines of all rows.
fn put_rows(file: &[u8], layout: Layout, at: usize, choice: &[u8], out: &mut [u8]) -> usize
    requires sound { (Sound file.now layout) × (layout.rows ≤ length choice.now) }
    requires room { Room at (row_lines layout.rows (kind_of file.now layout) (row choice.now)) }
    ensures { Appended out.old out.new at result (row_lines layout.rows (kind_of file.now layout) (row choice.now)) }
{
    let mut next = at;
    for c in 0..layout.rows {
        let claim = claim_of(file, layout, c);
        next = put_row(next, c, claim.kind, choice[c], out);
    }
    next
}

// The first line: the rows, the earned rows kept and the rows kept.
fn put_first(at: usize, rows: usize, earned: usize, kept: usize, out: &mut [u8]) -> usize
    requires { Room at (first_line rows earned kept) }
    ensures { Appended out.old out.new at result (first_line rows earned kept) }
{
    let after_rows = put_field(at, b"claims ", rows as u64, out);
    let after_earned = put_field(after_rows, b" earned ", earned as u64, out);
    let after_kept = put_field(after_earned, b" kept ", kept as u64, out);
    put(after_kept, b'\n', out)
}

// The whole text of a closed day.
fn put_closed(
    file: &[u8],
    layout: Layout,
    earned: usize,
    kept: usize,
    total: u64,
    choice: &[u8],
    out: &mut [u8],
) -> usize
    requires { (Sound file.now layout) × (layout.rows ≤ length choice.now) }
    ensures { Appended out.old out.new 0 result (closed_text layout.rows (kind_of file.now layout) (row choice.now) earned kept total) }
{
    let after_first = put_first(0, layout.rows, earned, kept, out);
    let after_rows = put_rows(file, layout, after_first, choice, out);
    put_line(after_rows, b"total ", total, out)
}

// Writes the text of a closed day: of an accepted file with its layout, of a choice with a byte for each row at least, and of
// the three numbers that settling answers.
pub fn write_closed(
    file: &[u8],
    layout: Layout,
    earned: usize,
    kept: usize,
    total: u64,
    choice: &[u8],
    out: &mut [u8],
) -> usize
    requires { (Sound file.now layout) × (layout.rows ≤ length choice.now) }
    ensures { Written (closed_text layout.rows (kind_of file.now layout) (row choice.now) earned kept total) out.old out.new result }
{
    let mut unused = [0u8; 1];
    let need = put_closed(file, layout, earned, kept, total, choice, &mut unused);
    if out.len() < need {
        return 0;
    }
    put_closed(file, layout, earned, kept, total, choice, out)
}

// Writes the text of a file that is turned away with `number`.
pub fn write_refused(number: u32, out: &mut [u8]) -> usize
    ensures { Written (refused_text number) out.old out.new result }
{
    let mut unused = [0u8; 1];
    let need = put_line(0, b"refused ", number as u64, &mut unused);
    if out.len() < need {
        return 0;
    }
    put_line(0, b"refused ", number as u64, out)
}
