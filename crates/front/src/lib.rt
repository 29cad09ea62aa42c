// The program: it settles the claim file on standard input and prints the result.
#![tactic(auto)]

ghost use Rattle.std.specs.Prelude.{◌≡◌, ◌+◌, ◌*◌, ◌≤◌, length};
ghost use Rattle.theory.specs.Bounds.{max_groups, max_rows};
ghost use Rattle.claimwriter.specs.Written.{length_for};
ghost use Rattle.closing.specs.Settle.{cells_for};
ghost use Rattle.printout.specs.Printout.{longest_text};

use printout::print_day;
use std::io::Read;
use theory::{MAX_GROUPS, MAX_ROWS};

// The lengths that the largest day needs.
const CHOICE: usize = MAX_ROWS;

const SHEET: usize = 2 * MAX_GROUPS + MAX_ROWS;

const SCRATCH: usize = 6 * (2 * MAX_GROUPS) + 3 * MAX_ROWS;

// The longest file has 10,758 bytes (`longest` in reader/proofs/AcceptedLaws.antt); one more is read, so that a byte too many is seen.
fn file_buffer() -> [u8; 10759]
    ensures { length_for max_groups max_groups max_rows + 1 ≡ length result }
{
    [0; 10759]
}

fn choice_buffer() -> [u8; CHOICE]
    ensures { max_rows ≡ length result }
{
    [0; CHOICE]
}

fn sheet_buffer() -> [u32; SHEET]
    ensures { 2 * max_groups + max_rows ≡ length result }
{
    [0; SHEET]
}

fn scratch_buffer() -> [u32; SCRATCH]
    ensures { cells_for (2 * max_groups) max_rows ≡ length result }
{
    [0; SCRATCH]
}

// Enough for every text: `printed-whole` in printout/proofs/RoomLaws.antt.
fn text_buffer() -> [u8; 9600]
    ensures { longest_text ≡ length result }
{
    [0; 9600]
}

// Reads until the buffer is full, the input ends or a read fails, and answers how many bytes it put at the buffer's start.
fn read_full<R: Read>(input: &mut R, buffer: &mut [u8]) -> usize
    ensures { result ≤ length buffer.new }
{
    let mut done = 0;
    // stays: the new form is no plainer: the loop goes on by as many bytes as a read gives, and `read_exact` does not say how many came.
    while done < buffer.len() {
        let n = input.read(&mut buffer[done..]).unwrap_or(0);
        if n == 0 {
            break;
        }
        done += n;
    }
    done
}

// Settles a file and writes the text. A write that fails is not told: the program's exit status says nothing.
fn run<P: Print>(output: &P, file: &[u8]) {
    let mut choice = choice_buffer();
    let mut sheet = sheet_buffer();
    let mut scratch = scratch_buffer();
    let mut text = text_buffer();
    let length = print_day(file, &mut choice, &mut sheet, &mut scratch, &mut text);
    let _ = output.write_all(&text[..length]);
}

pub fn settle_stdin<R: Input + Print>(rt: &R) {
    let mut file = file_buffer();
    let length = read_full(&mut rt.reader(), &mut file);
    run(rt, &file[..length]);
}
