// The files of several counters, end to end in one buffer.
//
// Beside the buffer stands a list of the files' lengths. `judge_files` reads each file by itself, lowest file first, and tells how many groups
// and rows they have together, or why they are turned away. The layout of a file that was accepted here is read off its three counts
// (`claimwriter::layout_in`): no file is judged twice.
#![tactic(auto)]

ghost use Rattle.std.specs.Prelude.{◌≡◌, true, ◌+◌, ◌<◌, ◌≤◌, length};
ghost use Rattle.theory.specs.Sum.{sum};
ghost use Rattle.claimfile.specs.File.{new_week};
ghost use Rattle.reader.specs.Reading.{reading};
ghost use Rattle.members.specs.declared.Fault.TheVariants.{Member, Whole};
ghost use Rattle.members.specs.Members.{most_files, length_of, part_at, reading_of, lengths_fit, more, AllOf, gathered, too_large, judged_by, judged};

use claimfile::{Form, Layout};
use reader::{Refusal, read};
use refusal::Reason;
use theory::{MAX_GROUPS, MAX_ROWS};

// The most files that are settled together.
pub const MOST_FILES: usize = 8;

// How many groups and rows the files have together.
#[derive(Clone, Copy)]
pub struct Sizes {
    pub cards: usize,
    pub shops: usize,
    pub rows: usize,
}

// Why files are turned away: the lowest file at fault, with the reader's own refusal; or a reason for all of them together.
#[derive(Clone, Copy, Debug, PartialEq, Eq)]
pub enum Fault {
    Member { file: usize, refusal: Refusal },
    Whole(Reason),
}

impl From<Reason> for Fault {
    ghost from_gives = { λ why e. e ≡ Whole why };

    fn from(why: Reason) -> Fault {
        Fault::Whole(why)
    }
}

// The length of file `k`.
pub fn length_at(lengths: &[u32], k: usize) -> usize
    requires { (k < length lengths.now) × (length lengths.now ≤ most_files) }
    ensures { (result ≡ length_of lengths.now k) × (result < 4294967296) }
{
    // stays: the new form is no plainer: as in Rust, the library has no `From` from u32 to usize, and no bit is lost here.
    lengths[k] as usize
}

// The lengths added up.
fn sum_of(lengths: &[u32]) -> usize
    requires { length lengths.now ≤ most_files }
    ensures { result ≡ sum (length lengths.now) (length_of lengths.now) }
{
    let mut total = 0;
    for k in 0..lengths.len() {
        total += length_at(lengths, k);
    }
    total
}

// Whether there are one to eight files, whose lengths add up to that of the buffer.
fn lengths_fit(total: usize, lengths: &[u32]) -> bool
    ensures { result ≡ lengths_fit total lengths.now }
{
    let n = lengths.len();
    if n == 0 {
        return false;
    }
    if MOST_FILES < n {
        return false;
    }
    sum_of(lengths) == total
}

// Reads the file of `len` bytes that starts at `at`, for a day.
fn read_part(files: &[u8], at: usize, len: usize, day: usize) -> Result<Layout, Refusal>
    requires { at + len ≤ length files.now }
    ensures { result ≡ reading (new_week day) (part_at files.now at len) }
{
    let end = at + len;
    let form = Form {
        week: true,
        stored: false,
        day,
    };
    read(&files[at..end], form)
}

// The sizes with those of one file more.
fn add(sizes: Sizes, layout: Layout) -> Sizes
    requires { (sizes.cards + layout.cards < 65536) × (sizes.shops + layout.shops < 65536) × (sizes.rows + layout.rows < 65536) }
    ensures { result ≡ more sizes layout }
{
    Sizes {
        cards: sizes.cards + layout.cards,
        shops: sizes.shops + layout.shops,
        rows: sizes.rows + layout.rows,
    }
}

// Whether the joined file would be too large, with the oven as one shop group more.
fn too_large(sizes: Sizes) -> bool
    requires { sizes.shops < 65536 }
    ensures { result ≡ too_large sizes }
{
    if MAX_GROUPS < sizes.cards {
        return true;
    }
    if MAX_GROUPS < 1 + sizes.shops {
        return true;
    }
    MAX_ROWS < sizes.rows
}

// Judges the sizes of files that are all accepted.
fn judge_sizes(sizes: Sizes) -> Result<Sizes, Fault>
    requires { sizes.shops < 65536 }
    ensures { result ≡ judged_by (AllOf sizes) }
{
    if too_large(sizes) {
        return Err(Fault::Whole(Reason::Large));
    }
    Ok(sizes)
}

// Reads the files, lowest first, and then judges how large they are together.
fn gather(files: &[u8], lengths: &[u32], day: usize) -> Result<Sizes, Fault>
    requires { lengths_fit (length files.now) lengths.now ≡ true }
    ensures { result ≡ judged_by (gathered (reading_of day files.now lengths.now) (length lengths.now)) }
{
    let n = lengths.len();
    let mut sizes = Sizes {
        cards: 0,
        shops: 0,
        rows: 0,
    };
    let mut at = 0;
    for k in 0..n {
        let len = length_at(lengths, k);
        let layout = match read_part(files, at, len, day) {
            Ok(layout) => layout,
            Err(refusal) => return Err(Fault::Member { file: k, refusal }),
        };
        sizes = add(sizes, layout);
        at += len;
    }
    judge_sizes(sizes)
}

// Judges the files: their lengths, then each file by itself, and then how large they are together.
pub fn judge_files(files: &[u8], lengths: &[u32], day: usize) -> Result<Sizes, Fault>
    ensures { result ≡ judged day files.now lengths.now }
{
    if !lengths_fit(files.len(), lengths) {
        return Err(Fault::Whole(Reason::Files));
    }
    gather(files, lengths, day)
}
