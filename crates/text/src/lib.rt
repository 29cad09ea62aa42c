// Words and numbers put into a lent buffer.
//
// Each function puts bytes into `out` from the place `at` on, as far as the buffer reaches, and answers the place after them. What is
// put next begins there. The answer does not depend on the buffer's length: on a buffer that is too short it still tells how long
// the text is. So whoever has to write a whole text or none first puts it into one cell of no use, compares the answer with the
// length of the real buffer, and then puts it there or leaves the buffer alone. The laws `whole` and `short` say what comes of it.
// stays: the place beside the buffer may not go into a struct: `put` to `put_spread` are public and promise `Appended` of the lent slice.
#![tactic(auto)]

ghost use Rattle.std.specs.Prelude.{◌≡◌, [], ◌∷◌, ◌++◌, ◌-◌};
ghost use Rattle.theory.specs.Sum.{pick};
ghost use Rattle.text.specs.Text.{decimal, line, blanks, at_right, spread};
ghost use Rattle.text.specs.Buffer.{Appended, Room};

// One byte. Past the end nothing is written.
pub fn put(at: usize, byte: u8, out: &mut [u8]) -> usize
    requires { Room at (byte ∷ []) }
    ensures { Appended out.old out.new at result (byte ∷ []) }
{
    if out.len() <= at {
        return at + 1;
    }
    out[at] = byte;
    at + 1
}

// All bytes of `word`.
pub fn put_word(at: usize, word: &[u8], out: &mut [u8]) -> usize
    requires { Room at word.now }
    ensures { Appended out.old out.new at result word.now }
{
    let mut next = at;
    for byte in word {
        next = put(next, *byte, out);
    }
    next
}

// A word and a number.
pub fn put_field(at: usize, word: &[u8], n: u64, out: &mut [u8]) -> usize
    requires { Room at (word.now ++ decimal n) }
    ensures { Appended out.old out.new at result (word.now ++ decimal n) }
{
    let next = put_word(at, word, out);
    put_decimal(next, n, out)
}

// One of two words: the first where `when` holds.
pub fn put_either(at: usize, when: bool, word: &[u8], other: &[u8], out: &mut [u8]) -> usize
    requires { Room at (pick when word.now other.now) }
    ensures { Appended out.old out.new at result (pick when word.now other.now) }
{
    if when {
        return put_word(at, word, out);
    }
    put_word(at, other, out)
}

// A line of one word and one number.
pub fn put_line(at: usize, word: &[u8], n: u64, out: &mut [u8]) -> usize
    requires { Room at (line (word.now ++ decimal n)) }
    ensures { Appended out.old out.new at result (line (word.now ++ decimal n)) }
{
    let next = put_field(at, word, n, out);
    put(next, b'\n', out)
}

// `n` blanks.
fn put_blanks(at: usize, n: usize, out: &mut [u8]) -> usize
    requires { Room at (blanks n) }
    ensures { Appended out.old out.new at result (blanks n) }
{
    let mut next = at;
    for _ in 0..n {
        next = put(next, b' ', out);
    }
    next
}

// A number at the right of a field of `width` bytes, after blanks.
pub fn put_right(at: usize, width: usize, n: u64, out: &mut [u8]) -> usize
    requires { Room at (at_right width (decimal n)) }
    ensures { Appended out.old out.new at result (at_right width (decimal n)) }
{
    let rest = width.saturating_sub(1);
    if n < 10 {
        let next = put_blanks(at, rest, out);
        return put(next, b'0' + n as u8, out);
    }
    let next = put_right(at, rest, n / 10, out);
    put(next, b'0' + (n % 10) as u8, out)
}

// The decimal digits of `n`.
pub fn put_decimal(at: usize, n: u64, out: &mut [u8]) -> usize
    requires { Room at (decimal n) }
    ensures { Appended out.old out.new at result (decimal n) }
{
    put_right(at, 0, n, out)
}

// A word at the left and a number at the right of a field of `width` bytes, blanks between.
pub fn put_spread(at: usize, width: usize, word: &[u8], n: u64, out: &mut [u8]) -> usize
    requires { Room at (spread width word.now (decimal n)) }
    ensures { Appended out.old out.new at result (spread width word.now (decimal n)) }
{
    let next = put_word(at, word, out);
    put_right(next, width.saturating_sub(word.len()), n, out)
}
