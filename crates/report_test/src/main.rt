// Writes day A's text, a longer day's with the largest total, the texts of refused files with numbers around the powers of 10, and
// then what comes of a buffer of just the length of day A's text, of one cell more and of one cell less.
#![tactic(auto)]

ghost use Rattle.std.specs.Prelude.{◌≡◌, ◌≤◌, length, take};

use claimfile::Form;
use reader::read;
use report::{write_closed, write_refused};
use std::io;
use text::put_word;

// The text of a closed file; nothing where the file is turned away or the choice is too short.
fn text_of(
    file: &[u8],
    earned: usize,
    kept: usize,
    total: u64,
    choice: &[u8],
    out: &mut [u8],
) -> usize
    ensures within { result ≤ length out.new }
    ensures counted { result ≡ length (take result out.new) }
{
    let reading = read(
        file,
        Form {
            week: false,
            stored: false,
            day: 0,
        },
    );
    let Ok(layout) = reading else {
        return 0;
    };
    if choice.len() < layout.rows {
        return 0;
    }
    write_closed(file, layout, earned, kept, total, choice, out)
}

// Day A: two cards and two shops of limit 1 at the top, and the claims c0/s0 e, c0/s1 o, c1/s0 o. Rows 0 and 1 are kept.
fn day(out: &mut [u8]) -> usize
    ensures within { result ≤ length out.new }
    ensures counted { result ≡ length (take result out.new) }
{
    text_of(
        b"\x02\x00\xff\xff\x01\x00\xff\xff\x01\x00\x02\x00\xff\xff\x01\x00\xff\xff\x01\x00\x03\x00\x00\x00\x00\x00\x01\x00\x00\x01\x00\x00\x01\x00\x00\x00\x00",
        1,
        2,
        5,
        b"\x01\x01\x00",
        out,
    )
}

fn closed<P: Print>(output: &P) -> io::Result<()> {
    let mut out = [0u8; 128];
    let n = day(&mut out);
    output.write_all(&out[..n])
}

// One card, one shop and twelve rows, the first of them earned; every byte of the others is 0. Row 0 alone is kept.
fn largest<P: Print>(output: &P) -> io::Result<()> {
    let mut file = [0u8; 74];
    put_word(
        0,
        b"\x01\x00\xff\xff\x01\x00\x01\x00\xff\xff\x01\x00\x0c\x00\x00\x00\x00\x00\x01",
        &mut file,
    );
    let mut choice = [0u8; 12];
    choice[0] = 1;
    let mut out = [0u8; 512];
    let n = text_of(&file, 65535, 100, 18446744073709551615, &choice, &mut out);
    output.write_all(&out[..n])
}

fn refused<P: Print>(output: &P, number: u32) -> io::Result<()> {
    let mut out = [0u8; 32];
    let n = write_refused(number, &mut out);
    output.write_all(&out[..n])
}

fn refusals<P: Print>(output: &P) -> io::Result<()> {
    refused(output, 3)?;
    refused(output, 0)?;
    refused(output, 9)?;
    refused(output, 10)?;
    refused(output, 99)?;
    refused(output, 100)?;
    refused(output, 65535)?;
    refused(output, 4294967295)
}

// The buffer's length, the answer, and the cells at its start and at its end.
fn told<P: Print>(output: &P, n: usize, out: &[u8]) -> io::Result<()> {
    let cells = out.len();
    let first = out.get(0).copied().unwrap_or(0);
    let at_75 = out.get(75).copied().unwrap_or(0);
    let at_76 = out.get(76).copied().unwrap_or(0);
    let at_77 = out.get(77).copied().unwrap_or(0);
    println!(output;
        "cells {cells} written {n} first {first} at 75 {at_75} at 76 {at_76} at 77 {at_77}"
    )
}

fn probe<P: Print>(output: &P, out: &mut [u8]) -> io::Result<()> {
    let n = day(out);
    told(output, n, out)
}

fn main(rt: HostRuntime) -> io::Result<()> {
    closed(&rt)?;
    largest(&rt)?;
    refusals(&rt)?;
    let mut exact = [7u8; 77];
    probe(&rt, &mut exact)?;
    let mut longer = [7u8; 78];
    probe(&rt, &mut longer)?;
    let mut short = [7u8; 76];
    probe(&rt, &mut short)
}
