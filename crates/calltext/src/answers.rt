// Answers as lines, put into a buffer from its start, each with the byte that ends it.
ghost use Rattle.std.specs.Prelude.{◌≡◌, ◌+◌, ◌*◌, ◌≤◌, length};
ghost use Rattle.calltext.specs.Wrote.{Wrote};
ghost use Rattle.calltext.specs.Answers.{numbered_line, word_line, two_numbers, refused_line, counts_text, held_line};

use crate::{decimal, hexadecimal};

// A text, put into `out` from `at` on: where it ends.
pub fn put(text: &[u8], out: &mut [u8], at: usize) -> usize
    requires { at + length text.now ≤ length out.old }
    ensures { Wrote out.old out.new at result text.now }
{
    octets::copy(out, at, text);
    at + text.len()
}

// Bytes and a number behind a word: a run's value and its steps, or a held value and how many conversions stand.
pub fn numbered_line(word: &[u8], bytes: &[u8], number: u64, out: &mut [u8]) -> usize
    requires { length word.now + 2 * length bytes.now + 24 ≤ length out.old }
    ensures { Wrote out.old out.new 0 result (numbered_line word.now bytes.now number) }
{
    let named = put(word, out, 0);
    let valued = hexadecimal::encode(bytes, out, named);
    let spaced = put(b" ", out, valued);
    let counted = decimal::put_number(number, out, spaced);
    put(b"\n", out, counted)
}

// Bytes alone behind a word: an opened journal, the whole buffer, or what a call wrote.
pub fn word_line(word: &[u8], bytes: &[u8], out: &mut [u8]) -> usize
    requires { length word.now + 2 * length bytes.now + 2 ≤ length out.old }
    ensures { Wrote out.old out.new 0 result (word_line word.now bytes.now) }
{
    let named = put(word, out, 0);
    let told = hexadecimal::encode(bytes, out, named);
    put(b"\n", out, told)
}

// Two numbers, with a text before, between and behind them.
pub fn two_numbers(
    before: &[u8],
    first: u64,
    between: &[u8],
    second: u64,
    behind: &[u8],
    out: &mut [u8],
) -> usize
    requires { length before.now + length between.now + length behind.now + 40 ≤ length out.old }
    ensures tells { Wrote out.old out.new 0 result (two_numbers before.now first between.now second behind.now) }
    ensures short { result ≤ length before.now + length between.now + length behind.now + 40 }
{
    let led = put(before, out, 0);
    let numbered = decimal::put_number(first, out, led);
    let parted = put(between, out, numbered);
    let placed = decimal::put_number(second, out, parted);
    put(behind, out, placed)
}

// A refusal's number and its place.
pub fn refused_line(number: u64, place: u64, out: &mut [u8]) -> usize
    requires { 64 ≤ length out.old }
    ensures { Wrote out.old out.new 0 result (refused_line number place) }
{
    two_numbers(b"refused ", number, b" ", place, b"\n", out)
}

// A held value's length and the steps, in front of the journal.
fn put_counts(len: u64, steps: u64, out: &mut [u8]) -> usize
    requires { 48 ≤ length out.old }
    ensures { Wrote out.old out.new 0 result (counts_text len steps) × (result ≤ 48) }
{
    two_numbers(b"held ", len, b" ", steps, b" ", out)
}

// A held value's length, the steps, and the journal, the whole buffer.
pub fn held_line(len: u64, steps: u64, journal: &[u8], out: &mut [u8]) -> usize
    requires { 2 * length journal.now + 64 ≤ length out.old }
    ensures { Wrote out.old out.new 0 result (held_line len steps journal.now) }
{
    let counted = put_counts(len, steps, out);
    let kept = hexadecimal::encode(journal, out, counted);
    put(b"\n", out, kept)
}
