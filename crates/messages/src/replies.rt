// Answers as text: a line of calls and answers each (crate calltext), and a refusal with its meaning.
ghost use Rattle.std.specs.Prelude.{◌+◌, ◌*◌, ◌≤◌, length, take};
ghost use Rattle.answers.specs.Answers.{number_of, place_of, check_answer, run_answer, nurse_answer, write_answer};
ghost use Rattle.calltext.specs.Wrote.{Wrote};
ghost use Rattle.calltext.specs.Answers.{numbered_line, two_numbers, refused_line, held_line};
ghost use Rattle.calltext.specs.Text.{text};
ghost use Rattle.messages.specs.Replies.{check_text, run_text, nurse_text, write_text, opened_text, held_text, length_of, seen_length, written_length, where_text, refusal_text};

use crate::meanings;
use answers::{CheckAnswer, Done, NurseAnswer, Refusal, RunAnswer, WriteAnswer};
use calltext::answers as texts;

// A refusal's number and place, with a text between and behind them.
fn put_refusal(r: Refusal, between: &[u8], behind: &[u8], out: &mut [u8]) -> usize
    requires { length between.now + length behind.now + 48 ≤ length out.old }
    ensures tells { Wrote out.old out.new 0 result (two_numbers (text "refused ") (number_of r) between.now (place_of r) behind.now) }
    ensures short { result ≤ length between.now + length behind.now + 48 }
{
    texts::two_numbers(
        b"refused ",
        crate::number(r),
        between,
        crate::place(r),
        behind,
        out,
    )
}

// The line of a refusal.
fn refusal_line(r: Refusal, out: &mut [u8]) -> usize
    requires { 64 ≤ length out.old }
    ensures { Wrote out.old out.new 0 result (refused_line (number_of r) (place_of r)) }
{
    put_refusal(r, b" ", b"\n", out)
}

// The line of bytes that the output starts with, so many, and of a number, behind a word.
fn front_line(word: &[u8], len: u16, number: u16, output: &[u8], out: &mut [u8]) -> usize
    requires len_in_bounds { len ≤ length output.now }
    requires output_in_bounds { length word.now + 2 * length output.now + 24 ≤ length out.old }
    ensures { Wrote out.old out.new 0 result (numbered_line word.now (take len output.now) number) }
{
    let n = usize::from(len);
    texts::numbered_line(word, &output[..n], u64::from(number), out)
}

// The line that answers a check.
#[tactic(auto, unfolding(crate::specs::Replies::check_text))]
pub fn check_line(answer: CheckAnswer, out: &mut [u8]) -> usize
    requires { 64 ≤ length out.old }
    ensures { Wrote out.old out.new 0 result (check_text (check_answer answer)) }
{
    match answer {
        Ok(()) => texts::put(b"ok\n", out, 0),
        Err(r) => refusal_line(r, out),
    }
}

// The line that answers a run, whose value the output starts with.
#[tactic(auto, unfolding(crate::specs::Replies::run_text))]
pub fn run_line(answer: RunAnswer, output: &[u8], out: &mut [u8]) -> usize
    requires answer_in_bounds { length_of answer ≤ length output.now }
    requires output_in_bounds { (2 * length output.now + 32 ≤ length out.old) × (64 ≤ length out.old) }
    ensures { Wrote out.old out.new 0 result (run_text (run_answer answer) output.now) }
{
    match answer {
        Ok(d) => front_line(b"value ", d.len, d.steps, output, out),
        Err(r) => refusal_line(r, out),
    }
}

// The line that answers the nurse's reader, whose held value the output starts with.
#[tactic(auto, unfolding(crate::specs::Replies::nurse_text))]
pub fn nurse_line(answer: NurseAnswer, output: &[u8], out: &mut [u8]) -> usize
    requires answer_in_bounds { seen_length answer ≤ length output.now }
    requires output_in_bounds { (2 * length output.now + 32 ≤ length out.old) × (64 ≤ length out.old) }
    ensures { Wrote out.old out.new 0 result (nurse_text (nurse_answer answer) output.now) }
{
    match answer {
        Ok(s) => front_line(b"held ", s.len, s.standing, output, out),
        Err(r) => refusal_line(r, out),
    }
}

// The line that answers a call which writes bytes, with which the output starts.
#[tactic(auto, unfolding(crate::specs::Replies::write_text))]
pub fn write_line(answer: WriteAnswer, output: &[u8], out: &mut [u8]) -> usize
    requires answer_in_bounds { written_length answer ≤ length output.now }
    requires output_in_bounds { (2 * length output.now + 8 ≤ length out.old) × (64 ≤ length out.old) }
    ensures { Wrote out.old out.new 0 result (write_text (write_answer answer) output.now) }
{
    match answer {
        Ok(n) => texts::word_line(b"bytes ", &output[..n], out),
        Err(r) => refusal_line(r, out),
    }
}

// The line that answers an open, with the journal as it left it.
#[tactic(auto, unfolding(crate::specs::Replies::opened_text))]
pub fn opened_line(answer: CheckAnswer, journal: &[u8], out: &mut [u8]) -> usize
    requires { 2 * length journal.now + 64 ≤ length out.old }
    ensures { Wrote out.old out.new 0 result (opened_text (check_answer answer) journal.now) }
{
    match answer {
        Ok(()) => texts::word_line(b"ok ", journal, out),
        Err(r) => refusal_line(r, out),
    }
}

// The line of a convert or rollback that was done.
fn turned_line(d: Done, journal: &[u8], out: &mut [u8]) -> usize
    requires { 2 * length journal.now + 64 ≤ length out.old }
    ensures { Wrote out.old out.new 0 result (held_line d.len d.steps journal.now) }
{
    texts::held_line(u64::from(d.len), u64::from(d.steps), journal, out)
}

// The line that answers a convert or rollback, with the journal as it left it.
#[tactic(auto, unfolding(crate::specs::Replies::held_text))]
pub fn held_line(answer: RunAnswer, journal: &[u8], out: &mut [u8]) -> usize
    requires { 2 * length journal.now + 64 ≤ length out.old }
    ensures { Wrote out.old out.new 0 result (held_text (run_answer answer) journal.now) }
{
    match answer {
        Ok(d) => turned_line(d, journal, out),
        Err(r) => refusal_line(r, out),
    }
}

// The number and the place of a refusal, in front of its meaning.
fn put_where(r: Refusal, out: &mut [u8]) -> usize
    requires { 64 ≤ length out.old }
    ensures { Wrote out.old out.new 0 result (where_text (number_of r) (place_of r)) × (result ≤ 54) }
{
    put_refusal(r, b" at ", b": ", out)
}

// A refusal: its number, its place and its meaning.
pub fn refusal_text(r: Refusal, out: &mut [u8]) -> usize
    requires { 256 ≤ length out.old }
    ensures { Wrote out.old out.new 0 result (refusal_text r) }
{
    let told = put_where(r, out);
    let meant = meanings::put_meaning(crate::number(r), out, told);
    texts::put(b"\n", out, meant)
}
