// What a script's playing answered, as text: a line for each call, and a line that says how it ended.
ghost use Rattle.std.specs.Prelude.{◌≤◌, ◌++◌, length};
ghost use Rattle.answers.specs.Answers.{number_of, place_of};
ghost use Rattle.calltext.specs.Decimal.{decimal_text};
ghost use Rattle.calltext.specs.Wrote.{Wrote};
ghost use Rattle.replay.specs.Playing.{reply_of};
ghost use Rattle.command.specs.Plays.{told_text, ended_text, unopened_text};

use crate::reports;
use answers::Refusal;
use calltext::answers as texts;
use replay::replies::{ReplayAnswer, ReplayError};
use replay::told::{DETAIL, HELD, NUMBER, OPENED, REFUSED};

// The line of the call that seven bytes answer; no bytes where they answer none.
// Kept: no bytes in place of a None, since `told_text` is what docs/ARCHITECTURE.md names of it.
#[tactic(auto, unfolding(crate::specs::Plays::told_text))]
pub fn told_line(line: &[u8], out: &mut [u8]) -> usize
    requires in_bounds { 7 ≤ length line.now }
    requires in_bounds_2 { 64 ≤ length out.old }
    ensures { Wrote out.old out.new 0 result (told_text line.now) }
{
    let number = u64::from(octets::read16(line, NUMBER));
    let detail = u64::from(octets::read32(line, DETAIL));
    match line[0] {
        OPENED => texts::put(b"ok\n", out, 0),
        HELD => reports::held(number, detail, out),
        REFUSED => texts::refused_line(number, detail, out),
        _ => texts::put(b"", out, 0),
    }
}

// A number between two texts.
fn put_between(front: &[u8], n: u64, behind: &[u8], out: &mut [u8]) -> usize
    requires front_len_bound { (length front.now ≤ 32) × (length behind.now ≤ 128) }
    requires in_bounds { 256 ≤ length out.old }
    ensures { Wrote out.old out.new 0 result (front.now ++ decimal_text n ++ behind.now) }
{
    let named = texts::put(front, out, 0);
    let counted = reports::put_figure(n, out, named);
    texts::put(behind, out, counted)
}

// The first open is refused.
fn unopened(r: Refusal, out: &mut [u8]) -> usize
    requires { 512 ≤ length out.old }
    ensures { Wrote out.old out.new 0 result (unopened_text (number_of r) (place_of r)) }
{
    let named = texts::put(b"not opened: ", out, 0);
    let told = reports::refusal(r, &mut out[named..]);
    named + told
}

// How the playing ended.
#[tactic(auto, unfolding(crate::specs::Plays::ended_text))]
pub fn ended_line(answer: ReplayAnswer, out: &mut [u8]) -> usize
    requires { 512 ≤ length out.old }
    ensures { Wrote out.old out.new 0 result (ended_text (reply_of answer)) }
{
    match answer {
        Ok(k) => put_between(b"played ", k as u64, b"\n", out),
        Err(ReplayError::Malformed(at)) => put_between(
            b"malformed at ",
            at as u64,
            b": no call stands there\n",
            out,
        ),
        Err(ReplayError::TooWide(at)) => put_between(
            b"too wide at ",
            at as u64,
            b": the call's buffer is longer than 131072 bytes\n",
            out,
        ),
        Err(ReplayError::ShortAnswers) => texts::put(b"answers do not fit\n", out, 0),
        Err(ReplayError::Unopened(r)) => unopened(r, out),
        Err(ReplayError::Cut(at)) => put_between(
            b"cut at ",
            at as u64,
            b": the call's buffer would cut the journal's fields\n",
            out,
        ),
    }
}
