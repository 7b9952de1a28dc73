// What a call answered, as text: as a line of calls and answers has it (crate calltext), a refusal with its meaning.
ghost use Rattle.std.specs.Prelude.{◌+◌, ◌*◌, ◌≤◌, length};
ghost use Rattle.answers.specs.Answers.{number_of, place_of, check_answer, run_answer, nurse_answer, write_answer};
ghost use Rattle.calltext.specs.Decimal.{decimal_text};
ghost use Rattle.calltext.specs.Wrote.{Wrote};
ghost use Rattle.messages.specs.Replies.{length_of, seen_length, written_length};
ghost use Rattle.command.specs.Reports.{refused_report, check_report, filled_report, shown_report, wrote_report, held_text};

use answers::{CheckAnswer, NurseAnswer, Refusal, RunAnswer, WriteAnswer};
use calltext::{answers as texts, decimal};
use messages::replies;

// A refusal: its number, its place and its meaning.
pub(crate) fn refusal(r: Refusal, out: &mut [u8]) -> usize
    requires { 256 ≤ length out.old }
    ensures { Wrote out.old out.new 0 result (refused_report (number_of r) (place_of r)) }
{
    replies::refusal_text(r, out)
}

// What a check answered.
#[tactic(auto, unfolding(crate::specs::Reports::check_report))]
pub fn check_report(answer: CheckAnswer, out: &mut [u8]) -> usize
    requires { 256 ≤ length out.old }
    ensures { Wrote out.old out.new 0 result (check_report (check_answer answer)) }
{
    match answer {
        Ok(()) => texts::put(b"ok\n", out, 0),
        Err(r) => refusal(r, out),
    }
}

// What a run answered, whose value the output starts with.
#[tactic(auto, unfolding(crate::specs::Reports::filled_report, messages::specs::Replies::run_text))]
pub fn run_report(answer: RunAnswer, output: &[u8], out: &mut [u8]) -> usize
    requires answer_in_bounds { length_of answer ≤ length output.now }
    requires output_in_bounds { 2 * length output.now + 256 ≤ length out.old }
    ensures { Wrote out.old out.new 0 result (filled_report (run_answer answer) output.now) }
{
    match answer {
        Ok(d) => replies::run_line(Ok(d), output, out),
        Err(r) => refusal(r, out),
    }
}

// What the nurse's reader answered, which the output starts with.
#[tactic(auto, unfolding(crate::specs::Reports::shown_report, messages::specs::Replies::nurse_text))]
pub fn nurse_report(answer: NurseAnswer, output: &[u8], out: &mut [u8]) -> usize
    requires answer_in_bounds { seen_length answer ≤ length output.now }
    requires output_in_bounds { 2 * length output.now + 256 ≤ length out.old }
    ensures { Wrote out.old out.new 0 result (shown_report (nurse_answer answer) output.now) }
{
    match answer {
        Ok(s) => replies::nurse_line(Ok(s), output, out),
        Err(r) => refusal(r, out),
    }
}

// What a call that writes bytes answered, which the output starts with.
#[tactic(auto, unfolding(crate::specs::Reports::wrote_report, messages::specs::Replies::write_text))]
pub fn write_report(answer: WriteAnswer, output: &[u8], out: &mut [u8]) -> usize
    requires answer_in_bounds { written_length answer ≤ length output.now }
    requires output_in_bounds { 2 * length output.now + 256 ≤ length out.old }
    ensures { Wrote out.old out.new 0 result (wrote_report (write_answer answer) output.now) }
{
    match answer {
        Ok(n) => replies::write_line(Ok(n), output, out),
        Err(r) => refusal(r, out),
    }
}

// A number, which has at most 20 digits.
pub(crate) fn put_figure(n: u64, out: &mut [u8], at: usize) -> usize
    requires { at + 20 ≤ length out.old }
    ensures { Wrote out.old out.new at result (decimal_text n) × (result ≤ at + 20) }
{
    decimal::put_number(n, out, at)
}

// The length of the held record, and the steps.
#[tactic(auto, unfolding(crate::specs::Reports::held_text, calltext::specs::Answers::two_numbers))]
pub(crate) fn held(len: u64, steps: u64, out: &mut [u8]) -> usize
    requires { 64 ≤ length out.old }
    ensures { Wrote out.old out.new 0 result (held_text len steps) }
{
    texts::two_numbers(b"held ", len, b" ", steps, b"\n", out)
}
