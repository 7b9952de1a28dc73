// The line that answers a call (specs/Lines).
ghost use Rattle.std.specs.Prelude.{◌≡◌};
ghost use Rattle.answers.specs.Answers.{check_answer, run_answer};
ghost use Rattle.replay.specs.Lines.{line_of};
ghost use Rattle.replay.specs.Inner.Told.{check_line, run_line};

use answers::{CheckAnswer, RunAnswer};

// How long a line is.
pub const LINE: usize = 7;

pub const OPENED: u8 = 0x41;

pub const HELD: u8 = 0x42;

pub const REFUSED: u8 = 0x43;

// Where the two bytes and the four bytes stand behind the kind.
pub const NUMBER: usize = 1;

pub const DETAIL: usize = 3;

// A kind, two bytes and four bytes, the high byte first.
fn line_of(kind: u8, number: u64, detail: u64) -> [u8; LINE]
    ensures { result ≡ line_of kind number detail }
{
    let [.., n1, n0] = number.to_be_bytes();
    let [.., d3, d2, d1, d0] = detail.to_be_bytes();
    [kind, n1, n0, d3, d2, d1, d0]
}

// The line that answers an open.
#[tactic(auto, unfolding(crate::specs::Inner::Told::check_line, crate::specs::Lines::line))]
pub(crate) fn open_line(answer: CheckAnswer) -> [u8; LINE]
    ensures { result ≡ check_line (check_answer answer) }
{
    match answer {
        Ok(()) => line_of(OPENED, 0, 0),
        Err(r) => line_of(REFUSED, messages::number(r), messages::place(r)),
    }
}

// The line that answers a convert or a rollback.
#[tactic(auto, unfolding(crate::specs::Inner::Told::run_line, crate::specs::Lines::line))]
pub(crate) fn turn_line(answer: RunAnswer) -> [u8; LINE]
    ensures { result ≡ run_line (run_answer answer) }
{
    match answer {
        Ok(d) => line_of(HELD, u64::from(d.len), u64::from(d.steps)),
        Err(r) => line_of(REFUSED, messages::number(r), messages::place(r)),
    }
}
