// What the exported calls tell of an answer, in four numbers.
ghost use Rattle.std.specs.Prelude.{◌≡◌, ℕ};
ghost use Rattle.replay.specs.Playing.{reply_of};
ghost use Rattle.exports.specs.Told.{told_by, replay_told};

use answers::{Done, Refusal, Shown};
use replay::replies::{ReplayAnswer, ReplayError};

// What is told of a call that is accepted: the length of a value or of bytes written, and the steps, or how many conversions stand.
pub(crate) trait Told {
    ghost numbers: { Self → ℕ × ℕ };

    fn numbers(self) -> (u64, u64)
        ensures { result ≡ numbers self };
}

impl Told for () {
    ghost numbers = { λ a. (0, 0) };

    fn numbers(self) -> (u64, u64) {
        (0, 0)
    }
}

impl Told for Done {
    ghost numbers = { λ d. (d.len, d.steps) };

    fn numbers(self) -> (u64, u64) {
        (u64::from(self.len), u64::from(self.steps))
    }
}

impl Told for Shown {
    ghost numbers = { λ s. (s.len, s.standing) };

    fn numbers(self) -> (u64, u64) {
        (u64::from(self.len), u64::from(self.standing))
    }
}

impl Told for usize {
    ghost numbers = { λ n. (n, 0) };

    fn numbers(self) -> (u64, u64) {
        (self as u64, 0)
    }
}

// The four numbers of an answer.
pub(crate) fn told_of<T: Told>(answer: Result<T, Refusal>) -> [u64; 4]
    ensures { result ≡ told_by T.numbers answer }
{
    match answer {
        Ok(accepted) => {
            let (length, count) = accepted.numbers();
            [0, 0, length, count]
        }
        Err(r) => [messages::number(r), messages::place(r), 0, 0],
    }
}

// How playing a script ended.

const PLAYED: u64 = 0;

const MALFORMED: u64 = 1;

const TOO_WIDE: u64 = 2;

const SHORT_ANSWERS: u64 = 3;

const UNOPENED: u64 = 4;

const CUT: u64 = 5;

// The four numbers of a script's playing.
#[tactic(auto, unfolding(crate::specs::Told::replay_told))]
pub(crate) fn replay_told(answer: ReplayAnswer) -> [u64; 4]
    ensures { result ≡ replay_told (reply_of answer) }
{
    match answer {
        Ok(count) => [PLAYED, count as u64, 0, 0],
        Err(ReplayError::Malformed(at)) => [MALFORMED, at as u64, 0, 0],
        Err(ReplayError::TooWide(at)) => [TOO_WIDE, at as u64, 0, 0],
        Err(ReplayError::ShortAnswers) => [SHORT_ANSWERS, 0, 0, 0],
        Err(ReplayError::Unopened(r)) => [UNOPENED, 0, messages::number(r), messages::place(r)],
        Err(ReplayError::Cut(at)) => [CUT, at as u64, 0, 0],
    }
}
