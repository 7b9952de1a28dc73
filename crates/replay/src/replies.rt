// What playing a script answers.
ghost use Rattle.std.specs.Prelude.{◌≡◌};
ghost use Rattle.replay.specs.declared.replies.ReplayError.TheVariants.{Unopened};

use answers::Refusal;

// Why the playing did not start, or stopped, with the place in the script.
#[derive(Clone, Copy, PartialEq, Eq, Debug)]
pub enum ReplayError {
    Malformed(usize),
    TooWide(usize),
    ShortAnswers,
    Unopened(Refusal),
    Cut(usize),
}

// A first open that is refused.
impl From<Refusal> for ReplayError {
    ghost from_gives = { λ r e. e ≡ Unopened r };

    fn from(r: Refusal) -> ReplayError {
        ReplayError::Unopened(r)
    }
}

// How many calls were played, all of them.
pub type ReplayAnswer = Result<usize, ReplayError>;

// The place of the call that comes next, or an end.
pub type Move = Result<usize, ReplayError>;
