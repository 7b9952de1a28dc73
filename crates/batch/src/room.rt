// Whether the buffers that are lent are long enough for a line, by their lengths.
ghost use Rattle.std.specs.Prelude.{◌≡◌, ◌+◌, ◌*◌, leb};
ghost use Rattle.batch.specs.Capped.{answer_room};
ghost use Rattle.batch.specs.Lent.{digits_fit, enough};

use crate::making;

// The room that an answer needs beside a journal in hexadecimal: for an output in hexadecimal, and for words and numbers.
const ANSWER_ROOM: usize = 2 * making::MOST_OUTPUT + 64;

// So many digits a byte is.
const DIGITS: usize = 2;

// Is there room for so many digits in so many bytes?
#[tactic(auto, unfolding(crate::specs::Lent::digits_fit))]
fn fits_digits(digits: usize, len: usize) -> bool
    ensures { result ≡ digits_fit digits len }
{
    digits.div_ceil(DIGITS) <= len
}

// Is there room for the answer, beside a journal as long as the value's buffer?
#[tactic(auto, unfolding(crate::specs::Capped::most_output))]
fn fits_answer(value: usize, out: usize) -> bool
    ensures { result ≡ leb (2 * value + answer_room) out }
{
    ANSWER_ROOM <= out && value <= (out - ANSWER_ROOM) / DIGITS
}

// Is each buffer long enough for the line?
#[tactic(auto, unfolding(crate::specs::Lent::enough, crate::specs::Capped::most_workspace, crate::specs::Capped::most_output))]
pub(crate) fn enough(
    line: usize,
    program: usize,
    ancillae: usize,
    value: usize,
    workspace: usize,
    output: usize,
    out: usize,
) -> bool
    ensures { result ≡ enough line program ancillae value workspace output out }
{
    fits_digits(line, program)
        && fits_digits(line, ancillae)
        && fits_digits(line, value)
        && making::MOST_WORKSPACE <= workspace
        && making::MOST_OUTPUT <= output
        && fits_answer(value, out)
}
