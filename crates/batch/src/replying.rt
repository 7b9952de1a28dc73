// The line that answers what was read of a line: a call's answer, or what is wrong with the line.
ghost use Rattle.std.specs.Prelude.{◌+◌, ◌*◌, ◌≤◌, length};
ghost use Rattle.calltext.specs.Parsed.{line_of, Within};
ghost use Rattle.calltext.specs.Wrote.{Wrote};
ghost use Rattle.batch.specs.Capped.{most_workspace, most_output, answer_room};
ghost use Rattle.batch.specs.Answering.{word_error};
ghost use Rattle.batch.specs.Lent.{Replies};

use crate::{keeping, making, reading};
use calltext::calls::{Call, ParseError, Parsed};
use calltext::{answers as texts, decimal};

// What is wrong with word k.
fn word_error(k: u8, what: &[u8], out: &mut [u8]) -> usize
    requires { length what.now + 32 ≤ length out.old }
    ensures { Wrote out.old out.new 0 result (word_error k what.now) }
{
    let named = texts::put(b"error word ", out, 0);
    let counted = decimal::put_number(u64::from(k), out, named);
    texts::put(what, out, counted)
}

// The line that answers what was read, its byte strings at the starts of the buffers. A call on a journal leaves the new journal where
// the old one stood.
pub(crate) fn reply(
    parsed: Parsed,
    program: &[u8],
    ancillae: &[u8],
    value: &mut [u8],
    workspace: &mut [u8],
    output: &mut [u8],
    out: &mut [u8],
) -> usize
    requires within { Within parsed program.now ancillae.now value.old }
    requires most_workspace_in_bounds { (most_workspace ≤ length workspace.old) × (most_output ≤ length output.old) }
    requires answer_room_in_bounds { 2 * length value.old + answer_room ≤ length out.old }
    ensures { Replies (line_of parsed program.now ancillae.now value.old) result value.old value.new workspace.old workspace.new output.old output.new out.old out.new }
{
    match parsed {
        Ok(call) => match call {
            Call::Check(call) => making::check(call, program, workspace, out),
            Call::Run(call) => making::run(call, program, ancillae, value, workspace, output, out),
            Call::Open(call) => keeping::open(call, program, ancillae, value, workspace, out),
            Call::Convert(call) => keeping::convert(call, program, ancillae, value, workspace, out),
            Call::Rollback(call) => keeping::rollback(call, program, value, workspace, out),
            Call::Read(call) => reading::read(call, value, output, out),
        },
        Err(error) => match error {
            ParseError::NoCall => texts::put(b"error no call of this name\n", out, 0),
            ParseError::WordCount => texts::put(b"error too few or too many words\n", out, 0),
            ParseError::NoNumber(k) => word_error(k, b" is no number in its range\n", out),
            ParseError::NoBytes(k) => word_error(k, b" is no bytes in hexadecimal\n", out),
        },
    }
}
