// batch: calls on standard input, a line each, and an answer line each on standard output. Lines are found in a window of a buffer.
ghost use Rattle.std.specs.Prelude.{◌+◌, ◌≤◌, ◌<◌, length, IfOk};
ghost use Rattle.corefun.specs.Bounds.{Fits};

use crate::buffers::Buffers;
use crate::failures::Failure;
use crate::printing;
use std::io::{Input, Read};

// The bytes that were read and are not answered yet: from `at` to `end`. `over` says that they continue a line that is too long, `open`
// that there may be more to read.
#[derive(Clone, Copy)]
pub(crate) struct Window {
    pub at: usize,
    pub end: usize,
    pub over: bool,
    pub open: bool,
}

// Before anything is read.
const NOTHING: Window = Window {
    at: 0,
    end: 0,
    over: false,
    open: true,
};

// Answers the line that stands from `at` to `stop`: may there be another? (The buffers are long enough for every line that the input's
// buffer holds.)
fn answer(rt: &impl Print, at: usize, stop: usize, b: &mut Buffers) -> Result<bool, Failure>
    requires { (at ≤ stop) × (stop ≤ 262144) }
{
    let Buffers {
        word,
        program,
        ancillae,
        value,
        workspace,
        output,
        out,
    } = b;
    let line = &word[at..stop];
    let Some(n) = batch::answer(line, program, ancillae, value, workspace, output, out) else {
        return Ok(false);
    };
    printing::print(rt, &out[..n])?;
    Ok(true)
}

// Reads behind the window.
fn read_more(rt: &impl Input, w: Window, line: &mut [u8]) -> Result<Window, Failure>
    requires { Fits w (length line.old) }
    ensures { IfOk result (λ r. Fits r (length line.new)) }
{
    match rt.reader().read(&mut line[w.end..]) {
        Ok(more) => Ok(Window {
            end: w.end + more,
            open: 0 < more,
            ..w
        }),
        Err(error) => Err(Failure::Input(error)),
    }
}

// The buffer is full of a line that is too long, which is said once: the rest of it is passed over.
fn pass_over(rt: &impl Print, over: bool) -> Result<Window, Failure>
    ensures { IfOk result (λ r. Fits r 0) }
{
    if !over {
        printing::print(rt, b"error the line is longer than 262143 bytes\n")?;
    }
    Ok(Window {
        over: true,
        ..NOTHING
    })
}

// No line ends in the window: it is moved to the front of the buffer, or there is more to read, or the line is too long.
fn refill(rt: &(impl Input + Print), w: Window, line: &mut [u8]) -> Result<Window, Failure>
    requires { Fits w (length line.old) }
    ensures { IfOk result (λ r. Fits r (length line.new)) }
{
    if 0 < w.at {
        line.copy_within(w.at..w.end, 0);
        return Ok(Window {
            at: 0,
            end: w.end - w.at,
            ..w
        });
    }
    if w.end < line.len() {
        return read_more(rt, w, line);
    }
    pass_over(rt, w.over)
}

// The window behind a line that ends at `stop`.
fn behind(stop: usize, end: usize, open: bool) -> Window
    requires { stop < end }
    ensures { Fits result end }
{
    Window {
        at: if open { stop + 1 } else { end },
        end,
        over: false,
        open,
    }
}

// Answers the line that the window starts with, or looks for its end.
fn turn(rt: &(impl Input + Print), w: Window, b: &mut Buffers) -> Result<Window, Failure>
    requires { Fits w 262144 }
    ensures { IfOk result (λ r. Fits r 262144) }
{
    let stop = calltext::words::find(&b.word, w.at, w.end, b'\n');
    if w.end <= stop {
        return refill(rt, w, &mut b.word);
    }
    if w.over {
        return Ok(behind(stop, w.end, true));
    }
    let open = answer(rt, w.at, stop, b)?;
    Ok(behind(stop, w.end, open))
}

// Answers every line of standard input, and the last, if nothing ends it. A proved loop has to end, and nothing says that the input does: so
// its turns are counted, up to a number that no input uses up.
pub(crate) fn answer_all(rt: &(impl Input + Print), b: &mut Buffers) -> Result<(), Failure> {
    let mut w = NOTHING;
    for _turn in 0..u64::MAX {
        w = turn(rt, w, b)?;
        if !w.open {
            break;
        }
    }
    if !w.over && w.at < w.end {
        answer(rt, w.at, w.end, b)?;
    }
    Ok(())
}
