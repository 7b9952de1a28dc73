// replay: a script of journal calls, played on a journal that is not kept. Each call's answer is printed, then how the playing ended.
ghost use Rattle.std.specs.Prelude.{◌≤◌, length};

use crate::buffers::{Buffers, HALF};
use crate::failures::Failure;
use crate::{arguments, files, printing};
use command::plays;
use replay::replies::ReplayAnswer;
use replay::told::LINE;
use std::rt::{Env, Files};

// The longest journal, and the longest script.
const JOURNAL: usize = HALF - 1;

// Room for the line of a call, and for the line that says how the playing ended.
const CALL: usize = 64;

const END: usize = 512;

// The lines of the calls that were answered. Behind the last answer there are zeros.
fn say_all(rt: &impl Print, answers: &[u8]) -> Result<(), Failure> {
    for line in answers.chunks_exact(LINE) {
        let mut out = [0u8; CALL];
        let n = plays::told_line(line, &mut out);
        if n == 0 {
            break;
        }
        printing::print(rt, &out[..n])?;
    }
    Ok(())
}

// Plays a script on the front of the journal's buffer.
fn play(
    program: &[u8],
    script: &[u8],
    workspace: &mut [u8],
    journal: &mut [u8],
    answers: &mut [u8],
) -> ReplayAnswer
    requires { 131072 ≤ length journal.old }
{
    replay::replay(program, script, workspace, &mut journal[..JOURNAL], answers)
}

// corefun replay PROGRAM SCRIPT
pub(crate) fn replay(rt: &(impl Env + Files + Print), b: &mut Buffers) -> Result<(), Failure> {
    let p = files::load(rt, arguments::FILE, &mut b.word, &mut b.program)?;
    let s = files::load_all(rt, arguments::SCRIPT, &mut b.word, &mut b.ancillae)?;
    b.out.fill(0);
    let answer = play(
        &b.program[..p],
        &b.ancillae[..s],
        &mut b.workspace,
        &mut b.value,
        &mut b.out,
    );
    say_all(rt, &b.out)?;
    let mut out = [0u8; END];
    let n = plays::ended_line(answer, &mut out);
    printing::print(rt, &out[..n])
}
