// Playing a script (specs/Playing). What the functions below `replay` promise: specs/Inner/Steps.
ghost use Rattle.std.specs.Prelude.{◌≡◌, ◌+◌, ◌*◌, ◌≤◌, ◌<◌, length};
ghost use Rattle.answers.specs.Answers.{check_answer};
ghost use Rattle.replay.specs.Scripts.{step_at, call_of, parse};
ghost use Rattle.replay.specs.Lines.{line_length};
ghost use Rattle.replay.specs.Booked.{Booked};
ghost use Rattle.replay.specs.Playing.{reply_of, replayed, ReplayMeans};
ghost use Rattle.replay.specs.Inner.Steps.{next_of, stop_of, hinders, room_for, tested, begins_at, makes, turn_of, play, follows, begins, Ahead, PlayMeans};

use crate::replies::{Move, ReplayAnswer, ReplayError};
use crate::scripts::{Kind, Part};
use crate::told::LINE;
use crate::{making, scripts, told};
use answers::CheckAnswer;

// Is there room for the call at a place, with its buffer, and for its line?
#[tactic(auto, unfolding(crate::specs::Inner::Steps::room_for))]
fn fits(part: Part, at: usize, count: usize, width: usize, room: usize) -> Move
    requires { line_length * count ≤ room }
    ensures { next_of result ≡ room_for part.n at part.next count width room }
{
    if width < part.n {
        return Err(ReplayError::TooWide(at));
    }
    if room - LINE * count < LINE {
        return Err(ReplayError::ShortAnswers);
    }
    Ok(part.next)
}

// Does the call's buffer leave the journal's fields whole?
#[tactic(auto, unfolding(crate::specs::Inner::Steps::tested))]
fn test(part: Part, at: usize, journal: &[u8]) -> Move
    ensures { next_of result ≡ tested part.n at part.next journal.now }
{
    if part.n < making::last_field(journal) {
        return Err(ReplayError::Cut(at));
    }
    Ok(part.next)
}

// Reads a script to its end: how many calls it has, all whole and with room.
// Kept: a `while` over places, since each call says where the next one stands.
fn read_all(script: &[u8], width: usize, room: usize) -> Move
    ensures { stop_of result ≡ hinders width room (parse 0 script.now) }
{
    let mut at: usize = 0;
    let mut count: usize = 0;
    while at < script.len() {
        let part = scripts::step_at(script, at)?;
        at = fits(part, at, count, width, room)?;
        count += 1;
    }
    Ok(count)
}

// The call that a script's part says, if it may be made; its line is the answers' line number `count`.
fn turn(
    program: &[u8],
    script: &[u8],
    part: Part,
    at: usize,
    count: usize,
    workspace: &mut [u8],
    journal: &mut [u8],
    answers: &mut [u8],
) -> Move
    requires from_le_next { (part.from ≤ part.next) × (part.next ≤ length script.now) }
    requires n_in_bounds { (part.n ≤ length journal.old) × (line_length * count + line_length ≤ length answers.old) }
    ensures { PlayMeans result (makes (tested part.n at part.next journal.old) program.now (call_of (length workspace.old) script.now part) count journal.old answers.old workspace.old) journal.new answers.new workspace.new }
{
    let next = test(part, at, journal)?;
    let line = making::make(program, script, part, workspace, journal);
    octets::copy(answers, LINE * count, &line);
    Ok(next)
}

// What stands at a place, played.
fn turn_at(
    program: &[u8],
    script: &[u8],
    at: usize,
    count: usize,
    workspace: &mut [u8],
    journal: &mut [u8],
    answers: &mut [u8],
) -> Move
    requires inside { at < length script.now }
    requires ahead { Ahead script.now (length journal.old) (length answers.old) at count }
    ensures { PlayMeans result (turn_of program.now script.now (step_at script.now at) at count journal.old answers.old workspace.old) journal.new answers.new workspace.new }
{
    let part = scripts::step_at(script, at)?;
    turn(
        program, script, part, at, count, workspace, journal, answers,
    )
}

// The calls behind the first.
fn play_on(
    program: &[u8],
    script: &[u8],
    start: usize,
    workspace: &mut [u8],
    journal: &mut [u8],
    answers: &mut [u8],
) -> ReplayAnswer
    requires { Ahead script.now (length journal.old) (length answers.old) start 1 }
    ensures { ReplayMeans result (play (length script.now) program.now script.now start 1 journal.old answers.old workspace.old) journal.new answers.new workspace.new }
{
    let mut at = start;
    let mut count: usize = 1;
    // Kept: a `while` over places, as in `read_all`.
    while at < script.len() {
        at = turn_at(program, script, at, count, workspace, journal, answers)?;
        count += 1;
    }
    Ok(count)
}

// What follows the first open's answer.
fn opened_on(
    answer: CheckAnswer,
    program: &[u8],
    script: &[u8],
    part: Part,
    workspace: &mut [u8],
    journal: &mut [u8],
    answers: &mut [u8],
) -> ReplayAnswer
    requires n_in_bounds { part.n ≤ length journal.old }
    requires ahead { Ahead script.now (length journal.old) (length answers.old) part.next 1 }
    ensures { ReplayMeans result (follows (check_answer answer) program.now script.now part journal.old answers.old workspace.old) journal.new answers.new workspace.new }
{
    answer?;
    making::clear_from(journal, part.n);
    octets::copy(answers, 0, &told::open_line(Ok(())));
    play_on(program, script, part.next, workspace, journal, answers)
}

// The first call: an open.
fn begin(
    program: &[u8],
    script: &[u8],
    part: Part,
    workspace: &mut [u8],
    journal: &mut [u8],
    answers: &mut [u8],
) -> ReplayAnswer
    requires from_le_next { (part.from ≤ part.next) × (part.next ≤ length script.now) }
    requires n_in_bounds { part.n ≤ length journal.old }
    requires ahead { Ahead script.now (length journal.old) (length answers.old) part.next 1 }
    ensures { ReplayMeans result (begins program.now script.now part journal.old answers.old workspace.old) journal.new answers.new workspace.new }
{
    let Kind::Open = part.kind else {
        return Err(ReplayError::Malformed(0));
    };
    let n = part.n;
    let held = &script[part.from..part.next];
    let answer = engine::open(program, held, workspace, &mut journal[..n]);
    opened_on(answer, program, script, part, workspace, journal, answers)
}

// A script that was read, from its first call on.
fn start(
    program: &[u8],
    script: &[u8],
    workspace: &mut [u8],
    journal: &mut [u8],
    answers: &mut [u8],
) -> ReplayAnswer
    requires { Ahead script.now (length journal.old) (length answers.old) 0 0 }
    ensures { ReplayMeans result (begins_at (step_at script.now 0) program.now script.now journal.old answers.old workspace.old) journal.new answers.new workspace.new }
{
    if script.is_empty() {
        return Err(ReplayError::Malformed(0));
    }
    let part = scripts::step_at(script, 0)?;
    begin(program, script, part, workspace, journal, answers)
}

// Plays a script: its calls, in order, on the program, the workspace and the journal's buffer, a line of the answers for each. It is
// read to its end first, so that one that is malformed or has no room touches nothing.
pub fn replay(
    program: &[u8],
    script: &[u8],
    workspace: &mut [u8],
    journal: &mut [u8],
    answers: &mut [u8],
) -> ReplayAnswer
    ensures result { ReplayMeans result (replayed program.now script.now journal.old answers.old workspace.old) journal.new answers.new workspace.new }
    ensures book { Booked program.now script.now journal.old answers.old workspace.old journal.new answers.new workspace.new (reply_of result) }
{
    read_all(script, journal.len(), answers.len())?;
    start(program, script, workspace, journal, answers)
}
