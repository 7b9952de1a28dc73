// The command line: programs in files, values as hexadecimal arguments, calls on standard input. What is pure stands in the crates
// below; here are arguments, files and the buffers that are lent. Answers go to standard output; where no call is made, standard output
// stays empty and standard error says why (docs/DECISIONS.md, "Command line").
#![tactic(auto)]

mod arguments;
mod buffers;
mod failures;
mod files;
mod input;
mod playing;
mod printing;
mod reading;
mod running;

use buffers::Buffers;
use failures::Failure;
use std::env::FillError;
use std::io::Input;
use std::rt::{Env, Files};

#[derive(Clone, Copy)]
enum Command {
    Check,
    Forward,
    Backward,
    Batch,
    Replay,
    Nurse,
    Workshop,
}

const USAGE: [&[u8]; 8] = [
    b"usage: corefun check FILE\n",
    b"       corefun forward FILE FUNCTION FUEL ANCILLAE VALUE\n",
    b"       corefun backward FILE FUNCTION FUEL ANCILLAE VALUE\n",
    b"       corefun batch < CALLS\n",
    b"       corefun replay PROGRAM SCRIPT\n",
    b"       corefun nurse JOURNAL\n",
    b"       corefun workshop JOURNAL\n",
    b"FILE and PROGRAM hold a program, SCRIPT a script of journal calls, JOURNAL a journal's bytes. FUNCTION and FUEL are decimal, ANCILLAE and VALUE hexadecimal, - for none.\n",
];

// The command of this name that takes so many arguments, its own name and the program's among them.
fn command_of(name: &[u8], given: usize) -> Option<Command> {
    let is = |command: &[u8], takes: usize| name == command && given == takes;
    if is(b"check", 3) {
        Some(Command::Check)
    } else if is(b"forward", 7) {
        Some(Command::Forward)
    } else if is(b"backward", 7) {
        Some(Command::Backward)
    } else if is(b"batch", 2) {
        Some(Command::Batch)
    } else if is(b"replay", 4) {
        Some(Command::Replay)
    } else if is(b"nurse", 3) {
        Some(Command::Nurse)
    } else if is(b"workshop", 3) {
        Some(Command::Workshop)
    } else {
        None
    }
}

// More arguments than a command takes: so many are counted, and no more.
const MOST_GIVEN: usize = 8;

// How many arguments were given, the program's name among them.
fn count_given(rt: &impl Env, word: &mut [u8]) -> usize {
    for n in 0..MOST_GIVEN {
        if let Err(FillError::NotPresent) = rt.arg(n, word) {
            return n;
        }
    }
    MOST_GIVEN
}

// The command that the first argument names.
fn asked(rt: &impl Env, word: &mut [u8]) -> Option<Command> {
    let given = count_given(rt, word);
    let n = arguments::word_of(rt, arguments::COMMAND, word);
    command_of(&word[..n], given)
}

// Carries the command out.
fn carry_out(
    rt: &(impl Env + Files + Input + Print),
    command: Command,
    b: &mut Buffers,
) -> Result<(), Failure> {
    match command {
        Command::Check => running::check(rt, b),
        Command::Forward => running::run(rt, false, b),
        Command::Backward => running::run(rt, true, b),
        Command::Batch => input::answer_all(rt, b),
        Command::Replay => playing::replay(rt, b),
        Command::Nurse => reading::read(rt, false, b),
        Command::Workshop => reading::read(rt, true, b),
    }
}

fn main(rt: HostRuntime) {
    let err = rt.stderr();
    let mut b = Buffers {
        word: [0; buffers::LINE],
        program: [0; buffers::HALF],
        ancillae: [0; buffers::HALF],
        value: [0; buffers::HALF],
        workspace: [0; buffers::WORKSPACE],
        output: [0; buffers::OUTPUT],
        out: [0; buffers::ANSWER],
    };
    let Some(command) = asked(&rt, &mut b.word) else {
        for line in USAGE {
            printing::tell(&err, line);
        }
        return;
    };
    if let Err(failure) = carry_out(&rt, command, &mut b) {
        failure.report(&rt, &err, &mut b.word);
    }
}
