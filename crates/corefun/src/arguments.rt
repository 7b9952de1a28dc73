// Arguments: their places and names, numbers and byte strings.
ghost use Rattle.std.specs.Prelude.{◌*◌, ◌≤◌, ◌<◌, length, IfOk};

use crate::failures::ArgumentError;
use calltext::{decimal, hexadecimal};
use std::rt::Env;

// Where an argument stands behind the program's name, and what the usage calls it.
#[derive(Clone, Copy)]
pub(crate) struct Argument {
    pub place: usize,
    pub name: &'static str,
}

// The first argument says what to do.
pub(crate) const COMMAND: usize = 1;

pub(crate) const FILE: Argument = Argument {
    place: 2,
    name: "FILE",
};

pub(crate) const FUNCTION: Argument = Argument {
    place: 3,
    name: "FUNCTION",
};

pub(crate) const FUEL: Argument = Argument {
    place: 4,
    name: "FUEL",
};

pub(crate) const ANCILLAE: Argument = Argument {
    place: 5,
    name: "ANCILLAE",
};

pub(crate) const VALUE: Argument = Argument {
    place: 6,
    name: "VALUE",
};

pub(crate) const SCRIPT: Argument = Argument {
    place: 3,
    name: "SCRIPT",
};

pub(crate) const JOURNAL: Argument = Argument {
    place: 2,
    name: "JOURNAL",
};

// The argument at a place, at the start of `word`: its length, 0 where there is none. (The system lends none that is longer than `word`.)
pub(crate) fn word_of(rt: &impl Env, place: usize, word: &mut [u8]) -> usize
    ensures { result ≤ length word.new }
{
    match rt.arg(place, word) {
        Ok(n) => n,
        Err(_) => 0,
    }
}

// An argument as a number of two bytes.
pub(crate) fn short(
    rt: &impl Env,
    argument: Argument,
    word: &mut [u8],
) -> Result<u16, ArgumentError> {
    let n = word_of(rt, argument.place, word);
    match decimal::read_number(&word[..n], u64::from(u16::MAX)) {
        Some(number) => Ok(number as u16),
        None => Err(ArgumentError::Number(argument.name)),
    }
}

// An argument as bytes, at the start of `into`: how many.
pub(crate) fn byte_string(
    rt: &impl Env,
    argument: Argument,
    word: &mut [u8],
    into: &mut [u8],
) -> Result<usize, ArgumentError>
    requires { length word.old ≤ 2 * length into.old }
    ensures { IfOk result (λ n. n ≤ length into.new) }
{
    let n = word_of(rt, argument.place, word);
    match hexadecimal::decode(&word[..n], into) {
        Some(len) => Ok(len),
        None => Err(ArgumentError::Bytes(argument.name)),
    }
}
