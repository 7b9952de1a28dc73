// Files, read whole.
ghost use Rattle.std.specs.Prelude.{◌≤◌, length, IfOk};

use crate::arguments;
use crate::arguments::Argument;
use crate::failures::{ArgumentError, Failure};
use std::io::Read;
use std::rt::{Env, Files};
use std::{fs, io, str};

// Reads until the file ends or the buffer is full: how many bytes.
fn read_whole(file: &mut impl Read, into: &mut [u8]) -> io::Result<usize>
    ensures { IfOk result (λ n. n ≤ length into.new) }
{
    let mut n: usize = 0;
    // Kept: a `while` over the room that is left, since each read says how much of it was filled.
    while n < into.len() {
        let more = file.read(&mut into[n..])?;
        if more == 0 {
            break;
        }
        n += more;
    }
    Ok(n)
}

// The file of this name, opened. A name that is no text in UTF-8 names no file that can be opened.
fn open_named<R: Files>(rt: &R, path: &[u8]) -> io::Result<R::File> {
    match str::from_utf8(path) {
        Ok(name) => fs::open(rt, name),
        Err(_) => Err(io::Error::from(io::ErrorKind::InvalidFilename)),
    }
}

// The file of this name, from its start.
fn load_named(rt: &impl Files, path: &[u8], into: &mut [u8]) -> io::Result<usize>
    ensures { IfOk result (λ n. n ≤ length into.new) }
{
    let mut file = open_named(rt, path)?;
    read_whole(&mut file, into)
}

// The file that an argument names, as much of it as the buffer holds. A program that is cut so is over the limit as the whole file is, and
// the engine refuses either with 3 at 0.
pub(crate) fn load(
    rt: &(impl Env + Files),
    argument: Argument,
    word: &mut [u8],
    into: &mut [u8],
) -> Result<usize, Failure>
    ensures { IfOk result (λ n. n ≤ length into.new) }
{
    let n = arguments::word_of(rt, argument.place, word);
    match load_named(rt, &word[..n], into) {
        Ok(len) => Ok(len),
        Err(error) => Err(Failure::File(argument, error)),
    }
}

// The same of a file that the buffer has to hold, with a byte to spare.
pub(crate) fn load_all(
    rt: &(impl Env + Files),
    argument: Argument,
    word: &mut [u8],
    into: &mut [u8],
) -> Result<usize, Failure>
    ensures { IfOk result (λ n. n ≤ length into.new) }
{
    let n = load(rt, argument, word, into)?;
    if n == into.len() {
        return Err(Failure::Argument(ArgumentError::Long(argument.name)));
    }
    Ok(n)
}
