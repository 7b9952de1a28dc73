// What keeps a command from being carried out, or its answer from being written.
use crate::arguments::Argument;
use crate::{arguments, printing};
use std::rt::Env;
use std::{fmt, io};

// What is wrong with an argument, by its name.
#[derive(Clone, Copy)]
pub(crate) enum ArgumentError {
    Number(&'static str),
    Bytes(&'static str),
    Long(&'static str),
}

impl fmt::Display for ArgumentError {
    fn fmt<W: fmt::Write>(&self, f: &mut fmt::Formatter<W>) -> fmt::Result {
        match *self {
            ArgumentError::Number(name) => {
                write!(f, "{name} is not a decimal number from 0 to 65535")
            }
            ArgumentError::Bytes(name) => {
                write!(
                    f,
                    "{name} is not hexadecimal: two digits a byte, or - for none"
                )
            }
            ArgumentError::Long(name) => write!(f, "{name} holds over 131072 bytes"),
        }
    }
}

#[derive(Drop)]
pub(crate) enum Failure {
    Argument(ArgumentError),
    // the file that an argument names
    File(Argument, io::Error),
    Input(io::Error),
    Output(io::Error),
}

impl From<ArgumentError> for Failure {
    fn from(error: ArgumentError) -> Failure {
        Failure::Argument(error)
    }
}

impl Failure {
    // What failed, as a line on standard error. A file goes by its name, which is read into `word` once more.
    pub(crate) fn report(self, rt: &(impl Env + Alloc), err: &impl Print, word: &mut [u8]) {
        match self {
            Failure::Argument(error) => {
                let _ = println!(err; "corefun: {error}");
            }
            Failure::File(argument, error) => {
                let n = arguments::word_of(rt, argument.place, word);
                printing::fail(rt, err, &word[..n], error);
            }
            Failure::Input(error) => printing::fail(rt, err, b"corefun: standard input", error),
            Failure::Output(error) => printing::fail(rt, err, b"corefun: standard output", error),
        }
    }
}
