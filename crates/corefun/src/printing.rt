// Text on standard output and standard error. What a program prints with is its runtime; `err` is standard error.
use crate::failures::Failure;
use std::io;

// A text, on standard output.
pub(crate) fn print(rt: &impl Print, text: &[u8]) -> Result<(), Failure> {
    rt.write_all(text).map_err(Failure::Output)
}

// Where standard error takes nothing, nobody can be told.
pub(crate) fn tell(err: &impl Print, text: &[u8]) {
    let _ = err.write_all(text);
}

// What failed, as the caller names it, and what the system says of it, as a line on standard error.
pub(crate) fn fail(rt: &impl Alloc, err: &impl Print, what: &[u8], error: io::Error) {
    tell(err, what);
    tell(err, b": ");
    if let Ok(text) = error.to_string(rt.alloc()) {
        tell(err, reason(text.as_str()).as_bytes());
    }
    tell(err, b"\n");
}

// What the system says of an error, without its number.
fn reason(text: &str) -> &str {
    match text.split_once(" (os error ") {
        Some((words, _)) => words,
        None => text,
    }
}
