// The call that a line says: its numbers, and its byte strings in buffers.
ghost use Rattle.std.specs.Prelude.{◌≡◌, true, false, ℕ, ◌*◌, ◌≤◌, ◌<◌, List, length, IfOk, ok_or};
ghost use Rattle.calltext.specs.Words.{word_at, spaces};
ghost use Rattle.calltext.specs.Decimal.{number_in};
ghost use Rattle.calltext.specs.Calls.{most_length, name_of, read_check, read_run, read_open, read_convert, read_rollback, read_reader, of_length, read_line};
ghost use Rattle.calltext.specs.Left.{words_of, bytes_of};
ghost use Rattle.calltext.specs.Parsed.{DecodesArgument, counts_to, Parses};
ghost use Rattle.calltext.specs.declared.calls.Name.TheVariants.{Check, Forward, Open, Convert, Rollback, Nurse};
ghost use Rattle.calltext.specs.declared.calls.ParseError.TheVariants.{NoNumber};

use crate::{decimal, hexadecimal, words};
use rules::MAX_FUEL;

// The greatest length that a line can name.
const MOST_LENGTH: u64 = 999999999;

const MOST_FUEL: u16 = MAX_FUEL as u16;

// A function's number has two bytes.
const MOST_FUNCTION: u16 = u16::MAX;

// How many spaces the line of each call has, by the arguments that it takes.
const CHECK_SPACES: usize = 2;

const RUN_SPACES: usize = 7;

const OPEN_SPACES: usize = 4;

const CONVERT_SPACES: usize = 6;

const ROLLBACK_SPACES: usize = 4;

const READER_SPACES: usize = 2;

#[derive(Clone, Copy, PartialEq, Eq, Debug)]
pub enum Name {
    Check,
    Forward,
    Backward,
    Open,
    Convert,
    Rollback,
    Nurse,
    Workshop,
    Other,
}

// A check: the workspace's length, and how many bytes of its buffer the program is.
#[derive(Clone, Copy)]
pub struct CheckCall {
    pub workspace: usize,
    pub program: usize,
}

// A run, its byte strings by their lengths in their buffers.
#[derive(Clone, Copy)]
pub struct RunCall {
    pub backward: bool,
    pub workspace: usize,
    pub output: usize,
    pub fuel: u16,
    pub function: u16,
    pub program: usize,
    pub ancillae: usize,
    pub value: usize,
}

// The calls on a journal: it stands where a value would, and the value to be held where ancillae would.
#[derive(Clone, Copy)]
pub struct OpenCall {
    pub workspace: usize,
    pub program: usize,
    pub held: usize,
    pub journal: usize,
}

#[derive(Clone, Copy)]
pub struct ConvertCall {
    pub workspace: usize,
    pub fuel: u16,
    pub function: u16,
    pub program: usize,
    pub ancillae: usize,
    pub journal: usize,
}

#[derive(Clone, Copy)]
pub struct RollbackCall {
    pub workspace: usize,
    pub fuel: u16,
    pub program: usize,
    pub journal: usize,
}

// The nurse's reader of a journal, or the workshop's.
#[derive(Clone, Copy)]
pub struct ReaderCall {
    pub workshop: bool,
    pub output: usize,
    pub journal: usize,
}

// A call, its byte strings by their lengths.
#[derive(Clone, Copy)]
pub enum Call {
    Check(CheckCall),
    Run(RunCall),
    Open(OpenCall),
    Convert(ConvertCall),
    Rollback(RollbackCall),
    Read(ReaderCall),
}

// What is wrong with a line: its first word is no call's name, it has too few or too many words, or word k is no number in its range,
// or no bytes.
#[derive(Clone, Copy, PartialEq, Eq, Debug)]
pub enum ParseError {
    NoCall,
    WordCount,
    NoNumber(u8),
    NoBytes(u8),
}

pub type Parsed = Result<Call, ParseError>;

#[tactic(auto, unfolding(crate::specs::Calls::name_of, crate::specs::Calls::journal_name))]
fn name_of(word: &[u8]) -> Name
    ensures { result ≡ name_of word.now }
{
    let is = |name: &[u8]| word == name;
    if is(b"check") {
        Name::Check
    } else if is(b"forward") {
        Name::Forward
    } else if is(b"backward") {
        Name::Backward
    } else if is(b"open") {
        Name::Open
    } else if is(b"convert") {
        Name::Convert
    } else if is(b"rollback") {
        Name::Rollback
    } else if is(b"nurse") {
        Name::Nurse
    } else if is(b"workshop") {
        Name::Workshop
    } else {
        Name::Other
    }
}

// Has the line as many spaces as its call takes?
fn counted(line: &[u8], call: usize) -> Result<(), ParseError>
    ensures { result ≡ counts_to call (spaces line.now) }
{
    if words::count_spaces(line) != call {
        return Err(ParseError::WordCount);
    }
    Ok(())
}

// The number that word k is.
fn number_at(line: &[u8], k: u8, most: u64) -> Result<u64, ParseError>
    requires { most < 1000000000 }
    ensures said { result ≡ ok_or (number_in most (word_at k line.now)) (NoNumber k) }
    ensures within { IfOk result (λ n. n ≤ most) }
{
    decimal::read_number(words::word(line, k), most).ok_or(ParseError::NoNumber(k))
}

fn length_at(line: &[u8], k: u8) -> Result<usize, ParseError>
    ensures { result ≡ ok_or (number_in most_length (word_at k line.now)) (NoNumber k) }
{
    Ok(number_at(line, k, MOST_LENGTH)? as usize)
}

fn short_at(line: &[u8], k: u8, most: u16) -> Result<u16, ParseError>
    ensures { result ≡ ok_or (number_in most (word_at k line.now)) (NoNumber k) }
{
    Ok(number_at(line, k, u64::from(most))? as u16)
}

// The bytes that word k is, at the start of `out`: how many.
fn bytes_at(line: &[u8], k: u8, out: &mut [u8]) -> Result<usize, ParseError>
    requires { length line.now ≤ 2 * length out.old }
    ensures { DecodesArgument result k (word_at k line.now) out.old out.new }
{
    hexadecimal::decode(words::word(line, k), out).ok_or(ParseError::NoBytes(k))
}

// The calls, each lent the buffers of the byte strings that it takes, whatever the other buffers hold.
// Kept: buffers one by one in place of a struct of three, since a call is lent those alone that it takes.

fn check_call(line: &[u8], program: &mut [u8]) -> Parsed
    requires { length line.now ≤ 2 * length program.old }
    ensures { (anc v : List ℕ) → Parses result line.now (words_of Check) program.old anc v program.new anc v (of_length (spaces line.now) 2 (read_check line.now)) }
{
    counted(line, CHECK_SPACES)?;
    Ok(Call::Check(CheckCall {
        workspace: length_at(line, 1)?,
        program: bytes_at(line, 2, program)?,
    }))
}

fn run_call(
    line: &[u8],
    backward: bool,
    program: &mut [u8],
    ancillae: &mut [u8],
    value: &mut [u8],
) -> Parsed
    requires line_len_bound { length line.now ≤ 2 * length program.old }
    requires line_len_bound_2 { length line.now ≤ 2 * length ancillae.old }
    requires line_len_bound_3 { length line.now ≤ 2 * length value.old }
    ensures { Parses result line.now (words_of Forward) program.old ancillae.old value.old program.new ancillae.new value.new (of_length (spaces line.now) 7 (read_run backward line.now)) }
{
    counted(line, RUN_SPACES)?;
    Ok(Call::Run(RunCall {
        backward,
        workspace: length_at(line, 1)?,
        output: length_at(line, 2)?,
        fuel: short_at(line, 3, MOST_FUEL)?,
        function: short_at(line, 4, MOST_FUNCTION)?,
        program: bytes_at(line, 5, program)?,
        ancillae: bytes_at(line, 6, ancillae)?,
        value: bytes_at(line, 7, value)?,
    }))
}

fn open_call(line: &[u8], program: &mut [u8], ancillae: &mut [u8], value: &mut [u8]) -> Parsed
    requires line_len_bound { length line.now ≤ 2 * length program.old }
    requires line_len_bound_2 { length line.now ≤ 2 * length ancillae.old }
    requires line_len_bound_3 { length line.now ≤ 2 * length value.old }
    ensures { Parses result line.now (words_of Open) program.old ancillae.old value.old program.new ancillae.new value.new (of_length (spaces line.now) 4 (read_open line.now)) }
{
    counted(line, OPEN_SPACES)?;
    Ok(Call::Open(OpenCall {
        workspace: length_at(line, 1)?,
        program: bytes_at(line, 2, program)?,
        held: bytes_at(line, 3, ancillae)?,
        journal: bytes_at(line, 4, value)?,
    }))
}

fn convert_call(line: &[u8], program: &mut [u8], ancillae: &mut [u8], value: &mut [u8]) -> Parsed
    requires line_len_bound { length line.now ≤ 2 * length program.old }
    requires line_len_bound_2 { length line.now ≤ 2 * length ancillae.old }
    requires line_len_bound_3 { length line.now ≤ 2 * length value.old }
    ensures { Parses result line.now (words_of Convert) program.old ancillae.old value.old program.new ancillae.new value.new (of_length (spaces line.now) 6 (read_convert line.now)) }
{
    counted(line, CONVERT_SPACES)?;
    Ok(Call::Convert(ConvertCall {
        workspace: length_at(line, 1)?,
        fuel: short_at(line, 2, MOST_FUEL)?,
        function: short_at(line, 3, MOST_FUNCTION)?,
        program: bytes_at(line, 4, program)?,
        ancillae: bytes_at(line, 5, ancillae)?,
        journal: bytes_at(line, 6, value)?,
    }))
}

fn rollback_call(line: &[u8], program: &mut [u8], value: &mut [u8]) -> Parsed
    requires line_len_bound { length line.now ≤ 2 * length program.old }
    requires line_len_bound_2 { length line.now ≤ 2 * length value.old }
    ensures { (anc : List ℕ) → Parses result line.now (words_of Rollback) program.old anc value.old program.new anc value.new (of_length (spaces line.now) 4 (read_rollback line.now)) }
{
    counted(line, ROLLBACK_SPACES)?;
    Ok(Call::Rollback(RollbackCall {
        workspace: length_at(line, 1)?,
        fuel: short_at(line, 2, MOST_FUEL)?,
        program: bytes_at(line, 3, program)?,
        journal: bytes_at(line, 4, value)?,
    }))
}

fn reader_call(line: &[u8], workshop: bool, value: &mut [u8]) -> Parsed
    requires { length line.now ≤ 2 * length value.old }
    ensures { (p anc : List ℕ) → Parses result line.now (words_of Nurse) p anc value.old p anc value.new (of_length (spaces line.now) 2 (read_reader workshop line.now)) }
{
    counted(line, READER_SPACES)?;
    Ok(Call::Read(ReaderCall {
        workshop,
        output: length_at(line, 1)?,
        journal: bytes_at(line, 2, value)?,
    }))
}

// The call that a line says, its byte strings at the starts of the buffers, each of which can hold as many bytes as a line has.
pub fn parse(line: &[u8], program: &mut [u8], ancillae: &mut [u8], value: &mut [u8]) -> Parsed
    requires line_len_bound { length line.now ≤ 2 * length program.old }
    requires line_len_bound_2 { length line.now ≤ 2 * length ancillae.old }
    requires line_len_bound_3 { length line.now ≤ 2 * length value.old }
    ensures { Parses result line.now (bytes_of line.now) program.old ancillae.old value.old program.new ancillae.new value.new (read_line line.now) }
{
    match name_of(words::word(line, 0)) {
        Name::Check => check_call(line, program),
        Name::Forward => run_call(line, false, program, ancillae, value),
        Name::Backward => run_call(line, true, program, ancillae, value),
        Name::Open => open_call(line, program, ancillae, value),
        Name::Convert => convert_call(line, program, ancillae, value),
        Name::Rollback => rollback_call(line, program, value),
        Name::Nurse => reader_call(line, false, value),
        Name::Workshop => reader_call(line, true, value),
        Name::Other => Err(ParseError::NoCall),
    }
}
