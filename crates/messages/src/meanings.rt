// What each number of document 01's section 4 means, by the table's rows.
// Kept: a number in place of a Refusal, since `put_meaning` promises a meaning of every number (docs/ARCHITECTURE.md names it).
ghost use Rattle.std.specs.Prelude.{◌≡◌, ◌+◌, ◌≤◌, length};
ghost use Rattle.calltext.specs.Wrote.{Wrote};
ghost use Rattle.messages.specs.Meanings.{reading_meaning, typing_meaning, call_meaning, run_meaning, keeping_meaning, meaning_of};

use calltext::answers as texts;

// The rows of workspace, fields and entries (1 to 5).
#[tactic(auto, unfolding(crate::specs::Meanings::reading_meaning))]
fn reading(n: u64) -> &'static [u8]
    ensures { result.now ≡ reading_meaning n }
{
    match n {
        1 => b"the workspace is too short",
        2 => b"a field has a bad tag, kind, length or order",
        3 => b"too many entries, parameters or bytes",
        4 => b"a reference is absent or not lower, or a term is not used just once",
        _ => b"a named type is not closed, or has over 1,024 nodes",
    }
}

// The rows of typing (6 to 8).
#[tactic(auto, unfolding(crate::specs::Meanings::typing_meaning))]
fn typing(n: u64) -> &'static [u8]
    ensures { result.now ≡ typing_meaning n }
{
    match n {
        6 => b"types differ, arguments are too many or too few, or a type is too large",
        7 => b"a variable is not in scope, or over 32 are",
        _ => b"a variable is not used as the rules of use ask",
    }
}

// The rows of the call (9 to 11).
#[tactic(auto, unfolding(crate::specs::Meanings::call_meaning))]
fn call(n: u64) -> &'static [u8]
    ensures { result.now ≡ call_meaning n }
{
    match n {
        9 => b"there is no such function",
        10 => b"value bytes are malformed, over the limit or wrong in number",
        _ => b"a value is not of its type",
    }
}

// The rows of the run (12 to 16).
#[tactic(auto, unfolding(crate::specs::Meanings::run_meaning))]
fn run(n: u64) -> &'static [u8]
    ensures { result.now ≡ run_meaning n }
{
    match n {
        12 => b"the fuel is spent",
        13 => b"the height passes 1,024",
        14 => b"a value is over 1,024 bytes",
        15 => b"the left branch may yield the right branch's value",
        _ => b"no input leads to this value",
    }
}

// The rows of output and journal (17 to 20).
#[tactic(auto, unfolding(crate::specs::Meanings::keeping_meaning))]
fn keeping(n: u64) -> &'static [u8]
    ensures { result.now ≡ keeping_meaning n }
{
    match n {
        17 => b"the output is too short",
        18 => b"the journal is malformed",
        19 => b"no conversion stands",
        _ => b"64 conversions stand already, or the bytes do not fit",
    }
}

// What refusal n means.
#[tactic(auto, unfolding(crate::specs::Meanings::meaning_of))]
fn meaning(n: u64) -> &'static [u8]
    ensures { result.now ≡ meaning_of n }
{
    match n {
        0..=5 => reading(n),
        6..=8 => typing(n),
        9..=11 => call(n),
        12..=16 => run(n),
        _ => keeping(n),
    }
}

// The same, put into `out` from `at` on: where it ends.
pub fn put_meaning(n: u64, out: &mut [u8], at: usize) -> usize
    requires { at + 80 ≤ length out.old }
    ensures { Wrote out.old out.new at result (meaning_of n) }
{
    texts::put(meaning(n), out, at)
}
