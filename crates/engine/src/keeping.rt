// The calls on a journal: open, convert and rollback (document 01, sections 4 and 5). A call that is refused leaves the journal as it was;
// the workspace is all zero after every call, but unchanged if it is too short.
ghost use Rattle.std.specs.Prelude.{◌≡◌, length};
ghost use Rattle.calls.specs.Answer.{cleared};
ghost use Rattle.calls.specs.Conversions.{open_call, convert_call, rollback_call};
ghost use Rattle.calls.specs.Book.{after_open, after_turned};
ghost use Rattle.answers.specs.Answers.{check_answer, run_answer, open_answer, held_answer};

use crate::serving;
use answers::{CheckAnswer, RunAnswer};
use conversions::programs;

// Opens a journal with a record: whatever the buffer holds, it says the record and no conversion afterwards.
pub fn open(program: &[u8], record: &[u8], workspace: &mut [u8], journal: &mut [u8]) -> CheckAnswer
    ensures answer { check_answer result ≡ open_answer (open_call program.now «record».now (length workspace.old) (length journal.old)) }
    ensures keeps { journal.new ≡ (after_open journal.old (open_call program.now «record».now (length workspace.old) (length journal.old))).journal }
    ensures clear { workspace.new ≡ cleared (open_call program.now «record».now (length workspace.old) (length journal.old)) workspace.old }
{
    serving::serve(workspace, 0, journal, |workspace, journal| {
        programs::open(program, record, workspace, journal)
    })
}

// Runs a function forward on the held record, and adds the conversion: the answer is the new record's length and the steps.
pub fn convert(
    program: &[u8],
    function: u16,
    ancillae: &[u8],
    fuel: u16,
    workspace: &mut [u8],
    journal: &mut [u8],
) -> RunAnswer
    ensures answer { run_answer result ≡ held_answer (convert_call program.now function ancillae.now fuel (length workspace.old) journal.old) }
    ensures keeps { journal.new ≡ (after_turned journal.old (convert_call program.now function ancillae.now fuel (length workspace.old) journal.old)).journal }
    ensures clear { workspace.new ≡ cleared (convert_call program.now function ancillae.now fuel (length workspace.old) journal.old) workspace.old }
{
    serving::serve(workspace, fuel, journal, |workspace, journal| {
        programs::convert(program, function, ancillae, fuel, workspace, journal)
    })
}

// Runs the newest conversion backward on the held record, and strikes it: no earlier record is stored.
pub fn rollback(program: &[u8], fuel: u16, workspace: &mut [u8], journal: &mut [u8]) -> RunAnswer
    ensures answer { run_answer result ≡ held_answer (rollback_call program.now fuel (length workspace.old) journal.old) }
    ensures keeps { journal.new ≡ (after_turned journal.old (rollback_call program.now fuel (length workspace.old) journal.old)).journal }
    ensures clear { workspace.new ≡ cleared (rollback_call program.now fuel (length workspace.old) journal.old) workspace.old }
{
    serving::serve(workspace, fuel, journal, |workspace, journal| {
        programs::rollback(program, fuel, workspace, journal)
    })
}
