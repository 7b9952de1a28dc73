// The public calls for C and for Rust, as a static library (`rt lib`): a slice is a pointer and a length. What a call
// answers is told in four numbers: the refusal's number, or 0 where it is accepted; its place; the length of the value, or of the bytes that
// were written; the steps, or how many conversions stand.
#![tactic(auto)]

// answers as four numbers
mod told;

ghost use Rattle.std.specs.Prelude.{◌≡◌, length};
ghost use Rattle.calls.specs.Answer.{cleared, overwritten};
ghost use Rattle.calls.specs.Runs.{check_call, forward_call, backward_call, written};
ghost use Rattle.calls.specs.Conversions.{open_call, convert_call, rollback_call};
ghost use Rattle.calls.specs.Readers.{held_bytes, nurse_call, workshop_call};
ghost use Rattle.calls.specs.Book.{after_open, after_turned};
ghost use Rattle.answers.specs.Answers.{open_answer, held_answer, seen_answer, length_answer, summary};
ghost use Rattle.replay.specs.Playing.{replayed};
ghost use Rattle.replay.specs.Booked.{Booked};
ghost use Rattle.exports.specs.Told.{check_told, run_told, length_told, replay_told};

use told::{replay_told, told_of};

// Is the program accepted?
#[unsafe(no_mangle)]
pub extern "C" fn corefun_check(program: &[u8], workspace: &mut [u8], told: &mut [u64; 4])
    ensures answer { told.new ≡ check_told (check_call program.now (length workspace.old)) }
    ensures clear { workspace.new ≡ cleared (check_call program.now (length workspace.old)) workspace.old }
{
    *told = told_of(engine::check(program, workspace));
}

// Runs a function forward.
#[unsafe(no_mangle)]
pub extern "C" fn corefun_forward(
    program: &[u8],
    function: u16,
    ancillae: &[u8],
    value: &[u8],
    fuel: u16,
    workspace: &mut [u8],
    output: &mut [u8],
    told: &mut [u64; 4],
)
    ensures answer { told.new ≡ run_told (summary (forward_call program.now function ancillae.now value.now fuel (length workspace.old) (length output.old))) }
    ensures fills { output.new ≡ written (forward_call program.now function ancillae.now value.now fuel (length workspace.old) (length output.old)) output.old }
    ensures clear { workspace.new ≡ cleared (forward_call program.now function ancillae.now value.now fuel (length workspace.old) (length output.old)) workspace.old }
{
    *told = told_of(engine::forward(program, function, ancillae, value, fuel, workspace, output));
}

// Runs a function backward.
#[unsafe(no_mangle)]
pub extern "C" fn corefun_backward(
    program: &[u8],
    function: u16,
    ancillae: &[u8],
    value: &[u8],
    fuel: u16,
    workspace: &mut [u8],
    output: &mut [u8],
    told: &mut [u64; 4],
)
    ensures answer { told.new ≡ run_told (summary (backward_call program.now function ancillae.now value.now fuel (length workspace.old) (length output.old))) }
    ensures fills { output.new ≡ written (backward_call program.now function ancillae.now value.now fuel (length workspace.old) (length output.old)) output.old }
    ensures clear { workspace.new ≡ cleared (backward_call program.now function ancillae.now value.now fuel (length workspace.old) (length output.old)) workspace.old }
{
    *told = told_of(engine::backward(program, function, ancillae, value, fuel, workspace, output));
}

// Opens a journal with a record.
#[unsafe(no_mangle)]
pub extern "C" fn corefun_open(
    program: &[u8],
    record: &[u8],
    workspace: &mut [u8],
    journal: &mut [u8],
    told: &mut [u64; 4],
)
    ensures answer { told.new ≡ check_told (open_answer (open_call program.now «record».now (length workspace.old) (length journal.old))) }
    ensures keeps { journal.new ≡ (after_open journal.old (open_call program.now «record».now (length workspace.old) (length journal.old))).journal }
    ensures clear { workspace.new ≡ cleared (open_call program.now «record».now (length workspace.old) (length journal.old)) workspace.old }
{
    *told = told_of(engine::open(program, record, workspace, journal));
}

// Converts the held record.
#[unsafe(no_mangle)]
pub extern "C" fn corefun_convert(
    program: &[u8],
    function: u16,
    ancillae: &[u8],
    fuel: u16,
    workspace: &mut [u8],
    journal: &mut [u8],
    told: &mut [u64; 4],
)
    ensures answer { told.new ≡ run_told (held_answer (convert_call program.now function ancillae.now fuel (length workspace.old) journal.old)) }
    ensures keeps { journal.new ≡ (after_turned journal.old (convert_call program.now function ancillae.now fuel (length workspace.old) journal.old)).journal }
    ensures clear { workspace.new ≡ cleared (convert_call program.now function ancillae.now fuel (length workspace.old) journal.old) workspace.old }
{
    *told = told_of(engine::convert(program, function, ancillae, fuel, workspace, journal));
}

// Rolls back the newest conversion.
#[unsafe(no_mangle)]
pub extern "C" fn corefun_rollback(
    program: &[u8],
    fuel: u16,
    workspace: &mut [u8],
    journal: &mut [u8],
    told: &mut [u64; 4],
)
    ensures answer { told.new ≡ run_told (held_answer (rollback_call program.now fuel (length workspace.old) journal.old)) }
    ensures keeps { journal.new ≡ (after_turned journal.old (rollback_call program.now fuel (length workspace.old) journal.old)).journal }
    ensures clear { workspace.new ≡ cleared (rollback_call program.now fuel (length workspace.old) journal.old) workspace.old }
{
    *told = told_of(engine::rollback(program, fuel, workspace, journal));
}

// The nurse's reader of a journal (document 02, F-1): the held value, and how many conversions stand.
#[unsafe(no_mangle)]
pub extern "C" fn corefun_nurse(journal: &[u8], output: &mut [u8], told: &mut [u64; 4])
    ensures answer { told.new ≡ run_told (seen_answer (nurse_call journal.now (length output.old))) }
    ensures fills { output.new ≡ overwritten (held_bytes (nurse_call journal.now (length output.old))) output.old }
{
    *told = told_of(engine::nurse(journal, output));
}

// The workshop's reader of a journal: the fields of all conversions, oldest first.
#[unsafe(no_mangle)]
pub extern "C" fn corefun_workshop(journal: &[u8], output: &mut [u8], told: &mut [u64; 4])
    ensures answer { told.new ≡ length_told (length_answer (workshop_call journal.now (length output.old))) }
    ensures fills { output.new ≡ overwritten (workshop_call journal.now (length output.old)) output.old }
{
    *told = told_of(engine::workshop(journal, output));
}

// Plays a script of calls on a journal. What is told: how it ended (0 played, 1 malformed, 2 a buffer too wide, 3 answers too short, 4 not
// opened, 5 fields cut); how many calls were played, or the place in the script; and of a refused open the number and the place. The calls
// before a cut are played, and those that are played are answered and written out as the plain book has it; after 1, 2 and 3 nothing is touched.
#[unsafe(no_mangle)]
pub extern "C" fn corefun_replay(
    program: &[u8],
    script: &[u8],
    workspace: &mut [u8],
    journal: &mut [u8],
    answers: &mut [u8],
    told: &mut [u64; 4],
)
    ensures answer { told.new ≡ replay_told (replayed program.now script.now journal.old answers.old workspace.old).reply }
    ensures keeps { journal.new ≡ (replayed program.now script.now journal.old answers.old workspace.old).journal }
    ensures fills { answers.new ≡ (replayed program.now script.now journal.old answers.old workspace.old).answers }
    ensures clear { workspace.new ≡ (replayed program.now script.now journal.old answers.old workspace.old).workspace }
    ensures book { Booked program.now script.now journal.old answers.old workspace.old journal.new answers.new workspace.new (replayed program.now script.now journal.old answers.old workspace.old).reply }
{
    *told = replay_told(replay::replay(program, script, workspace, journal, answers));
}
