// The calls on a journal that a line says, made in a workspace of the length that it names, and answered by a line with the journal.
ghost use Rattle.std.specs.Prelude.{◌≡◌, ◌+◌, ◌*◌, ◌≤◌, length, take};
ghost use Rattle.calls.specs.Answer.{cleared};
ghost use Rattle.calls.specs.Conversions.{open_call, convert_call, rollback_call};
ghost use Rattle.calls.specs.Book.{after_open, after_turned};
ghost use Rattle.calltext.specs.Wrote.{Wrote};
ghost use Rattle.batch.specs.Capped.{most_workspace, capped};
ghost use Rattle.batch.specs.Answering.{open_text, turn_text};
ghost use Rattle.batch.specs.Lent.{on_front};

use crate::making;
use calltext::calls::{ConvertCall, OpenCall, RollbackCall};
use messages::replies;

// An open in a workspace as it is lent.
fn open_lent(
    program: &[u8],
    held: &[u8],
    workspace: &mut [u8],
    journal: &mut [u8],
    out: &mut [u8],
) -> usize
    requires { 2 * length journal.old + 64 ≤ length out.old }
    ensures answer { Wrote out.old out.new 0 result (open_text (open_call program.now held.now (length workspace.old) (length journal.old))) }
    ensures keeps { journal.new ≡ (after_open journal.old (open_call program.now held.now (length workspace.old) (length journal.old))).journal }
    ensures clear { workspace.new ≡ cleared (open_call program.now held.now (length workspace.old) (length journal.old)) workspace.old }
{
    let answer = engine::open(program, held, workspace, journal);
    replies::opened_line(answer, journal, out)
}

// An open, made and answered.
pub(crate) fn open(
    call: OpenCall,
    program: &[u8],
    held: &[u8],
    journal: &mut [u8],
    workspace: &mut [u8],
    out: &mut [u8],
) -> usize
    requires program_in_bounds { (call.program ≤ length program.now) × (call.held ≤ length held.now) × (call.journal ≤ length journal.old) }
    requires most_workspace_in_bounds { most_workspace ≤ length workspace.old }
    requires journal_in_bounds { 2 * length journal.old + 64 ≤ length out.old }
    ensures answer { Wrote out.old out.new 0 result (open_text (open_call (take call.program program.now) (take call.held held.now) call.workspace (length (take call.journal journal.old)))) }
    ensures keeps { journal.new ≡ on_front (length (take call.journal journal.old)) (λ j. (after_open j (open_call (take call.program program.now) (take call.held held.now) call.workspace (length (take call.journal journal.old)))).journal) journal.old }
    ensures clear { workspace.new ≡ on_front (capped most_workspace call.workspace) (cleared (open_call (take call.program program.now) (take call.held held.now) call.workspace (length (take call.journal journal.old)))) workspace.old }
{
    let ws = call.workspace.min(making::MOST_WORKSPACE);
    open_lent(
        &program[..call.program],
        &held[..call.held],
        &mut workspace[..ws],
        &mut journal[..call.journal],
        out,
    )
}

// A convert in a workspace as it is lent.
fn convert_lent(
    program: &[u8],
    function: u16,
    ancillae: &[u8],
    fuel: u16,
    workspace: &mut [u8],
    journal: &mut [u8],
    out: &mut [u8],
) -> usize
    requires { 2 * length journal.old + 64 ≤ length out.old }
    ensures answer { Wrote out.old out.new 0 result (turn_text (convert_call program.now function ancillae.now fuel (length workspace.old) journal.old)) }
    ensures keeps { journal.new ≡ (after_turned journal.old (convert_call program.now function ancillae.now fuel (length workspace.old) journal.old)).journal }
    ensures clear { workspace.new ≡ cleared (convert_call program.now function ancillae.now fuel (length workspace.old) journal.old) workspace.old }
{
    let answer = engine::convert(program, function, ancillae, fuel, workspace, journal);
    replies::held_line(answer, journal, out)
}

// A convert, made and answered.
pub(crate) fn convert(
    call: ConvertCall,
    program: &[u8],
    ancillae: &[u8],
    journal: &mut [u8],
    workspace: &mut [u8],
    out: &mut [u8],
) -> usize
    requires program_in_bounds { (call.program ≤ length program.now) × (call.ancillae ≤ length ancillae.now) × (call.journal ≤ length journal.old) }
    requires most_workspace_in_bounds { most_workspace ≤ length workspace.old }
    requires journal_in_bounds { 2 * length journal.old + 64 ≤ length out.old }
    ensures answer { Wrote out.old out.new 0 result (turn_text (convert_call (take call.program program.now) call.function (take call.ancillae ancillae.now) call.fuel call.workspace (take call.journal journal.old))) }
    ensures keeps { journal.new ≡ on_front (length (take call.journal journal.old)) (λ j. (after_turned j (convert_call (take call.program program.now) call.function (take call.ancillae ancillae.now) call.fuel call.workspace (take call.journal journal.old))).journal) journal.old }
    ensures clear { workspace.new ≡ on_front (capped most_workspace call.workspace) (cleared (convert_call (take call.program program.now) call.function (take call.ancillae ancillae.now) call.fuel call.workspace (take call.journal journal.old))) workspace.old }
{
    let ws = call.workspace.min(making::MOST_WORKSPACE);
    convert_lent(
        &program[..call.program],
        call.function,
        &ancillae[..call.ancillae],
        call.fuel,
        &mut workspace[..ws],
        &mut journal[..call.journal],
        out,
    )
}

// A rollback in a workspace as it is lent.
fn rollback_lent(
    program: &[u8],
    fuel: u16,
    workspace: &mut [u8],
    journal: &mut [u8],
    out: &mut [u8],
) -> usize
    requires { 2 * length journal.old + 64 ≤ length out.old }
    ensures answer { Wrote out.old out.new 0 result (turn_text (rollback_call program.now fuel (length workspace.old) journal.old)) }
    ensures keeps { journal.new ≡ (after_turned journal.old (rollback_call program.now fuel (length workspace.old) journal.old)).journal }
    ensures clear { workspace.new ≡ cleared (rollback_call program.now fuel (length workspace.old) journal.old) workspace.old }
{
    let answer = engine::rollback(program, fuel, workspace, journal);
    replies::held_line(answer, journal, out)
}

// A rollback, made and answered.
pub(crate) fn rollback(
    call: RollbackCall,
    program: &[u8],
    journal: &mut [u8],
    workspace: &mut [u8],
    out: &mut [u8],
) -> usize
    requires program_in_bounds { (call.program ≤ length program.now) × (call.journal ≤ length journal.old) }
    requires most_workspace_in_bounds { most_workspace ≤ length workspace.old }
    requires journal_in_bounds { 2 * length journal.old + 64 ≤ length out.old }
    ensures answer { Wrote out.old out.new 0 result (turn_text (rollback_call (take call.program program.now) call.fuel call.workspace (take call.journal journal.old))) }
    ensures keeps { journal.new ≡ on_front (length (take call.journal journal.old)) (λ j. (after_turned j (rollback_call (take call.program program.now) call.fuel call.workspace (take call.journal journal.old))).journal) journal.old }
    ensures clear { workspace.new ≡ on_front (capped most_workspace call.workspace) (cleared (rollback_call (take call.program program.now) call.fuel call.workspace (take call.journal journal.old))) workspace.old }
{
    let ws = call.workspace.min(making::MOST_WORKSPACE);
    rollback_lent(
        &program[..call.program],
        call.fuel,
        &mut workspace[..ws],
        &mut journal[..call.journal],
        out,
    )
}
