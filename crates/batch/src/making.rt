// The calls that a line says, made in a workspace and an output of the lengths that it names, and answered by a line.
ghost use Rattle.std.specs.Prelude.{◌≡◌, ◌+◌, ◌*◌, ◌≤◌, length, take};
ghost use Rattle.calls.specs.Answer.{cleared};
ghost use Rattle.calls.specs.Runs.{check_call, written};
ghost use Rattle.engine.specs.Runs.{run_call, CallMeans};
ghost use Rattle.calltext.specs.Wrote.{Wrote};
ghost use Rattle.messages.specs.Replies.{check_text};
ghost use Rattle.batch.specs.Capped.{most_workspace, most_output, answer_room, capped};
ghost use Rattle.batch.specs.Answering.{ran_text};
ghost use Rattle.batch.specs.Lent.{on_front};

use answers::RunAnswer;
use calltext::calls::{CheckCall, RunCall};
use journal::places::MOST_ENTRIES;
use messages::replies;
use rules::{MAX_FUEL, WORKSPACE_BASE, WORKSPACE_PER_FUEL};

// The workspace for the most fuel.
pub(crate) const MOST_WORKSPACE: usize = WORKSPACE_BASE + WORKSPACE_PER_FUEL * MAX_FUEL;

// The most bytes that a call writes: the entries of a journal, which may take more than a value.
pub(crate) const MOST_OUTPUT: usize = MOST_ENTRIES;

// A check, made and answered.
pub(crate) fn check(call: CheckCall, program: &[u8], workspace: &mut [u8], out: &mut [u8]) -> usize
    requires program_in_bounds { call.program ≤ length program.now }
    requires most_workspace_in_bounds { most_workspace ≤ length workspace.old }
    requires in_bounds { 64 ≤ length out.old }
    ensures answer { Wrote out.old out.new 0 result (check_text (check_call (take call.program program.now) call.workspace)) }
    ensures clear { workspace.new ≡ on_front (capped most_workspace call.workspace) (cleared (check_call (take call.program program.now) call.workspace)) workspace.old }
{
    let ws = call.workspace.min(MOST_WORKSPACE);
    let answer = engine::check(&program[..call.program], &mut workspace[..ws]);
    replies::check_line(answer, out)
}

// A run in either direction.
fn run_either(
    backward: bool,
    program: &[u8],
    function: u16,
    ancillae: &[u8],
    value: &[u8],
    fuel: u16,
    workspace: &mut [u8],
    output: &mut [u8],
) -> RunAnswer
    ensures { CallMeans result (run_call backward program.now function ancillae.now value.now fuel (length workspace.old) (length output.old)) output.old output.new workspace.old workspace.new }
{
    if backward {
        return engine::backward(program, function, ancillae, value, fuel, workspace, output);
    }
    engine::forward(program, function, ancillae, value, fuel, workspace, output)
}

// A run in a workspace and an output as they are lent, made and answered.
fn run_lent(
    backward: bool,
    program: &[u8],
    function: u16,
    ancillae: &[u8],
    value: &[u8],
    fuel: u16,
    workspace: &mut [u8],
    output: &mut [u8],
    out: &mut [u8],
) -> usize
    requires { 2 * length output.old + 64 ≤ length out.old }
    ensures answer { Wrote out.old out.new 0 result (ran_text (run_call backward program.now function ancillae.now value.now fuel (length workspace.old) (length output.old))) }
    ensures fills { output.new ≡ written (run_call backward program.now function ancillae.now value.now fuel (length workspace.old) (length output.old)) output.old }
    ensures clear { workspace.new ≡ cleared (run_call backward program.now function ancillae.now value.now fuel (length workspace.old) (length output.old)) workspace.old }
{
    let answer = run_either(
        backward, program, function, ancillae, value, fuel, workspace, output,
    );
    replies::run_line(answer, output, out)
}

// A run, made and answered.
pub(crate) fn run(
    call: RunCall,
    program: &[u8],
    ancillae: &[u8],
    value: &[u8],
    workspace: &mut [u8],
    output: &mut [u8],
    out: &mut [u8],
) -> usize
    requires program_in_bounds { (call.program ≤ length program.now) × (call.ancillae ≤ length ancillae.now) × (call.value ≤ length value.now) }
    requires most_workspace_in_bounds { (most_workspace ≤ length workspace.old) × (most_output ≤ length output.old) }
    requires answer_room_in_bounds { answer_room ≤ length out.old }
    ensures answer { Wrote out.old out.new 0 result (ran_text (run_call call.backward (take call.program program.now) call.function (take call.ancillae ancillae.now) (take call.value value.now) call.fuel call.workspace call.output)) }
    ensures fills { output.new ≡ on_front (capped most_output call.output) (written (run_call call.backward (take call.program program.now) call.function (take call.ancillae ancillae.now) (take call.value value.now) call.fuel call.workspace call.output)) output.old }
    ensures clear { workspace.new ≡ on_front (capped most_workspace call.workspace) (cleared (run_call call.backward (take call.program program.now) call.function (take call.ancillae ancillae.now) (take call.value value.now) call.fuel call.workspace call.output)) workspace.old }
{
    let ws = call.workspace.min(MOST_WORKSPACE);
    let len = call.output.min(MOST_OUTPUT);
    run_lent(
        call.backward,
        &program[..call.program],
        call.function,
        &ancillae[..call.ancillae],
        &value[..call.value],
        call.fuel,
        &mut workspace[..ws],
        &mut output[..len],
        out,
    )
}
