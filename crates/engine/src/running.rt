// The calls that run a function, forward and backward (document 01, section 4).
ghost use Rattle.std.specs.Prelude.{◌≡◌, length};
ghost use Rattle.calls.specs.Answer.{cleared};
ghost use Rattle.calls.specs.Runs.{forward_call, backward_call, written};
ghost use Rattle.answers.specs.Answers.{run_answer, summary};
ghost use Rattle.engine.specs.Runs.{run_call, CallMeans};
ghost use Rattle.requests.specs.Runs.{is_back};

use answers::{Refusal, RunAnswer};
use requests::running::{Direction, Request};
use requests::{preparing, running};

// All rows. The workspace is all zero afterwards, but unchanged if it is too short.
// Kept: the test and the clearing stand here once more, and not in `serving::serve`, since of the closure that runs the program it was not
// proved that it gives the run's meaning (goal `returns`).
fn call(program: &[u8], request: &Request, workspace: &mut [u8], output: &mut [u8]) -> RunAnswer
    ensures { CallMeans result (run_call (is_back request.now.direction) program.now request.now.function request.now.ancillae.now request.now.value.now request.now.fuel (length workspace.old) (length output.old)) output.old output.new workspace.old workspace.new }
{
    if !preparing::enough(workspace.len(), request.fuel) {
        return Err(Refusal::Workspace);
    }
    let answer = running::run_program(program, request, workspace, output);
    octets::clear(workspace);
    answer
}

// Runs a function forward: the value fills the output from its start, and the answer is its length and the steps.
pub fn forward(
    program: &[u8],
    function: u16,
    ancillae: &[u8],
    value: &[u8],
    fuel: u16,
    workspace: &mut [u8],
    output: &mut [u8],
) -> RunAnswer
    ensures answer { run_answer result ≡ summary (forward_call program.now function ancillae.now value.now fuel (length workspace.old) (length output.old)) }
    ensures fills { output.new ≡ written (forward_call program.now function ancillae.now value.now fuel (length workspace.old) (length output.old)) output.old }
    ensures clear { workspace.new ≡ cleared (forward_call program.now function ancillae.now value.now fuel (length workspace.old) (length output.old)) workspace.old }
{
    let request = Request {
        function,
        ancillae,
        value,
        direction: Direction::Forward,
        fuel,
    };
    call(program, &request, workspace, output)
}

// Runs a function backward: the input that gives the value fills the output.
pub fn backward(
    program: &[u8],
    function: u16,
    ancillae: &[u8],
    value: &[u8],
    fuel: u16,
    workspace: &mut [u8],
    output: &mut [u8],
) -> RunAnswer
    ensures answer { run_answer result ≡ summary (backward_call program.now function ancillae.now value.now fuel (length workspace.old) (length output.old)) }
    ensures fills { output.new ≡ written (backward_call program.now function ancillae.now value.now fuel (length workspace.old) (length output.old)) output.old }
    ensures clear { workspace.new ≡ cleared (backward_call program.now function ancillae.now value.now fuel (length workspace.old) (length output.old)) workspace.old }
{
    let request = Request {
        function,
        ancillae,
        value,
        direction: Direction::Backward,
        fuel,
    };
    call(program, &request, workspace, output)
}
