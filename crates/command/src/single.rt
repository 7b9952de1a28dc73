// The calls check, forward and backward, made and reported. The output is as long as a value may be, so it is never too short.
ghost use Rattle.std.specs.Prelude.{◌≡◌, ◌+◌, ◌*◌, ◌≤◌, length};
ghost use Rattle.rules.specs.Limits.{max_value_bytes};
ghost use Rattle.calls.specs.Answer.{cleared};
ghost use Rattle.calls.specs.Runs.{check_call, forward_call, backward_call};
ghost use Rattle.calltext.specs.Wrote.{Wrote};
ghost use Rattle.command.specs.Reports.{check_report, run_report};

use crate::reports;
use rules::MAX_VALUE_BYTES;

// Is the program accepted?
pub fn check(program: &[u8], workspace: &mut [u8], out: &mut [u8]) -> usize
    requires { 256 ≤ length out.old }
    ensures report { Wrote out.old out.new 0 result (check_report (check_call program.now (length workspace.old))) }
    ensures clear { workspace.new ≡ cleared (check_call program.now (length workspace.old)) workspace.old }
{
    let answer = engine::check(program, workspace);
    reports::check_report(answer, out)
}

// Runs a function forward.
pub fn forward(
    program: &[u8],
    function: u16,
    ancillae: &[u8],
    value: &[u8],
    fuel: u16,
    workspace: &mut [u8],
    out: &mut [u8],
) -> usize
    requires { 2 * max_value_bytes + 256 ≤ length out.old }
    ensures report { Wrote out.old out.new 0 result (run_report (forward_call program.now function ancillae.now value.now fuel (length workspace.old) max_value_bytes)) }
    ensures clear { workspace.new ≡ cleared (forward_call program.now function ancillae.now value.now fuel (length workspace.old) max_value_bytes) workspace.old }
{
    let mut output = [0u8; MAX_VALUE_BYTES];
    let answer = engine::forward(
        program,
        function,
        ancillae,
        value,
        fuel,
        workspace,
        &mut output,
    );
    reports::run_report(answer, &output, out)
}

// Runs a function backward.
pub fn backward(
    program: &[u8],
    function: u16,
    ancillae: &[u8],
    value: &[u8],
    fuel: u16,
    workspace: &mut [u8],
    out: &mut [u8],
) -> usize
    requires { 2 * max_value_bytes + 256 ≤ length out.old }
    ensures report { Wrote out.old out.new 0 result (run_report (backward_call program.now function ancillae.now value.now fuel (length workspace.old) max_value_bytes)) }
    ensures clear { workspace.new ≡ cleared (backward_call program.now function ancillae.now value.now fuel (length workspace.old) max_value_bytes) workspace.old }
{
    let mut output = [0u8; MAX_VALUE_BYTES];
    let answer = engine::backward(
        program,
        function,
        ancillae,
        value,
        fuel,
        workspace,
        &mut output,
    );
    reports::run_report(answer, &output, out)
}
