// check, forward and backward.
ghost use Rattle.std.specs.Prelude.{◌+◌, ◌*◌, ◌≤◌, length};
ghost use Rattle.rules.specs.Limits.{max_value_bytes};

use crate::buffers::Buffers;
use crate::failures::Failure;
use crate::{arguments, files, printing};
use command::single;
use rules::MAX_VALUE_BYTES;
use std::rt::{Env, Files};

// Room for the report of a check, and of a run: a value in hexadecimal, and the words about it.
const CHECK_REPORT: usize = 256;

const REPORT: usize = 2 * MAX_VALUE_BYTES + 256;

// corefun check FILE
pub(crate) fn check(rt: &(impl Env + Files + Print), b: &mut Buffers) -> Result<(), Failure> {
    let p = files::load(rt, arguments::FILE, &mut b.word, &mut b.program)?;
    let mut out = [0u8; CHECK_REPORT];
    let n = single::check(&b.program[..p], &mut b.workspace, &mut out);
    printing::print(rt, &out[..n])
}

// A run in either direction, reported in `out`: where the report ends.
fn run_either(
    back: bool,
    program: &[u8],
    function: u16,
    ancillae: &[u8],
    value: &[u8],
    fuel: u16,
    workspace: &mut [u8],
    out: &mut [u8],
) -> usize
    requires { 2 * max_value_bytes + 256 ≤ length out.old }
    ensures { result ≤ length out.new }
{
    if back {
        return single::backward(program, function, ancillae, value, fuel, workspace, out);
    }
    single::forward(program, function, ancillae, value, fuel, workspace, out)
}

// corefun forward FILE FUNCTION FUEL ANCILLAE VALUE, and backward the same
#[tactic(auto, unfolding(rules::specs::Limits::max_value_bytes))]
pub(crate) fn run(
    rt: &(impl Env + Files + Print),
    back: bool,
    b: &mut Buffers,
) -> Result<(), Failure> {
    let p = files::load(rt, arguments::FILE, &mut b.word, &mut b.program)?;
    let function = arguments::short(rt, arguments::FUNCTION, &mut b.word)?;
    let fuel = arguments::short(rt, arguments::FUEL, &mut b.word)?;
    let a = arguments::byte_string(rt, arguments::ANCILLAE, &mut b.word, &mut b.ancillae)?;
    let v = arguments::byte_string(rt, arguments::VALUE, &mut b.word, &mut b.value)?;
    let mut out = [0u8; REPORT];
    let n = run_either(
        back,
        &b.program[..p],
        function,
        &b.ancillae[..a],
        &b.value[..v],
        fuel,
        &mut b.workspace,
        &mut out,
    );
    printing::print(rt, &out[..n])
}
