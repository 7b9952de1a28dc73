// The run of a function backward (refusals 12 to 16, then 17).
ghost use Rattle.scopes.specs.Slots.{machine_of};
ghost use Rattle.backward.specs.Outcomes.{status_of};
ghost use Rattle.backward.specs.Calls.{input_in};
ghost use Rattle.runs.specs.Back.{Returnable, Undone, Returns};

use crate::{begin, ended};
use answers::RunAnswer;
use backward::outcomes::Refusal;
use decoded::decode;
use decoded::rows::CODE;
use program::entries::Entries;
use scopes::state::STATE;
use scopes::{slots, state};

// The body of a function, with its ancillae and the value that it gave: its input, and in `m` the machine that is left.
fn undo(
    entries: &Entries,
    function: u16,
    ancillae: &[u8],
    value: &[u8],
    fuel: u16,
    ws: &mut [u8],
    m: &mut [u32; 2],
) -> Result<u32, Refusal>
    requires { Returnable entries.now.program.now entries.now.terms.now entries.now.functions.now ws.old function ancillae.now value.now fuel }
    ensures { Undone entries.now.program.now entries.now.terms.now entries.now.functions.now ws.new function ancillae.now value.now fuel (status_of result) (input_in result) (machine_of m.new) }
{
    let mut code = [0u16; CODE];
    decode::decode(&mut code, entries.program, entries.terms, entries.functions);
    let mut st = [0u32; STATE];
    let count = begin::begin(ws, &mut st, ancillae, value, fuel);
    let node = slots::at(&st, count);
    let input = backward::start::run(&code, ws, &mut st, count, function, node, begin::MAX_HEIGHT);
    *m = [state::top(&st), state::fuel(&st)];
    input
}

// The call's function, which was admitted, run backward on its values.
pub fn run(
    entries: &Entries,
    function: u16,
    ancillae: &[u8],
    value: &[u8],
    fuel: u16,
    ws: &mut [u8],
    out: &mut [u8],
) -> RunAnswer
    requires { Returnable entries.now.program.now entries.now.terms.now entries.now.functions.now ws.old function ancillae.now value.now fuel }
    ensures { Returns result entries.now.program.now entries.now.terms.now entries.now.functions.now function ancillae.now value.now fuel out.old out.new }
{
    let mut m = [0u32; 2];
    match undo(entries, function, ancillae, value, fuel, ws, &mut m) {
        Ok(node) => ended::give(ws, node, fuel, m[1], out),
        Err(why) => ended::refuse(why, fuel, out),
    }
}
