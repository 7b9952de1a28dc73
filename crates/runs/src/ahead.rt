// The run of a function forward (refusals 12 to 15, then 17).
ghost use Rattle.scopes.specs.Slots.{machine_of};
ghost use Rattle.runs.specs.Ahead.{Runnable, Evaluated, Goes};

use crate::{begin, ended};
use answers::RunAnswer;
use decoded::rows::CODE;
use decoded::{decode, rows};
use forward::outcomes::Refusal;
use program::entries::Entries;
use scopes::state;
use scopes::state::STATE;

// The body of a function, with the given values: the answer, and in `m` the machine that is left.
fn evaluate(
    entries: &Entries,
    function: u16,
    ancillae: &[u8],
    value: &[u8],
    fuel: u16,
    ws: &mut [u8],
    m: &mut [u32; 2],
) -> Result<u32, Refusal>
    requires { Runnable entries.now.program.now entries.now.terms.now entries.now.functions.now ws.old function ancillae.now value.now fuel }
    ensures { Evaluated entries.now.program.now entries.now.terms.now entries.now.functions.now ws.old ws.new function ancillae.now value.now fuel (record { status = result; state = machine_of m.new }) }
{
    let mut code = [0u16; CODE];
    decode::decode(&mut code, entries.program, entries.terms, entries.functions);
    let mut st = [0u32; STATE];
    let count = begin::begin(ws, &mut st, ancillae, value, fuel);
    let body = rows::body_of(&code, function);
    let scope = state::scope(0, count, count + 1);
    let answer = forward::eval::eval(&code, ws, &mut st, scope, body, begin::MAX_HEIGHT);
    *m = [state::top(&st), state::fuel(&st)];
    forward::outcomes::status_of(answer)
}

// The call's function, which was admitted, run forward on its values.
pub fn run(
    entries: &Entries,
    function: u16,
    ancillae: &[u8],
    value: &[u8],
    fuel: u16,
    ws: &mut [u8],
    out: &mut [u8],
) -> RunAnswer
    requires { Runnable entries.now.program.now entries.now.terms.now entries.now.functions.now ws.old function ancillae.now value.now fuel }
    ensures { Goes result entries.now.program.now entries.now.terms.now entries.now.functions.now function ancillae.now value.now fuel out.old out.new }
{
    let mut m = [0u32; 2];
    match evaluate(entries, function, ancillae, value, fuel, ws, &mut m) {
        Ok(node) => ended::give(ws, node, fuel, m[1], out),
        Err(why) => ended::refuse(why.into(), fuel, out),
    }
}
