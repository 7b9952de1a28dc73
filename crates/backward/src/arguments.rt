// The ancilla terms of a call, which are run forward in the state at hand: the slots say what the binding state says, and a variable that was not
// met so far reads as the unit (02, F-2). Their values are placed behind the scope, where the function that is called has its parameters.
ghost use Rattle.forward.specs.Ready.{ReadyIn, Calls};
ghost use Rattle.backward.specs.Calls.{GathersIn};

use crate::outcomes::Refusal;
use decoded::rows;
use decoded::rows::CODE;
use scopes::state::STATE;
use scopes::{slots, state};

// The ancilla terms of call t from number k of `count` on, or what stops them. An argument is placed once all others are there: they are
// evaluated in slots behind the scope too.
pub fn gather(
    code: &[u16; CODE],
    ws: &mut [u8],
    st: &mut [u32; STATE],
    scope: u64,
    t: u16,
    room: u16,
    k: usize,
    count: usize,
) -> Result<(), Refusal>
    requires ready_in { ReadyIn 1 0 code.now ws.old st.old scope t room }
    requires calls { Calls code.now t k count }
    ensures { GathersIn code.now ws.old ws.new st.old st.new scope t room k count result }
{
    if k == count {
        return Ok(());
    }
    let argument = rows::argument_of(code, t, k);
    let x = forward::outcomes::status_of(forward::eval::eval(
        code,
        ws,
        st,
        scope,
        argument,
        room - 1,
    ))?;
    let next = k + 1;
    let others = gather(code, ws, st, scope, t, room, next, count);
    slots::bind(st, state::end_of(scope) + k, x);
    others
}
