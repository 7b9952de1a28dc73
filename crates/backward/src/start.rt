// Where a backward run begins.
ghost use Rattle.backward.specs.Calls.{StartsIn, ReturnsIn};

use crate::outcomes::Refusal;
use crate::{eval, outcomes};
use decoded::rows;
use decoded::rows::CODE;
use scopes::bindings::Bindings;
use scopes::state;
use scopes::state::STATE;

// Function g with its q ancilla values in the first slots and the node of its value: the node of its input.
pub fn run(
    code: &[u16; CODE],
    ws: &mut [u8],
    st: &mut [u32; STATE],
    q: usize,
    g: u16,
    node: u32,
    room: u16,
) -> Result<u32, Refusal>
    requires { StartsIn code.now ws.old st.old q g node room }
    ensures { ReturnsIn code.now ws.old ws.new st.old st.new q g node room result }
{
    let body = rows::body_of(code, g);
    let none = Bindings::none();
    let scope = state::scope(0, q, q);
    let wide = outcomes::widen(st, scope);
    let known = outcomes::unpacked(eval::back(code, ws, st, none, wide, body, node, room))?;
    Ok(outcomes::leave(ws, st, known, scope))
}
