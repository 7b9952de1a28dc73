// Slots of scopes, behind the machine (crate::state): variable i of the function at hand is slot base + i. A slot holds a node; or the number of a
// cell, by which a backward run says what it bound the variable to (crate::bindings); or the mark of a variable that is not known. Scopes nest as
// calls do, so a function that is called has its slots above those of its caller, and nothing is copied.
ghost use Rattle.std.specs.Prelude.{◌≡◌, ◌+◌, ◌≤◌, ◌<◌, length, get_or};
ghost use Rattle.valuegraph.specs.Nodes.{Heap};
ghost use Rattle.scopes.specs.Slots.{slot_count, state_count, machine_of, slots_of, found, slot_at, Slot, Slots, Written};

use crate::state;
use crate::state::{SLOTS_FROM, STATE};

// The mark of a variable that is not known: no node has this number. Numbers above it name cells.
pub const UNKNOWN: u32 = 2147483648;

// What a slot's number says: the variable's node, none if it is not known.
pub fn known(ws: &[u8], top: u32, number: u32) -> Option<u32>
    requires heap { Heap ws.now top }
    requires slot { Slot ws.now number top }
    ensures { result ≡ found ws.now number }
{
    if number < UNKNOWN {
        return Some(number);
    }
    if number == UNKNOWN {
        return None;
    }
    Some(valuegraph::nodes::left_of(ws, number - UNKNOWN))
}

// Slot `at`.
#[tactic(auto, unfolding(rules::specs::Limits::max_height, rules::specs::Limits::max_parameters))]
pub fn at(st: &[u32; STATE], slot: usize) -> u32
    requires { slot < slot_count }
    ensures { result ≡ get_or (slots_of st.now) slot 0 }
{
    st[SLOTS_FROM + slot]
}

// What a term that runs forward reads of variable i of n: its node, if it is in scope; node 0, the unit, if it was not met so far (02, F-2).
#[tactic(auto, unfolding(rules::specs::Limits::max_height, rules::specs::Limits::max_parameters))]
pub fn find(ws: &[u8], st: &[u32; STATE], base: usize, n: usize, i: u16) -> Option<u32>
    requires n_bound { base + n ≤ slot_count }
    requires heap { Heap ws.now (machine_of st.now).top }
    requires slots { Slots ws.now (slots_of st.now) (base + n) (machine_of st.now).top }
    ensures { result ≡ slot_at ws.now (slots_of st.now) base n i }
{
    let v = usize::from(i);
    if n <= v {
        return None;
    }
    Some(known(ws, state::top(st), at(st, base + v)).unwrap_or(0))
}

// A variable comes into scope.
pub fn bind(st: &mut [u32; STATE], slot: usize, node: u32)
    requires { (length st.old ≡ state_count) × (slot < slot_count) }
    ensures { Written st.old st.new slot node }
{
    st[SLOTS_FROM + slot] = node;
}
