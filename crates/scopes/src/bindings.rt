// The binding state of a backward run, by value: the number of its newest cell (specs/Cells). "A variable met again backward must have the same
// value" (section 2): meeting a variable binds it, by a new cell, or compares, as the state says, and hands the state back. Slots name the
// cells of the variables in scope, so that none is searched for; a cell that is newer than the state does not count.
ghost use Rattle.std.specs.Prelude.{◌≡◌, ◌+◌, ◌<◌, get_or};
ghost use Rattle.scopes.specs.Slots.{unknown, slot_count, machine_of, slots_of, scope_in, node_or};
ghost use Rattle.scopes.specs.Bindings.{seen, Looks, CellReady, Adds, EntersBound, Meetable, MeetsAt};

use crate::slots::UNKNOWN;
use crate::state::STATE;
use crate::{slots, state};

// Cells and nodes have numbers below this one.
const CELLS: u32 = 262144;

// The newest cell, 0 for the empty state.
#[derive(Clone, Copy)]
pub struct Bindings {
    pub head: u32,
}

impl Bindings {
    // No variable is bound.
    pub fn none() -> Self
        ensures { result.head ≡ 0 }
    {
        Self { head: 0 }
    }

    // What a slot's number says in this state.
    fn seen(self, ws: &[u8], top: u32, number: u32) -> Option<u32>
        requires { Looks ws.now self number top }
        ensures { result ≡ seen ws.now self number }
    {
        if UNKNOWN + self.head < number {
            return None;
        }
        slots::known(ws, top, number)
    }

    // A cell of variable i is made: the state with it.
    fn with_cell(self, ws: &mut [u8], st: &mut [u32; STATE], part: u32, i: u16) -> Bindings
        requires { CellReady ws.old st.old self i }
        ensures { Adds ws.old ws.new st.old st.new self part i result }
    {
        let top = state::top(st);
        valuegraph::nodes::cell(ws, top, part, CELLS * u32::from(i) + self.head);
        state::grow(st);
        Bindings { head: top }
    }

    // Variable i of a scope is met with a node's value: it is bound, or compared, as the state says. The state is handed back: Err if the
    // values differ.
    pub fn meet(
        self,
        ws: &mut [u8],
        st: &mut [u32; STATE],
        scope: u64,
        i: u16,
        node: u32,
    ) -> Result<Bindings, Bindings>
        requires meetable { Meetable ws.old st.old self (scope_in scope) i }
        requires node_bound { node < (machine_of st.old).top }
        ensures { MeetsAt ws.old ws.new st.old st.new self (scope_in scope) i node result }
    {
        let top = state::top(st);
        let at = state::base_in(scope) + usize::from(i);
        match self.seen(ws, top, slots::at(st, at)) {
            Some(old) => {
                if valuegraph::nodes::same(ws, top, old, node) {
                    Ok(self)
                } else {
                    Err(self)
                }
            }
            None => {
                let state = self.with_cell(ws, st, node, i);
                slots::bind(st, at, UNKNOWN + top);
                Ok(state)
            }
        }
    }

    // The variable behind a scope comes into it bound to a node, by a new cell, which its slot names: the state with it.
    pub fn entered(self, ws: &mut [u8], st: &mut [u32; STATE], scope: u64, node: u32) -> Bindings
        requires cell_ready { CellReady ws.old st.old self (scope_in scope).n }
        requires scope_bound { (scope_in scope).base + (scope_in scope).n < slot_count }
        ensures { EntersBound ws.old ws.new st.old st.new self (scope_in scope) node result }
    {
        let top = state::top(st);
        let n = state::count_in(scope);
        let state = self.with_cell(ws, st, node, n as u16);
        slots::bind(st, state::end_of(scope), UNKNOWN + top);
        state
    }

    // The node of the variable that has this slot; node 0, the unit, if it was never met.
    pub fn node_of(self, ws: &[u8], st: &[u32; STATE], slot: usize) -> u32
        requires slot_lt_slot_count { slot < slot_count }
        requires looks { Looks ws.now self (get_or (slots_of st.now) slot 0) (machine_of st.now).top }
        ensures { result ≡ node_or (seen ws.now self (get_or (slots_of st.now) slot 0)) }
    {
        self.seen(ws, state::top(st), slots::at(st, slot))
            .unwrap_or(0)
    }

    // The variables from n on leave the scope: the others are bound as they were.
    pub fn left(self, ws: &mut [u8], st: &mut [u32; STATE], n: u16) -> Bindings
        requires { CellReady ws.old st.old self n }
        ensures { Adds ws.old ws.new st.old st.new self unknown n result }
    {
        self.with_cell(ws, st, UNKNOWN, n)
    }
}
