// Outcomes of backward evaluation, and the steps that have no parts to run: variables, the unit, refusals, and which branch of a case is run.
// specs/Outcomes says what an outcome means.
ghost use Rattle.std.specs.Prelude.{◌≡◌, cond, ◌+◌, ◌<◌, length};
ghost use Rattle.rules.specs.Limits.{max_terms};
ghost use Rattle.decoded.specs.Rows.{first_in, second_in, third_in};
ghost use Rattle.valuegraph.specs.Nodes.{kind_number, Room};
ghost use Rattle.scopes.specs.Slots.{unknown, state_count, machine_of, slots_of, scope_in, node_or};
ghost use Rattle.scopes.specs.Bindings.{bound, CellReady, Adds, Meetable};
ghost use Rattle.backward.specs.Outcomes.{out_in, carried, why_of, Numbers, ended_in, too_long, mismatch};
ghost use Rattle.backward.specs.Ready.{WidenReady, Widened, EntersNew, Variable, UnitMet, Leavable};

use decoded::rows;
use decoded::rows::CODE;
use forward::outcomes::{PLACE, STOPPED};
use scopes::bindings::Bindings;
use scopes::slots::UNKNOWN;
use scopes::state::STATE;
use scopes::{slots, state};
use valuegraph::nodes;
use valuegraph::nodes::Kind;

// A number of 64 bits holds two below this one.
const HALF: u64 = 4294967296;

// Refusals 12 to 16 (section 4), each with its term; and a value of wrong shape, which no checked program meets.
#[derive(Clone, Copy, PartialEq, Eq, Debug)]
pub enum Refusal {
    Fuel(u16),
    Height(u16),
    Long(u16),
    FirstMatch(u16),
    NoInput(u16),
    Stuck,
}

// What a backward run runs forward is refused as forward: an ancilla term, or the scrutinee of a case that chooses by an ancilla.
impl From<forward::outcomes::Refusal> for Refusal {
    ghost from_gives = { λ why r. r ≡ carried why };

    #[tactic(auto, unfolding(crate::specs::Outcomes::carried))]
    fn from(why: forward::outcomes::Refusal) -> Refusal {
        match why {
            forward::outcomes::Refusal::Fuel(t) => Refusal::Fuel(t),
            forward::outcomes::Refusal::Height(t) => Refusal::Height(t),
            forward::outcomes::Refusal::Long(t) => Refusal::Long(t),
            forward::outcomes::Refusal::FirstMatch(t) => Refusal::FirstMatch(t),
            forward::outcomes::Refusal::Stuck => Refusal::Stuck,
        }
    }
}

// What a step comes to: the run is over, in a state; or it goes on with the last part of the term, a term of its own, and the node of its value.
#[derive(Clone, Copy)]
pub enum Next {
    Over(Bindings),
    On(u16, u32, Bindings),
}

// The run is over.
pub fn ended(out: Result<Bindings, Refusal>) -> Result<Next, Refusal>
    ensures { result ≡ ended_in out }
{
    Ok(Next::Over(out?))
}

// An outcome in one number: the state, or above it what stopped the run.
// One number, as an answer forward is (forward::outcomes), since every term hands it back.
pub fn packed(out: Result<Bindings, Refusal>) -> u64
    ensures { out_in result ≡ out }
{
    match out {
        Ok(state) => u64::from(state.head),
        Err(why) => HALF * u64::from(stop_of(why)),
    }
}

pub fn unpacked(r: u64) -> Result<Bindings, Refusal>
    ensures { result ≡ out_in r }
{
    let stop = (r / HALF) as u32;
    if stop != 0 {
        return Err(why(stop));
    }
    Ok(Bindings {
        head: (r % HALF) as u32,
    })
}

// The number of a refusal: of one that forward evaluation has too as there (forward::outcomes), and below those its term, and one more.
fn stop_of(why: Refusal) -> u32
    ensures { Numbers result why }
{
    match why {
        Refusal::Fuel(t) => forward::outcomes::refuse(forward::outcomes::Refusal::Fuel(t)),
        Refusal::Height(t) => forward::outcomes::refuse(forward::outcomes::Refusal::Height(t)),
        Refusal::Long(t) => forward::outcomes::refuse(forward::outcomes::Refusal::Long(t)),
        Refusal::FirstMatch(t) => {
            forward::outcomes::refuse(forward::outcomes::Refusal::FirstMatch(t))
        }
        Refusal::NoInput(t) => u32::from(t) + 1,
        Refusal::Stuck => forward::outcomes::refuse(forward::outcomes::Refusal::Stuck),
    }
}

// What such a number says.
pub fn why(stop: u32) -> Refusal
    requires { 0 < stop }
    ensures { result ≡ why_of stop }
{
    match forward::outcomes::status_of(stop) {
        Ok(number) => Refusal::NoInput(((number - 1) % PLACE) as u16),
        Err(why) => Refusal::from(why),
    }
}

// Term t is entered with a value over the limit: 14, after 12 and 13 ("backward it is met on entering that term, after 13", section 4).
pub fn long(fuel: u32, t: u16, room: u16) -> Refusal
    ensures { result ≡ too_long fuel room t }
{
    if fuel == 0 {
        return Refusal::Fuel(t);
    }
    if room == 0 {
        return Refusal::Height(t);
    }
    Refusal::Long(t)
}

// The node at the first free place was made for term t, which is then to be entered with it; else its value is too long.
pub(crate) fn entering(
    made: bool,
    st: &mut [u32; STATE],
    b: Bindings,
    t: u16,
    room: u16,
) -> Result<Next, Refusal>
    requires { (length st.old ≡ state_count) × ((machine_of st.old).top + 1 < 4294967296) }
    ensures { EntersNew made st.old st.new b t room result }
{
    if made {
        let top = state::top(st);
        state::grow(st);
        return Ok(Next::On(t, top, b));
    }
    Err(long(state::fuel(st), t, room))
}

const INL: u8 = Kind::Inl as u8;

const INR: u8 = Kind::Inr as u8;

// Term t makes values of one kind, and its value is of another: inl against inr has no input (16).
// Kept: kinds by their bytes, since it answers of every byte.
#[tactic(auto, unfolding(crate::specs::Outcomes::mismatch, crate::specs::Outcomes::against))]
pub fn differ(kind: u8, found: u8, t: u16) -> Refusal
    ensures { result ≡ mismatch kind found t }
{
    match (kind, found) {
        (INL, INR) | (INR, INL) => Refusal::NoInput(t),
        _ => Refusal::Stuck,
    }
}

// A variable is met with the node's value: it is bound, or compared (16).
pub fn variable(
    code: &[u16; CODE],
    ws: &mut [u8],
    st: &mut [u32; STATE],
    b: Bindings,
    scope: u64,
    t: u16,
    node: u32,
) -> Result<Bindings, Refusal>
    requires t_lt_max_terms { t < max_terms }
    requires meetable { Meetable ws.old st.old b (scope_in scope) (first_in code.now t) }
    requires node_bound { node < (machine_of st.old).top }
    ensures { Variable ws.old ws.new st.old st.new b (scope_in scope) (first_in code.now t) node t result }
{
    let i = rows::first_of(code, t);
    b.meet(ws, st, scope, i, node)
        .map_err(|_| Refusal::NoInput(t))
}

// The unit binds nothing.
pub fn unit(ws: &[u8], b: Bindings, node: u32) -> Result<Bindings, Refusal>
    requires { Room ws.now (node + 1) }
    ensures { UnitMet ws.now b node result }
{
    match nodes::kind_of(ws, node) {
        Kind::Unit => Ok(b),
        _ => Err(Refusal::Stuck),
    }
}

// A variable comes into scope, not known: the scope with it. No variable outside the scope is bound in a state, so the state is as it was.
pub fn widen(st: &mut [u32; STATE], scope: u64) -> u64
    requires { WidenReady st.old scope }
    ensures { Widened st.old st.new scope result }
{
    slots::bind(st, state::end_of(scope), UNKNOWN);
    state::wider(scope)
}

// The newest variable of a scope, the one above `scope`: its node in the state, or node 0, the unit, if it was never met.
pub fn leave(ws: &[u8], st: &[u32; STATE], b: Bindings, scope: u64) -> u32
    requires { Leavable ws.now (slots_of st.now) b (scope_in scope) (machine_of st.now).top }
    ensures { result ≡ node_or (bound ws.now b (scope_in scope).n) }
{
    b.node_of(ws, st, state::end_of(scope))
}

// The state of the variables of `scope`, once those above have left.
pub fn outer(ws: &mut [u8], st: &mut [u32; STATE], b: Bindings, scope: u64) -> Bindings
    requires { CellReady ws.old st.old b (scope_in scope).n }
    ensures { Adds ws.old ws.new st.old st.new b unknown (scope_in scope).n result }
{
    let n = state::count_in(scope);
    b.left(ws, st, n as u16)
}

// The branch of case t that is run: the left exactly if it may yield the value (section 3).
pub fn branch_of(code: &[u16; CODE], t: u16, left: bool) -> u16
    requires { t < max_terms }
    ensures { result ≡ cond left (second_in code.now t) (third_in code.now t) }
{
    if left {
        return rows::second_of(code, t);
    }
    rows::third_of(code, t)
}

// The kind of the scrutinee's value: inl for the left branch, else inr.
pub fn side_of(left: bool) -> Kind
    ensures { kind_number result ≡ cond left 1 2 }
{
    if left {
        return Kind::Inl;
    }
    Kind::Inr
}
