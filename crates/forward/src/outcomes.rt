// Answers of evaluation, and the steps that have no parts to evaluate: new nodes, variables, what a roll holds, and the test of first match.
// An answer is one number, a node or a refusal (specs/Outcomes), and the machine, the first free node and the fuel, is lent: so a step
// hands back nothing that has to be copied.
// Kept: an answer of evaluation is a number and no Result. Each is handed back by every term, and a Result goes through memory: a small evaluator
// of this form, with Result in place of the number, took 2.1 times as long.
ghost use Rattle.std.specs.Prelude.{◌≡◌, ◌+◌, ◌*◌, ◌≤◌, ◌<◌, length};
ghost use Rattle.rules.specs.Val.{unit, pair};
ghost use Rattle.valuegraph.specs.Nodes.{kind_number, Room, of_kind, Single, value_at};
ghost use Rattle.scopes.specs.Slots.{part, state_count, machine_of, slots_of, scope_in, slot_at};
ghost use Rattle.forward.specs.Outcomes.{stopped, refusal_in, status_of, Stops, Finds};
ghost use Rattle.forward.specs.Ready.{FindReady, Finishes, MakeReady, MakesIn, Unrolled, CheckReady, ChecksIn};

use decoded::rows;
use decoded::rows::CODE;
use scopes::state::STATE;
use scopes::{slots, state};
use valuegraph::nodes;
use valuegraph::nodes::Kind;

// An answer below this number is a node; a refusal is its number, in this place above its term, from here on.
pub const STOPPED: u32 = 2147483648;

pub const PLACE: u32 = 65536;

// Refusals 12 to 15 (section 4), each with its term; and a value of wrong shape, which no checked program meets.
#[derive(Clone, Copy, PartialEq, Eq, Debug)]
pub enum Refusal {
    Fuel(u16),
    Height(u16),
    Long(u16),
    FirstMatch(u16),
    Stuck,
}

// Their numbers; a value of wrong shape has none of section 4.
const FUEL: u32 = 12;

const HEIGHT: u32 = 13;

const LONG: u32 = 14;

const FIRST_MATCH: u32 = 15;

const STUCK: u32 = 0;

// The answer that is a refusal.
pub fn refuse(why: Refusal) -> u32
    ensures { Stops result why }
{
    match why {
        Refusal::Fuel(t) => stop(FUEL, t),
        Refusal::Height(t) => stop(HEIGHT, t),
        Refusal::Long(t) => stop(LONG, t),
        Refusal::FirstMatch(t) => stop(FIRST_MATCH, t),
        Refusal::Stuck => stop(STUCK, 0),
    }
}

fn stop(number: u32, t: u16) -> u32
    requires { number ≤ 16 }
    ensures { result ≡ stopped + part * number + t }
{
    STOPPED + PLACE * number + u32::from(t)
}

// What an answer says.

#[tactic(auto, unfolding(crate::specs::Outcomes::refusal_in))]
pub fn refusal_of(number: u32, t: u16) -> Refusal
    ensures { result ≡ refusal_in number t }
{
    match number {
        FUEL => Refusal::Fuel(t),
        HEIGHT => Refusal::Height(t),
        LONG => Refusal::Long(t),
        FIRST_MATCH => Refusal::FirstMatch(t),
        _ => Refusal::Stuck,
    }
}

pub fn status_of(answer: u32) -> Result<u32, Refusal>
    ensures { result ≡ status_of answer }
{
    if answer < STOPPED {
        return Ok(answer);
    }
    let stop = answer - STOPPED;
    let t = stop % PLACE;
    Err(refusal_of(stop / PLACE, t as u16))
}

// New nodes.

// The node at top is the answer, if it was made; else its value is too long.
fn finish(made: bool, st: &mut [u32; STATE], t: u16) -> u32
    requires { (length st.old ≡ state_count) × ((machine_of st.old).top < stopped) }
    ensures { Finishes made st.old st.new t result }
{
    if made {
        let top = state::top(st);
        state::grow(st);
        return top;
    }
    refuse(Refusal::Long(t))
}

pub fn make_unit(ws: &mut [u8], st: &mut [u32; STATE], t: u16) -> u32
    requires { MakeReady ws.old st.old }
    ensures { MakesIn ws.old ws.new st.old st.new result t unit }
{
    nodes::unit(ws, state::top(st));
    finish(true, st, t)
}

// inl, inr and roll, by the kind of node (valuegraph::nodes).
pub fn make_single(ws: &mut [u8], st: &mut [u32; STATE], t: u16, kind: Kind, part: u32) -> u32
    requires make_ready { MakeReady ws.old st.old }
    requires part_bound { (part < (machine_of st.old).top) × Single (kind_number kind) }
    ensures { MakesIn ws.old ws.new st.old st.new result t (of_kind (kind_number kind) (value_at ws.old part) (value_at ws.old part)) }
{
    let made = nodes::single(ws, state::top(st), kind, part);
    finish(made, st, t)
}

pub fn make_pair(ws: &mut [u8], st: &mut [u32; STATE], t: u16, left: u32, right: u32) -> u32
    requires make_ready { MakeReady ws.old st.old }
    requires left_bound { (left < (machine_of st.old).top) × (right < (machine_of st.old).top) }
    ensures { MakesIn ws.old ws.new st.old st.new result t (pair (value_at ws.old left) (value_at ws.old right)) }
{
    let made = nodes::pair(ws, state::top(st), left, right);
    finish(made, st, t)
}

// Steps without parts.

// Variable i is its node, if it is in scope.
pub fn variable(ws: &[u8], st: &[u32; STATE], scope: u64, i: u16) -> u32
    requires { FindReady ws.now st.now scope }
    ensures { Finds result (slot_at ws.now (slots_of st.now) (scope_in scope).base (scope_in scope).n i) }
{
    match slots::find(ws, st, state::base_in(scope), state::count_in(scope), i) {
        Some(node) => node,
        None => refuse(Refusal::Stuck),
    }
}

// What a roll holds.
pub fn unrolled(ws: &[u8], node: u32) -> u32
    requires { Room ws.now (node + 1) }
    ensures { Unrolled ws.now node result }
{
    match nodes::kind_of(ws, node) {
        Kind::Roll => nodes::left_of(ws, node),
        _ => refuse(Refusal::Stuck),
    }
}

// The answer of case t, whose right branch gave `out`: if the left branch may yield the value, the case cannot be run back (15), unless it
// chooses by an ancilla (document 02, F-3).
pub fn first_match(
    code: &[u16; CODE],
    ws: &[u8],
    st: &[u32; STATE],
    scope: u64,
    t: u16,
    out: u32,
) -> u32
    requires { CheckReady code.now ws.now st.now scope t out }
    ensures { ChecksIn code.now ws.now st.now scope t out result }
{
    if STOPPED <= out {
        return out;
    }
    let q = state::ancillae_in(scope);
    let n = state::count_in(scope);
    if rows::chooses_by_ancilla(code, t, q, n) {
        return out;
    }
    let left = rows::second_of(code, t);
    if yields::yields(code, ws, st, scope, left, out) {
        return refuse(Refusal::FirstMatch(t));
    }
    out
}
