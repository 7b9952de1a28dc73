// Backward evaluation of a decoded program. `back` tests fuel and height, takes one unit of fuel, and hands the term to the function of its
// kind, which runs all parts of the term but the last and hands the binding state on; with the last part `back` goes on by itself, so that calls
// are no deeper than they must be. A branch chosen by an ancilla is run to its end, since its variable must leave behind it. Every value is a
// node; `over` and `over_pair` make new ones. The slots of scopes stand in the lent numbers `st`, behind the machine, and find the cells of the
// state; a function that is called has its scope behind its caller's. Laws: proofs/Entering to Calling, in code proofs/Arriving to Called.
ghost use Rattle.std.specs.Prelude.{◌≡◌, true, false, ◌<◌};
ghost use Rattle.program.specs.Kinds.{pair_kind, let_kind, let_pair_kind, case_kind, call_kind, unroll_kind};
ghost use Rattle.valuegraph.specs.Nodes.{kind_number, Single};
ghost use Rattle.decoded.specs.Rows.{kind_in};
ghost use Rattle.scopes.specs.Slots.{machine_of};
ghost use Rattle.yields.specs.Yields.{Wraps};
ghost use Rattle.backward.specs.Outcomes.{out_in};
ghost use Rattle.backward.specs.Ready.{PreparedIn, PreparedBound, RunsBack, RunsBound, CaseThat, StepsTo, EntersSingle, EntersPair};

use crate::outcomes::{Next, Refusal};
use crate::{arguments, outcomes};
use decoded::rows;
use decoded::rows::CODE;
use program::kinds::TermKind;
use scopes::bindings::Bindings;
use scopes::state;
use scopes::state::STATE;
use valuegraph::nodes;
use valuegraph::nodes::Kind;

// Term t with the value at `node`, in a scope, with height `room` left.
#[cycle(back)]
pub fn back(
    code: &[u16; CODE],
    ws: &mut [u8],
    st: &mut [u32; STATE],
    b: Bindings,
    scope: u64,
    t: u16,
    node: u32,
    room: u16,
) -> u64
    requires prepared_in { PreparedIn 0 0 code.now ws.old st.old b scope t room }
    requires node_bound { node < (machine_of st.old).top }
    ensures { RunsBack code.now ws.old ws.new st.old st.new b scope t node room (out_in result) }
{
    // Kept: a loop on the fuel. What is turned over is the term, its value and the state, of which each step gives the next: there is no sequence
    // that a `for` could go over.
    let mut known = b;
    let mut term = t;
    let mut value = node;
    let mut height = room;
    while state::fuel(st) != 0 {
        if height == 0 {
            return outcomes::packed(Err(Refusal::Height(term)));
        }
        state::spend(st);
        match step(code, ws, st, known, scope, term, value, height) {
            Err(why) => return outcomes::packed(Err(why)),
            Ok(Next::Over(state)) => return outcomes::packed(Ok(state)),
            Ok(Next::On(part, below, state)) => {
                known = state;
                term = part;
                value = below;
                height = height - 1;
            }
        }
    }
    outcomes::packed(Err(Refusal::Fuel(term)))
}

// Term t, once it is entered, by its kind.
#[cycle(back)]
fn step(
    code: &[u16; CODE],
    ws: &mut [u8],
    st: &mut [u32; STATE],
    b: Bindings,
    scope: u64,
    t: u16,
    node: u32,
    room: u16,
) -> Result<Next, Refusal>
    requires prepared_in { PreparedIn 2 1 code.now ws.old st.old b scope t room }
    requires node_bound { node < (machine_of st.old).top }
    ensures { StepsTo code.now ws.old ws.new st.old st.new scope t node room result }
{
    match rows::term_kind(code, t) {
        TermKind::Variable => outcomes::ended(outcomes::variable(code, ws, st, b, scope, t, node)),
        TermKind::Unit => outcomes::ended(outcomes::unit(ws, b, node)),
        TermKind::Inl => unwrap(code, ws, st, b, scope, t, node, room, Kind::Inl),
        TermKind::Inr => unwrap(code, ws, st, b, scope, t, node, room, Kind::Inr),
        TermKind::Pair => pair(code, ws, st, b, scope, t, node, room),
        TermKind::Let => let_one(code, ws, st, b, scope, t, node, room),
        TermKind::LetPair => let_two(code, ws, st, b, scope, t, node, room),
        TermKind::Case => choose(code, ws, st, b, scope, t, node, room),
        TermKind::Call => call(code, ws, st, b, scope, t, node, room),
        TermKind::Roll => unwrap(code, ws, st, b, scope, t, node, room, Kind::Roll),
        TermKind::Unroll => unroll(code, ws, st, b, scope, t, node, room),
    }
}

// Term t with inl, inr or roll of the value at `part`, by the kind of node.
fn over(
    code: &[u16; CODE],
    ws: &mut [u8],
    st: &mut [u32; STATE],
    b: Bindings,
    scope: u64,
    t: u16,
    part: u32,
    room: u16,
    kind: Kind,
) -> Result<Next, Refusal>
    requires prepared_in { PreparedIn 1 0 code.now ws.old st.old b scope t room }
    requires part_bound { (part < (machine_of st.old).top) × Single (kind_number kind) }
    ensures { EntersSingle code.now ws.old ws.new st.old st.new scope t (kind_number kind) part room result }
{
    let made = nodes::single(ws, state::top(st), kind, part);
    outcomes::entering(made, st, b, t, room)
}

// Term t with the pair of two values.
fn over_pair(
    code: &[u16; CODE],
    ws: &mut [u8],
    st: &mut [u32; STATE],
    b: Bindings,
    scope: u64,
    t: u16,
    left: u32,
    right: u32,
    room: u16,
) -> Result<Next, Refusal>
    requires prepared_in { PreparedIn 1 0 code.now ws.old st.old b scope t room }
    requires left_bound { (left < (machine_of st.old).top) × (right < (machine_of st.old).top) }
    ensures { EntersPair code.now ws.old ws.new st.old st.new scope t left right room result }
{
    let made = nodes::pair(ws, state::top(st), left, right);
    outcomes::entering(made, st, b, t, room)
}

// inl, inr and roll, by the kind of node that they take apart.
fn unwrap(
    code: &[u16; CODE],
    ws: &mut [u8],
    st: &mut [u32; STATE],
    b: Bindings,
    scope: u64,
    t: u16,
    node: u32,
    room: u16,
    kind: Kind,
) -> Result<Next, Refusal>
    requires prepared_in { PreparedIn 2 1 code.now ws.old st.old b scope t room }
    requires node_bound { (node < (machine_of st.old).top) × Wraps (kind_in code.now t) (kind_number kind) }
    ensures { StepsTo code.now ws.old ws.new st.old st.new scope t node room result }
{
    let found = nodes::kind_of(ws, node);
    if found != kind {
        let made = u8::from(kind);
        let has = u8::from(found);
        return Err(outcomes::differ(made, has, t));
    }
    let part = rows::second_of(code, t);
    let x = nodes::left_of(ws, node);
    Ok(Next::On(part, x, b))
}

// The left part, then the right.
#[cycle(back)]
fn pair(
    code: &[u16; CODE],
    ws: &mut [u8],
    st: &mut [u32; STATE],
    b: Bindings,
    scope: u64,
    t: u16,
    node: u32,
    room: u16,
) -> Result<Next, Refusal>
    requires prepared_in { PreparedIn 2 1 code.now ws.old st.old b scope t room }
    requires node_bound { (node < (machine_of st.old).top) × (kind_in code.now t ≡ pair_kind) }
    ensures { StepsTo code.now ws.old ws.new st.old st.new scope t node room result }
{
    if nodes::kind_of(ws, node) != Kind::Pair {
        return Err(Refusal::Stuck);
    }
    let first = rows::first_of(code, t);
    let second = rows::second_of(code, t);
    let x = nodes::left_of(ws, node);
    let y = nodes::right_of(ws, node);
    let h = room - 1;
    let c = outcomes::unpacked(back(code, ws, st, b, scope, first, x, h))?;
    Ok(Next::On(second, y, c))
}

// let x = e in b: the body, then the bound term.
#[cycle(back)]
fn let_one(
    code: &[u16; CODE],
    ws: &mut [u8],
    st: &mut [u32; STATE],
    b: Bindings,
    scope: u64,
    t: u16,
    node: u32,
    room: u16,
) -> Result<Next, Refusal>
    requires prepared_in { PreparedIn 2 1 code.now ws.old st.old b scope t room }
    requires node_bound { (node < (machine_of st.old).top) × (kind_in code.now t ≡ let_kind) }
    ensures { StepsTo code.now ws.old ws.new st.old st.new scope t node room result }
{
    let bound = rows::first_of(code, t);
    let body = rows::second_of(code, t);
    let h = room - 1;
    let wide = outcomes::widen(st, scope);
    let inner = outcomes::unpacked(back(code, ws, st, b, wide, body, node, h))?;
    let x = outcomes::leave(ws, st, inner, scope);
    let c = outcomes::outer(ws, st, inner, scope);
    Ok(Next::On(bound, x, c))
}

// let (x, y) = e in b
#[cycle(back)]
fn let_two(
    code: &[u16; CODE],
    ws: &mut [u8],
    st: &mut [u32; STATE],
    b: Bindings,
    scope: u64,
    t: u16,
    node: u32,
    room: u16,
) -> Result<Next, Refusal>
    requires prepared_in { PreparedIn 2 1 code.now ws.old st.old b scope t room }
    requires node_bound { (node < (machine_of st.old).top) × (kind_in code.now t ≡ let_pair_kind) }
    ensures { StepsTo code.now ws.old ws.new st.old st.new scope t node room result }
{
    let bound = rows::first_of(code, t);
    let body = rows::second_of(code, t);
    let h = room - 1;
    let one = outcomes::widen(st, scope);
    let both = outcomes::widen(st, one);
    let inner = outcomes::unpacked(back(code, ws, st, b, both, body, node, h))?;
    let y = outcomes::leave(ws, st, inner, one);
    let x = outcomes::leave(ws, st, inner, scope);
    let c = outcomes::outer(ws, st, inner, scope);
    over_pair(code, ws, st, c, scope, bound, x, y, h)
}

// case e of inl x ⇒ b, inr y ⇒ b', by whether it chooses by an ancilla (document 02, F-3).
#[cycle(back)]
fn choose(
    code: &[u16; CODE],
    ws: &mut [u8],
    st: &mut [u32; STATE],
    b: Bindings,
    scope: u64,
    t: u16,
    node: u32,
    room: u16,
) -> Result<Next, Refusal>
    requires prepared_in { PreparedIn 2 1 code.now ws.old st.old b scope t room }
    requires node_bound { (node < (machine_of st.old).top) × (kind_in code.now t ≡ case_kind) }
    ensures { StepsTo code.now ws.old ws.new st.old st.new scope t node room result }
{
    let q = state::ancillae_in(scope);
    let n = state::count_in(scope);
    if rows::chooses_by_ancilla(code, t, q, n) {
        return chosen(code, ws, st, b, scope, t, node, room);
    }
    matched(code, ws, st, b, scope, t, node, room)
}

// A case that chooses by an ancilla: its scrutinee forward, in the state at hand, then the branch that it chooses. What the scrutinee names is
// known, so that it takes the branch that it took forward.
#[cycle(back)]
fn chosen(
    code: &[u16; CODE],
    ws: &mut [u8],
    st: &mut [u32; STATE],
    b: Bindings,
    scope: u64,
    t: u16,
    node: u32,
    room: u16,
) -> Result<Next, Refusal>
    requires prepared_in { PreparedIn 2 1 code.now ws.old st.old b scope t room }
    requires node_bound { (node < (machine_of st.old).top) × CaseThat true code.now scope t }
    ensures { StepsTo code.now ws.old ws.new st.old st.new scope t node room result }
{
    let sum = rows::first_of(code, t);
    let h = room - 1;
    let s = forward::outcomes::status_of(forward::eval::eval(code, ws, st, scope, sum, h))?;
    let part = nodes::left_of(ws, s);
    match nodes::kind_of(ws, s) {
        Kind::Inl => {
            let left = rows::second_of(code, t);
            outcomes::ended(branch(code, ws, st, b, scope, part, left, node, h))
        }
        Kind::Inr => {
            let right = rows::third_of(code, t);
            outcomes::ended(branch(code, ws, st, b, scope, part, right, node, h))
        }
        _ => Err(Refusal::Stuck),
    }
}

// Term t in the scope with one variable more, which is bound to the value at `part` and leaves when the term is run.
#[cycle(back)]
fn branch(
    code: &[u16; CODE],
    ws: &mut [u8],
    st: &mut [u32; STATE],
    b: Bindings,
    scope: u64,
    part: u32,
    t: u16,
    node: u32,
    room: u16,
) -> Result<Bindings, Refusal>
    requires prepared_bound { PreparedBound code.now ws.old st.old b scope t room }
    requires part_bound { (part < (machine_of st.old).top) × (node < (machine_of st.old).top) }
    ensures { RunsBound code.now ws.old ws.new st.old st.new scope t part node room result }
{
    let known = b.entered(ws, st, scope, part);
    let wide = state::wider(scope);
    let inner = outcomes::unpacked(back(code, ws, st, known, wide, t, node, room))?;
    Ok(outcomes::outer(ws, st, inner, scope))
}

// A case under first match: a branch, then the scrutinee.
#[cycle(back)]
fn matched(
    code: &[u16; CODE],
    ws: &mut [u8],
    st: &mut [u32; STATE],
    b: Bindings,
    scope: u64,
    t: u16,
    node: u32,
    room: u16,
) -> Result<Next, Refusal>
    requires prepared_in { PreparedIn 2 1 code.now ws.old st.old b scope t room }
    requires node_bound { (node < (machine_of st.old).top) × CaseThat false code.now scope t }
    ensures { StepsTo code.now ws.old ws.new st.old st.new scope t node room result }
{
    let sum = rows::first_of(code, t);
    let first = rows::second_of(code, t);
    let left = yields::yields(code, ws, st, scope, first, node);
    let branch = outcomes::branch_of(code, t, left);
    let side = outcomes::side_of(left);
    let h = room - 1;
    let wide = outcomes::widen(st, scope);
    let inner = outcomes::unpacked(back(code, ws, st, b, wide, branch, node, h))?;
    let x = outcomes::leave(ws, st, inner, scope);
    let c = outcomes::outer(ws, st, inner, scope);
    over(code, ws, st, c, scope, sum, x, h, side)
}

// A call: its ancilla terms forward; the function's body, its dynamic parameter not known; the dynamic term in the state at hand.
#[cycle(back)]
fn call(
    code: &[u16; CODE],
    ws: &mut [u8],
    st: &mut [u32; STATE],
    b: Bindings,
    scope: u64,
    t: u16,
    node: u32,
    room: u16,
) -> Result<Next, Refusal>
    requires prepared_in { PreparedIn 2 1 code.now ws.old st.old b scope t room }
    requires node_bound { (node < (machine_of st.old).top) × (kind_in code.now t ≡ call_kind) }
    ensures { StepsTo code.now ws.old ws.new st.old st.new scope t node room result }
{
    let k = usize::from(rows::third_of(code, t));
    arguments::gather(code, ws, st, scope, t, room, 0, k)?;
    let body = rows::body_of(code, rows::first_of(code, t));
    let args = Bindings::none();
    let callee = state::scope(state::end_of(scope), k, k);
    let h = room - 1;
    let wide = outcomes::widen(st, callee);
    let inner = outcomes::unpacked(back(code, ws, st, args, wide, body, node, h))?;
    let x = outcomes::leave(ws, st, inner, callee);
    let dynamic = rows::argument_of(code, t, k);
    Ok(Next::On(dynamic, x, b))
}

fn unroll(
    code: &[u16; CODE],
    ws: &mut [u8],
    st: &mut [u32; STATE],
    b: Bindings,
    scope: u64,
    t: u16,
    node: u32,
    room: u16,
) -> Result<Next, Refusal>
    requires prepared_in { PreparedIn 2 1 code.now ws.old st.old b scope t room }
    requires node_bound { (node < (machine_of st.old).top) × (kind_in code.now t ≡ unroll_kind) }
    ensures { StepsTo code.now ws.old ws.new st.old st.new scope t node room result }
{
    let part = rows::second_of(code, t);
    over(code, ws, st, b, scope, part, node, room - 1, Kind::Roll)
}
