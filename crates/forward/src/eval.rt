// Forward evaluation. `eval` tests fuel and height, takes one unit of fuel, and hands the term to the function of its kind; each of these
// evaluates the term's parts in the written order. A function that is called has its slots behind those of its caller, so nothing is copied.
// Evaluating in a scope leaves the slots of the scope as they are. `code` is the decoded program, `ws` the value graph; `st` has the machine, which
// is the first free node and the fuel, and the slots; `scope` is the scope in one number (scopes::state). Laws of each kind: proofs/Steps, Binds,
// Placing, Calling.
ghost use Rattle.std.specs.Prelude.{◌≡◌, ◌+◌, ◌≤◌, ◌<◌};
ghost use Rattle.program.specs.Kinds.{pair_kind, let_kind, let_pair_kind, case_kind, call_kind, unroll_kind};
ghost use Rattle.valuegraph.specs.Nodes.{kind_number};
ghost use Rattle.decoded.specs.Rows.{kind_in};
ghost use Rattle.scopes.specs.Slots.{machine_of};
ghost use Rattle.yields.specs.Yields.{Wraps};
ghost use Rattle.forward.specs.Ready.{ReadyIn, Evaluates, EvaluatesUnder, Steps, PlacesIn, Calls};

use crate::outcomes;
use crate::outcomes::{Refusal, STOPPED};
use decoded::rows;
use decoded::rows::CODE;
use program::kinds::TermKind;
use scopes::state::STATE;
use scopes::{slots, state};
use valuegraph::nodes;
use valuegraph::nodes::Kind;

// Term t, in a scope, with height `room` left.
#[cycle(eval)]
pub fn eval(
    code: &[u16; CODE],
    ws: &mut [u8],
    st: &mut [u32; STATE],
    scope: u64,
    t: u16,
    room: u16,
) -> u32
    requires { ReadyIn 0 0 code.now ws.old st.old scope t room }
    ensures { Evaluates code.now ws.old ws.new st.old st.new scope t room result }
{
    if state::fuel(st) == 0 {
        return outcomes::refuse(Refusal::Fuel(t));
    }
    if room == 0 {
        return outcomes::refuse(Refusal::Height(t));
    }
    state::spend(st);
    match rows::term_kind(code, t) {
        TermKind::Variable => outcomes::variable(ws, st, scope, rows::first_of(code, t)),
        TermKind::Unit => outcomes::make_unit(ws, st, t),
        TermKind::Inl => wrap(code, ws, st, scope, t, room, Kind::Inl),
        TermKind::Inr => wrap(code, ws, st, scope, t, room, Kind::Inr),
        TermKind::Pair => pair(code, ws, st, scope, t, room),
        TermKind::Let => let_one(code, ws, st, scope, t, room),
        TermKind::LetPair => let_two(code, ws, st, scope, t, room),
        TermKind::Case => choose(code, ws, st, scope, t, room),
        TermKind::Call => call(code, ws, st, scope, t, room),
        TermKind::Roll => wrap(code, ws, st, scope, t, room, Kind::Roll),
        TermKind::Unroll => unroll(code, ws, st, scope, t, room),
    }
}

// Term t in the scope with one variable more.
#[cycle(eval)]
fn under(
    code: &[u16; CODE],
    ws: &mut [u8],
    st: &mut [u32; STATE],
    scope: u64,
    node: u32,
    t: u16,
    room: u16,
) -> u32
    requires ready_in { ReadyIn 0 1 code.now ws.old st.old scope t room }
    requires node_bound { node < (machine_of st.old).top }
    ensures { EvaluatesUnder code.now ws.old ws.new st.old st.new scope node t room result }
{
    slots::bind(st, state::end_of(scope), node);
    eval(code, ws, st, state::wider(scope), t, room)
}

// inl, inr and roll, by the kind of node that they make.
#[cycle(eval)]
fn wrap(
    code: &[u16; CODE],
    ws: &mut [u8],
    st: &mut [u32; STATE],
    scope: u64,
    t: u16,
    room: u16,
    kind: Kind,
) -> u32
    requires ready_in { ReadyIn 1 0 code.now ws.old st.old scope t room }
    requires wraps { Wraps (kind_in code.now t) (kind_number kind) }
    ensures { Steps code.now ws.old ws.new st.old st.new scope t room result }
{
    let part = rows::second_of(code, t);
    let r = eval(code, ws, st, scope, part, room - 1);
    if STOPPED <= r {
        return r;
    }
    outcomes::make_single(ws, st, t, kind, r)
}

#[cycle(eval)]
fn pair(
    code: &[u16; CODE],
    ws: &mut [u8],
    st: &mut [u32; STATE],
    scope: u64,
    t: u16,
    room: u16,
) -> u32
    requires ready_in { ReadyIn 1 0 code.now ws.old st.old scope t room }
    requires t_value { kind_in code.now t ≡ pair_kind }
    ensures { Steps code.now ws.old ws.new st.old st.new scope t room result }
{
    let left = rows::first_of(code, t);
    let r = eval(code, ws, st, scope, left, room - 1);
    if STOPPED <= r {
        return r;
    }
    let right = rows::second_of(code, t);
    let r2 = eval(code, ws, st, scope, right, room - 1);
    if STOPPED <= r2 {
        return r2;
    }
    outcomes::make_pair(ws, st, t, r, r2)
}

// let x = e in b
#[cycle(eval)]
fn let_one(
    code: &[u16; CODE],
    ws: &mut [u8],
    st: &mut [u32; STATE],
    scope: u64,
    t: u16,
    room: u16,
) -> u32
    requires ready_in { ReadyIn 1 0 code.now ws.old st.old scope t room }
    requires t_value { kind_in code.now t ≡ let_kind }
    ensures { Steps code.now ws.old ws.new st.old st.new scope t room result }
{
    let bound = rows::first_of(code, t);
    let r = eval(code, ws, st, scope, bound, room - 1);
    if STOPPED <= r {
        return r;
    }
    let body = rows::second_of(code, t);
    under(code, ws, st, scope, r, body, room - 1)
}

// let (x, y) = e in b
#[cycle(eval)]
fn let_two(
    code: &[u16; CODE],
    ws: &mut [u8],
    st: &mut [u32; STATE],
    scope: u64,
    t: u16,
    room: u16,
) -> u32
    requires ready_in { ReadyIn 1 0 code.now ws.old st.old scope t room }
    requires t_value { kind_in code.now t ≡ let_pair_kind }
    ensures { Steps code.now ws.old ws.new st.old st.new scope t room result }
{
    let bound = rows::first_of(code, t);
    let below = room - 1;
    let r = eval(code, ws, st, scope, bound, below);
    if STOPPED <= r {
        return r;
    }
    if nodes::kind_of(ws, r) != Kind::Pair {
        return outcomes::refuse(Refusal::Stuck);
    }
    let x = nodes::left_of(ws, r);
    let y = nodes::right_of(ws, r);
    slots::bind(st, state::end_of(scope), x);
    let body = rows::second_of(code, t);
    under(code, ws, st, state::wider(scope), y, body, below)
}

// case e of inl x ⇒ b, inr y ⇒ b'
#[cycle(eval)]
fn choose(
    code: &[u16; CODE],
    ws: &mut [u8],
    st: &mut [u32; STATE],
    scope: u64,
    t: u16,
    room: u16,
) -> u32
    requires ready_in { ReadyIn 1 0 code.now ws.old st.old scope t room }
    requires t_value { kind_in code.now t ≡ case_kind }
    ensures { Steps code.now ws.old ws.new st.old st.new scope t room result }
{
    let sum = rows::first_of(code, t);
    let below = room - 1;
    let r = eval(code, ws, st, scope, sum, below);
    if STOPPED <= r {
        return r;
    }
    let part = nodes::left_of(ws, r);
    match nodes::kind_of(ws, r) {
        Kind::Inl => under(code, ws, st, scope, part, rows::second_of(code, t), below),
        Kind::Inr => {
            let out = under(code, ws, st, scope, part, rows::third_of(code, t), below);
            outcomes::first_match(code, ws, st, scope, t, out)
        }
        _ => outcomes::refuse(Refusal::Stuck),
    }
}

#[cycle(eval)]
fn unroll(
    code: &[u16; CODE],
    ws: &mut [u8],
    st: &mut [u32; STATE],
    scope: u64,
    t: u16,
    room: u16,
) -> u32
    requires ready_in { ReadyIn 1 0 code.now ws.old st.old scope t room }
    requires t_value { kind_in code.now t ≡ unroll_kind }
    ensures { Steps code.now ws.old ws.new st.old st.new scope t room result }
{
    let part = rows::second_of(code, t);
    let r = eval(code, ws, st, scope, part, room - 1);
    if STOPPED <= r {
        return r;
    }
    outcomes::unrolled(ws, r)
}

// The arguments of call t from number k to number `end`, which is the dynamic one: each is evaluated in the caller's scope, and placed behind it
// once the others are, since their evaluation has its own variables there.
#[cycle(eval)]
fn place(
    code: &[u16; CODE],
    ws: &mut [u8],
    st: &mut [u32; STATE],
    scope: u64,
    t: u16,
    room: u16,
    k: usize,
    end: usize,
) -> u32
    requires ready_in { ReadyIn 1 0 code.now ws.old st.old scope t room }
    requires calls { Calls code.now t k end }
    ensures { PlacesIn code.now ws.old ws.new st.old st.new scope t room k end result }
{
    let argument = rows::argument_of(code, t, k);
    let r = eval(code, ws, st, scope, argument, room - 1);
    if STOPPED <= r {
        return r;
    }
    let at = state::end_of(scope) + k;
    if k == end {
        slots::bind(st, at, r);
        return r;
    }
    let next = k + 1;
    let others = place(code, ws, st, scope, t, room, next, end);
    slots::bind(st, at, r);
    others
}

// A call: its arguments are the scope of the function's body.
#[cycle(eval)]
fn call(
    code: &[u16; CODE],
    ws: &mut [u8],
    st: &mut [u32; STATE],
    scope: u64,
    t: u16,
    room: u16,
) -> u32
    requires ready_in { ReadyIn 1 0 code.now ws.old st.old scope t room }
    requires t_value { kind_in code.now t ≡ call_kind }
    ensures { Steps code.now ws.old ws.new st.old st.new scope t room result }
{
    let count = usize::from(rows::third_of(code, t));
    let r = place(code, ws, st, scope, t, room, 0, count);
    if STOPPED <= r {
        return r;
    }
    let body = rows::body_of(code, rows::first_of(code, t));
    let inner = state::scope(state::end_of(scope), count, count + 1);
    eval(code, ws, st, inner, body, room - 1)
}
