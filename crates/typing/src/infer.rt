// The type of a term, by the rules' `infer`. `infer` hands the term to the function of its kind; each of these types the term's parts in the
// written order and makes each test as soon as the parts that it needs are typed. Laws of each kind: proofs/Steps, Pairing.
ghost use Rattle.program.specs.Kinds.{pair_kind, roll_kind, unroll_kind};
ghost use Rattle.typing.specs.Subjects.{ReadyBy, ReadyAtBy, ReadyInjectBy, InfersBy};

use crate::outcomes::{Fault, Found, Scope};
use crate::subject::Subject;
use crate::{binds, calling, leaves, tests, variables};
use program::kinds::{INL, TermKind};
use program::views;
use types::basis::Basis;
use types::codes::Code;
use types::shapes::Shape;

// Term t, in a scope. `top` counts the product nodes made so far.
#[cycle(infer)]
pub fn infer(
    subject: &Subject<'_>,
    ws: &mut [u8],
    top: &mut u32,
    vars: &mut [u8],
    sc: Scope,
    t: u16,
) -> Result<Found, Fault>
    requires { ReadyBy subject.now ws.old vars.old sc top.old t }
    ensures { InfersBy subject.now ws.old ws.new vars.old vars.new sc top.old top.new t result }
{
    let program = subject.entries.program;
    let at = leaves::offset(subject.entries.terms, t);
    // Kept: each kind returns, so that its outcome is written where it is wanted. One that the `match` hands on is copied, at each nested term.
    match views::term_kind(program, at) {
        TermKind::Variable => return variables::variable(vars, sc, t, views::variable(program, at)),
        TermKind::Unit => return Ok(leaves::unit()),
        TermKind::Inl => return inject(subject, ws, top, vars, sc, t, at),
        TermKind::Inr => return inject(subject, ws, top, vars, sc, t, at),
        TermKind::Pair => return pair(subject, ws, top, vars, sc, t, at),
        TermKind::Let => return binds::let_one(subject, ws, top, vars, sc, t, at),
        TermKind::LetPair => return binds::let_two(subject, ws, top, vars, sc, t, at),
        TermKind::Case => return binds::choose(subject, ws, top, vars, sc, t, at),
        TermKind::Call => return calling::call(subject, ws, top, vars, sc, t, at),
        TermKind::Roll => return roll(subject, ws, top, vars, sc, t, at),
        TermKind::Unroll => return unroll(subject, ws, top, vars, sc, t, at),
    }
}

// inl and inr, by their kind
#[cycle(infer)]
fn inject(
    subject: &Subject<'_>,
    ws: &mut [u8],
    top: &mut u32,
    vars: &mut [u8],
    sc: Scope,
    t: u16,
    at: usize,
) -> Result<Found, Fault>
    requires { ReadyInjectBy subject.now ws.old vars.old sc top.old t at }
    ensures { InfersBy subject.now ws.old ws.new vars.old vars.new sc top.old top.new t result }
{
    let program = subject.entries.program;
    let types = subject.entries.types;
    let whole = Code::Entry(views::first(program, at));
    let part = views::second(program, at);
    let basis = Basis {
        program,
        types,
        ws,
        top: *top,
    };
    let Shape::Sum(left, right) = basis.shape_of(whole) else {
        return Err(Fault::Differ(u32::from(t)));
    };
    let found = infer(subject, ws, top, vars, sc, part)?;
    if views::kind(program, at) == INL {
        return tests::expect(subject, ws, *top, found, left, whole, t);
    }
    tests::expect(subject, ws, *top, found, right, whole, t)
}

// A pair: its type is the product.
#[cycle(infer)]
fn pair(
    subject: &Subject<'_>,
    ws: &mut [u8],
    top: &mut u32,
    vars: &mut [u8],
    sc: Scope,
    t: u16,
    at: usize,
) -> Result<Found, Fault>
    requires { ReadyAtBy subject.now ws.old vars.old sc top.old t at pair_kind }
    ensures { InfersBy subject.now ws.old ws.new vars.old vars.new sc top.old top.new t result }
{
    let left = views::first(subject.entries.program, at);
    let right = views::second(subject.entries.program, at);
    let one = infer(subject, ws, top, vars, sc, left)?;
    let two = infer(subject, ws, top, vars, sc, right)?;
    tests::pair_up(subject, ws, top, one, two, t)
}

// A roll: its part is of the unfolded type.
#[cycle(infer)]
fn roll(
    subject: &Subject<'_>,
    ws: &mut [u8],
    top: &mut u32,
    vars: &mut [u8],
    sc: Scope,
    t: u16,
    at: usize,
) -> Result<Found, Fault>
    requires { ReadyAtBy subject.now ws.old vars.old sc top.old t at roll_kind }
    ensures { InfersBy subject.now ws.old ws.new vars.old vars.new sc top.old top.new t result }
{
    let program = subject.entries.program;
    let types = subject.entries.types;
    let i = views::first(program, at);
    let part = views::second(program, at);
    let basis = Basis {
        program,
        types,
        ws,
        top: *top,
    };
    let Some(body) = basis.unfolded(i) else {
        return Err(Fault::Differ(u32::from(t)));
    };
    let found = infer(subject, ws, top, vars, sc, part)?;
    tests::expect(subject, ws, *top, found, body, Code::Entry(i), t)
}

// An unroll: its type is the unfolded type.
#[cycle(infer)]
fn unroll(
    subject: &Subject<'_>,
    ws: &mut [u8],
    top: &mut u32,
    vars: &mut [u8],
    sc: Scope,
    t: u16,
    at: usize,
) -> Result<Found, Fault>
    requires { ReadyAtBy subject.now ws.old vars.old sc top.old t at unroll_kind }
    ensures { InfersBy subject.now ws.old ws.new vars.old vars.new sc top.old top.new t result }
{
    let program = subject.entries.program;
    let types = subject.entries.types;
    let i = views::first(program, at);
    let part = views::second(program, at);
    let basis = Basis {
        program,
        types,
        ws,
        top: *top,
    };
    let Some(body) = basis.unfolded(i) else {
        return Err(Fault::Differ(u32::from(t)));
    };
    if !basis.within_limit(subject.nodes, body) {
        return Err(Fault::Differ(u32::from(t)));
    }
    let found = infer(subject, ws, top, vars, sc, part)?;
    tests::expect(subject, ws, *top, found, Code::Entry(i), body, t)
}
