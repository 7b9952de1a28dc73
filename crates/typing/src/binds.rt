// Terms that bind variables: let, let pair and case. The variables are bound in the scope's lent bytes, and bytes of older ones stay. Laws:
// proofs/Binding, Branching.
ghost use Rattle.program.specs.Kinds.{let_kind, let_pair_kind, case_kind};
ghost use Rattle.typing.specs.Subjects.{ReadyAtBy, ReadyBranchesBy, InfersBy, InfersBranchesBy};

use crate::outcomes::{Fault, Found, Scope};
use crate::subject::Subject;
use crate::tests::Let;
use crate::{infer, namings, tests, variables};
use program::views;
use types::codes::Code;
use types::shapes::Shape;
use varsets::Uses;

// The limit on variables in scope, as wide as a scope's count.
const MOST_VARIABLES: u8 = rules::MAX_VARIABLES as u8;

// let x = e in b
#[cycle(infer)]
pub fn let_one(
    subject: &Subject<'_>,
    ws: &mut [u8],
    top: &mut u32,
    vars: &mut [u8],
    sc: Scope,
    t: u16,
    at: usize,
) -> Result<Found, Fault>
    requires { ReadyAtBy subject.now ws.old vars.old sc top.old t at let_kind }
    ensures { InfersBy subject.now ws.old ws.new vars.old vars.new sc top.old top.new t result }
{
    if sc.n == MOST_VARIABLES {
        return Err(Fault::Unscoped(u32::from(t)));
    }
    let bound = views::first(subject.entries.program, at);
    let body = views::second(subject.entries.program, at);
    let from = namings::count(vars);
    let lent = variables::marked(sc);
    let one = infer::infer(subject, ws, top, vars, lent, bound)?;
    let to = namings::count(vars);
    let inner = variables::bind(subject, ws, *top, vars, sc, one.code);
    let two = infer::infer(subject, ws, top, vars, inner, body)?;
    let outer = Let {
        sc,
        uses: one.uses,
        t,
        from,
        to,
    };
    tests::close_one(subject, ws, *top, vars, outer, one.code, two)
}

// let (x, y) = e in b
#[cycle(infer)]
pub fn let_two(
    subject: &Subject<'_>,
    ws: &mut [u8],
    top: &mut u32,
    vars: &mut [u8],
    sc: Scope,
    t: u16,
    at: usize,
) -> Result<Found, Fault>
    requires { ReadyAtBy subject.now ws.old vars.old sc top.old t at let_pair_kind }
    ensures { InfersBy subject.now ws.old ws.new vars.old vars.new sc top.old top.new t result }
{
    if MOST_VARIABLES < sc.n + 2 {
        return Err(Fault::Unscoped(u32::from(t)));
    }
    let program = subject.entries.program;
    let bound = views::first(program, at);
    let body = views::second(program, at);
    let from = namings::count(vars);
    let lent = variables::marked(sc);
    let one = infer::infer(subject, ws, top, vars, lent, bound)?;
    let Shape::Product(c, d) = tests::shape_of(subject, ws, *top, one.code) else {
        return Err(Fault::Differ(u32::from(t)));
    };
    let to = namings::count(vars);
    let middle = variables::bind(subject, ws, *top, vars, sc, c);
    let inner = variables::bind(subject, ws, *top, vars, middle, d);
    let two = infer::infer(subject, ws, top, vars, inner, body)?;
    let outer = Let {
        sc,
        uses: one.uses,
        t,
        from,
        to,
    };
    tests::close_two(subject, ws, *top, vars, outer, c, d, two)
}

// case e of inl x ⇒ b, inr y ⇒ b'
#[cycle(infer)]
pub fn choose(
    subject: &Subject<'_>,
    ws: &mut [u8],
    top: &mut u32,
    vars: &mut [u8],
    sc: Scope,
    t: u16,
    at: usize,
) -> Result<Found, Fault>
    requires { ReadyAtBy subject.now ws.old vars.old sc top.old t at case_kind }
    ensures { InfersBy subject.now ws.old ws.new vars.old vars.new sc top.old top.new t result }
{
    if sc.n == MOST_VARIABLES {
        return Err(Fault::Unscoped(u32::from(t)));
    }
    let program = subject.entries.program;
    let sum = views::first(program, at);
    let one = infer::infer(subject, ws, top, vars, sc, sum)?;
    let Shape::Sum(c, d) = tests::shape_of(subject, ws, *top, one.code) else {
        return Err(Fault::Differ(u32::from(t)));
    };
    arms(subject, ws, top, vars, sc, t, at, one.uses, c, d)
}

// The branches of case t, over the types that they bind; the scrutinee has the uses `uses`.
#[cycle(infer)]
fn arms(
    subject: &Subject<'_>,
    ws: &mut [u8],
    top: &mut u32,
    vars: &mut [u8],
    sc: Scope,
    t: u16,
    at: usize,
    uses: Uses,
    c: Code,
    d: Code,
) -> Result<Found, Fault>
    requires { ReadyBranchesBy subject.now ws.old vars.old sc top.old t at uses c d }
    ensures { InfersBranchesBy subject.now ws.old ws.new vars.old vars.new sc top.old top.new t at c d result }
{
    let left = views::second(subject.entries.program, at);
    let right = views::third(subject.entries.program, at);
    let one = variables::bind(subject, ws, *top, vars, sc, c);
    let f = infer::infer(subject, ws, top, vars, one, left)?;
    if !tests::spent(subject, ws, *top, c, sc.n, f.uses) {
        return Err(Fault::Misused(u32::from(t)));
    }
    let two = variables::bind(subject, ws, *top, vars, sc, d);
    let g = infer::infer(subject, ws, top, vars, two, right)?;
    tests::meet(subject, ws, *top, f, g, uses, sc, d, t)
}
