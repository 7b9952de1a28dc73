// Calls: the ancilla arguments, then the dynamic one. The types of the called function's parameters come from the table of signatures; how
// many it has, and its result, which the table has no place for, from its field. Laws: proofs/Called, Passing.
ghost use Rattle.program.specs.Kinds.{call_kind};
ghost use Rattle.typing.specs.Subjects.{ReadyAtBy, ReadyArgumentsBy, InfersBy, InfersArgumentsBy};

use crate::outcomes::{Fault, Found, Scope};
use crate::subject::Subject;
use crate::{infer, tests};
use program::views;
use types::codes::Code;
use varsets::Uses;

// The ancilla arguments of call t, of function g, which are `count`. Their uses count for nothing: of a dynamic variable bound outside they are
// namings.
#[cycle(infer)]
fn arguments(
    subject: &Subject<'_>,
    ws: &mut [u8],
    top: &mut u32,
    vars: &mut [u8],
    sc: Scope,
    t: u16,
    at: usize,
    g: usize,
    count: usize,
) -> Result<(), Fault>
    requires { ReadyArgumentsBy subject.now ws.old vars.old sc top.old t at g 0 count }
    ensures { InfersArgumentsBy subject.now ws.old ws.new vars.old vars.new sc top.old top.new t at g 0 count result }
{
    let program = subject.entries.program;
    for k in 0..count {
        let part = views::listed(program, at, k);
        let found = infer::infer(subject, ws, top, vars, sc, part)?;
        let want = Code::Entry(subject.entries.table[g][k]);
        if !tests::same(subject, ws, *top, found.code, want) {
            return Err(Fault::Differ(u32::from(t)));
        }
    }
    Ok(())
}

// A call: ancilla arguments name no dynamic variable of the scope, but for what a let around could help; the dynamic argument may.
#[cycle(infer)]
pub fn call(
    subject: &Subject<'_>,
    ws: &mut [u8],
    top: &mut u32,
    vars: &mut [u8],
    sc: Scope,
    t: u16,
    at: usize,
) -> Result<Found, Fault>
    requires { ReadyAtBy subject.now ws.old vars.old sc top.old t at call_kind }
    ensures { InfersBy subject.now ws.old ws.new vars.old vars.new sc top.old top.new t result }
{
    let program = subject.entries.program;
    let g = usize::from(views::first(program, at));
    let h = usize::from(subject.entries.functions[g]);
    let count = views::call_ancillae(program, at);
    let own = views::function_parameters(program, h) - 1;
    if count != own {
        return Err(Fault::Differ(u32::from(t)));
    }
    let barred = Scope {
        lo: sc.n,
        owed: Uses::none(),
        ..sc
    };
    arguments(subject, ws, top, vars, barred, t, at, g, count)?;
    let part = views::listed(program, at, count);
    let want = Code::Entry(subject.entries.table[g][count]);
    let answer = Code::Entry(views::function_result(program, h));
    let found = infer::infer(subject, ws, top, vars, sc, part)?;
    tests::expect(subject, ws, *top, found, want, answer, t)
}
