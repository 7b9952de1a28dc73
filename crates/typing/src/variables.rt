// The types of the variables in scope, as codes in lent bytes, six bytes each: only this module knows their layout.
ghost use Rattle.std.specs.Prelude.{◌≡◌, ◌*◌, ◌≤◌, ◌<◌, length};
ghost use Rattle.rules.specs.Limits.{max_terms, max_variables};
ghost use Rattle.typing.specs.Ready.{variable_at, Reads, Seen, MarkedScope};
ghost use Rattle.typing.specs.Subjects.{ScopedBy, KnownBy, WidenedBy};
ghost use Rattle.typing.specs.Waiting.{variable_bytes, scope_bytes, count_in};

use crate::namings;
use crate::outcomes::{Fault, Found, Scope};
use crate::subject::Subject;
use types::basis::Basis;
use types::codes::Code;
use types::nodes;
use varsets::Uses;

pub const VARIABLE_BYTES: usize = 6;

fn slot(i: u8) -> usize
    requires { i < max_variables }
    ensures { (result ≡ variable_bytes * i) × (result < variable_bytes * max_variables) }
{
    VARIABLE_BYTES * usize::from(i)
}

fn code_of(vars: &[u8], i: u8) -> Code
    requires { (i < max_variables) × (variable_bytes * max_variables ≤ length vars.now) }
    ensures { result ≡ variable_at vars.now i }
{
    nodes::code_at(vars, slot(i))
}

// A variable that may be named.
fn named(vars: &[u8], i: u8) -> Found
    requires { (i < max_variables) × (variable_bytes * max_variables ≤ length vars.now) }
    ensures { Reads vars.now i result }
{
    Found {
        code: code_of(vars, i),
        uses: Uses::only(i),
    }
}

// Variable i as a term: its type, unless it is not in scope, or barred. A barred one whose naming a let could help waits.
pub fn variable(vars: &mut [u8], sc: Scope, t: u16, i: u8) -> Result<Found, Fault>
    requires { (sc.n ≤ max_variables) × (scope_bytes ≤ length vars.old) × (count_in vars.old < max_terms) }
    ensures { Seen vars.old vars.new sc t i result }
{
    if sc.n <= i {
        return Err(Fault::Unscoped(u32::from(t)));
    }
    if i < sc.q || sc.lo <= i {
        return Ok(named(vars, i));
    }
    if !sc.marks.contains(i) {
        return Err(Fault::Misused(u32::from(t)));
    }
    namings::wait(vars, i, t);
    Ok(named(vars, i))
}

// The scope of the bound term of a let: a let could help every dynamic variable.
pub fn marked(sc: Scope) -> Scope
    requires { (sc.lo ≤ sc.n) × (sc.n < max_variables) }
    ensures { MarkedScope sc result }
{
    Scope {
        marks: sc.marks.union(Uses::between(sc.lo, sc.n)),
        ..sc
    }
}

// A variable more: it must be used, unless its type is exactly unit (section 3).
pub fn bind(
    subject: &Subject<'_>,
    ws: &[u8],
    top: u32,
    vars: &mut [u8],
    sc: Scope,
    c: Code,
) -> Scope
    requires scoped { ScopedBy subject.now ws.now vars.old sc top }
    requires known { KnownBy subject.now top c × (sc.n < max_variables) }
    ensures { WidenedBy subject.now ws.now vars.old vars.new sc top c result }
{
    nodes::put_code(vars, slot(sc.n), c);
    let n = sc.n + 1;
    let program = subject.entries.program;
    let types = subject.entries.types;
    let basis = Basis {
        program,
        types,
        ws,
        top,
    };
    if basis.is_unit(c) {
        return Scope { n, ..sc };
    }
    Scope {
        n,
        owed: sc.owed.union(Uses::only(sc.n)),
        ..sc
    }
}
