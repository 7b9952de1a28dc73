// The functions of a program, typed in order (document 01, section 4, row Typing: refusals 6 to 8), against rules/specs/Check. The
// parameters' types come from the table of signatures, which was filled when the functions were read; product nodes of one function are
// not needed by the next, so each function has all the room for them.
ghost use Rattle.std.specs.Prelude.{Err, ◌≡◌, ◌≤◌, ◌<◌, length, get_or};
ghost use Rattle.calls.specs.Fields.{parameters_at};
ghost use Rattle.program.specs.Signatures.{SignaturesAre};
ghost use Rattle.varsets.specs.Sets.{Holds, nobody};
ghost use Rattle.typing.specs.Waiting.{scope_bytes, count_in};
ghost use Rattle.typing.specs.Checked.{verdict_of, Typeable, typing_answer, fault_answer};
ghost use Rattle.typing.specs.Subjects.{SourcedBy, KnownBy, TypeableBy, FiguredBy, SignedBy, RowBy, BoundBy, StartedBy, end_by, function_by, typing_by};

use crate::namings::SCOPE_BYTES;
use crate::outcomes::{Fault, Found, Scope};
use crate::subject::Subject;
use crate::{infer, namings, variables};
use program::entries::Entries;
use program::views;
use rules::MAX_PARAMETERS;
use types::basis::Basis;
use types::codes::Code;
use varsets::Uses;

// Why the functions are not typed: refusal 6, 7 or 8 at a field's offset.
#[derive(Clone, Copy, PartialEq, Eq, Debug)]
pub enum TypingError {
    Differ(usize),
    Unscoped(usize),
    Misused(usize),
}

// The first `n` parameters in scope, each counted among the ancillae.
fn parameters(n: u8) -> Scope
    ensures fields { result ≡ record { q = n; lo = 0; n = n; owed = result.owed; marks = result.owed } }
    ensures none_owed { Holds result.owed nobody }
{
    let none = Uses::none();
    Scope {
        q: n,
        lo: 0,
        n,
        owed: none,
        marks: none,
    }
}

// The first `q` variables get the types of the ancilla parameters. Each is bound like any variable, and then counted among the ancillae.
fn bind_ancillae(
    subject: &Subject<'_>,
    ws: &[u8],
    vars: &mut [u8],
    at: usize,
    row: [u16; MAX_PARAMETERS],
    q: u8,
)
    requires sources { SourcedBy subject.now ws.now 0 }
    requires signed { RowBy subject.now at row }
    requires q_bound { (q < parameters_at subject.now.entries.program.now at) × (scope_bytes ≤ length vars.old) × (count_in vars.old ≡ 0) }
    ensures { BoundBy subject.now ws.now vars.new row q }
{
    for i in 0..q {
        let c = Code::Entry(row[usize::from(i)]);
        variables::bind(subject, ws, 0, vars, parameters(i), c);
    }
}

// The scope of the parameters of the function at `at`.
fn bind_parameters(
    subject: &Subject<'_>,
    ws: &[u8],
    vars: &mut [u8],
    at: usize,
    row: [u16; MAX_PARAMETERS],
) -> Scope
    requires sources { SourcedBy subject.now ws.now 0 }
    requires signed { RowBy subject.now at row }
    requires scope_bytes_in_bounds { (scope_bytes ≤ length vars.old) × (count_in vars.old ≡ 0) }
    ensures { StartedBy subject.now ws.now vars.new at result }
{
    let last = views::function_parameters(subject.entries.program, at) - 1;
    let q = last as u8;
    bind_ancillae(subject, ws, vars, at, row, q);
    let c = Code::Entry(row[last]);
    variables::bind(subject, ws, 0, vars, parameters(q), c)
}

// The function at `at`, whose body has a type and uses variables: is the type the result's, and is the dynamic parameter used?
fn finish(
    subject: &Subject<'_>,
    ws: &[u8],
    top: u32,
    at: usize,
    row: [u16; MAX_PARAMETERS],
    body: Found,
) -> Result<(), TypingError>
    requires sources { SourcedBy subject.now ws.now top }
    requires known { KnownBy subject.now top body.code }
    requires signed { RowBy subject.now at row }
    ensures { verdict_of result ≡ end_by subject.now ws.now at body }
{
    let program = subject.entries.program;
    let types = subject.entries.types;
    let basis = Basis {
        program,
        types,
        ws,
        top,
    };
    let result = Code::Entry(views::function_result(program, at));
    if !basis.same(body.code, result) {
        return Err(TypingError::Differ(at));
    }
    let last = views::function_parameters(program, at) - 1;
    let dynamic = Code::Entry(row[last]);
    if basis.is_unit(dynamic) || body.uses.contains(last as u8) {
        return Ok(());
    }
    Err(TypingError::Misused(at))
}

// The offset of a term's field; 0 if there is no such term, as in the definition of a refusal's place.
fn place(terms: &[u16], t: u32) -> usize
    ensures { result ≡ get_or terms.now t 0 }
{
    let k = t as usize;
    if k < terms.len() {
        return usize::from(terms[k]);
    }
    0
}

impl Fault {
    // The refusal at a term, placed at the term's field.
    fn placed(self, terms: &[u16]) -> TypingError
        ensures { verdict_of (Err result) ≡ fault_answer terms.now self }
    {
        match self {
            Fault::Differ(t) => TypingError::Differ(place(terms, t)),
            Fault::Unscoped(t) => TypingError::Unscoped(place(terms, t)),
            Fault::Misused(t) => TypingError::Misused(place(terms, t)),
        }
    }
}

// Function `g`, whose parameters' types its row of the table has. The bytes of its scope are lent, so that they are made once for all functions.
fn check_function(
    subject: &Subject<'_>,
    ws: &mut [u8],
    vars: &mut [u8],
    g: usize,
) -> Result<(), TypingError>
    requires typeable { TypeableBy subject.now ws.old }
    requires figured { FiguredBy subject.now ws.old }
    requires g_in_bounds { (g < length subject.now.entries.functions.now) × SignedBy subject.now × (scope_bytes ≤ length vars.old) }
    ensures { (verdict_of result ≡ function_by subject.now g)
        × FiguredBy subject.now ws.new }
{
    let row = subject.entries.table[g];
    let at = usize::from(subject.entries.functions[g]);
    let body = views::function_body(subject.entries.program, at);
    namings::begin(vars);
    let sc = bind_parameters(subject, ws, vars, at, row);
    let mut top = 0;
    match infer::infer(subject, ws, &mut top, vars, sc, body) {
        Ok(found) => finish(subject, ws, top, at, row, found),
        Err(why) => Err(why.placed(subject.entries.terms)),
    }
}

// The functions of a program whose entries are tested, in order, the figures of its types being made.
fn check_all(subject: &Subject<'_>, ws: &mut [u8]) -> Result<(), TypingError>
    requires typeable { TypeableBy subject.now ws.old }
    requires figured { FiguredBy subject.now ws.old }
    requires signatures_are { SignedBy subject.now }
    ensures { verdict_of result ≡ typing_by subject.now }
{
    let mut vars = [0u8; SCOPE_BYTES];
    for g in 0..subject.entries.functions.len() {
        check_function(subject, ws, &mut vars, g)?;
    }
    Ok(())
}

// The functions of a program whose entries are tested, in order. The table has their signatures, `nodes` the
// nodes of each type entry; product nodes and what is kept of type entries stand in `ws`.
pub fn check_functions(
    entries: &Entries<'_>,
    nodes: &[u16],
    ws: &mut [u8],
) -> Result<(), TypingError>
    requires typeable { Typeable entries.now.program.now entries.now.types.now entries.now.terms.now entries.now.functions.now nodes.now ws.old }
    requires signatures_are { SignaturesAre entries.now.program.now entries.now.functions.now entries.now.table.now }
    ensures { verdict_of result ≡ typing_answer entries.now.program.now entries.now.types.now entries.now.terms.now entries.now.functions.now }
{
    types::aliases::prepare(entries.program, entries.types, entries.terms, ws);
    let subject = Subject {
        entries: *entries,
        nodes,
    };
    check_all(&subject, ws)
}
