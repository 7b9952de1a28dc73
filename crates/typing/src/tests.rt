// The tests that typing makes once a part is typed (section 4: "as soon as the parts it needs are typed").
ghost use Rattle.std.specs.Prelude.{Ok, ◌≡◌, ◌+◌, ◌<◌};
ghost use Rattle.rules.specs.Limits.{max_variables, max_terms};
ghost use Rattle.types.specs.Codes.{Room};
ghost use Rattle.typing.specs.Ready.{Joins, Closes};
ghost use Rattle.typing.specs.Subjects.{SourcedBy, KnownBy, CountedBy, ShapedBy, same_in, ExpectsBy, spent_in, ClosesOneBy, ClosesTwoBy, MeetsBy, PairedBy};
ghost use Rattle.typing.specs.Waiting.{Settleable};

use crate::namings;
use crate::outcomes::{Fault, Found, Scope};
use crate::subject::Subject;
use types::basis::Basis;
use types::codes::Code;
use types::products;
use types::shapes::Shape;
use varsets::Uses;

// A let t in a scope, whose bound term is typed: what that uses, and its namings, numbers `from` to `to`.
#[derive(Clone, Copy)]
pub struct Let {
    pub sc: Scope,
    pub uses: Uses,
    pub t: u16,
    pub from: u16,
    pub to: u16,
}

// Kept: `shape_of` and `same` have frames of their own. A term's parts are typed in frames one within another, and each of those would hold a basis.

// The outermost node of a type.
#[inline(never)]
pub fn shape_of(subject: &Subject<'_>, ws: &[u8], top: u32, c: Code) -> Shape
    requires sources { SourcedBy subject.now ws.now top }
    requires known { KnownBy subject.now top c }
    ensures { ShapedBy subject.now ws.now top c result }
{
    let program = subject.entries.program;
    let types = subject.entries.types;
    let basis = Basis {
        program,
        types,
        ws,
        top,
    };
    basis.shape_of(c)
}

// Are two types equal?
#[inline(never)]
pub fn same(subject: &Subject<'_>, ws: &[u8], top: u32, c: Code, d: Code) -> bool
    requires sources { SourcedBy subject.now ws.now top }
    requires known { KnownBy subject.now top c × KnownBy subject.now top d }
    ensures { result ≡ same_in subject.now ws.now c d }
{
    let program = subject.entries.program;
    let types = subject.entries.types;
    let basis = Basis {
        program,
        types,
        ws,
        top,
    };
    basis.same(c, d)
}

// The part has to have the type `want`; then the type is `answer`.
pub fn expect(
    subject: &Subject<'_>,
    ws: &[u8],
    top: u32,
    part: Found,
    want: Code,
    answer: Code,
    t: u16,
) -> Result<Found, Fault>
    requires sources { SourcedBy subject.now ws.now top }
    requires known { KnownBy subject.now top part.code × KnownBy subject.now top want }
    ensures { ExpectsBy subject.now ws.now want answer t part result }
{
    let program = subject.entries.program;
    let types = subject.entries.types;
    let basis = Basis {
        program,
        types,
        ws,
        top,
    };
    if !basis.same(part.code, want) {
        return Err(Fault::Differ(u32::from(t)));
    }
    Ok(Found {
        code: answer,
        uses: part.uses,
    })
}

// Is variable i, of the code's type, used? If its type is exactly unit, it need not be.
pub fn spent(subject: &Subject<'_>, ws: &[u8], top: u32, c: Code, i: u8, uses: Uses) -> bool
    requires sources { SourcedBy subject.now ws.now top }
    requires known { KnownBy subject.now top c × (i < max_variables) }
    ensures { result ≡ spent_in subject.now ws.now c i uses }
{
    let program = subject.entries.program;
    let types = subject.entries.types;
    let basis = Basis {
        program,
        types,
        ws,
        top,
    };
    basis.is_unit(c) || uses.contains(i)
}

// A type, with the uses of another part besides.
fn join(part: Found, uses: Uses) -> Found
    ensures { Joins part uses (Ok result) }
{
    Found {
        code: part.code,
        uses: uses.union(part.uses),
    }
}

// The body of a let, once it is typed; `used` is whether it uses what the let binds. The namings of the bound term are settled; of all places
// for 8, the let's own among them, the lowest stands.
fn close(vars: &mut [u8], outer: Let, body: Found, used: bool) -> Result<Found, Fault>
    requires { Settleable outer.sc vars.old outer.from outer.to }
    ensures { Closes vars.old vars.new outer.sc outer.uses used outer.t outer.from outer.to body result }
{
    let own = if used { None } else { Some(outer.t) };
    match namings::settle(vars, outer.sc, body.uses, outer.from, outer.to, own) {
        Some(place) => Err(Fault::Misused(u32::from(place))),
        None => Ok(join(body, outer.uses)),
    }
}

// The body of a let, which binds one variable of the code's type.
pub fn close_one(
    subject: &Subject<'_>,
    ws: &[u8],
    top: u32,
    vars: &mut [u8],
    outer: Let,
    c: Code,
    body: Found,
) -> Result<Found, Fault>
    requires sources { SourcedBy subject.now ws.now top }
    requires known { KnownBy subject.now top c × (outer.sc.n < max_variables) }
    requires settleable { Settleable outer.sc vars.old outer.from outer.to }
    ensures { ClosesOneBy subject.now ws.now vars.old vars.new outer c body result }
{
    let used = spent(subject, ws, top, c, outer.sc.n, body.uses);
    close(vars, outer, body, used)
}

// The same of two variables.
pub fn close_two(
    subject: &Subject<'_>,
    ws: &[u8],
    top: u32,
    vars: &mut [u8],
    outer: Let,
    c: Code,
    d: Code,
    body: Found,
) -> Result<Found, Fault>
    requires sources { SourcedBy subject.now ws.now top }
    requires known { KnownBy subject.now top c × KnownBy subject.now top d × (outer.sc.n + 1 < max_variables) }
    requires settleable { Settleable outer.sc vars.old outer.from outer.to }
    ensures { ClosesTwoBy subject.now ws.now vars.old vars.new outer c d body result }
{
    let n = outer.sc.n;
    let used = spent(subject, ws, top, c, n, body.uses)
        && spent(subject, ws, top, d, n + 1, body.uses);
    close(vars, outer, body, used)
}

// The branches of a case in a scope, once both are typed: the right one binds a variable of the code's type.
pub fn meet(
    subject: &Subject<'_>,
    ws: &[u8],
    top: u32,
    left: Found,
    right: Found,
    uses: Uses,
    sc: Scope,
    d: Code,
    t: u16,
) -> Result<Found, Fault>
    requires sources { SourcedBy subject.now ws.now top }
    requires known { KnownBy subject.now top left.code × KnownBy subject.now top right.code × KnownBy subject.now top d × (sc.n < max_variables) }
    ensures { MeetsBy subject.now ws.now left uses sc.n d sc.owed t right result }
{
    let program = subject.entries.program;
    let types = subject.entries.types;
    let basis = Basis {
        program,
        types,
        ws,
        top,
    };
    if !basis.same(left.code, right.code) {
        return Err(Fault::Differ(u32::from(t)));
    }
    if !spent(subject, ws, top, d, sc.n, right.uses) {
        return Err(Fault::Misused(u32::from(t)));
    }
    if !left.uses.agree_on(right.uses, sc.owed) {
        return Err(Fault::Misused(u32::from(t)));
    }
    let both = Found {
        code: left.code,
        uses: left.uses.union(right.uses),
    };
    Ok(join(both, uses))
}

// A pair, once both parts have their types.
pub fn pair_up(
    subject: &Subject<'_>,
    ws: &mut [u8],
    top: &mut u32,
    left: Found,
    right: Found,
    t: u16,
) -> Result<Found, Fault>
    requires sources { SourcedBy subject.now ws.old top.old }
    requires known { KnownBy subject.now top.old left.code × KnownBy subject.now top.old right.code }
    requires counted { CountedBy subject.now }
    requires room { Room ws.old (top.old + 1) × (top.old < max_terms) }
    ensures { PairedBy subject.now ws.old ws.new left right top.old top.new t result }
{
    let program = subject.entries.program;
    let types = subject.entries.types;
    match products::product(
        program,
        types,
        subject.nodes,
        ws,
        *top,
        left.code,
        right.code,
    ) {
        Some(made) => {
            *top = made.top;
            let pair = Found {
                code: made.code,
                uses: right.uses,
            };
            Ok(join(pair, left.uses))
        }
        None => Err(Fault::Differ(u32::from(t))),
    }
}
