// The view of one entry: its kind and its references, read from the field at offset `at` of the program `p` (section 1).
// Types and terms have their kind and their references at the same places; a call and a function have a list of references.
// specs/Parts names the places; proofs/Shapes says which entry a kind makes of them, and proofs/Rooms that an accepted field holds them.
ghost use Rattle.std.specs.Prelude.{◌≡◌, ◌+◌, ◌*◌, ◌≤◌, ◌<◌, length};
ghost use Rattle.calls.specs.Fields.{kind_at, length_at, parameters_at};
ghost use Rattle.calls.specs.Entries.{call_ancillae};
ghost use Rattle.program.specs.Parts.{variable, first, second, third, listed, result_of, body, TypeField, TermField};
ghost use Rattle.program.specs.KindNumbers.{type_kind_number, term_kind_number};
ghost use Rattle.program.specs.Lists.{types_in_type, types_in_term, functions_in_term, terms_in_term, terms_from};

use crate::kinds::{TermKind, TypeKind};

// Types and terms.

pub fn kind(p: &[u8], at: usize) -> u8
    requires { at + 4 ≤ length p.now }
    ensures { result ≡ kind_at p.now at }
{
    p[at + 3]
}

// The same of a well-formed field: one of five kinds, one of eleven.
pub fn type_kind(p: &[u8], at: usize) -> TypeKind
    requires { TypeField p.now at }
    ensures { type_kind_number result ≡ kind_at p.now at }
{
    TypeKind::try_from(kind(p, at)).unwrap()
}

pub fn term_kind(p: &[u8], at: usize) -> TermKind
    requires { TermField p.now at }
    ensures { term_kind_number result ≡ kind_at p.now at }
{
    TermKind::try_from(kind(p, at)).unwrap()
}

// The number of the variable that a type or a term is.
pub fn variable(p: &[u8], at: usize) -> u8
    requires { at + 5 ≤ length p.now }
    ensures { result ≡ variable p.now at }
{
    p[at + 4]
}

// The references by position. Of a call the first is its function.
pub fn first(p: &[u8], at: usize) -> u16
    requires { at + 6 ≤ length p.now }
    ensures { result ≡ first p.now at }
{
    octets::read16(p, at + 4)
}

pub fn second(p: &[u8], at: usize) -> u16
    requires { at + 8 ≤ length p.now }
    ensures { result ≡ second p.now at }
{
    octets::read16(p, at + 6)
}

pub fn third(p: &[u8], at: usize) -> u16
    requires { at + 10 ≤ length p.now }
    ensures { result ≡ third p.now at }
{
    octets::read16(p, at + 8)
}

// Lists of references: a call's terms, of which the last is dynamic; a function's parameters, likewise.

pub fn listed(p: &[u8], at: usize, k: usize) -> u16
    requires { at + 8 + 2 * k ≤ length p.now }
    ensures { result ≡ listed p.now at k }
{
    octets::read16(p, at + 6 + 2 * k)
}

// How many ancilla terms a call has. Its dynamic term is the reference after so many.
pub fn call_ancillae(p: &[u8], at: usize) -> usize
    requires { (at + 3 ≤ length p.now) × (5 ≤ length_at p.now at) }
    ensures { result ≡ call_ancillae (length_at p.now at) }
{
    let n = usize::from(octets::read16(p, at + 1));
    (n - 5) / 2
}

// Functions.

pub fn function_result(p: &[u8], at: usize) -> u16
    requires { at + 5 ≤ length p.now }
    ensures { result ≡ result_of p.now at }
{
    octets::read16(p, at + 3)
}

pub fn function_parameters(p: &[u8], at: usize) -> usize
    requires { at + 6 ≤ length p.now }
    ensures { (result ≡ parameters_at p.now at) × (result < 256) }
{
    usize::from(p[at + 5])
}

pub fn function_body(p: &[u8], at: usize) -> u16
    requires { at + 8 + 2 * parameters_at p.now at ≤ length p.now }
    ensures { result ≡ body p.now at }
{
    let n = function_parameters(p, at);
    octets::read16(p, at + 6 + 2 * n)
}

// How many references an entry has, by its kind, in the order of the bytes; specs/Lists has the tables. A term's stand for a type or a
// function first, then for terms; a call has its ancilla terms besides.

pub fn types_in_type(p: &[u8], at: usize) -> usize
    requires { TypeField p.now at }
    ensures { result ≡ types_in_type p.now at }
{
    type_kind(p, at).types()
}

pub fn types_in_term(p: &[u8], at: usize) -> usize
    requires { TermField p.now at }
    ensures { result ≡ types_in_term p.now at }
{
    term_kind(p, at).types()
}

pub fn functions_in_term(p: &[u8], at: usize) -> usize
    requires { TermField p.now at }
    ensures { result ≡ functions_in_term p.now at }
{
    term_kind(p, at).functions()
}

pub fn terms_in_term(p: &[u8], at: usize) -> usize
    requires { TermField p.now at }
    ensures { result ≡ terms_in_term p.now at }
{
    let kind = term_kind(p, at);
    match kind {
        TermKind::Call => call_ancillae(p, at) + 1,
        _ => kind.terms(),
    }
}

// Where a term's references to terms start.
pub fn terms_from(p: &[u8], at: usize) -> usize
    requires { TermField p.now at }
    ensures { result ≡ terms_from p.now at }
{
    at + 4 + 2 * (types_in_term(p, at) + functions_in_term(p, at))
}
