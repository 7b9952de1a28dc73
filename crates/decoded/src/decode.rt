// A loaded program becomes rows: one pass over its terms, one for the variables that they name, one over its functions.
ghost use Rattle.std.specs.Prelude.{◌≡◌, ◌+◌, ◌*◌, ◌≤◌, ◌<◌, length};
ghost use Rattle.rules.specs.Limits.{max_terms, max_functions};
ghost use Rattle.calls.specs.Fields.{kind_at};
ghost use Rattle.program.specs.Parts.{FunctionField};
ghost use Rattle.program.specs.Kinds.{call_kind};
ghost use Rattle.program.specs.KindNumbers.{term_kind_number};
ghost use Rattle.decoded.specs.Rows.{room_for, all_rows, code_numbers};
ghost use Rattle.decoded.specs.Decoding.{FieldOfRow, FieldsOfTerms, FieldsOfFunctions, Heads, Listed, TermPut, FunctionPut, TermRows, FunctionRows, Decodes};

use crate::naming;
use crate::rows::{CODE, COUNTS, FUNCTIONS_FROM, HEADS, ROW};
use program::kinds::TermKind;
use program::views;

// The first four numbers of a row.
fn put_heads(code: &mut [u16; CODE], row: usize, kind: u16, a: u16, b: u16, c: u16)
    requires code_len { length code.old ≡ code_numbers }
    requires row_lt_all_rows { row < all_rows }
    ensures { Heads code.old code.new row kind a b c }
{
    let at = ROW * row;
    code[at] = kind;
    code[at + 1] = a;
    code[at + 2] = b;
    code[at + 3] = c;
}

// The numbers of a row from the fifth on: n references from place `from` of the program.
fn put_listed(code: &mut [u16; CODE], row: usize, p: &[u8], from: usize, n: usize)
    requires code_len { length code.old ≡ code_numbers }
    requires row_lt_all_rows { (row < all_rows) × (n ≤ room_for + 1) × (from + 2 * n ≤ length p.now) }
    ensures { Listed code.old code.new row p.now from n }
{
    for k in 0..n {
        code[ROW * row + HEADS + k] = octets::read16(p, from + 2 * k);
    }
}

// The number of a kind, which its rows have.
fn number_of(kind: TermKind) -> u16
    ensures { result ≡ term_kind_number kind }
{
    kind as u16
}

// The row of term t, whose field is at `at`.
fn put_term(code: &mut [u16; CODE], t: usize, p: &[u8], at: usize)
    requires code_len { length code.old ≡ code_numbers }
    requires t_lt_max_terms { (t < max_terms) × FieldOfRow p.now at }
    ensures { TermPut code.old code.new t p.now at }
{
    let kind = views::term_kind(p, at);
    let number = number_of(kind);
    match kind {
        TermKind::Variable => put_heads(code, t, number, u16::from(views::variable(p, at)), 0, 0),
        TermKind::Unit => put_heads(code, t, number, 0, 0, 0),
        TermKind::Inl
        | TermKind::Inr
        | TermKind::Pair
        | TermKind::Let
        | TermKind::LetPair
        | TermKind::Roll
        | TermKind::Unroll => put_heads(
            code,
            t,
            number,
            views::first(p, at),
            views::second(p, at),
            0,
        ),
        TermKind::Case => put_heads(
            code,
            t,
            number,
            views::first(p, at),
            views::second(p, at),
            views::third(p, at),
        ),
        TermKind::Call => put_call(code, t, p, at),
    }
}

// The row of a call: function, how many ancilla terms, then all its terms.
fn put_call(code: &mut [u16; CODE], t: usize, p: &[u8], at: usize)
    requires code_len { length code.old ≡ code_numbers }
    requires t_lt_max_terms { (t < max_terms) × FieldOfRow p.now at }
    requires at_value { kind_at p.now at ≡ call_kind }
    ensures { TermPut code.old code.new t p.now at }
{
    let n = views::call_ancillae(p, at);
    put_heads(
        code,
        t,
        number_of(TermKind::Call),
        views::first(p, at),
        0,
        n as u16,
    );
    put_listed(code, t, p, at + 6, n + 1);
}

// The row of function g, whose field is at `at`: how many parameters, body, result type, the parameters' types.
fn put_function(code: &mut [u16; CODE], g: usize, p: &[u8], at: usize)
    requires code_len { length code.old ≡ code_numbers }
    requires g_lt_max_functions { (g < max_functions) × FunctionField p.now at }
    ensures { FunctionPut code.old code.new g p.now at }
{
    let n = views::function_parameters(p, at);
    let body = views::function_body(p, at);
    let result = views::function_result(p, at);
    let row = FUNCTIONS_FROM + g;
    put_heads(code, row, n as u16, body, result, 0);
    put_listed(code, row, p, at + 6, n);
}

// The rows of the terms at these offsets.
fn put_terms(code: &mut [u16; CODE], p: &[u8], terms: &[u16])
    requires code_len { length code.old ≡ code_numbers }
    requires fields_of_terms { FieldsOfTerms p.now terms.now }
    ensures { TermRows code.old code.new p.now terms.now (length terms.now) }
{
    for (t, at) in terms.iter().enumerate() {
        put_term(code, t, p, usize::from(*at));
    }
}

// The rows of the functions at these offsets, behind those of the terms.
fn put_functions(code: &mut [u16; CODE], p: &[u8], functions: &[u16])
    requires code_len { length code.old ≡ code_numbers }
    requires fields_of_functions { FieldsOfFunctions p.now functions.now }
    ensures { FunctionRows code.old code.new p.now functions.now (length functions.now) }
{
    for (g, at) in functions.iter().enumerate() {
        put_function(code, g, p, usize::from(*at));
    }
}

// A program whose terms and functions are at these offsets.
pub fn decode(code: &mut [u16; CODE], p: &[u8], terms: &[u16], functions: &[u16])
    requires code_len { length code.old ≡ code_numbers }
    requires fields_of_terms { FieldsOfTerms p.now terms.now }
    requires fields_of_functions { FieldsOfFunctions p.now functions.now }
    ensures { Decodes code.new p.now terms.now functions.now }
{
    put_terms(code, p, terms);
    naming::put_names(code, terms.len() as u16);
    put_functions(code, p, functions);
    code[COUNTS] = terms.len() as u16;
    code[COUNTS + 1] = functions.len() as u16;
}
