// The rows of a decoded program, read: term t has row t, and function g the row behind those of the terms. A kind is one of section 1's.
ghost use Rattle.std.specs.Prelude.{◌≡◌, ◌+◌, ◌*◌, ◌<◌, ◌≤◌, List, get_or};
ghost use Rattle.rules.specs.Limits.{max_terms, max_functions};
ghost use Rattle.rules.specs.Term.{by_ancilla};
ghost use Rattle.calls.specs.Entries.{TypeEntry};
ghost use Rattle.program.specs.Kinds.{case_kind, term_kinds};
ghost use Rattle.program.specs.KindNumbers.{term_kind_number};
ghost use Rattle.decoded.specs.Rows.{room_for, row_numbers, all_rows, kind_in, first_in, second_in, third_in, argument_in, body_in, term_count, tree_in, Rows};

use program::kinds::TermKind;
use rules::{MAX_FUNCTIONS, MAX_PARAMETERS, MAX_TERMS};
use varsets::Uses;

// The numbers at a row's head: the kind, and the references by position.
const KIND: usize = 0;

const FIRST: usize = 1;

const SECOND: usize = 2;

const THIRD: usize = 3;

// Numbers in a row, before a call's terms and in all, the row of function 0, and where the counts of terms and functions stand.
pub const HEADS: usize = 4;

pub const ROW: usize = HEADS + MAX_PARAMETERS;

pub const FUNCTIONS_FROM: usize = MAX_TERMS;

pub const COUNTS: usize = ROW * (FUNCTIONS_FROM + MAX_FUNCTIONS);

// All numbers of a decoded program.
pub const CODE: usize = COUNTS + 2;

// Number k of a row.
fn number_of(code: &[u16; CODE], row: usize, k: usize) -> u16
    requires { (row < all_rows) × (k < row_numbers) }
    ensures { result ≡ get_or code.now (row_numbers * row + k) 0 }
{
    code[ROW * row + k]
}

// The number of term t's kind (section 1).
#[tactic(auto, unfolding(crate::specs::Rows::kind_in))]
pub fn kind_of(code: &[u16; CODE], t: u16) -> u16
    requires { t < max_terms }
    ensures { result ≡ kind_in code.now t }
{
    number_of(code, usize::from(t), KIND)
}

// The kind of a row that is a term's.
pub(crate) fn row_kind(code: &[u16; CODE], t: u16) -> TermKind
    requires { (t < max_terms) × (kind_in code.now t < term_kinds) }
    ensures { term_kind_number result ≡ kind_in code.now t }
{
    TermKind::try_from(kind_of(code, t) as u8).unwrap()
}

// The kind of term t.
pub fn term_kind(code: &[u16; CODE], t: u16) -> TermKind
    requires rows { Rows code.now }
    requires t_lt_count { t < term_count code.now }
    ensures { term_kind_number result ≡ kind_in code.now t }
{
    row_kind(code, t)
}

// The references of term t by position; the first of a variable is its number, of a call its function. Kept: a name for each over one reader,
// since a position as a parameter would be one more thing that callers owe.
#[tactic(auto, unfolding(crate::specs::Rows::first_in))]
pub fn first_of(code: &[u16; CODE], t: u16) -> u16
    requires { t < max_terms }
    ensures { result ≡ first_in code.now t }
{
    number_of(code, usize::from(t), FIRST)
}

#[tactic(auto, unfolding(crate::specs::Rows::second_in))]
pub fn second_of(code: &[u16; CODE], t: u16) -> u16
    requires { t < max_terms }
    ensures { result ≡ second_in code.now t }
{
    number_of(code, usize::from(t), SECOND)
}

// The third of a call is how many ancilla terms it has.
#[tactic(auto, unfolding(crate::specs::Rows::third_in))]
pub fn third_of(code: &[u16; CODE], t: u16) -> u16
    requires { t < max_terms }
    ensures { result ≡ third_in code.now t }
{
    number_of(code, usize::from(t), THIRD)
}

// Term k of call t; the dynamic term comes after the ancilla terms.
#[tactic(auto, unfolding(crate::specs::Rows::argument_in))]
pub fn argument_of(code: &[u16; CODE], t: u16, k: usize) -> u16
    requires { (t < max_terms) × (k ≤ room_for) }
    ensures { result ≡ argument_in code.now t k }
{
    number_of(code, usize::from(t), HEADS + k)
}

// The body of function g.
#[tactic(auto, unfolding(crate::specs::Rows::body_in, crate::specs::Rows::first_in))]
pub fn body_of(code: &[u16; CODE], g: u16) -> u16
    requires { g < max_functions }
    ensures { result ≡ body_in code.now g }
{
    number_of(code, FUNCTIONS_FROM + usize::from(g), FIRST)
}

// With q ancilla parameters and n variables in scope: does case t choose by an ancilla (02, F-3)?
pub fn chooses_by_ancilla(code: &[u16; CODE], t: u16, q: usize, n: usize) -> bool
    requires rows { Rows code.now }
    requires t_bound { (t < term_count code.now) × (kind_in code.now t ≡ case_kind) }
    ensures { (ys : List TypeEntry) → result ≡ by_ancilla q n (tree_in code.now ys (first_in code.now t)) }
{
    let low = argument_of(code, t, 0);
    let high = argument_of(code, t, 1);
    let names = Uses::of_halves(low, high);
    names.all_inside(q, n)
}
