// The variables that terms name (02, F-3). The parts of a term stand before it, so that one pass over the rows finds the set of each from the
// sets of its parts. The row of a case gets the set of its scrutinee: whether the case chooses by an ancilla is then one test, and no walk.
ghost use Rattle.std.specs.Prelude.{◌≡◌, true, ℕ, ◌+◌, ◌≤◌, ◌<◌, length};
ghost use Rattle.rules.specs.Limits.{max_terms};
ghost use Rattle.calls.specs.Named.{below};
ghost use Rattle.varsets.specs.Sets.{Holds};
ghost use Rattle.decoded.specs.Rows.{code_numbers, entry_in};
ghost use Rattle.decoded.specs.Naming.{set_in, has_set, numbers_from, any_of, named_by, RowAsked, ScrutineePut, RowsNamed};

use crate::rows;
use crate::rows::{CODE, HEADS, ROW};
use program::kinds::TermKind;
use rules::MAX_TERMS;
use varsets::Uses;

// The set of term t.
fn set_of(sets: &[u32; MAX_TERMS], t: u16) -> Uses
    requires { t < max_terms }
    ensures { result ≡ set_in sets.now t }
{
    Uses {
        bits: sets[usize::from(t)],
    }
}

// The variables of n terms together, whose numbers stand from number `from` of the rows on.
fn union_of(code: &[u16; CODE], sets: &[u32; MAX_TERMS], from: usize, n: usize) -> Uses
    requires n_bound { from + n ≤ code_numbers }
    requires n_value { below max_terms (numbers_from code.now from n) ≡ true }
    ensures { Holds result (any_of (has_set sets.now) (numbers_from code.now from n)) }
{
    let mut names = Uses::none();
    for part in &code[from..from + n] {
        names = names.union(set_of(sets, *part));
    }
    names
}

// The variables that term t names, by the sets of its parts.
fn names_of(code: &[u16; CODE], sets: &[u32; MAX_TERMS], t: u16) -> Uses
    requires { (t < max_terms) × RowAsked code.now t }
    ensures { Holds result (named_by (has_set sets.now) (entry_in code.now t)) }
{
    let row = ROW * usize::from(t);
    match rows::row_kind(code, t) {
        TermKind::Variable => Uses::only(rows::first_of(code, t) as u8),
        TermKind::Unit => Uses::none(),
        // a type, then a term
        TermKind::Inl | TermKind::Inr | TermKind::Roll | TermKind::Unroll => {
            union_of(code, sets, row + 2, 1)
        }
        TermKind::Pair | TermKind::Let | TermKind::LetPair => union_of(code, sets, row + 1, 2),
        TermKind::Case => union_of(code, sets, row + 1, 3),
        TermKind::Call => {
            let ancillae = usize::from(rows::third_of(code, t));
            union_of(code, sets, row + HEADS, ancillae + 1)
        }
    }
}

// If term t is a case, its row gets the set of its scrutinee.
fn put_scrutinee(code: &mut [u16; CODE], sets: &[u32; MAX_TERMS], t: u16)
    requires code_len { length code.old ≡ code_numbers }
    requires t_lt_max_terms { (t < max_terms) × RowAsked code.old t }
    ensures { ScrutineePut code.old code.new sets.now t }
{
    let TermKind::Case = rows::row_kind(code, t) else {
        return;
    };
    let row = ROW * usize::from(t);
    let names = set_of(sets, code[row + 1]);
    let at = row + HEADS;
    code[at] = names.low_half();
    code[at + 1] = names.high_half();
}

// The sets of the cases among the first n rows.
pub fn put_names(code: &mut [u16; CODE], n: u16)
    requires code_len { length code.old ≡ code_numbers }
    requires n_le_max_terms { (n ≤ max_terms) × ((t : ℕ) → t < n → RowAsked code.old t) }
    ensures { RowsNamed code.old code.new n n }
{
    let mut sets = [0u32; MAX_TERMS];
    for t in 0..n {
        let names = names_of(code, &sets, t);
        sets[usize::from(t)] = names.bits;
        put_scrutinee(code, &sets, t);
    }
}
