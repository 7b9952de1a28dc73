// The tests on entries: types, then terms, then functions, then terms that nothing uses (document 01, section 4, row Entries: refusals
// 4 and 5), against calls/specs/Named. Of each type entry the nodes are counted once (02, F-4) and what would close it is noted, bottom up, in
// arrays of one number an entry; of each term entry how often it is used. So the cost is linear in the entries.
ghost use Rattle.std.specs.Prelude.{◌≡◌, true, ℕ, ◌+◌, ◌*◌, ◌≤◌, ◌<◌, length, get_or};
ghost use Rattle.calls.specs.Entries.{type_at, function_at, references};
ghost use Rattle.calls.specs.Named.{types_of_type, types_of_function, below};
ghost use Rattle.program.specs.Parts.{TypeField, FunctionField};
ghost use Rattle.program.specs.Places.{Placed};
ghost use Rattle.entries.specs.Marks.{Used};
ghost use Rattle.entries.specs.Tally.{no_counts};
ghost use Rattle.entries.specs.Tested.{TypesTested, UsedTested, EntriesTested};

use crate::figured::Figured;
use crate::measures;
use crate::measures::Tally;
use program::views;
use rules::MAX_TYPES;

// Runs of `n` references from offset `from` on.

// Is each below `limit`?
pub(crate) fn all_below(p: &[u8], from: usize, n: usize, limit: usize) -> bool
    requires { from + 2 * n ≤ length p.now }
    ensures { result ≡ below limit (references p.now from n) }
{
    for i in 0..n {
        let t = usize::from(octets::read16(p, from + 2 * i));
        if limit <= t {
            return false;
        }
    }
    true
}

// Is each term unused so far? Each is used from now on.
pub(crate) fn use_terms(p: &[u8], from: usize, n: usize, used: &mut [u8]) -> bool
    requires n_in_bounds { from + 2 * n ≤ length p.now }
    requires n_value { below (length used.old) (references p.now from n) ≡ true }
    ensures { Used used.old used.new (references p.now from n) result }
{
    for i in 0..n {
        let t = usize::from(octets::read16(p, from + 2 * i));
        if 0 < used[t] {
            return false;
        }
        used[t] = 1;
    }
    true
}

// Why entries are not sound: refusal 4 or 5, at a field's offset.
#[derive(Clone, Copy, PartialEq, Eq, Debug)]
pub enum EntryError {
    BadReference(usize),
    BadType(usize),
}

// What testing the entries answers, with the tally of the counts of nodes (document 02, F-4).
#[derive(Clone, Copy, PartialEq, Eq, Debug)]
pub struct Tested {
    pub verdict: Result<(), EntryError>,
    pub tally: Tally,
}

// Does type entry `i`, at `at`, name lower types alone?
fn test_type(p: &[u8], i: usize, at: usize) -> bool
    requires { TypeField p.now at }
    ensures { result ≡ below i (types_of_type (type_at p.now at)) }
{
    let n = views::types_in_type(p, at);
    all_below(p, at + 4, n, i)
}

// Tests the type entries, and notes the figures of each.
fn test_types(p: &[u8], types: &[u16], nodes: &mut [u16], free: &mut [u16]) -> Tested
    requires by_index { (i : ℕ) → i < length types.now → TypeField p.now (get_or types.now i 0) }
    requires nodes_value { nodes.old ≡ no_counts }
    requires types_in_bounds { (length types.now ≤ length nodes.old) × (length types.now ≤ length free.old) }
    ensures { TypesTested p.now types.now nodes.new free.new result }
{
    let mut tally = Tally { counted: 0 };
    for i in 0..types.len() {
        let at = usize::from(types[i]);
        if !test_type(p, i, at) {
            return Tested {
                verdict: Err(EntryError::BadReference(at)),
                tally,
            };
        }
        tally = measures::count_nodes(p, i, at, nodes, tally);
        measures::note_free(p, i, at, free);
    }
    Tested {
        verdict: Ok(()),
        tally,
    }
}

// Is each type of a function, its result's and its parameters', below `limit`?
pub(crate) fn signature_below(p: &[u8], at: usize, limit: usize) -> bool
    requires { FunctionField p.now at }
    ensures { result ≡ below limit (types_of_function (function_at p.now at)) }
{
    if !all_below(p, at + 3, 1, limit) {
        return false;
    }
    let n = views::function_parameters(p, at);
    all_below(p, at + 6, n, limit)
}

// Is every term used? The lowest that is not is named.
pub(crate) fn test_used(terms: &[u16], used: &[u8]) -> Result<(), EntryError>
    requires { length terms.now ≤ length used.now }
    ensures { UsedTested terms.now used.now result }
{
    for k in 0..terms.len() {
        if used[k] == 0 {
            return Err(EntryError::BadReference(usize::from(terms[k])));
        }
    }
    Ok(())
}

// The tests on the entries of a program whose fields are read. `nodes` is left with the counts that were made: if the entries are sound, that
// of each type, to be counted no more.
pub fn test_entries(
    p: &[u8],
    types: &[u16],
    terms: &[u16],
    functions: &[u16],
    nodes: &mut [u16],
) -> Tested
    requires placed { Placed p.now types.now terms.now functions.now }
    requires nodes_value { nodes.old ≡ no_counts }
    ensures { EntriesTested p.now types.now terms.now functions.now nodes.new result }
{
    let mut free = [0u16; MAX_TYPES];
    let tested = test_types(p, types, nodes, &mut free);
    let tally = tested.tally;
    match tested.verdict {
        Ok(()) => {
            let figured = Figured {
                program: p,
                types,
                terms,
                functions,
                nodes,
                free: &free,
            };
            let verdict = figured.test_uses();
            Tested { verdict, tally }
        }
        Err(_) => tested,
    }
}
