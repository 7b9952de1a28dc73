// The entries of a program whose fields are read, with the figures of its types: what the tests on terms and functions read, and those tests.
ghost use Rattle.std.specs.Prelude.{map};
ghost use Rattle.calls.specs.Entries.{type_at};
ghost use Rattle.program.specs.Places.{places_of};
ghost use Rattle.program.specs.Parts.{Formed};
ghost use Rattle.entries.specs.Marks.{Measured};

use crate::testing;
use crate::testing::EntryError;
use program::views;
use rules::{MAX_NODES, MAX_TERMS};

// The limit on nodes, as wide as a count of them.
const MOST_NODES: u16 = MAX_NODES as u16;

// The program's bytes and the offsets of its entries; of each type its nodes, and how many recursive types would close it.
#[derive(Clone, Copy)]
pub(crate) struct Figured<'a> {
    pub(crate) program: &'a [u8],
    pub(crate) types: &'a [u16],
    pub(crate) terms: &'a [u16],
    pub(crate) functions: &'a [u16],
    pub(crate) nodes: &'a [u16],
    pub(crate) free: &'a [u16],
    ghost formed: { Formed program.now (places_of types.now terms.now functions.now) },
    ghost measured: { Measured (map (type_at program.now) types.now) nodes.now free.now },
}

impl<'a> Figured<'a> {
    ghost use Rattle.std.specs.Prelude.{◌≡◌, true, List, [], ◌∷◌, ℕ, ◌+◌, ◌*◌, ◌≤◌, length};
    ghost use Rattle.calls.specs.Entries.{term_at, function_at, references};
    ghost use Rattle.calls.specs.Named.{terms_of_term, types_of_function, below};
    ghost use Rattle.program.specs.Parts.{TermField, FunctionField};
    ghost use Rattle.entries.specs.Marks.{Marks, all_plain_in};
    ghost use Rattle.entries.specs.Tested.{verdict_of, term_answer, function_answer, EntryTested, Ends, terms_answer, functions_answer, bodies_answer, uses_answer};

    // Is each type of a run of `n` references from offset `from` on closed, and within the limit on nodes?
    fn all_plain(&self, from: usize, n: usize) -> bool
        requires n_in_bounds { from + 2 * n ≤ length self.now.program.now }
        requires n_value { below (length self.now.types.now) (references self.now.program.now from n) ≡ true }
        ensures { result ≡ all_plain_in self.now.nodes.now self.now.free.now (references self.now.program.now from n) }
    {
        for i in 0..n {
            let t = usize::from(octets::read16(self.program, from + 2 * i));
            if 0 < self.free[t] {
                return false;
            }
            if MOST_NODES < self.nodes[t] {
                return false;
            }
        }
        true
    }

    // Tests term entry `k`, at `at`, and notes the terms that it uses.
    fn test_term(&self, k: usize, at: usize, used: &mut [u8]) -> Result<(), EntryError>
        requires term_field { TermField self.now.program.now at }
        requires room { k ≤ length used.old }
        ensures { EntryTested (λ us. term_answer (length self.now.types.now) (length self.now.functions.now) k at us self.now.nodes.now self.now.free.now (term_at self.now.program.now at)) (terms_of_term (term_at self.now.program.now at)) used.old used.new result }
    {
        let p = self.program;
        let t = views::types_in_term(p, at);
        let f = views::functions_in_term(p, at);
        let from = views::terms_from(p, at);
        let n = views::terms_in_term(p, at);
        if !testing::all_below(p, at + 4, t, self.types.len()) {
            return Err(EntryError::BadReference(at));
        }
        if !testing::all_below(p, from, n, k) {
            return Err(EntryError::BadReference(at));
        }
        if !testing::all_below(p, at + 4, f, self.functions.len()) {
            return Err(EntryError::BadReference(at));
        }
        if !testing::use_terms(p, from, n, used) {
            return Err(EntryError::BadReference(at));
        }
        if !self.all_plain(at + 4, t) {
            return Err(EntryError::BadType(at));
        }
        Ok(())
    }

    fn test_terms(&self, used: &mut [u8]) -> Result<(), EntryError>
        requires { length self.now.terms.now ≤ length used.old }
        ensures { (us : List ℕ) → Marks used.old us → Ends result used.new (terms_answer self.now.program.now self.now.types.now self.now.terms.now self.now.functions.now us) }
    {
        for k in 0..self.terms.len() {
            let at = usize::from(self.terms[k]);
            self.test_term(k, at, used)?;
        }
        Ok(())
    }

    // Is each type of the function at `at` closed, and within the limit on nodes?
    fn signature_plain(&self, at: usize) -> bool
        requires function_field { FunctionField self.now.program.now at }
        requires at_value { below (length self.now.types.now) (types_of_function (function_at self.now.program.now at)) ≡ true }
        ensures { result ≡ all_plain_in self.now.nodes.now self.now.free.now (types_of_function (function_at self.now.program.now at)) }
    {
        if !self.all_plain(at + 3, 1) {
            return false;
        }
        let n = views::function_parameters(self.program, at);
        self.all_plain(at + 6, n)
    }

    // Tests the function entry at `at`, and notes the term that is its body.
    fn test_function(&self, at: usize, used: &mut [u8]) -> Result<(), EntryError>
        requires function_field { FunctionField self.now.program.now at }
        requires room { length self.now.terms.now ≤ length used.old }
        ensures { EntryTested (λ us. function_answer (length self.now.types.now) (length self.now.terms.now) at us self.now.nodes.now self.now.free.now (function_at self.now.program.now at)) ((function_at self.now.program.now at).body ∷ []) used.old used.new result }
    {
        let p = self.program;
        let from = at + 6 + 2 * views::function_parameters(p, at);
        if !testing::signature_below(p, at, self.types.len()) {
            return Err(EntryError::BadReference(at));
        }
        if !testing::all_below(p, from, 1, self.terms.len()) {
            return Err(EntryError::BadReference(at));
        }
        if !testing::use_terms(p, from, 1, used) {
            return Err(EntryError::BadReference(at));
        }
        if !self.signature_plain(at) {
            return Err(EntryError::BadType(at));
        }
        Ok(())
    }

    fn test_functions(&self, used: &mut [u8]) -> Result<(), EntryError>
        requires { length self.now.terms.now ≤ length used.old }
        ensures { (us : List ℕ) → Marks used.old us → Ends result used.new (functions_answer self.now.program.now self.now.types.now self.now.terms.now self.now.functions.now us) }
    {
        for at in self.functions {
            self.test_function(usize::from(*at), used)?;
        }
        Ok(())
    }

    // The functions, then the terms that nothing uses.
    fn test_bodies(&self, used: &mut [u8]) -> Result<(), EntryError>
        requires { length self.now.terms.now ≤ length used.old }
        ensures { (us : List ℕ) → Marks used.old us → verdict_of result ≡ bodies_answer self.now.program.now self.now.types.now self.now.terms.now self.now.functions.now us }
    {
        self.test_functions(used)?;
        testing::test_used(self.terms, used)
    }

    // The terms, with how often each is used, and what goes by those counts.
    pub(crate) fn test_uses(&self) -> Result<(), EntryError>
        ensures { verdict_of result ≡ uses_answer self.now.program.now self.now.types.now self.now.terms.now self.now.functions.now }
    {
        let mut used = [0u8; MAX_TERMS];
        self.test_terms(&mut used)?;
        self.test_bodies(&mut used)
    }
}
