// Which entries the parts of an unfolding are equal to (02, F-4): a type that a program unrolls or rolls is often spelled out as well, where an inl,
// an inr or a function names what it unfolds to. With an alias kept, such an unfolding is compared by numbers like any entry. Which entry it could be
// is told by the key that the part has with its own parts put in; whether it is, by comparing, once a part. An alias that is not found costs nothing but
// time: the part is then compared node by node.
ghost use Rattle.std.specs.Prelude.{map, ℕ, ◌+◌, ◌≤◌, ◌<◌, length, get_or};
ghost use Rattle.calls.specs.Entries.{type_at};
ghost use Rattle.program.specs.Parts.{TermField};
ghost use Rattle.types.specs.Layout.{typing_bytes};
ghost use Rattle.types.specs.Figures.{Figured};
ghost use Rattle.types.specs.Codes.{Readable};
ghost use Rattle.types.specs.Basis.{TraceableBy, FiguredBy};

use crate::basis::Basis;
use crate::codes::Code;
use crate::figures::Figures;
use crate::numbering::{Keys, SLOT_COUNT};
use crate::{figures, hints, numbering};
use program::kinds::{TermKind, TypeKind};
use program::views;
use rules::MAX_TYPES;

// What is gone by: the program's bytes, the offsets of its type entries, and their keys.
// Kept: that the figures stand is a clause of each method, since the bytes are written from call to call.
#[derive(Clone, Copy)]
pub struct Search<'a> {
    pub program: &'a [u8],
    pub types: &'a [u16],
    pub keys: &'a Keys,
}

impl Search<'_> {
    // The entry that has the key is the alias of entry `i`, with entry `j` for its outermost free variable, if both are equal as trees. Answers the
    // code of what that is: the alias, by its number, so that the wholes above are found by keys too, or else the part itself.
    fn keep(&self, ws: &mut [u8], i: u16, j: u16, key: u32) -> Code
        requires traceable { TraceableBy self.now ws.old }
        requires i_in_bounds { (i < length self.now.types.now) × (j < length self.now.types.now) }
        ensures { FiguredBy self.now ws.new }
    {
        let part = Code::Under(i, j);
        let Some(k) = self.keys.find(self.types.len(), key) else {
            return part;
        };
        let alias = Figures { ws }.number_of(k as u16);
        let whole = Code::Entry(alias);
        let basis = Basis {
            program: self.program,
            types: self.types,
            ws,
            top: 0,
        };
        if basis.same(part, whole) {
            figures::put_alias(ws, i, j, alias);
            return whole;
        }
        part
    }

    // The same from the codes of its parts: a key is of entries.
    fn look(&self, ws: &mut [u8], i: u16, j: u16, kind: TypeKind, left: Code, right: Code) -> Code
        requires traceable { TraceableBy self.now ws.old }
        requires i_in_bounds { (i < length self.now.types.now) × (j < length self.now.types.now) }
        ensures { FiguredBy self.now ws.new }
    {
        match (left, right) {
            (Code::Entry(a), Code::Entry(b)) => self.keep(ws, i, j, numbering::packed(kind, a, b)),
            _ => Code::Under(i, j),
        }
    }

    // Where it is a product, pairs of such parts are to find it: a hint is put.
    fn join(&self, ws: &mut [u8], i: u16, j: u16, kind: TypeKind, left: Code, right: Code) -> Code
        requires traceable { TraceableBy self.now ws.old }
        requires i_in_bounds { (i < length self.now.types.now) × (j < length self.now.types.now) }
        ensures { FiguredBy self.now ws.new }
    {
        let c = self.look(ws, i, j, kind, left, right);
        if kind == TypeKind::Product {
            hints::offer(self.program, self.types, ws, left, right, c);
        }
        c
    }

    // The code of a part in which entry `j` stands for the outermost variable, if `free` variables are free in it; else of the part as it is. Parts
    // come before wholes, so that each is compared by the aliases of its own parts. `met` has the last entry that stood for the variable of each entry
    // that was traced: a part that stands in several places is traced once.
    fn trace(
        &self,
        ws: &mut [u8],
        met: &mut [Option<u8>; MAX_TYPES],
        part: u16,
        j: u16,
        free: u16,
    ) -> Code
        requires traceable { TraceableBy self.now ws.old }
        requires part_in_bounds { (part < length self.now.types.now) × (j < length self.now.types.now) × (free + part ≤ 512) }
        ensures { FiguredBy self.now ws.new }
    {
        let kept = Figures { ws };
        let i = kept.number_of(part);
        if kept.free_of(i) != free {
            return Code::Entry(i);
        }
        let stood = Some(j as u8);
        if met[usize::from(i)] == stood {
            let basis = Basis {
                program: self.program,
                types: self.types,
                ws,
                top: 0,
            };
            return basis.settled(Code::Under(i, j));
        }
        met[usize::from(i)] = stood;
        let at = usize::from(self.types[usize::from(i)]);
        let kind = views::type_kind(self.program, at);
        match kind {
            TypeKind::Unit => Code::Entry(i),
            TypeKind::Variable => Code::Entry(j),
            TypeKind::Recursive => {
                let body = self.trace(ws, met, views::first(self.program, at), j, free + 1);
                // a recursive type has one part, and its key 0 for the other
                self.join(ws, i, j, kind, body, Code::Entry(0))
            }
            TypeKind::Product | TypeKind::Sum => {
                let left = self.trace(ws, met, views::first(self.program, at), j, free);
                let right = self.trace(ws, met, views::second(self.program, at), j, free);
                self.join(ws, i, j, kind, left, right)
            }
        }
    }

    // The type that a roll or unroll at `at` names, once for all entries that are equal.
    fn open_term(
        &self,
        ws: &mut [u8],
        tried: &mut [bool; MAX_TYPES],
        met: &mut [Option<u8>; MAX_TYPES],
        at: usize,
    )
        requires traceable { TraceableBy self.now ws.old }
        requires term_field { TermField self.now.program.now at }
        ensures { FiguredBy self.now ws.new }
    {
        let named = match views::term_kind(self.program, at) {
            TermKind::Roll | TermKind::Unroll => views::first(self.program, at),
            _ => return,
        };
        if self.types.len() <= usize::from(named) {
            return;
        }
        let j = Figures { ws }.number_of(named);
        let n = usize::from(j);
        if tried[n] {
            return;
        }
        tried[n] = true;
        let from = usize::from(self.types[n]);
        if views::type_kind(self.program, from) == TypeKind::Recursive {
            self.trace(ws, met, views::first(self.program, from), j, 1);
        }
    }

    // The types that the terms roll and unroll.
    fn open_terms(&self, terms: &[u16], ws: &mut [u8])
        requires traceable { TraceableBy self.now ws.old }
        requires by_index { (t : ℕ) → t < length terms.now → TermField self.now.program.now (get_or terms.now t 0) }
        ensures { FiguredBy self.now ws.new }
    {
        let mut tried = [false; MAX_TYPES];
        let mut met = [None; MAX_TYPES];
        for at in terms {
            self.open_term(ws, &mut tried, &mut met, usize::from(*at));
        }
    }
}

// The figures of the type entries, with aliases for the types that the terms roll and unroll.
pub fn prepare(p: &[u8], types: &[u16], terms: &[u16], ws: &mut [u8])
    requires readable { Readable p.now types.now × (typing_bytes ≤ length ws.old) }
    requires by_index { (t : ℕ) → t < length terms.now → TermField p.now (get_or terms.now t 0) }
    ensures { Figured (map (type_at p.now) types.now) ws.new (length types.now) }
{
    let mut keys = Keys {
        keys: [0; MAX_TYPES],
        index: [None; SLOT_COUNT],
    };
    numbering::number_types(p, types, ws, &mut keys);
    let search = Search {
        program: p,
        types,
        keys: &keys,
    };
    search.open_terms(terms, ws);
}
