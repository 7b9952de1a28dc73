// The figures of all type entries, made once, bottom up, before typing (02, F-4). An entry's key is its kind and the numbers of its parts, or
// its variable: entries have one key exactly if they are equal as trees, so an entry gets the number of a lower one that has its key, or else its
// own. Where a key is looked for first is told by its slot, so that keys are not compared one by one, unless two fall on one slot.
ghost use Rattle.std.specs.Prelude.{◌≡◌, true, ℕ, ◌+◌, ◌≤◌, ◌<◌, length, get_or, slice_set, IfSome, IsSome};
ghost use Rattle.rules.specs.Limits.{max_types};
ghost use Rattle.calls.specs.Entries.{type_at};
ghost use Rattle.calls.specs.Named.{types_of_type, below};
ghost use Rattle.program.specs.KindNumbers.{type_kind_number};
ghost use Rattle.program.specs.Parts.{TypeField};
ghost use Rattle.types.specs.Layout.{typing_bytes};
ghost use Rattle.types.specs.Codes.{Readable};
ghost use Rattle.types.specs.Numbering.{slots, slot_of, packed, share, two_of, recursive_of, bound_of, figure_of, number_from, Finds, Numbered};

use crate::figures::Figures;
use crate::{counting, figures, hints};
use program::kinds::TypeKind;
use program::views;
use rules::MAX_TYPES;

// A prime, some four times as many as there can be entries.
const SLOTS: u32 = 1021;

pub const SLOT_COUNT: usize = SLOTS as usize;

// The keys of the entries that were entered, in order; and by the slot that a key falls on, the newest entry whose key does. Its number is below
// 256, so that a byte holds it: each check of a program clears the whole table, which is of half the length so.
#[derive(Drop)]
pub struct Keys {
    pub keys: [u32; MAX_TYPES],
    pub index: [Option<u8>; SLOT_COUNT],
}

#[derive(Clone, Copy)]
pub struct Figure {
    pub key: u32,
    pub free: u16,
    pub outer: u16,
}

fn slot(key: u32) -> usize
    ensures { (result ≡ slot_of key) × (result < slots) }
{
    (key % SLOTS) as usize
}

// A key: a kind and two numbers below 256, in one.
// Kept: one number, since a slot is told by a number: a struct would be turned into this one at each look-up.
pub fn packed(kind: TypeKind, a: u16, b: u16) -> u32
    ensures { result ≡ packed (type_kind_number kind) a b }
{
    65536 * (kind as u32) + 256 * u32::from(a) + u32::from(b)
}

// Of a variable, which is free itself.
fn bound(k: u8) -> Figure
    ensures { result ≡ bound_of k }
{
    let n = u16::from(k);
    let key = packed(TypeKind::Variable, n, 0);
    Figure {
        key,
        free: n + 1,
        outer: 1,
    }
}

impl Figures<'_> {
    // How often the outermost free variable of a whole with `free` free ones stands in its part.
    fn share(&self, free: u16, a: u16) -> u32
        requires { a < max_types }
        ensures { (result ≡ share self.now.ws.now free a) × (result < 65536) }
    {
        if self.free_of(a) == free {
            return u32::from(self.outer_of(a));
        }
        0
    }

    // Of a product or a sum.
    fn two(&self, kind: TypeKind, a: u16, b: u16) -> Figure
        requires { (a < max_types) × (b < max_types) }
        ensures { result ≡ two_of self.now.ws.now (type_kind_number kind) a b }
    {
        let key = packed(kind, self.number_of(a), self.number_of(b));
        let free = self.free_of(a).max(self.free_of(b));
        let outer = counting::capped(self.share(free, a) + self.share(free, b));
        Figure { key, free, outer }
    }

    // Of a recursive type. Its variable is free in the part alone.
    fn recursive(&self, a: u16) -> Figure
        requires { a < max_types }
        ensures { result ≡ recursive_of self.now.ws.now a }
    {
        let key = packed(TypeKind::Recursive, self.number_of(a), 0);
        let free = self.free_of(a);
        if free < 2 {
            return Figure {
                key,
                free: 0,
                outer: 0,
            };
        }
        let outer = self.outer_of(a);
        Figure {
            key,
            free: free - 1,
            outer,
        }
    }

    // Of the type at `at`, from those of the types that it names.
    fn figure_of(&self, p: &[u8], at: usize) -> Figure
        requires type_field { TypeField p.now at }
        requires at_value { below max_types (types_of_type (type_at p.now at)) ≡ true }
        ensures { result ≡ figure_of self.now.ws.now (type_at p.now at) }
    {
        match views::type_kind(p, at) {
            TypeKind::Unit => Figure {
                key: 0,
                free: 0,
                outer: 0,
            },
            TypeKind::Product => self.two(
                TypeKind::Product,
                views::first(p, at),
                views::second(p, at),
            ),
            TypeKind::Sum => self.two(TypeKind::Sum, views::first(p, at), views::second(p, at)),
            TypeKind::Recursive => self.recursive(views::first(p, at)),
            TypeKind::Variable => bound(views::variable(p, at)),
        }
    }

    // The number of entry `i`, by the lower entry that has its key too, if there is one.
    fn number(&self, i: u16, same: Option<usize>) -> u16
        requires { IfSome same (λ k. k < max_types) }
        ensures { result ≡ number_from self.now.ws.now i same }
    {
        match same {
            Some(k) => self.number_of(k as u16),
            None => i,
        }
    }
}

// Which of the first `n` keys is this one. `index` has the newest entry whose key falls on a slot, in numbers of any width.
pub fn find<I: Copy + Into<usize>>(
    keys: &[u32],
    index: &[Option<I>],
    n: usize,
    key: u32,
) -> Option<usize>
    requires n_in_bounds { (n ≤ length keys.now) × (slots ≤ length index.now) }
    requires by_index { (k : ℕ) → k < n → IsSome (get_or index.now (slot_of (get_or keys.now k 0)) None) }
    ensures { Finds keys.now n key result }
{
    let newest: usize = index[slot(key)]?.into();
    if newest < n && keys[newest] == key {
        return Some(newest);
    }
    keys[..n].iter().position(|k| *k == key)
}

impl Keys {
    // The entry of one of the first `n` keys that is this one.
    pub fn find(&self, n: usize, key: u32) -> Option<usize>
        requires n_in_bounds { n ≤ max_types }
        requires by_index { (k : ℕ) → k < n → IsSome (get_or self.now.index (slot_of (get_or self.now.keys k 0)) None) }
        ensures { Finds self.now.keys n key result }
    {
        find(&self.keys, &self.index, n, key)
    }

    // The key of entry `i`.
    fn put(&mut self, i: u16, key: u32)
        requires { i < max_types }
        ensures keys { self.new.keys ≡ slice_set self.old.keys i key }
        ensures index { self.new.index ≡ slice_set self.old.index (slot_of key) (Some i) }
    {
        self.keys[usize::from(i)] = key;
        self.index[slot(key)] = Some(i as u8);
    }
}

// Entry `i` gets its figures.
fn enter(p: &[u8], types: &[u16], ws: &mut [u8], keys: &mut Keys, i: u16)
    requires readable { Readable p.now types.now × (i < length types.now) }
    requires numbered { Numbered p.now types.now ws.old keys.old.keys keys.old.index i }
    ensures { Numbered p.now types.now ws.new keys.new.keys keys.new.index (i + 1) }
{
    let at = usize::from(types[usize::from(i)]);
    let kept = Figures { ws };
    let f = kept.figure_of(p, at);
    let own = kept.number(i, keys.find(usize::from(i), f.key));
    figures::put(ws, i, own, f.free, f.outer);
    hints::put_entry(p, at, ws, own);
    keys.put(i, f.key);
}

// The figures of the type entries, and their keys, in tables that are lent: handed back, they would be copied.
pub fn number_types(p: &[u8], types: &[u16], ws: &mut [u8], keys: &mut Keys)
    requires readable { Readable p.now types.now × (typing_bytes ≤ length ws.old) }
    ensures { Numbered p.now types.now ws.new keys.new.keys keys.new.index (length types.now) }
{
    for i in 0..types.len() {
        enter(p, types, ws, keys, i as u16);
    }
}
