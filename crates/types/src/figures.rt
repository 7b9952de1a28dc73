// What is kept of each type entry, in lent bytes behind the product nodes. Only this module knows the layout (specs/Layout).
// Kept: figures are laid out by hand, since the caller lends bytes and nothing is allocated.
ghost use Rattle.std.specs.Prelude.{◌≡◌, ◌+◌, ◌*◌, ◌≤◌, ◌<◌, length};
ghost use Rattle.rules.specs.Limits.{max_types};
ghost use Rattle.types.specs.Layout.{figure_bytes, figures_from, typing_bytes};
ghost use Rattle.types.specs.Figures.{number_at, free_at, outer_at, alias_for};
ghost use Rattle.types.specs.Numbering.{put_figures, put_alias};

use crate::nodes::NODE_BYTES;
use rules::{MAX_TERMS, MAX_TYPES};

const FIGURE_BYTES: usize = 10;

const FIGURES_FROM: usize = NODE_BYTES * MAX_TERMS;

pub const FIGURES_END: usize = FIGURES_FROM + FIGURE_BYTES * MAX_TYPES;

// Where the figures of entry `i` begin.
fn place(i: u16) -> usize
    requires { i < max_types }
    ensures { (result ≡ figures_from + figure_bytes * i) × (result + figure_bytes ≤ typing_bytes) }
{
    FIGURES_FROM + FIGURE_BYTES * usize::from(i)
}

// Lent bytes that hold the figures, to read them.
#[derive(Clone, Copy)]
pub struct Figures<'a> {
    pub ws: &'a [u8],
    pub ghost held: { typing_bytes ≤ length ws.now },
}

// Kept: a reader for each field, since one with the offset as a parameter would name the fields by numbers.
impl Figures<'_> {
    // The number that the entry shares with those that are equal to it as trees.
    pub fn number_of(&self, i: u16) -> u16
        requires { i < max_types }
        ensures { result ≡ number_at self.now.ws.now i }
    {
        octets::read16(self.ws, place(i))
    }

    // How many recursive types must still enclose the entry.
    pub fn free_of(&self, i: u16) -> u16
        requires { i < max_types }
        ensures { result ≡ free_at self.now.ws.now i }
    {
        octets::read16(self.ws, place(i) + 2)
    }

    // How often its outermost free variable stands in it.
    pub fn outer_of(&self, i: u16) -> u16
        requires { i < max_types }
        ensures { result ≡ outer_at self.now.ws.now i }
    {
        octets::read16(self.ws, place(i) + 4)
    }

    // The entry that entry `i` is equal to with entry `j` for that variable, if one is kept.
    pub fn alias_of(&self, i: u16, j: u16) -> Option<u16>
        requires { i < max_types }
        ensures { result ≡ alias_for self.now.ws.now i j }
    {
        let at = place(i);
        if u32::from(octets::read16(self.ws, at + 6)) == u32::from(j) + 1 {
            return Some(octets::read16(self.ws, at + 8));
        }
        None
    }
}

// Kept: the writers ask for the room. In a struct that holds the bytes by a `&mut` and keeps it, what the bytes are after a caller's writes was not
// proved (the caller's goal `returns`).

// The alias of entry `i`, entry `j` standing for its outermost free variable.
pub fn put_alias(ws: &mut [u8], i: u16, j: u16, alias: u16)
    requires { (typing_bytes ≤ length ws.old) × (i < max_types) × (j < max_types) }
    ensures { ws.new ≡ put_alias ws.old i j alias }
{
    let at = place(i);
    octets::write16(ws, at + 6, j + 1);
    octets::write16(ws, at + 8, alias);
}

// The figures of an entry, without an alias.
pub fn put(ws: &mut [u8], i: u16, number: u16, free: u16, outer: u16)
    requires { (typing_bytes ≤ length ws.old) × (i < max_types) }
    ensures { ws.new ≡ put_figures ws.old i number free outer }
{
    let at = place(i);
    octets::write16(ws, at, number);
    octets::write16(ws, at + 2, free);
    octets::write16(ws, at + 4, outer);
    octets::write16(ws, at + 6, 0);
}
