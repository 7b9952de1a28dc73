// Hints at the codes of products, in lent bytes behind the figures (02, F-4): the codes of a product's two parts fall on a slot, and the slot has a code
// that a product of such parts may have. A hint is a guess: it is held to the parts before it is used, so that any bytes may stand there, what an earlier
// function left or what two products on one slot overwrote. A product that is not found costs nothing but time.
// Kept: hints are laid out by hand, since the caller lends bytes and nothing is allocated.
ghost use Rattle.std.specs.Prelude.{◌≡◌, true, ◌+◌, ◌*◌, ◌≤◌, ◌<◌, length};
ghost use Rattle.rules.specs.Ty.{prod};
ghost use Rattle.types.specs.Layout.{hint_bytes, hints_from, hint_slots, typing_bytes};
ghost use Rattle.types.specs.Codes.{Sources};
ghost use Rattle.types.specs.Basis.{KnownBy, tree_by};
ghost use Rattle.types.specs.Growth.{Noted, Hinted};
ghost use Rattle.calls.specs.Entries.{type_at};
ghost use Rattle.calls.specs.Named.{types_of_type, below};
ghost use Rattle.program.specs.Parts.{TypeField};
ghost use Rattle.rules.specs.Limits.{max_types};

use crate::basis::Basis;
use crate::codes::Code;
use crate::figures::{FIGURES_END, Figures};
use crate::nodes;
use crate::nodes::Numbers;
use crate::shapes::Shape;
use program::kinds::TypeKind;
use program::views;

const HINT_BYTES: usize = 6;

const HINT_SLOTS: usize = 1021;

// Multipliers that spread small numbers over the slots.
const FORM: usize = 401;

const STANDS: usize = 89;

const RIGHT: usize = 263;

// The numbers of a code, in one.
fn mixed(c: Code) -> usize
    ensures { result < 65536 * 1024 }
{
    let numbers = Numbers::from(c);
    FORM * usize::from(numbers.form)
        + usize::from(numbers.at)
        + STANDS * usize::from(numbers.stands)
}

// Where the hint at the product of two codes stands.
fn place(left: Code, right: Code) -> usize
    ensures { (hints_from ≤ result) × (result + hint_bytes ≤ typing_bytes) }
{
    let slot = (mixed(left) + RIGHT * mixed(right)) % HINT_SLOTS;
    FIGURES_END + HINT_BYTES * slot
}

impl Basis<'_> {
    // The code names a type entry or a product node.
    fn is_known(&self, c: Code) -> bool
        ensures { result ≡ true → KnownBy self.now c }
    {
        match c {
            Code::Unit => false,
            Code::Entry(i) => usize::from(i) < self.types.len(),
            Code::Under(i, j) => usize::from(i) < self.types.len()
                && usize::from(j) < self.types.len(),
            Code::Product(n) => u32::from(n) < self.top,
        }
    }

    // Is the type the product of two types whose codes are settled, by the codes of its parts?
    fn is_pair(&self, c: Code, left: Code, right: Code) -> bool
        requires { KnownBy self.now c }
        ensures { result ≡ true → tree_by self.now c ≡ prod (tree_by self.now left) (tree_by self.now right) }
    {
        let Shape::Product(a, b) = self.shape_of(c) else {
            return false;
        };
        self.settled(a) == left && self.settled(b) == right
    }

    // The code of the product of two types whose codes are settled, if the hint at it is right.
    pub fn hinted(&self, left: Code, right: Code) -> Option<Code>
        ensures { Hinted self.now.program.now self.now.types.now self.now.ws.now self.now.top left right result }
    {
        let c = nodes::code_at(self.ws, place(left, right));
        if self.is_known(c) && self.is_pair(c, left, right) {
            return Some(c);
        }
        None
    }
}

// The code of the product of two types whose codes are settled is kept as a hint.
pub fn put(ws: &mut [u8], left: Code, right: Code, c: Code)
    requires { typing_bytes ≤ length ws.old }
    ensures { Noted ws.old ws.new }
{
    nodes::put_code(ws, place(left, right), c);
}

// Kept: the parts of a Basis come one by one, since the bytes are written here.
// The same, unless the product is found already: an entry's hint stays where a part of an unfolding is equal to that entry.
pub fn offer(program: &[u8], types: &[u16], ws: &mut [u8], left: Code, right: Code, c: Code)
    requires { Sources program.now types.now ws.old 0 }
    ensures { Noted ws.old ws.new }
{
    let basis = Basis {
        program,
        types,
        ws,
        top: 0,
    };
    if basis.hinted(left, right).is_none() {
        put(ws, left, right, c);
    }
}

// A hint at the type entry `own`, if its field at `at` is a product's.
pub fn put_entry(p: &[u8], at: usize, ws: &mut [u8], own: u16)
    requires type_field { TypeField p.now at × (typing_bytes ≤ length ws.old) }
    requires at_value { below max_types (types_of_type (type_at p.now at)) ≡ true }
    ensures { Noted ws.old ws.new }
{
    if views::type_kind(p, at) == TypeKind::Product {
        let kept = Figures { ws };
        let left = Code::Entry(kept.number_of(views::first(p, at)));
        let right = Code::Entry(kept.number_of(views::second(p, at)));
        put(ws, left, right, Code::Entry(own));
    }
}
