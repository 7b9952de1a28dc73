// The type entries of a program whose fields were read, and what an entry and the first byte of a value say of the value's parts.
ghost use Rattle.valuebytes.specs.Typing.{TypesRead};

use crate::kinds::ValueKind;
use program::kinds::TypeKind;
use program::views;

// The program's bytes, and where the fields of its type entries are.
#[derive(Clone, Copy)]
pub struct TypeTable<'a> {
    pub program: &'a [u8],
    pub types: &'a [u16],
    pub ghost read: { TypesRead program.now types.now },
}

// The parts of a value: the entries of the parts' types, in order.
#[derive(Clone, Copy)]
pub enum Parts {
    // of unit
    Nothing,
    One(u16),
    Two(u16, u16),
    // of a recursive type, which then encloses the part's
    Body(u16),
}

impl<'a> TypeTable<'a> {
    ghost use Rattle.std.specs.Prelude.{◌≡◌, ◌<◌, length, get_or};
    ghost use Rattle.calls.specs.Entries.{type_at};
    ghost use Rattle.program.specs.Parts.{TypeField};
    ghost use Rattle.valuebytes.specs.Stack.{parts_of};

    // Where the field of an entry is.
    pub(crate) fn field(&self, entry: u16) -> usize
        requires { entry < length self.now.types.now }
        ensures field { TypeField self.now.program.now result }
        ensures offset { result ≡ get_or self.now.types.now entry 0 }
    {
        usize::from(self.types[usize::from(entry)])
    }

    // The parts of a value of the type that an entry is, if it may begin with byte `b`.
    pub(crate) fn parts(&self, entry: u16, b: u8) -> Option<Parts>
        requires { entry < length self.now.types.now }
        ensures { result ≡ parts_of b (type_at self.now.program.now (get_or self.now.types.now entry 0)) }
    {
        let at = self.field(entry);
        let kind = ValueKind::try_from(b).ok()?;
        match (views::type_kind(self.program, at), kind) {
            (TypeKind::Unit, ValueKind::Unit) => Some(Parts::Nothing),
            (TypeKind::Product, ValueKind::Pair) => Some(Parts::Two(
                views::first(self.program, at),
                views::second(self.program, at),
            )),
            (TypeKind::Sum, ValueKind::Inl) => Some(Parts::One(views::first(self.program, at))),
            (TypeKind::Sum, ValueKind::Inr) => Some(Parts::One(views::second(self.program, at))),
            (TypeKind::Recursive, ValueKind::Roll) => {
                Some(Parts::Body(views::first(self.program, at)))
            }
            _ => None,
        }
    }
}
