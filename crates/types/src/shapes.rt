// The outermost node of a type that a code is of, with the codes of its parts.
ghost use Rattle.types.specs.Basis.{KnownBy, ShapedBy};

use crate::basis::Basis;
use crate::codes::Code;

#[derive(Clone, Copy)]
pub enum Shape {
    Unit,
    Product(Code, Code),
    Sum(Code, Code),
    Recursive(Code),
    // A bound variable, by its number.
    Variable(u8),
}

impl Basis<'_> {
    // The node of a type.
    #[inline(always)]
    pub fn shape_of(&self, c: Code) -> Shape
        requires { KnownBy self.now c }
        ensures { ShapedBy self.now c result }
    {
        self.plain(self.settled(c))
    }
}
