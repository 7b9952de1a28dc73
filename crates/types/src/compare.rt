// Types compared as trees (section 3), without writing them out.
ghost use Rattle.std.specs.Prelude.{◌≡◌};
ghost use Rattle.rules.specs.Ty.{is_unit, same_ty};
ghost use Rattle.types.specs.Basis.{KnownBy, tree_by};

use crate::basis::Basis;
use crate::codes::Code;
use crate::shapes::Shape;

impl Basis<'_> {
    // Is the type exactly unit?
    pub fn is_unit(&self, c: Code) -> bool
        requires { KnownBy self.now c }
        ensures { result ≡ is_unit (tree_by self.now c) }
    {
        matches!(self.shape_of(c), Shape::Unit)
    }

    // Are the types equal, by their outermost nodes? Entries are told equal or apart in one step, by their numbers (02, F-4), and codes that settle
    // alike are; else the parts are compared. Nothing is counted.
    fn same_nodes(&self, c: Code, d: Code) -> bool
        requires { KnownBy self.now c × KnownBy self.now d }
        ensures { result ≡ same_ty (tree_by self.now c) (tree_by self.now d) }
    {
        let v = self.settled(c);
        let w = self.settled(d);
        if v == w {
            return true;
        }
        if let (Code::Entry(_), Code::Entry(_)) = (v, w) {
            return false;
        }
        match (self.plain(v), self.plain(w)) {
            (Shape::Unit, Shape::Unit) => true,
            (Shape::Product(a, e), Shape::Product(b, f)) => self.same_nodes(a, b)
                && self.same_nodes(e, f),
            (Shape::Sum(a, e), Shape::Sum(b, f)) => self.same_nodes(a, b) && self.same_nodes(e, f),
            (Shape::Recursive(a), Shape::Recursive(b)) => self.same_nodes(a, b),
            (Shape::Variable(n), Shape::Variable(m)) => n == m,
            _ => false,
        }
    }

    // Are the types equal? Where a program goes on with the type that it has, the codes are the same, and nothing is read.
    pub fn same(&self, c: Code, d: Code) -> bool
        requires { KnownBy self.now c × KnownBy self.now d }
        ensures { result ≡ same_ty (tree_by self.now c) (tree_by self.now d) }
    {
        c == d || self.same_nodes(c, d)
    }
}
