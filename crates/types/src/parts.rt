// The outermost node of a type, read off the entry or product that its code names, once the code is settled (specs/Shapes, plain_shape).
ghost use Rattle.std.specs.Prelude.{◌≡◌, ℕ, ◌≤◌, ◌<◌, length, get_or};
ghost use Rattle.rules.specs.Limits.{max_types};
ghost use Rattle.calls.specs.Entries.{type_at};
ghost use Rattle.types.specs.Codes.{under_code};
ghost use Rattle.types.specs.Shapes.{part, entry_shape};
ghost use Rattle.types.specs.Basis.{KnownBy, plain_by, SettledBy};

use crate::basis::Basis;
use crate::codes::Code;
use crate::figures::Figures;
use crate::nodes;
use crate::shapes::Shape;
use program::kinds::TypeKind;
use program::views;

impl Figures<'_> {
    // The part `i` of the entry that the code is of, which is `up` higher under a recursive entry. Where the variable that stands for an entry does
    // not occur in it, it is an entry as it stands: the outermost variable occurs exactly where as many are free.
    #[inline(always)]
    fn part(&self, c: Code, i: u16, up: u32) -> Code
        requires room { (i < max_types) × (up ≤ 1) }
        requires whole { (i j : ℕ) → c ≡ under_code i j → i < max_types }
        ensures { result ≡ part self.now.ws.now c i up }
    {
        if let Code::Under(whole, stands) = c {
            let mine = u32::from(self.free_of(i));
            let outer = u32::from(self.free_of(whole));
            if mine == outer + up {
                return Code::Under(i, stands);
            }
        }
        Code::Entry(i)
    }
}

impl Basis<'_> {
    // The code of the type of entry `at` in which its outermost free variable stands for entry `stands`. Where the entry is closed, has an alias for
    // what stands, or is the variable, it is an entry's.
    fn settled_under(&self, at: u16, stands: u16) -> Code
        requires { (at < length self.now.types.now) × (stands < length self.now.types.now) }
        ensures { SettledBy self.now (under_code at stands) result }
    {
        let kept = Figures { ws: self.ws };
        let i = kept.number_of(at);
        if kept.free_of(i) == 0 {
            return Code::Entry(i);
        }
        let j = kept.number_of(stands);
        if let Some(alias) = kept.alias_of(i, j) {
            return Code::Entry(kept.number_of(alias));
        }
        let at = usize::from(self.types[usize::from(i)]);
        match views::type_kind(self.program, at) {
            TypeKind::Variable => Code::Entry(j),
            _ => Code::Under(i, j),
        }
    }

    // A code of the same type, by the numbers of its entries, whose entry is not that variable.
    pub fn settled(&self, c: Code) -> Code
        requires { KnownBy self.now c }
        ensures { SettledBy self.now c result }
    {
        match c {
            Code::Entry(i) => Code::Entry(Figures { ws: self.ws }.number_of(i)),
            Code::Under(i, j) => self.settled_under(i, j),
            Code::Unit | Code::Product(_) => c,
        }
    }

    // The node of the entry `i`, which the code is of.
    #[inline(always)]
    fn entry_shape(&self, c: Code, i: u16) -> Shape
        requires there { i < length self.now.types.now }
        requires whole { (i j : ℕ) → c ≡ under_code i j → i < max_types }
        ensures { result ≡ entry_shape self.now.ws.now (type_at self.now.program.now (get_or self.now.types.now i 0)) c }
    {
        let kept = Figures { ws: self.ws };
        let at = usize::from(self.types[usize::from(i)]);
        match views::type_kind(self.program, at) {
            TypeKind::Unit => Shape::Unit,
            TypeKind::Product => {
                let first = kept.part(c, views::first(self.program, at), 0);
                let second = kept.part(c, views::second(self.program, at), 0);
                Shape::Product(first, second)
            }
            TypeKind::Sum => {
                let first = kept.part(c, views::first(self.program, at), 0);
                let second = kept.part(c, views::second(self.program, at), 0);
                Shape::Sum(first, second)
            }
            TypeKind::Recursive => {
                let body = kept.part(c, views::first(self.program, at), 1);
                Shape::Recursive(body)
            }
            TypeKind::Variable => Shape::Variable(views::variable(self.program, at)),
        }
    }

    // The node of a type whose code is settled. It is put in place where it is read: handed back, it takes a check's time up by half.
    #[inline(always)]
    pub fn plain(&self, c: Code) -> Shape
        requires { KnownBy self.now c }
        ensures { result ≡ plain_by self.now c }
    {
        match c {
            Code::Unit => Shape::Unit,
            Code::Entry(i) | Code::Under(i, _) => self.entry_shape(c, i),
            Code::Product(n) => Shape::Product(
                nodes::left_of(self.ws, n),
                nodes::right_of(self.ws, n),
            ),
        }
    }
}
