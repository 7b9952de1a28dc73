// A walk over a value's bytes by types: what is pending, and the recursive entries that enclose it.
ghost use Rattle.std.specs.Prelude.{◌≡◌, ℕ, ◌+◌, ◌<◌, replicate, set};
ghost use Rattle.valuebytes.specs.Scopes.{outward};
ghost use Rattle.valuebytes.specs.Typing.{room, Cells, Bound, Resolved};
ghost use Rattle.valuebytes.specs.Stack.{scoped, entries_in, cells_in, Stacked, TurnLeaves};

use crate::table::{Parts, TypeTable};
use program::kinds::TypeKind;
use program::views;
use rules::MAX_VALUE_BYTES;

// Room for cells, and for pending types: the one at the start, and one more for each byte of a value.
const ROOM: usize = MAX_VALUE_BYTES + 1;

// A type entry under the recursive entries that enclose it: the cell of the nearest, or 0.
#[derive(Clone, Copy)]
pub struct Scoped {
    pub entry: u16,
    pub cell: u16,
}

// Cells 1 to `top`, each a recursive entry under the cell of what encloses it in turn; and `count` pending types, the next one last.
// `top` is wider than a cell's number, and entries and cells are read field by field, as they are written: what is read in another width than
// it was written in waits for the write, at each byte.
#[derive(Drop)]
pub struct Walk {
    pub cells: [Scoped; ROOM],
    pub top: u32,
    pub pending: [Scoped; ROOM],
    pub count: usize,
}

impl Walk {
    // One type alone, under no cell.
    pub(crate) fn new(entry: u16) -> Walk
        ensures cells { result.cells ≡ replicate room (scoped 0 0) }
        ensures pending { result.pending ≡ set (replicate room (scoped 0 0)) 0 (scoped entry 0) }
        ensures start { (result.top ≡ 0) × (result.count ≡ 1) }
    {
        let none = Scoped { entry: 0, cell: 0 };
        let mut walk = Walk {
            cells: [none; ROOM],
            top: 0,
            pending: [none; ROOM],
            count: 0,
        };
        walk.push(Scoped { entry, cell: 0 });
        walk
    }

    // One type more.
    fn push(&mut self, t: Scoped)
        requires { self.old.count < room }
        ensures pending { self.new.pending ≡ set self.old.pending self.old.count t }
        ensures count { self.new.count ≡ self.old.count + 1 }
        ensures same { (self.new.cells ≡ self.old.cells) × (self.new.top ≡ self.old.top) }
    {
        self.pending[self.count] = t;
        self.count += 1;
    }

    // The cell that `k` cells are skipped to, outward from a cell.
    fn enclosing(&self, cell: u16, k: u8) -> u16
        requires { (n : ℕ) → n < k → outward n (cells_in self.now.cells) cell < room }
        ensures { result ≡ outward k (cells_in self.now.cells) cell }
    {
        let mut e = cell;
        for _ in 0..k {
            e = self.cells[usize::from(e)].cell;
        }
        e
    }

    // The same type by an entry that is no variable.
    fn resolve(&self, table: &TypeTable, t: Scoped) -> Scoped
        requires cells { Cells table.now.program.now table.now.types.now (entries_in self.now.cells) (cells_in self.now.cells) t.cell }
        requires bound { Bound table.now.program.now table.now.types.now (entries_in self.now.cells) (cells_in self.now.cells) t.cell t.cell t.entry }
        requires cell_lt_room { t.cell < room }
        ensures { Resolved table.now.program.now table.now.types.now (entries_in self.now.cells) (cells_in self.now.cells) t result }
    {
        let at = table.field(t.entry);
        let TypeKind::Variable = views::type_kind(table.program, at) else {
            return t;
        };
        let k = views::variable(table.program, at);
        let cell = self.enclosing(t.cell, k);
        let outer = &self.cells[usize::from(cell)];
        Scoped {
            entry: outer.entry,
            cell: outer.cell,
        }
    }

    // One byte of a value: the type that is pending last is taken, and those of the parts are pending instead; none: no value of that type
    // begins with the byte.
    pub(crate) fn advance(&mut self, table: &TypeTable, b: u8) -> Option<()>
        requires stack { Stacked table.now.program.now table.now.types.now self.old self.old.count }
        requires pending { 0 < self.old.count }
        requires room { (self.old.top + 1 < room) × (self.old.count < room) }
        ensures { TurnLeaves table.now.program.now table.now.types.now self.old self.new b result }
    {
        self.count -= 1;
        let t = &self.pending[self.count];
        let next = Scoped {
            entry: t.entry,
            cell: t.cell,
        };
        let u = self.resolve(table, next);
        let cell = u.cell;
        match table.parts(u.entry, b)? {
            Parts::Nothing => Some(()),
            Parts::One(entry) => {
                self.push(Scoped { entry, cell });
                Some(())
            }
            Parts::Two(first, second) => {
                self.push(Scoped {
                    entry: second,
                    cell,
                });
                self.push(Scoped { entry: first, cell });
                Some(())
            }
            Parts::Body(entry) => {
                self.top += 1;
                self.cells[self.top as usize] = u;
                self.push(Scoped {
                    entry,
                    cell: self.top as u16,
                });
                Some(())
            }
        }
    }
}
