// Whether a value is of a type that a program names (document 01, section 1; section 4, row Call: refusal 11). One pass over the
// value's bytes, without recursion: the types of the parts that are still to come are pending, the next one last. A byte takes one of
// them and leaves those of the parts that it promises (specs/Stack). An entry inside a recursive one has variables: the recursive
// entries that enclose it stand in cells, so that nothing is unfolded (specs/Scopes).
ghost use Rattle.std.specs.Prelude.{◌≡◌, true, drop};
ghost use Rattle.calls.specs.Entries.{type_of};
ghost use Rattle.calls.specs.Values.{value};
ghost use Rattle.valuebytes.specs.Ends.{first_of, is_value};
ghost use Rattle.valuebytes.specs.Typing.{entries_of, Asked, value_has, next_of};

use crate::scan;
use crate::table::{Parts, TypeTable};
use crate::walk::Walk;
use rules::MAX_VALUE_BYTES;

// Is the value at a place of bytes, as ancillae are, of the type that an entry is? Of the type, it says where the next value starts. A
// value over the limit is not read to its end.
pub fn has_type_at(table: &TypeTable, entry: u16, s: &[u8], at: usize) -> Option<usize>
    requires { Asked table.now.program.now table.now.types.now entry }
    ensures { result ≡ next_of at (first_of (drop at s.now)) (type_of (entries_of table.now.program.now table.now.types.now) entry) }
{
    let limit = s.len().min(at.saturating_add(MAX_VALUE_BYTES));
    let mut walk = Walk::new(entry);
    for i in at..limit {
        walk.advance(table, s[i])?;
        if walk.count == 0 {
            return Some(i + 1);
        }
    }
    None
}

// The same of a value that is all of the bytes.
fn is_of(table: &TypeTable, entry: u16, s: &[u8]) -> bool
    requires asked { Asked table.now.program.now table.now.types.now entry }
    requires s_value { is_value s.now ≡ true }
    ensures { result ≡ value_has (value s.now) (type_of (entries_of table.now.program.now table.now.types.now) entry) }
{
    has_type_at(table, entry, s, 0).is_some()
}

// Is the value that the bytes are of the type that an entry is? Of a pair and a product the components are tested, each in its part of the
// bytes.
pub fn has_type(table: &TypeTable, entry: u16, s: &[u8]) -> bool
    requires asked { Asked table.now.program.now table.now.types.now entry }
    requires s_value { is_value s.now ≡ true }
    ensures { result ≡ value_has (value s.now) (type_of (entries_of table.now.program.now table.now.types.now) entry) }
{
    match table.parts(entry, s[0]) {
        Some(Parts::Two(first, second)) => {
            is_of(table, first, scan::component(s, false))
                && is_of(table, second, scan::component(s, true))
        }
        _ => is_of(table, entry, s),
    }
}
