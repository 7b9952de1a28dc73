// A thin reader of a program's fields: it holds the program and a position (document 01, section 1: a field is a one-byte tag, a
// two-byte length and a body). The tests are left to `field_at`, on a slice and a number; `read_field` has plain parameters.
ghost use Rattle.std.specs.Prelude.{◌≡◌, ◌≤◌, length};
ghost use Rattle.program.specs.Found.{found_of, field_at};

use crate::fields;
use crate::tags::Tag;

#[derive(Clone, Copy)]
pub struct FieldReader<'a> {
    pub program: &'a [u8],
    pub at: usize,
}

// A well-formed field: its tag and the offset of the next field.
#[derive(Clone, Copy, PartialEq, Eq, Debug)]
pub struct Field {
    pub tag: Tag,
    pub next: usize,
}

// What stands at a position: a well-formed field, or none (refusal 2).

// The field at an offset, `last` being the tag of the field before it.
pub fn field_at(p: &[u8], at: usize, last: u8) -> Option<Field>
    requires { at ≤ length p.now }
    ensures { found_of result at ≡ field_at p.now at last }
{
    if fields::well_formed(p, at, last) {
        let tag = Tag::try_from(fields::tag_at(p, at)).unwrap();
        let next = fields::next_at(p, at);
        return Some(Field { tag, next });
    }
    None
}

impl<'a> FieldReader<'a> {
    pub fn new(program: &'a [u8], at: usize) -> FieldReader<'a>
        ensures { (result.program ≡ program.entry) × (result.at ≡ at) }
    {
        FieldReader { program, at }
    }

    // The field at the reader's position.
    pub fn field(self, last: u8) -> Option<Field>
        requires { self.at ≤ length self.program.now }
        ensures { found_of result self.entry.at ≡ field_at self.entry.program.now self.entry.at last }
    {
        field_at(self.program, self.at, last)
    }
}

// The field at an offset, by a reader that stands there.
pub fn read_field(p: &[u8], at: usize, last: u8) -> Option<Field>
    requires { at ≤ length p.now }
    ensures { found_of result at ≡ field_at p.now at last }
{
    FieldReader::new(p, at).field(last)
}
