// Reading a program's fields, from the first byte (document 01, section 1; section 4, row Field reading: refusals 2 and 3).
// The functions on one field equal the definitions of calls/specs/Fields; a definition reads 0 past the end, and so does `byte_at`.
ghost use Rattle.std.specs.Prelude.{◌≡◌, ◌+◌, ◌≤◌, length, get_or};
ghost use Rattle.calls.specs.Fields.{field_head, tag_at, length_at, next_at, kind_at, parameters_at, type_length, term_length, function_length, body_fits, well_formed};
ghost use Rattle.program.specs.Places.{parameters_within, fronts_of, Placeable, PlacingMeans, Buffers, FieldsMean};
ghost use Rattle.program.specs.Tags.{tag_number};
ghost use Rattle.program.specs.Signatures.{Signable, Signs, unsigned, Tabulated};

use crate::kinds::{TermKind, TypeKind};
use crate::reader::Field;
use crate::tags::Tag;
use crate::{reader, signatures};
use rules::{MAX_FUNCTIONS, MAX_PARAMETERS, MAX_PROGRAM_BYTES, MAX_TERMS, MAX_TYPES};

// The bytes of a field before its body: tag and length.
pub const FIELD_HEAD: usize = 3;

// The byte at an offset, 0 past the end.
fn byte_at(p: &[u8], at: usize) -> u8
    ensures { result ≡ get_or p.now at 0 }
{
    p.get(at).copied().unwrap_or(0)
}

pub fn tag_at(p: &[u8], at: usize) -> u8
    ensures { result ≡ tag_at p.now at }
{
    byte_at(p, at)
}

// The length of the body.
pub fn length_at(p: &[u8], at: usize) -> u16
    requires { at + field_head ≤ length p.now }
    ensures { result ≡ length_at p.now at }
{
    octets::read16(p, at + 1)
}

// The offset of the next field.
pub fn next_at(p: &[u8], at: usize) -> usize
    requires { at + field_head ≤ length p.now }
    ensures { result ≡ next_at p.now at }
{
    at + FIELD_HEAD + usize::from(length_at(p, at))
}

pub fn kind_at(p: &[u8], at: usize) -> u8
    requires { at + field_head ≤ length p.now }
    ensures { result ≡ kind_at p.now at }
{
    byte_at(p, at + FIELD_HEAD)
}

pub fn parameters_at(p: &[u8], at: usize) -> u8
    requires { at + field_head ≤ length p.now }
    ensures { result ≡ parameters_at p.now at }
{
    byte_at(p, at + 5)
}

// Has a body of `n` bytes the length that a type, or a term, of this kind has? There is no body of another kind.

pub fn type_length(kind: u8, n: u16) -> bool
    ensures { result ≡ type_length kind n }
{
    match TypeKind::try_from(kind) {
        Ok(kind) => kind.fits(n),
        Err(_) => false,
    }
}

pub fn term_length(kind: u8, n: u16) -> bool
    ensures { result ≡ term_length kind n }
{
    match TermKind::try_from(kind) {
        Ok(kind) => kind.fits(n),
        Err(_) => false,
    }
}

pub fn function_length(parameters: u8, n: u16) -> bool
    ensures { result ≡ function_length parameters n }
{
    n == 5 + 2 * u16::from(parameters)
}

// Has the body a length that its tag and kind have? No other tag is known.
pub fn body_fits(p: &[u8], at: usize) -> bool
    requires { at + field_head ≤ length p.now }
    ensures { result ≡ body_fits p.now at }
{
    let n = length_at(p, at);
    match Tag::try_from(tag_at(p, at)) {
        Ok(Tag::Type) => type_length(kind_at(p, at), n),
        Ok(Tag::Term) => term_length(kind_at(p, at), n),
        Ok(Tag::Function) => function_length(parameters_at(p, at), n),
        Err(_) => false,
    }
}

// Is the field at `at` well-formed, `last` being the tag of the field before it?
#[tactic(auto, unfolding(calls::specs::Fields::well_formed))]
pub fn well_formed(p: &[u8], at: usize, last: u8) -> bool
    requires { at ≤ length p.now }
    ensures { result ≡ well_formed p.now at last }
{
    at + FIELD_HEAD <= p.len()
        && last <= tag_at(p, at)
        && next_at(p, at) <= p.len()
        && body_fits(p, at)
}

// How many entries of each tag were read: so many offsets stand at the front of each buffer.
#[derive(Clone, Copy, PartialEq, Eq, Debug)]
pub struct Counts {
    pub types: usize,
    pub terms: usize,
    pub functions: usize,
}

// Why the fields are not read: refusal 2 or 3, at a field's offset.
#[derive(Clone, Copy, PartialEq, Eq, Debug)]
pub enum FieldError {
    Malformed(usize),
    Over(usize),
}

// The limit on parameters, as wide as their count in a field.
const MOST_PARAMETERS: u8 = MAX_PARAMETERS as u8;

#[tactic(auto, unfolding(crate::specs::Places::parameters_within, rules::specs::Limits::max_parameters))]
fn parameters_within(parameters: u8) -> bool
    ensures { result ≡ parameters_within parameters }
{
    1 <= parameters && parameters <= MOST_PARAMETERS
}

// The offset of a well-formed field goes behind those of its tag: the counts with it, or none if it is over a count.
fn place(
    p: &[u8],
    at: usize,
    tag: Tag,
    counts: Counts,
    types: &mut [u16],
    terms: &mut [u16],
    functions: &mut [u16],
) -> Option<Counts>
    requires placeable { Placeable p.now at counts types.old terms.old functions.old }
    requires tag_value { tag_number tag ≡ tag_at p.now at }
    ensures { PlacingMeans result p.now at (fronts_of types.old terms.old functions.old counts) types.new terms.new functions.new }
{
    let Counts {
        types: i,
        terms: j,
        functions: k,
    } = counts;
    let offset = at as u16;
    match tag {
        Tag::Type => {
            if MAX_TYPES <= i {
                return None;
            }
            types[i] = offset;
            Some(Counts {
                types: i + 1,
                ..counts
            })
        }
        Tag::Term => {
            if MAX_TERMS <= j {
                return None;
            }
            terms[j] = offset;
            Some(Counts {
                terms: j + 1,
                ..counts
            })
        }
        Tag::Function => {
            if !parameters_within(parameters_at(p, at)) {
                return None;
            }
            if MAX_FUNCTIONS <= k {
                return None;
            }
            functions[k] = offset;
            Some(Counts {
                functions: k + 1,
                ..counts
            })
        }
    }
}

// The row of a function's field goes into the table of signatures, at the function's number.
fn sign(p: &[u8], at: usize, tag: Tag, g: usize, table: &mut [[u16; MAX_PARAMETERS]; MAX_FUNCTIONS])
    requires { Signable p.now at (tag_number tag) g }
    ensures { Signs p.now at (tag_number tag) g table.old table.new }
{
    match tag {
        Tag::Function => table[g] = signatures::signature(p, at),
        Tag::Type | Tag::Term => {}
    }
}

// The fields of a program, in one pass. The offset of each entry goes into the buffer of its tag, the signature of each function into
// the table; a program over the byte limit is refused before its fields are read, so that an offset has two bytes.
pub fn layout(
    p: &[u8],
    types: &mut [u16],
    terms: &mut [u16],
    functions: &mut [u16],
    table: &mut [[u16; MAX_PARAMETERS]; MAX_FUNCTIONS],
) -> Result<Counts, FieldError>
    requires buffers { Buffers types.old terms.old functions.old }
    requires table_value { table.old ≡ unsigned }
    ensures fields { FieldsMean result p.now types.new terms.new functions.new }
    ensures signed { Tabulated result p.now functions.new table.new }
{
    if MAX_PROGRAM_BYTES < p.len() {
        return Err(FieldError::Over(0));
    }
    let mut counts = Counts {
        types: 0,
        terms: 0,
        functions: 0,
    };
    let mut at = 0;
    let mut last = Tag::Type;
    while at < p.len() {
        let Some(Field { tag, next }) = reader::read_field(p, at, u8::from(last)) else {
            return Err(FieldError::Malformed(at));
        };
        let Some(more) = place(p, at, tag, counts, types, terms, functions) else {
            return Err(FieldError::Over(at));
        };
        sign(p, at, tag, counts.functions, table);
        counts = more;
        last = tag;
        at = next;
    }
    Ok(counts)
}
