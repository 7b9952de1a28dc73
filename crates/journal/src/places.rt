// Where the fields of a journal stand in its bytes (document 01, section 5).
use program::fields::FIELD_HEAD;
use rules::{MAX_ANCILLA_BYTES, MAX_CONVERSIONS};

// The tags of the held value's field and of a conversion's.

pub const HELD_TAG: u8 = 0x21;

pub const ENTRY_TAG: u8 = 0x22;

// A conversion's field: function and steps stand in a head of six bytes, from these places on; the ancilla values follow.

pub const FUNCTION_AT: usize = FIELD_HEAD;

pub const STEPS_AT: usize = FIELD_HEAD + 2;

pub const ENTRY_HEAD: usize = 6;

pub const ENTRY_BYTES: usize = FIELD_HEAD + ENTRY_HEAD;

// The most bytes that the conversions' fields of one journal take.
pub const MOST_ENTRIES: usize = MAX_CONVERSIONS * (ENTRY_BYTES + MAX_ANCILLA_BYTES);

// The ends of the held value's field and of the last field, how many conversions stand, and where the newest one's field starts
// (where none stands, the end of the last field).
#[derive(Clone, Copy)]
pub struct Places {
    pub held: usize,
    pub count: usize,
    pub newest: usize,
    pub end: usize,
}
