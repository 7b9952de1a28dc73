// Whether the journal that open, convert or rollback leaves fits its buffer (document 01, section 4: refusal 20), and writing it
// there, in place. A call writes only after all its tests, so that a refused one leaves the journal as it was.
ghost use Rattle.std.specs.Prelude.{◌≡◌, true, ◌∷◌, ◌++◌, ℕ, ◌+◌, ◌-◌, ◌≤◌, ◌<◌, length, take, drop, replicate, leb};
ghost use Rattle.octets.specs.Numbers.{bytes16, bytes32};
ghost use Rattle.octets.specs.Runs.{pasted};
ghost use Rattle.calls.specs.Journal.{entry_head, entry_bytes, field, held_tag, entry_tag, fields, write_out};
ghost use Rattle.calls.specs.Fields.{field_head};
ghost use Rattle.valuebytes.specs.Ends.{is_value, value_in, values_in};
ghost use Rattle.journal.specs.Places.{Stands, journal_in};
ghost use Rattle.journal.specs.Turns.{are_values, conversion, opens, converted, rolled_back};

use crate::parts::Standing;
use crate::places::{ENTRY_BYTES, ENTRY_HEAD, ENTRY_TAG, FUNCTION_AT, HELD_TAG, Places, STEPS_AT};
use program::fields::FIELD_HEAD;

// The bytes that the held value's field and a new conversion's have besides their values.
const BOTH_HEADS: usize = FIELD_HEAD + ENTRY_BYTES;

// Does the journal that open leaves fit?
pub fn fits_open(journal: &[u8], held: &[u8]) -> bool
    requires { is_value held.now ≡ true }
    ensures { result ≡ leb (length (fields (opens (value_in held.now)))) (length journal.now) }
{
    FIELD_HEAD + held.len() <= journal.len()
}

impl<'a> Standing<'a> {
    // And that convert leaves, whatever its function and steps?
    #[tactic(auto, using(crate::proofs::Stands::in_order))]
    pub fn fits_convert(&self, held: &[u8], ancillae: &[u8]) -> bool
        requires { (is_value held.now ≡ true) × (are_values ancillae.now ≡ true) }
        ensures { (f s : ℕ) → result ≡ leb (length (fields (converted (journal_in self.now.journal.now) (value_in held.now) (conversion f s (values_in ancillae.now))))) (length self.now.journal.now) }
    {
        let standing = self.places.end - self.places.held;
        BOTH_HEADS + held.len() + standing + ancillae.len() <= self.journal.len()
    }

    // And that rollback leaves?
    #[tactic(auto, using(crate::proofs::Stands::in_order, crate::proofs::Turns::is_value_lem))]
    pub fn fits_rollback(&self, held: &[u8]) -> bool
        requires { is_value held.now ≡ true }
        ensures { result ≡ leb (length (fields (rolled_back (journal_in self.now.journal.now) (value_in held.now)))) (length self.now.journal.now) }
    {
        let older = self.places.newest - self.places.held;
        FIELD_HEAD + held.len() + older <= self.journal.len()
    }
}

// A field's tag and the length of its body.
fn put_head(journal: &mut [u8], at: usize, tag: u8, n: usize)
    requires { (at + field_head ≤ length journal.old) × (n < 65536) }
    ensures { journal.new ≡ pasted journal.old at (tag ∷ bytes16 n) }
{
    journal[at] = tag;
    octets::write16(journal, at + 1, n as u16);
}

// The held value's field, at the start.
fn put_held(journal: &mut [u8], held: &[u8])
    requires { (field_head + length held.now ≤ length journal.old) × (length held.now < 65536) }
    ensures { journal.new ≡ pasted journal.old 0 (field held_tag held.now) }
{
    put_head(journal, 0, HELD_TAG, held.len());
    octets::copy(journal, FIELD_HEAD, held);
}

// The held value's field anew; the fields in the bytes from `from` to `to` stand directly behind it.
fn set_held(journal: &mut [u8], from: usize, to: usize, held: &[u8])
    requires from_le_to { (from ≤ to) × (to ≤ length journal.old) }
    requires from_in_bounds { (field_head + length held.now + (to - from) ≤ length journal.old) × (length held.now < 65536) }
    ensures { journal.new ≡ pasted journal.old 0 (field held_tag held.now ++ take (to - from) (drop from journal.old)) }
{
    journal.copy_within(from..to, FIELD_HEAD + held.len());
    put_held(journal, held); // only now: it may lie over what was moved
}

// A conversion's field.
fn add_entry(journal: &mut [u8], at: usize, function: u16, steps: u32, ancillae: &[u8])
    requires { (at + entry_bytes + length ancillae.now ≤ length journal.old) × (entry_head + length ancillae.now < 65536) }
    ensures { journal.new ≡ pasted journal.old at (field entry_tag (bytes16 function ++ bytes32 steps ++ ancillae.now)) }
{
    put_head(journal, at, ENTRY_TAG, ENTRY_HEAD + ancillae.len());
    octets::write16(journal, at + FUNCTION_AT, function);
    octets::write32(journal, at + STEPS_AT, steps);
    octets::copy(journal, at + ENTRY_BYTES, ancillae);
}

// Zeros from a place to the end.
fn clear_from(journal: &mut [u8], at: usize)
    requires { at ≤ length journal.old }
    ensures { journal.new ≡ take at journal.old ++ replicate (length journal.old - at) 0 }
{
    octets::clear(&mut journal[at..]);
}

// The journal that open leaves: the record, and no conversion.
pub fn write_open(journal: &mut [u8], held: &[u8])
    requires held_value { is_value held.now ≡ true }
    requires held_in_bounds { length (fields (opens (value_in held.now))) ≤ length journal.old }
    ensures { journal.new ≡ write_out (length journal.old) (opens (value_in held.now)) }
{
    put_held(journal, held);
    clear_from(journal, FIELD_HEAD + held.len());
}

// The journal that convert leaves: the new held value, and one conversion more.
// Kept functions of a journal and its places, and no methods of Standing: they write the bytes, and a Standing only reads them.
pub fn write_convert(
    journal: &mut [u8],
    pl: Places,
    held: &[u8],
    function: u16,
    steps: u32,
    ancillae: &[u8],
)
    requires stands { Stands pl journal.old }
    requires held_value { (is_value held.now ≡ true) × (are_values ancillae.now ≡ true) }
    requires ancillae_in_bounds { length (fields (converted (journal_in journal.old) (value_in held.now) (conversion function steps (values_in ancillae.now)))) ≤ length journal.old }
    ensures { journal.new ≡ write_out (length journal.old) (converted (journal_in journal.old) (value_in held.now) (conversion function steps (values_in ancillae.now))) }
{
    let from = pl.held;
    let to = pl.end;
    set_held(journal, from, to, held);
    let at = FIELD_HEAD + held.len() + (to - from);
    add_entry(journal, at, function, steps, ancillae);
    clear_from(journal, at + ENTRY_BYTES + ancillae.len());
}

// The journal that rollback leaves: the earlier value, and the conversions but the newest.
pub fn write_rollback(journal: &mut [u8], pl: Places, held: &[u8])
    requires stands { Stands pl journal.old }
    requires held_value { is_value held.now ≡ true }
    requires held_in_bounds { length (fields (rolled_back (journal_in journal.old) (value_in held.now))) ≤ length journal.old }
    ensures { journal.new ≡ write_out (length journal.old) (rolled_back (journal_in journal.old) (value_in held.now)) }
{
    let from = pl.held;
    let to = pl.newest;
    set_held(journal, from, to, held);
    clear_from(journal, FIELD_HEAD + held.len() + (to - from));
}
