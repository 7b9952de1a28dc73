// Has a buffer the journal's form (document 01, section 5; section 4, row Journal: refusal 18)? In one pass, without recursion.
ghost use Rattle.std.specs.Prelude.{◌≡◌, ◌≤◌, length, drop};
ghost use Rattle.calls.specs.Journal.{opened, all_zero};
ghost use Rattle.journal.specs.Places.{held_field, entry_field, end_of, Surveyed};

use crate::places::{ENTRY_BYTES, ENTRY_TAG, HELD_TAG, Places};
use program::fields::FIELD_HEAD;
use rules::MAX_CONVERSIONS;
use valuebytes::scan;

// Where the field of this tag at a place ends, if it stands there whole: tag, two-byte length, body.
fn field_end(journal: &[u8], at: usize, tag: u8) -> Option<usize>
    requires { at ≤ length journal.now }
    ensures { result ≡ end_of at (opened tag (drop at journal.now)) }
{
    if journal.len() - at < FIELD_HEAD {
        return None;
    }
    if journal[at] != tag {
        return None;
    }
    let n = usize::from(octets::read16(journal, at + 1));
    let start = at + FIELD_HEAD;
    if journal.len() - start < n {
        return None;
    }
    Some(start + n)
}

// Where the held value's field ends: its body is one value within the limit.
fn held_end(journal: &[u8]) -> Option<usize>
    ensures { result ≡ end_of 0 (held_field journal.now) }
{
    let end = field_end(journal, 0, HELD_TAG)?;
    if scan::one_value(&journal[FIELD_HEAD..end]) {
        return Some(end);
    }
    None
}

// Where a conversion's field ends: its body is a head, and whole values within the limit.
fn entry_end(journal: &[u8], at: usize) -> Option<usize>
    requires { at ≤ length journal.now }
    ensures { result ≡ end_of at (entry_field (drop at journal.now)) }
{
    let end = field_end(journal, at, ENTRY_TAG)?;
    if end - at < ENTRY_BYTES {
        return None;
    }
    scan::count_values(&journal[at + ENTRY_BYTES..end])?;
    Some(end)
}

// Are the bytes from a place on all zero?
fn zero_from(journal: &[u8], at: usize) -> bool
    requires { at ≤ length journal.now }
    ensures { result ≡ all_zero (drop at journal.now) }
{
    journal[at..].iter().all(|b| *b == 0)
}

// The form of a journal: the held value's field, those of at most so many conversions as may stand, then zeros. No field begins with a zero.
pub fn survey(journal: &[u8]) -> Option<Places>
    ensures { Surveyed result journal.now }
{
    let held = held_end(journal)?;
    let mut end = held;
    let mut newest = held;
    for count in 0..MAX_CONVERSIONS + 1 {
        if zero_from(journal, end) {
            return Some(Places {
                held,
                count,
                newest,
                end,
            });
        }
        newest = end;
        end = entry_end(journal, end)?;
    }
    None
}
