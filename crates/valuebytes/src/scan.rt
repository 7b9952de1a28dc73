// Where values end in bytes (document 01, section 1; section 4, row Call: refusal 10), without recursion: a count of the values still
// to come is kept, so that input of any length is read in a fixed stack. The contracts cite the reader of the calls.
ghost use Rattle.std.specs.Prelude.{◌≡◌, true, ◌+◌, ◌-◌, ◌<◌, ◌^◌, get_or, drop};
ghost use Rattle.calls.specs.Values.{value, ancillae};
ghost use Rattle.valuebytes.specs.Ends.{end_of, first_of, is_value, counted, part_of};

use crate::kinds::ValueKind;
use rules::{MAX_ANCILLA_BYTES, MAX_VALUE_BYTES};

// Where the value that starts at `at` ends, if there is one. A longer value than the limit is malformed, and is not read to its end.
pub fn value_end(s: &[u8], at: usize) -> Option<usize>
    ensures { result ≡ end_of at (first_of (drop at s.now)) }
{
    let limit = s.len().min(at.saturating_add(MAX_VALUE_BYTES));
    let mut pending: usize = 1;
    for i in at..limit {
        let kind = ValueKind::try_from(s[i]).ok()?;
        pending = pending - 1 + kind.parts();
        if pending == 0 {
            return Some(i + 1);
        }
    }
    None
}

// Are the bytes exactly one value, within the limit?
pub fn one_value(s: &[u8]) -> bool
    ensures { result ≡ is_value s.now }
{
    value_end(s, 0) == Some(s.len())
}

// How many values the bytes are, one after another, if they are values within the limit on ancillae.
pub fn count_values(s: &[u8]) -> Option<usize>
    ensures { result ≡ counted (ancillae s.now) }
{
    if MAX_ANCILLA_BYTES < s.len() {
        return None;
    }
    let mut at: usize = 0;
    let mut n: usize = 0;
    // Kept a `while`: how far a turn goes is what it reads, so that no range or iterator has its turns.
    while at < s.len() {
        at = value_end(s, at)?;
        n += 1;
    }
    Some(n)
}

// The first or the second component of a pair's bytes: a part of the caller's slice, not a copy.
pub fn component(s: &[u8], second: bool) -> &[u8]
    requires { (is_value s.now ≡ true) × (get_or s.now 0 0 ≡ 3) }
    ensures { result.now ≡ part_of second (value s.now) }
{
    // a pair's bytes have its first component whole
    let m = value_end(s, 1).unwrap();
    if second { &s[m..] } else { &s[1..m] }
}
