// The words of a line: what stands between single spaces.
ghost use Rattle.std.specs.Prelude.{◌≡◌, ◌+◌, ◌≤◌, length};
ghost use Rattle.calltext.specs.Words.{index_of, slice, word_at, spaces};

// The byte between two words.
const SPACE: u8 = b' ';

// The first index from `at` on, and below `end`, at which the byte stands; `end` where there is none.
pub fn find(text: &[u8], at: usize, end: usize, byte: u8) -> usize
    requires in_bounds { (at ≤ end) × (end ≤ length text.now) }
    ensures place { result ≡ at + index_of byte (slice at end text.now) }
    ensures within { (at ≤ result) × (result ≤ end) }
{
    match text[at..end].iter().position(|b| *b == byte) {
        Some(n) => at + n,
        None => end,
    }
}

// How many spaces there are. Added without a branch: by `filter` and `count` a line of many spaces takes four times as long.
pub fn count_spaces(line: &[u8]) -> usize
    ensures { result ≡ spaces line.now }
{
    let mut n = 0;
    for byte in line {
        n += usize::from(*byte == SPACE);
    }
    n
}

// Word k, empty where there are fewer; the first is word 0.
pub fn word(line: &[u8], k: u8) -> &[u8]
    ensures { result.now ≡ word_at k line.now }
{
    match line.split(|b| *b == SPACE).nth(usize::from(k)) {
        Some(word) => word,
        None => &[],
    }
}
