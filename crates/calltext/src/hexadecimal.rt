// Bytes as hexadecimal digits, two a byte; a `-` stands for no bytes.
ghost use Rattle.std.specs.Prelude.{◌≡◌, ◌+◌, ◌*◌, ◌≤◌, ◌<◌, length, MatchOption};
ghost use Rattle.calltext.specs.Wrote.{Wrote};
ghost use Rattle.calltext.specs.Hexadecimal.{digit_of, glyph_of, pairs_of, bytes_in, hex_text};
ghost use Rattle.calltext.specs.Decoded.{DecodesWord};

// So many digits there are, and so many of them are decimal.
const BASE: u8 = 16;

const LETTERS_FROM: u8 = 10;

// So many digits a byte has.
const DIGITS: usize = 2;

// A digit's number, of either case, if the byte is a digit.
#[tactic(auto, unfolding(crate::specs::Hexadecimal::digit_of))]
fn digit(b: u8) -> Option<u8>
    ensures { MatchOption result (digit_of b ≡ 16) (λ d. (d ≡ digit_of b) × (d < 16)) }
{
    match b {
        b'0'..=b'9' => Some(b - b'0'),
        b'A'..=b'F' => Some(b - b'A' + LETTERS_FROM),
        b'a'..=b'f' => Some(b - b'a' + LETTERS_FROM),
        _ => None,
    }
}

// The digit of a number, in lower case.
#[tactic(auto, unfolding(crate::specs::Hexadecimal::glyph_of))]
fn glyph(d: u8) -> u8
    requires { d < 16 }
    ensures { result ≡ glyph_of d }
{
    if d < LETTERS_FROM {
        b'0' + d
    } else {
        b'a' + (d - LETTERS_FROM)
    }
}

// The bytes that the digits are, put at the start of `out`: how many.
fn pairs(word: &[u8], out: &mut [u8]) -> Option<usize>
    requires { length word.now ≤ 2 * length out.old }
    ensures { DecodesWord result word.now out.old out.new (pairs_of word.now) }
{
    let mut left = word;
    let mut n: usize = 0;
    // Kept: a loop by a pattern, which counts no index of the word: each turn takes two digits off its front.
    while let [high, low, rest @ ..] = left {
        out[n] = digit(*high)? * BASE + digit(*low)?;
        n += 1;
        left = rest;
    }
    left.is_empty().then_some(n)
}

// The bytes that a word is, put at the start of `out`: how many.
pub fn decode(word: &[u8], out: &mut [u8]) -> Option<usize>
    requires { length word.now ≤ 2 * length out.old }
    ensures { DecodesWord result word.now out.old out.new (bytes_in word.now) }
{
    match word {
        [] => None,
        [only] => (*only == b'-').then_some(0),
        _ => pairs(word, out),
    }
}

// The word that bytes are, put into `out` from `at` on: where it ends.
pub fn encode(bytes: &[u8], out: &mut [u8], at: usize) -> usize
    requires { at + 2 * length bytes.now < length out.old }
    ensures { Wrote out.old out.new at result (hex_text bytes.now) }
{
    if bytes.is_empty() {
        out[at] = b'-';
        return at + 1;
    }
    let mut end = at;
    for b in bytes {
        out[end] = glyph(*b / BASE);
        out[end + 1] = glyph(*b % BASE);
        end += DIGITS;
    }
    end
}
