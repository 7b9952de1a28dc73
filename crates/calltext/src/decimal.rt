// Numbers as decimal digits.
ghost use Rattle.std.specs.Prelude.{◌≡◌, ◌+◌, ◌≤◌, ◌<◌, length, IfSome};
ghost use Rattle.calltext.specs.Wrote.{Wrote};
ghost use Rattle.calltext.specs.Decimal.{number_in, decimal_text};

// So many digits there are.
const BASE: u64 = 10;

// The number that a word is, if it is one and at most `most`.
pub fn read_number(word: &[u8], most: u64) -> Option<u64>
    requires { most < 1000000000000000000 }
    ensures said { result ≡ number_in most word.now }
    ensures within { IfSome result (λ n. n ≤ most) }
{
    if word.is_empty() {
        return None;
    }
    let mut n: u64 = 0;
    for b in word {
        if !b.is_ascii_digit() {
            return None;
        }
        let next = n * BASE + u64::from(*b - b'0');
        if most < next {
            return None;
        }
        n = next;
    }
    Some(n)
}

// The digits of a number, put into `out` from `at` on: where they end.
pub fn put_number(n: u64, out: &mut [u8], at: usize) -> usize
    requires { at + length (decimal_text n) ≤ length out.old }
    ensures { Wrote out.old out.new at result (decimal_text n) }
{
    if n < BASE {
        out[at] = b'0' + n as u8;
        return at + 1;
    }
    let end = put_number(n / BASE, out, at);
    out[end] = b'0' + (n % BASE) as u8;
    end + 1
}
