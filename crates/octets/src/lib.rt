// Numbers and runs of bytes in byte slices: numbers of two and four bytes, the high byte first; fill, copy, compare.
// The contracts cite specs/Numbers and specs/Runs and are final: laws about those definitions are in proofs/.
#![tactic(auto)]

ghost use Rattle.std.specs.Prelude.{◌≡◌, ◌+◌, ◌≤◌, length, replicate};
ghost use Rattle.octets.specs.Numbers.{get16, get32, put16, put32};
ghost use Rattle.octets.specs.Runs.{pasted, Decides};

pub fn read16(s: &[u8], at: usize) -> u16
    requires { at + 2 ≤ length s.now }
    ensures { result ≡ get16 s.now at }
{
    u16::from_be_bytes([s[at], s[at + 1]])
}

pub fn read32(s: &[u8], at: usize) -> u32
    requires { at + 4 ≤ length s.now }
    ensures { result ≡ get32 s.now at }
{
    u32::from_be_bytes([s[at], s[at + 1], s[at + 2], s[at + 3]])
}

pub fn write16(s: &mut [u8], at: usize, n: u16)
    requires { at + 2 ≤ length s.old }
    ensures { s.new ≡ put16 s.old at n }
{
    s[at..at + 2].copy_from_slice(&n.to_be_bytes());
}

pub fn write32(s: &mut [u8], at: usize, n: u32)
    requires { at + 4 ≤ length s.old }
    ensures { s.new ≡ put32 s.old at n }
{
    s[at..at + 4].copy_from_slice(&n.to_be_bytes());
}

// So many bytes are tested together, and written only if one of them is not zero. The compiler makes straight code of a test of so many, where
// a short loop takes up to twice as long if the linker puts it across two lines of the cache.
const BLOCK: usize = 512;

// Are the bytes zero? Each is read and none decides by itself: without a branch many are read at once.
fn all_zero(s: &[u8]) -> bool
    ensures { Decides result (s.now ≡ replicate (length s.now) 0) }
{
    let mut seen = 0;
    for byte in s {
        seen |= *byte;
    }
    seen == 0
}

// Every byte of a block becomes zero. A block that is zero already is read and not written, which costs less.
fn clear_block(s: &mut [u8])
    ensures { s.new ≡ replicate (length s.old) 0 }
{
    if all_zero(s) {
        return;
    }
    s.fill(0);
}

// Every byte becomes zero: whole blocks, whose length the compiler knows, then what is left.
// Kept: the loop counts by blocks. `chunks_mut` was tried: after it a proof knows a slice's length and not its bytes, and `returns` stays open.
pub fn clear(s: &mut [u8])
    ensures { s.new ≡ replicate (length s.old) 0 }
{
    let mut i = 0;
    while BLOCK <= s.len() - i {
        let e = i + BLOCK;
        clear_block(&mut s[i..e]);
        i = e;
    }
    clear_block(&mut s[i..]);
}

// The bytes of src, from index `at` of dst on.
// Kept: a loop by index. With `copy_from_slice` an archive for C needs memmove from outside; the two slices never overlap.
pub fn copy(dst: &mut [u8], at: usize, src: &[u8])
    requires { at + length src.now ≤ length dst.old }
    ensures { dst.new ≡ pasted dst.old at src.now }
{
    for i in 0..src.len() {
        dst[at + i] = src[i];
    }
}

// Are the bytes the same?
pub fn equal(a: &[u8], b: &[u8]) -> bool
    ensures { Decides result (a.now ≡ b.now) }
{
    a == b
}
