// The buffers that the calls are lent. They serve all commands: an argument or a line, byte strings, a workspace, an output, an answer.

// The longest line that is answered, with the byte that ends it.
pub(crate) const LINE: usize = 262144;

// The bytes that the hexadecimal words of such a line can be; and a byte more than a script may have.
pub(crate) const HALF: usize = 131073;

// What the largest fuel asks for (document 01, section 2).
pub(crate) const WORKSPACE: usize = rules::WORKSPACE_BASE
    + rules::WORKSPACE_PER_FUEL * rules::MAX_FUEL;

// The most that a call writes: the entries of a journal (document 02, F-1).
pub(crate) const OUTPUT: usize = journal::places::MOST_ENTRIES;

// The longest answer: a journal or a value in hexadecimal, and the numbers in front of it (batch/specs/Capped).
pub(crate) const ANSWER: usize = 2 * HALF + 2 * OUTPUT + 64;

// Kept: arrays in place of vectors, since their lengths are what the program says that a line or a file may have.
#[derive(Drop)]
pub(crate) struct Buffers {
    pub word: [u8; LINE],
    pub program: [u8; HALF],
    pub ancillae: [u8; HALF],
    pub value: [u8; HALF],
    pub workspace: [u8; WORKSPACE],
    pub output: [u8; OUTPUT],
    pub out: [u8; ANSWER],
}
