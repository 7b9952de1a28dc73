// Reading a script (specs/Scripts): one call at a place.
ghost use Rattle.std.specs.Prelude.{◌≡◌, ◌+◌, ◌≤◌, ◌<◌, length, IfErr};
ghost use Rattle.replay.specs.Scripts.{given_at, open_at, convert_at, rollback_at, step_at};
ghost use Rattle.replay.specs.Inner.Read.{part_of, step_of};
ghost use Rattle.replay.specs.declared.replies.ReplayError.TheVariants.{Malformed};

use crate::replies::ReplayError;

pub const OPEN: u8 = 0x31;

pub const CONVERT: u8 = 0x32;

pub const ROLLBACK: u8 = 0x33;

// How many bytes a call has before the record or the ancilla values.
const OPEN_BYTES: usize = 7;

const CONVERT_BYTES: usize = 11;

const ROLLBACK_BYTES: usize = 7;

// Where the numbers of a call stand in it: the length of the journal's buffer, then fuel and function, where it has them, then how many
// bytes are behind, in two bytes.
const BUFFER: usize = 1;

const FUEL: usize = 5;

const FUNCTION: usize = 7;

const LENGTH: usize = 2;

// What a call is, with its own numbers.
#[derive(Clone, Copy)]
pub enum Kind {
    Open,
    Convert { fuel: u16, function: u16 },
    Rollback { fuel: u16 },
}

// One call: what it is, the length of the journal's buffer, where the record or the ancilla values start, and where the next call starts.
#[derive(Clone, Copy)]
pub struct Part {
    pub kind: Kind,
    pub n: usize,
    pub from: usize,
    pub next: usize,
}

// The call that ends with the bytes whose length stands at a place, if they are there.
#[tactic(auto, unfolding(crate::specs::Scripts::given_at))]
fn given_at(script: &[u8], kind: Kind, n: usize, at: usize) -> Option<Part>
    requires { at + 2 ≤ length script.now }
    ensures { part_of result ≡ given_at script.now kind n at }
{
    let len = usize::from(octets::read16(script, at));
    let from = at + LENGTH;
    if script.len() - from < len {
        return None;
    }
    let next = from + len;
    Some(Part {
        kind,
        n,
        from,
        next,
    })
}

#[tactic(auto, unfolding(crate::specs::Scripts::open_at))]
fn open_at(script: &[u8], at: usize) -> Option<Part>
    requires { at ≤ length script.now }
    ensures { part_of result ≡ open_at script.now at }
{
    if script.len() - at < OPEN_BYTES {
        return None;
    }
    let n = octets::read32(script, at + BUFFER) as usize;
    given_at(script, Kind::Open, n, at + OPEN_BYTES - LENGTH)
}

#[tactic(auto, unfolding(crate::specs::Scripts::convert_at))]
fn convert_at(script: &[u8], at: usize) -> Option<Part>
    requires { at ≤ length script.now }
    ensures { part_of result ≡ convert_at script.now at }
{
    if script.len() - at < CONVERT_BYTES {
        return None;
    }
    let n = octets::read32(script, at + BUFFER) as usize;
    let fuel = octets::read16(script, at + FUEL);
    let function = octets::read16(script, at + FUNCTION);
    let kind = Kind::Convert { fuel, function };
    given_at(script, kind, n, at + CONVERT_BYTES - LENGTH)
}

#[tactic(auto, unfolding(crate::specs::Scripts::rollback_at))]
fn rollback_at(script: &[u8], at: usize) -> Option<Part>
    requires { at ≤ length script.now }
    ensures { part_of result ≡ rollback_at script.now at }
{
    if script.len() - at < ROLLBACK_BYTES {
        return None;
    }
    let fuel = octets::read16(script, at + FUEL);
    let end = at + ROLLBACK_BYTES;
    Some(Part {
        kind: Kind::Rollback { fuel },
        n: octets::read32(script, at + BUFFER) as usize,
        from: end,
        next: end,
    })
}

// The call that stands at a place.
#[tactic(auto, unfolding(crate::specs::Scripts::step_at))]
pub(crate) fn step_at(script: &[u8], at: usize) -> Result<Part, ReplayError>
    requires { at < length script.now }
    ensures said { step_of result ≡ step_at script.now at }
    ensures place { IfErr result (λ e. e ≡ Malformed at) }
{
    let part = match script[at] {
        OPEN => open_at(script, at),
        CONVERT => convert_at(script, at),
        ROLLBACK => rollback_at(script, at),
        _ => None,
    };
    part.ok_or(ReplayError::Malformed(at))
}
