// Namings that wait (document 02, F-2): an ancilla argument inside the bound term of a let names a dynamic variable, and the let's body, typed
// later, has to use it. They stand in a scope's lent bytes, behind the variables' types: only this module knows their layout. Each let
// settles those of its bound term, which are the ones from the count before it on, up to the count after it. Laws: proofs/Waiting, Settling.
ghost use Rattle.std.specs.Prelude.{Some, ◌≡◌, ◌+◌, ◌*◌, ◌≤◌, ◌<◌, length};
ghost use Rattle.rules.specs.Limits.{max_terms, max_variables};
ghost use Rattle.typing.specs.Waiting.{scope_bytes, cell_at, count_in, Waits, met, marked_in, helps_in, Settleable, Settles};

use crate::outcomes::Scope;
use crate::variables::VARIABLE_BYTES;
use rules::{MAX_TERMS, MAX_VARIABLES};
use varsets::Uses;

// How many namings wait stands behind the variables' types.
const COUNT_AT: usize = VARIABLE_BYTES * MAX_VARIABLES;

const NAMINGS_AT: usize = COUNT_AT + 2;

const NAMING_BYTES: usize = 4;

// The bytes that a scope is lent. There are no more namings than terms.
pub const SCOPE_BYTES: usize = NAMINGS_AT + NAMING_BYTES * MAX_TERMS;

// The variable of a naming that a let helped.
const NO_VARIABLE: u16 = 65535;

// The lowest of the places for 8 that one point of typing has, if it has one, and one place more.
fn lowest(low: Option<u16>, place: u16) -> u16
    ensures { Some result ≡ met low place }
{
    match low {
        Some(other) => other.min(place),
        None => place,
    }
}

// Where naming j begins.
fn cell(j: u16) -> usize
    requires { j < max_terms }
    ensures { (result ≡ cell_at j) × (result + 4 ≤ scope_bytes) }
{
    NAMINGS_AT + NAMING_BYTES * usize::from(j)
}

// No naming waits: what stands behind the count is not looked at.
pub fn begin(vars: &mut [u8])
    requires { scope_bytes ≤ length vars.old }
    ensures { count_in vars.new ≡ 0 }
{
    octets::write16(vars, COUNT_AT, 0);
}

// How many namings there are.
pub fn count(vars: &[u8]) -> u16
    requires { scope_bytes ≤ length vars.now }
    ensures { result ≡ count_in vars.now }
{
    octets::read16(vars, COUNT_AT)
}

// Variable i is named by term t.
pub fn wait(vars: &mut [u8], i: u8, t: u16)
    requires { (scope_bytes ≤ length vars.old) × (count_in vars.old < max_terms) }
    ensures { Waits vars.old vars.new i t }
{
    let n = count(vars);
    let at = cell(n);
    octets::write16(vars, at, u16::from(i));
    octets::write16(vars, at + 2, t);
    octets::write16(vars, COUNT_AT, n + 1);
}

// Does a let in the scope, whose body uses `uses`, help a naming of the variable? Not one that is barred where the let stands.
fn helped(sc: Scope, uses: Uses, variable: u16) -> bool
    requires { sc.n ≤ max_variables }
    ensures { result ≡ helps_in sc uses variable }
{
    if u16::from(sc.n) <= variable {
        return false;
    }
    let i = variable as u8;
    sc.q <= i && sc.lo <= i && uses.contains(i)
}

// Could a let further out help it?
fn waits_on(sc: Scope, variable: u16) -> bool
    requires { sc.n ≤ max_variables }
    ensures { result ≡ marked_in sc variable }
{
    if u16::from(sc.n) <= variable {
        return false;
    }
    let i = variable as u8;
    sc.q <= i && sc.marks.contains(i)
}

// Naming j after the body of a let, which stands in the scope and uses `uses`: it is helped, waits on, or is refused. Of the places for 8
// the lowest is kept.
fn settle_one(vars: &mut [u8], sc: Scope, uses: Uses, j: u16, low: Option<u16>) -> Option<u16>
    requires { Settleable sc vars.old j (j + 1) }
    ensures { Settles sc uses vars.old vars.new j (j + 1) low result }
{
    let at = cell(j);
    let variable = octets::read16(vars, at);
    if variable == NO_VARIABLE {
        return low;
    }
    if helped(sc, uses, variable) {
        octets::write16(vars, at, NO_VARIABLE);
        return low;
    }
    if waits_on(sc, variable) {
        return low;
    }
    Some(lowest(low, octets::read16(vars, at + 2)))
}

// The namings from number `from` on and below `to`, which are those of the let's bound term.
pub fn settle(
    vars: &mut [u8],
    sc: Scope,
    uses: Uses,
    from: u16,
    to: u16,
    low: Option<u16>,
) -> Option<u16>
    requires { Settleable sc vars.old from to }
    ensures { Settles sc uses vars.old vars.new from to low result }
{
    let mut low = low;
    for j in from..to {
        low = settle_one(vars, sc, uses, j, low);
    }
    low
}
