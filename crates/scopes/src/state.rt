// The numbers that a run is lent: the machine, which is the first free node and the fuel, then the slots of scopes (specs/Slots). A scope is one
// number too: its first slot, how many variables of it are ancilla parameters, and how many variables it has.
ghost use Rattle.std.specs.Prelude.{◌≡◌, ◌+◌, ◌-◌, ◌≤◌, ◌<◌, length};
ghost use Rattle.scopes.specs.Slots.{slot_count, state_count, part, slots_of, machine_of, scope_in, Moved};

use rules::{MAX_HEIGHT, MAX_PARAMETERS, MAX_VARIABLES};

// Where the slots begin, behind the machine.
pub const SLOTS_FROM: usize = 2;

// The machine, and slots for the variables of a run of the greatest height and of one scope more: a height adds no more than a function has parameters.
pub const STATE: usize = SLOTS_FROM + MAX_VARIABLES + MAX_PARAMETERS * (MAX_HEIGHT + 1);

// A part of a scope is below this number, but for its base.
const PART: u64 = 65536;

// The first free node.
pub fn top(st: &[u32; STATE]) -> u32
    ensures { result ≡ (machine_of st.now).top }
{
    st[0]
}

pub fn fuel(st: &[u32; STATE]) -> u32
    ensures { result ≡ (machine_of st.now).fuel }
{
    st[1]
}

// One unit of fuel is taken.
pub fn spend(st: &mut [u32; STATE])
    requires { (length st.old ≡ state_count) × (0 < (machine_of st.old).fuel) }
    ensures { Moved st.old st.new (record { top = (machine_of st.old).top; fuel = (machine_of st.old).fuel - 1 }) }
{
    st[1] = st[1] - 1;
}

// A node was made.
pub fn grow(st: &mut [u32; STATE])
    requires { (length st.old ≡ state_count) × ((machine_of st.old).top + 1 < 4294967296) }
    ensures { Moved st.old st.new (record { top = (machine_of st.old).top + 1; fuel = (machine_of st.old).fuel }) }
{
    st[0] = st[0] + 1;
}

// The machine of a run that begins.
pub fn begin(st: &mut [u32; STATE], top: u32, fuel: u32)
    requires { length st.old ≡ state_count }
    ensures { Moved st.old st.new (record { top = top; fuel = fuel }) }
{
    st[0] = top;
    st[1] = fuel;
}

// A scope of n variables from slot `base` on, of which the first q are ancilla parameters.
#[tactic(auto, unfolding(rules::specs::Limits::max_height, rules::specs::Limits::max_parameters))]
pub fn scope(base: usize, q: usize, n: usize) -> u64
    requires { (base ≤ slot_count) × (q < part) × (n < part) }
    ensures { scope_in result ≡ record { base = base; q = q; n = n } }
{
    PART * (PART * (base as u64) + q as u64) + n as u64
}

pub fn base_in(scope: u64) -> usize
    ensures { result ≡ (scope_in scope).base }
{
    (scope / PART / PART) as usize
}

pub fn ancillae_in(scope: u64) -> usize
    ensures { result ≡ (scope_in scope).q }
{
    (scope / PART % PART) as usize
}

pub fn count_in(scope: u64) -> usize
    ensures { result ≡ (scope_in scope).n }
{
    (scope % PART) as usize
}

// The slot behind a scope.
pub fn end_of(scope: u64) -> usize
    ensures { result ≡ (scope_in scope).base + (scope_in scope).n }
{
    base_in(scope) + count_in(scope)
}

// The scope with one variable more.
pub fn wider(scope: u64) -> u64
    requires { ((scope_in scope).base ≤ slot_count) × ((scope_in scope).n + 1 < part) }
    ensures { scope_in result ≡ record { base = (scope_in scope).base; q = (scope_in scope).q; n = (scope_in scope).n + 1 } }
{
    scope + 1
}
