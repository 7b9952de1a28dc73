// What every call tests first: row Workspace of document 01's section 4 (refusal 1).
ghost use Rattle.std.specs.Prelude.{◌≡◌, leb};
ghost use Rattle.calls.specs.Runs.{workspace_for};

use rules::{WORKSPACE_BASE, WORKSPACE_PER_FUEL};

// Is a workspace of `n` bytes long enough?
pub fn enough(n: usize, fuel: u16) -> bool
    ensures { result ≡ leb (workspace_for fuel) n }
{
    WORKSPACE_BASE + WORKSPACE_PER_FUEL * usize::from(fuel) <= n
}
