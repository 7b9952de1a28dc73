// What the calls that take a workspace share: row Workspace of document 01's section 4 before the other rows, and its clearing after them.
ghost use Rattle.std.specs.Prelude.{◌≡◌, true, false, Err, leb, length, replicate};
ghost use Rattle.calls.specs.Runs.{workspace_for};
ghost use Rattle.engine.specs.Serving.{TakesBoth, ReturnsBoth};

use answers::Refusal;
use requests::preparing;

// The other rows of a call, where the workspace is long enough: they may write the buffer that they are lent. The workspace is all zero
// afterwards; if it is too short, both are unchanged.
// Kept: the buffer is an argument, since of what a closure captures to write it nothing is known after the call.
pub(crate) fn serve<T, F: FnOnce(&mut [u8], &mut [u8]) -> Result<T, Refusal>>(
    workspace: &mut [u8],
    fuel: u16,
    lent: &mut [u8],
    rows: F,
) -> Result<T, Refusal>
    requires { leb (workspace_for fuel) (length workspace.old) ≡ true → TakesBoth F.FnOnce rows workspace.old lent.old }
    ensures short { leb (workspace_for fuel) (length workspace.old) ≡ false → (result ≡ Err Refusal.Workspace) × (lent.new ≡ lent.old) × (workspace.new ≡ workspace.old) }
    ensures served { leb (workspace_for fuel) (length workspace.old) ≡ true → ReturnsBoth F.FnOnce rows workspace.old lent.old result lent.new × (workspace.new ≡ replicate (length workspace.old) 0) }
{
    if !preparing::enough(workspace.len(), fuel) {
        return Err(Refusal::Workspace);
    }
    let answer = rows(workspace, lent);
    octets::clear(workspace);
    answer
}
