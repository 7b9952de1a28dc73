// Rows Field reading, Entries and Typing of document 01's section 4, as the call check answers them.
ghost use Rattle.std.specs.Prelude.{◌≤◌, length};
ghost use Rattle.types.specs.Layout.{typing_bytes};
ghost use Rattle.requests.specs.Calls.{CheckMeans};

use answers::CheckAnswer;

// The rows of the program, in a workspace that is long enough and that is left as it comes.
pub fn check_program(program: &[u8], workspace: &mut [u8]) -> CheckAnswer
    requires { typing_bytes ≤ length workspace.old }
    ensures { CheckMeans result program.now }
{
    loading::accepts(program, workspace)?;
    Ok(())
}
