// The call that checks a program (document 01, section 4).
ghost use Rattle.std.specs.Prelude.{◌≡◌, length};
ghost use Rattle.calls.specs.Answer.{cleared};
ghost use Rattle.calls.specs.Runs.{check_call};
ghost use Rattle.answers.specs.Answers.{check_answer};

use crate::serving;
use answers::CheckAnswer;
use requests::checking;

// Is the program accepted? The workspace is all zero afterwards, but unchanged if it is too short.
pub fn check(program: &[u8], workspace: &mut [u8]) -> CheckAnswer
    ensures answer { check_answer result ≡ check_call program.now (length workspace.old) }
    ensures clear { workspace.new ≡ cleared (check_call program.now (length workspace.old)) workspace.old }
{
    serving::serve(workspace, 0, &mut [], |workspace, _| {
        checking::check_program(program, workspace)
    })
}
