// The readers of a journal (document 02, F-1), made and reported. The output is lent: with as many bytes as the entries of a journal may take
// it is never too short.
ghost use Rattle.std.specs.Prelude.{◌≡◌, ◌+◌, ◌*◌, ◌≤◌, length};
ghost use Rattle.calls.specs.Answer.{overwritten};
ghost use Rattle.calls.specs.Readers.{held_bytes, nurse_call, workshop_call};
ghost use Rattle.calltext.specs.Wrote.{Wrote};
ghost use Rattle.command.specs.Reports.{nurse_report, workshop_report};

use crate::reports;

// At the bedside.
pub fn nurse(journal: &[u8], output: &mut [u8], out: &mut [u8]) -> usize
    requires { 2 * length output.old + 256 ≤ length out.old }
    ensures report { Wrote out.old out.new 0 result (nurse_report (nurse_call journal.now (length output.old))) }
    ensures fills { output.new ≡ overwritten (held_bytes (nurse_call journal.now (length output.old))) output.old }
{
    let answer = engine::nurse(journal, output);
    reports::nurse_report(answer, output, out)
}

// At the desk.
pub fn workshop(journal: &[u8], output: &mut [u8], out: &mut [u8]) -> usize
    requires { 2 * length output.old + 256 ≤ length out.old }
    ensures report { Wrote out.old out.new 0 result (workshop_report (workshop_call journal.now (length output.old))) }
    ensures fills { output.new ≡ overwritten (workshop_call journal.now (length output.old)) output.old }
{
    let answer = engine::workshop(journal, output);
    reports::write_report(answer, output, out)
}
