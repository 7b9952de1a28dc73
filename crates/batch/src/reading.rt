// The readers of a journal that a line says, made in an output of the length that it names, and answered by a line.
ghost use Rattle.std.specs.Prelude.{◌≡◌, ◌+◌, ◌*◌, ◌≤◌, length, take};
ghost use Rattle.calls.specs.Answer.{overwritten};
ghost use Rattle.calltext.specs.Wrote.{Wrote};
ghost use Rattle.batch.specs.Capped.{most_output, answer_room, capped};
ghost use Rattle.batch.specs.Answering.{read_text, read_bytes};
ghost use Rattle.batch.specs.Lent.{on_front};

use crate::making;
use calltext::calls::ReaderCall;
use messages::replies;

// A reader with an output as it is lent, made and answered.
fn read_lent(workshop: bool, journal: &[u8], output: &mut [u8], out: &mut [u8]) -> usize
    requires { 2 * length output.old + 64 ≤ length out.old }
    ensures answer { Wrote out.old out.new 0 result (read_text workshop journal.now (length output.old)) }
    ensures fills { output.new ≡ overwritten (read_bytes workshop journal.now (length output.old)) output.old }
{
    if workshop {
        let wrote = engine::workshop(journal, output);
        return replies::write_line(wrote, output, out);
    }
    let seen = engine::nurse(journal, output);
    replies::nurse_line(seen, output, out)
}

// A reader, made and answered.
pub(crate) fn read(call: ReaderCall, journal: &[u8], output: &mut [u8], out: &mut [u8]) -> usize
    requires journal_in_bounds { call.journal ≤ length journal.now }
    requires most_output_in_bounds { most_output ≤ length output.old }
    requires answer_room_in_bounds { answer_room ≤ length out.old }
    ensures answer { Wrote out.old out.new 0 result (read_text call.workshop (take call.journal journal.now) call.output) }
    ensures fills { output.new ≡ on_front (capped most_output call.output) (overwritten (read_bytes call.workshop (take call.journal journal.now) call.output)) output.old }
{
    let len = call.output.min(making::MOST_OUTPUT);
    read_lent(
        call.workshop,
        &journal[..call.journal],
        &mut output[..len],
        out,
    )
}
