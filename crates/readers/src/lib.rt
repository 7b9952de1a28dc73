// The two readers of a journal (document 02, F-1). Neither takes a program or a workspace, and neither asks anything of its caller. A
// reader tests the whole form first, then the output's length, and writes only then: a refused call leaves the output as it was.
#![tactic(auto)]

ghost use Rattle.std.specs.Prelude.{◌≡◌, length};
ghost use Rattle.calls.specs.Answer.{overwritten};
ghost use Rattle.calls.specs.Readers.{held_bytes, nurse_call, workshop_call};
ghost use Rattle.answers.specs.Answers.{nurse_answer, write_answer, seen_answer, length_answer};
ghost use Rattle.readers.specs.Reading.{FormTested, Filled};

use answers::{NurseAnswer, Refusal, Shown, WriteAnswer};
use journal::form;
use journal::parts::Standing;

// The journal, if it has its form.
fn read(journal: &[u8]) -> Result<Standing<'_>, Refusal>
    ensures { FormTested result journal.now }
{
    let places = form::survey(journal).ok_or(Refusal::Journal)?;
    Ok(Standing { journal, places })
}

// The bytes fill the output from its start, if it has room for them; the answer is their length.
fn fill(output: &mut [u8], bytes: &[u8]) -> WriteAnswer
    ensures { Filled result bytes.now output.old output.new }
{
    if output.len() < bytes.len() {
        return Err(Refusal::Output);
    }
    octets::copy(output, 0, bytes);
    Ok(bytes.len())
}

// At the bedside: the held value fills the output from its start, and the answer is its length and how many conversions stand. Nothing
// of the conversions themselves is told.
pub fn nurse(journal: &[u8], output: &mut [u8]) -> NurseAnswer
    ensures answer { nurse_answer result ≡ seen_answer (nurse_call journal.now (length output.old)) }
    ensures fills { output.new ≡ overwritten (held_bytes (nurse_call journal.now (length output.old))) output.old }
{
    let journal = read(journal)?;
    let len = fill(output, journal.held_value())? as u16;
    let standing = journal.places.count as u16;
    Ok(Shown { len, standing })
}

// At the desk: the fields of all conversions as they stand, oldest first, fill the output from its start; the answer is their length.
pub fn workshop(journal: &[u8], output: &mut [u8]) -> WriteAnswer
    ensures answer { write_answer result ≡ length_answer (workshop_call journal.now (length output.old)) }
    ensures fills { output.new ≡ overwritten (workshop_call journal.now (length output.old)) output.old }
{
    let journal = read(journal)?;
    fill(output, journal.standing_fields())
}
