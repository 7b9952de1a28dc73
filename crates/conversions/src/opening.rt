// Open, from the rows of the program on (document 01, sections 4 and 5): the record, and room for its field. Open reads no byte of
// the journal, and strikes whatever stood there.
ghost use Rattle.std.specs.Prelude.{length};
ghost use Rattle.conversions.specs.Turns.{open_of, OpenMeans};

use answers::{CheckAnswer, Refusal};
use journal::writing;
use valuebytes::scan;

// Writes the record to the journal, with no conversion behind it.
pub fn open(held: &[u8], journal: &mut [u8]) -> CheckAnswer
    ensures { OpenMeans result (open_of held.now (length journal.old)) journal.old journal.new }
{
    if !scan::one_value(held) {
        return Err(Refusal::Values);
    }
    if !writing::fits_open(journal, held) {
        return Err(Refusal::Full);
    }
    writing::write_open(journal, held);
    Ok(())
}
