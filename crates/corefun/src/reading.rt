// nurse and workshop: a journal's bytes from a file, read at the bedside or at the desk.
ghost use Rattle.std.specs.Prelude.{◌+◌, ◌*◌, ◌≤◌, length};

use crate::buffers::Buffers;
use crate::failures::Failure;
use crate::{arguments, files, printing};
use command::readings;
use std::rt::{Env, Files};

// A journal read, and reported in `out`: where the report ends.
fn read_either(workshop: bool, journal: &[u8], output: &mut [u8], out: &mut [u8]) -> usize
    requires { 2 * length output.old + 256 ≤ length out.old }
    ensures { result ≤ length out.new }
{
    if workshop {
        return readings::workshop(journal, output, out);
    }
    readings::nurse(journal, output, out)
}

// corefun nurse JOURNAL, and workshop the same
pub(crate) fn read(
    rt: &(impl Env + Files + Print),
    workshop: bool,
    b: &mut Buffers,
) -> Result<(), Failure> {
    let n = files::load_all(rt, arguments::JOURNAL, &mut b.word, &mut b.value)?;
    let len = read_either(workshop, &b.value[..n], &mut b.output, &mut b.out);
    printing::print(rt, &b.out[..len])
}
