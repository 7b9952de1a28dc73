// Open, convert and rollback for a program in bytes, in a workspace that is long enough and that is left as it comes: the rows of the
// program (document 01, section 4), then those of the journal.
ghost use Rattle.std.specs.Prelude.{◌≤◌, length};
ghost use Rattle.types.specs.Layout.{typing_bytes};
ghost use Rattle.calls.specs.Runs.{workspace_for};
ghost use Rattle.conversions.specs.Turns.{open_in, convert_in, rollback_in, OpenMeans, TurnMeans};

use crate::{converting, opening, returning};
use answers::{CheckAnswer, RunAnswer};
use loading::room;
use loading::room::Room;

// Open: whether the program is accepted, then the record.
pub fn open(program: &[u8], record: &[u8], workspace: &mut [u8], journal: &mut [u8]) -> CheckAnswer
    requires { typing_bytes ≤ length workspace.old }
    ensures { OpenMeans result (open_in program.now «record».now (length journal.old)) journal.old journal.new }
{
    requests::checking::check_program(program, workspace)?;
    opening::open(record, journal)
}

// Convert: the rows of the program, then those of the journal, the call and the run.
pub fn convert(
    program: &[u8],
    function: u16,
    ancillae: &[u8],
    fuel: u16,
    workspace: &mut [u8],
    journal: &mut [u8],
) -> RunAnswer
    requires { workspace_for fuel ≤ length workspace.old }
    ensures { TurnMeans result (convert_in program.now fuel function ancillae.now journal.old) journal.old journal.new }
{
    let mut room = Room::new();
    let loaded = room::load_into(program, &mut room, workspace)?;
    converting::convert(loaded, function, ancillae, fuel, workspace, journal)
}

// Rollback: the rows of the program, then those of the journal, the call and the run.
pub fn rollback(program: &[u8], fuel: u16, workspace: &mut [u8], journal: &mut [u8]) -> RunAnswer
    requires { workspace_for fuel ≤ length workspace.old }
    ensures { TurnMeans result (rollback_in program.now fuel journal.old) journal.old journal.new }
{
    let mut room = Room::new();
    let loaded = room::load_into(program, &mut room, workspace)?;
    returning::rollback(loaded, fuel, workspace, journal)
}
