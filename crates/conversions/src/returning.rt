// Rollback, from the rows of the program on (document 01, sections 4 and 5): the newest conversion's function is run backward on the held
// value. The run's value goes to an array as long as a value can be, so that it always has room there.
ghost use Rattle.std.specs.Prelude.{◌≡◌, true, ◌≤◌, ◌<◌, length};
ghost use Rattle.calls.specs.Runs.{workspace_for};
ghost use Rattle.valuebytes.specs.Ends.{is_value, value_in};
ghost use Rattle.journal.specs.Places.{Stands, journal_in};
ghost use Rattle.loading.specs.Loads.{program_accepted};
ghost use Rattle.conversions.specs.Turns.{rollback_of, TurnMeans};
ghost use Rattle.conversions.specs.Rollbacks.{ran_to, struck};

use answers::{Done, Refusal, RunAnswer};
use journal::form;
use journal::parts::Standing;
use journal::places::Places;
use loading::loaded::AcceptedProgram;
use requests::running;
use requests::running::{Direction, Request};
use rules::MAX_VALUE_BYTES;

// After the run: the steps that the journal has for the conversion must be those of the run (18), and what is left must fit (20).
fn strike(journal: &mut [u8], places: Places, held: &[u8], done: Done) -> RunAnswer
    requires stands { Stands places journal.old × (0 < places.count) }
    requires held_value { (is_value held.now ≡ true) × (done.len ≡ length held.now) }
    ensures { TurnMeans result (struck (length journal.old) (journal_in journal.old) (ran_to (value_in held.now) done.steps)) journal.old journal.new }
{
    let standing = Standing { journal, places };
    let noted = standing.newest().steps;
    let steps = u32::from(done.steps);
    if steps != noted {
        return Err(Refusal::Journal);
    }
    if !standing.fits_rollback(held) {
        return Err(Refusal::Full);
    }
    journal::writing::write_rollback(journal, places, held);
    Ok(done)
}

// Rolls back the newest conversion: the journal's form (18), a conversion that stands (19), and the rows that run it.
pub fn rollback(
    program: AcceptedProgram,
    fuel: u16,
    workspace: &mut [u8],
    journal: &mut [u8],
) -> RunAnswer
    requires { workspace_for fuel ≤ length workspace.old }
    ensures { TurnMeans result (rollback_of (program_accepted program.entry) fuel journal.old) journal.old journal.new }
{
    let places = form::survey(journal).ok_or(Refusal::Journal)?;
    if places.count == 0 {
        return Err(Refusal::Standing);
    }
    let standing = Standing { journal, places };
    let newest = standing.newest();
    let request = Request {
        function: newest.function,
        ancillae: newest.ancillae,
        value: standing.held_value(),
        direction: Direction::Backward,
        fuel,
    };
    let mut output = [0u8; MAX_VALUE_BYTES];
    let done = running::run(program, &request, workspace, &mut output)?;
    let n = usize::from(done.len);
    strike(journal, places, &output[..n], done)
}
