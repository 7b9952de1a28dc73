// Convert (document 01, section 4, rows Journal, Call and Run; section 5), for a program that is accepted and a workspace that is long
// enough. The run's value goes to an output of its own, so that the journal is written only after all tests.
ghost use Rattle.std.specs.Prelude.{◌≡◌, true, ◌≤◌, length};
ghost use Rattle.calls.specs.Runs.{workspace_for};
ghost use Rattle.valuebytes.specs.Ends.{is_value};
ghost use Rattle.journal.specs.Places.{Stands};
ghost use Rattle.journal.specs.Turns.{are_values};
ghost use Rattle.loading.specs.Loads.{program_accepted};
ghost use Rattle.conversions.specs.Turns.{convert_of, TurnMeans};
ghost use Rattle.conversions.specs.Converting.{converted_to};

use answers::{Done, Refusal, RunAnswer};
use journal::parts::Standing;
use journal::places::Places;
use journal::{form, writing};
use loading::loaded::AcceptedProgram;
use requests::running;
use requests::running::{Direction, Request};
use rules::{MAX_CONVERSIONS, MAX_VALUE_BYTES};

// The new held value and one conversion more, if they fit the journal (20).
fn keep(
    journal: &mut [u8],
    places: Places,
    held: &[u8],
    done: Done,
    function: u16,
    ancillae: &[u8],
) -> RunAnswer
    requires stands { Stands places journal.old }
    requires held_value { (is_value held.now ≡ true) × (are_values ancillae.now ≡ true) }
    requires len_value { done.len ≡ length held.now }
    ensures { TurnMeans result (converted_to journal.old held.now done.steps function ancillae.now) journal.old journal.new }
{
    let standing = Standing { journal, places };
    if !standing.fits_convert(held, ancillae) {
        return Err(Refusal::Full);
    }
    let steps = u32::from(done.steps);
    writing::write_convert(journal, places, held, function, steps, ancillae);
    Ok(done)
}

// Convert: the held value by a function forward, with what it leaves in the journal.
pub fn convert(
    program: AcceptedProgram,
    function: u16,
    ancillae: &[u8],
    fuel: u16,
    workspace: &mut [u8],
    journal: &mut [u8],
) -> RunAnswer
    requires { workspace_for fuel ≤ length workspace.old }
    ensures { TurnMeans result (convert_of (program_accepted program.entry) fuel function ancillae.now journal.old) journal.old journal.new }
{
    let places = form::survey(journal).ok_or(Refusal::Journal)?;
    if MAX_CONVERSIONS <= places.count {
        return Err(Refusal::Full);
    }
    let standing = Standing { journal, places };
    let request = Request {
        function,
        ancillae,
        value: standing.held_value(),
        direction: Direction::Forward,
        fuel,
    };
    let mut output = [0u8; MAX_VALUE_BYTES];
    let done = running::run(program, &request, workspace, &mut output)?;
    let n = usize::from(done.len);
    keep(journal, places, &output[..n], done, function, ancillae)
}
