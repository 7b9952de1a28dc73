// One call of a script, made on the front part of the journal's buffer that it names. The bytes behind that part become zeros, as the
// fields end before it.
ghost use Rattle.std.specs.Prelude.{◌≡◌, ◌++◌, ◌-◌, ◌≤◌, length, take, replicate};
ghost use Rattle.calls.specs.Book.{opens, converts, rolls_back};
ghost use Rattle.calls.specs.Claims.{last_field};
ghost use Rattle.replay.specs.Scripts.{call_of};
ghost use Rattle.replay.specs.Inner.Steps.{Made};

use crate::scripts::{Kind, Part};
use crate::told;
use crate::told::LINE;

// Zeros from a place to the end.
pub(crate) fn clear_from(journal: &mut [u8], at: usize)
    requires { at ≤ length journal.old }
    ensures { journal.new ≡ take at journal.old ++ replicate (length journal.old - at) 0 }
{
    octets::clear(&mut journal[at..]);
}

// Kept: a function for each call, since the engine takes other arguments for each of them.
fn make_open(
    program: &[u8],
    held: &[u8],
    n: usize,
    workspace: &mut [u8],
    journal: &mut [u8],
) -> [u8; LINE]
    requires { n ≤ length journal.old }
    ensures { Made program.now (opens held.now (length workspace.old) n) journal.old workspace.old result journal.new workspace.new }
{
    let answer = engine::open(program, held, workspace, &mut journal[..n]);
    clear_from(journal, n);
    told::open_line(answer)
}

fn make_convert(
    program: &[u8],
    function: u16,
    ancillae: &[u8],
    fuel: u16,
    n: usize,
    workspace: &mut [u8],
    journal: &mut [u8],
) -> [u8; LINE]
    requires { n ≤ length journal.old }
    ensures { Made program.now (converts function ancillae.now fuel (length workspace.old) n) journal.old workspace.old result journal.new workspace.new }
{
    let answer = engine::convert(
        program,
        function,
        ancillae,
        fuel,
        workspace,
        &mut journal[..n],
    );
    clear_from(journal, n);
    told::turn_line(answer)
}

fn make_rollback(
    program: &[u8],
    fuel: u16,
    n: usize,
    workspace: &mut [u8],
    journal: &mut [u8],
) -> [u8; LINE]
    requires { n ≤ length journal.old }
    ensures { Made program.now (rolls_back fuel (length workspace.old) n) journal.old workspace.old result journal.new workspace.new }
{
    let answer = engine::rollback(program, fuel, workspace, &mut journal[..n]);
    clear_from(journal, n);
    told::turn_line(answer)
}

// The call that a script's part says, and the line that answers it.
#[tactic(auto, unfolding(crate::specs::Scripts::call_of, crate::specs::Scripts::call_as))]
pub(crate) fn make(
    program: &[u8],
    script: &[u8],
    part: Part,
    workspace: &mut [u8],
    journal: &mut [u8],
) -> [u8; LINE]
    requires from_le_next { (part.from ≤ part.next) × (part.next ≤ length script.now) }
    requires n_in_bounds { part.n ≤ length journal.old }
    ensures { Made program.now (call_of (length workspace.old) script.now part) journal.old workspace.old result journal.new workspace.new }
{
    let given = &script[part.from..part.next];
    match part.kind {
        Kind::Open => make_open(program, given, part.n, workspace, journal),
        Kind::Convert { fuel, function } => {
            make_convert(program, function, given, fuel, part.n, workspace, journal)
        }
        Kind::Rollback { fuel } => make_rollback(program, fuel, part.n, workspace, journal),
    }
}

// The end of the journal's last field, or of the buffer where it has not the journal's form.
pub(crate) fn last_field(journal: &[u8]) -> usize
    ensures { result ≡ last_field journal.now }
{
    match journal::form::survey(journal) {
        Some(places) => places.end,
        None => journal.len(),
    }
}
