// Room that a caller lends for what loading finds, so that a program goes on by references and no array is handed back.
ghost use Rattle.std.specs.Prelude.{◌≡◌, ◌≤◌, length};
ghost use Rattle.program.specs.Signatures.{unsigned};
ghost use Rattle.types.specs.Layout.{typing_bytes};
ghost use Rattle.loading.specs.Loads.{LoadsInto};

use crate::load_tallied;
use crate::loaded::AcceptedProgram;
use answers::Refusal;
use program::entries::Entries;
use rules::{MAX_FUNCTIONS, MAX_PARAMETERS, MAX_TERMS, MAX_TYPES};

// The offsets of the entries, as many as section 1 of document 01 allows, and the signatures of the functions.
#[derive(Drop)]
pub struct Room {
    pub types: [u16; MAX_TYPES],
    pub terms: [u16; MAX_TERMS],
    pub functions: [u16; MAX_FUNCTIONS],
    pub table: [[u16; MAX_PARAMETERS]; MAX_FUNCTIONS],
}

impl Room {
    // Room in which nothing was loaded yet.
    pub fn new() -> Room
        ensures { result.table ≡ unsigned }
    {
        Room {
            types: [0u16; MAX_TYPES],
            terms: [0u16; MAX_TERMS],
            functions: [0u16; MAX_FUNCTIONS],
            table: [[0u16; MAX_PARAMETERS]; MAX_FUNCTIONS],
        }
    }
}

// All three rows: what is accepted stands at the fronts of the room.
pub fn load_into<'a>(
    program: &'a [u8],
    room: &'a mut Room,
    workspace: &mut [u8],
) -> Result<AcceptedProgram<'a>, Refusal>
    requires typing_bytes_in_bounds { typing_bytes ≤ length workspace.old }
    requires unsigned_yet { room.old.table ≡ unsigned }
    ensures { LoadsInto result program.now }
{
    let tallied = load_tallied(
        program,
        &mut room.types,
        &mut room.terms,
        &mut room.functions,
        &mut room.table,
        workspace,
    );
    let counts = tallied.loaded?;
    let i = counts.types;
    let j = counts.terms;
    let k = counts.functions;
    let entries = Entries {
        program,
        types: &room.types[..i],
        terms: &room.terms[..j],
        functions: &room.functions[..k],
        table: &room.table,
    };
    Ok(AcceptedProgram { entries })
}
