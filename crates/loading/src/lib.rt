// A program, read and typed: rows Field reading, Entries and Typing of document 01's section 4 (refusals 2 to 8), against
// calls/specs/Load. What is loaded has the offsets of the entries' fields, so that a run finds them there, and the functions' signatures, so
// that admission asks them.
#![tactic(auto)]

ghost use Rattle.std.specs.Prelude.{◌≤◌, ◌≡◌, Err, List, ℕ, length};
ghost use Rattle.entries.specs.Tested as tests;
ghost use Rattle.entries.specs.Tested.{EntriesTested};
ghost use Rattle.program.specs.Places.{Placed, Buffers, answer_of};
ghost use Rattle.program.specs.Signatures.{unsigned, SignaturesAre};
ghost use Rattle.types.specs.Layout.{typing_bytes};
ghost use Rattle.typing.specs.Checked as types;
ghost use Rattle.loading.specs.Loading.{Refuses, Examined, LoadMeans};
ghost use Rattle.loading.specs.Loads.{Loads, AcceptsMeans};
ghost use Rattle.loading.specs.Tally.{Untallied, TallyMeans};

// the program that was loaded
pub mod loaded;
// room for one, which a caller lends
pub mod room;

use crate::loaded::Loaded;
use crate::room::Room;
use answers::Refusal;
use entries::measures::Tally;
use entries::testing;
use entries::testing::{EntryError, Tested};
use program::entries::Entries;
use program::fields;
use program::fields::{Counts, FieldError};
use rules::{MAX_FUNCTIONS, MAX_PARAMETERS, MAX_TERMS, MAX_TYPES};
use typing::functions;
use typing::functions::TypingError;

// The refusals of the three rows.
// Kept: functions for `map_err` and no `impl From`, which the language refuses here, since neither type is of this crate.

fn field_refusal(e: FieldError) -> Refusal
    ensures { (types terms functions : List ℕ) → Refuses result (answer_of (Err e) types terms functions) }
{
    match e {
        FieldError::Malformed(at) => Refusal::Field(at),
        FieldError::Over(at) => Refusal::Limit(at),
    }
}

fn entry_refusal(e: EntryError) -> Refusal
    ensures { Refuses result (tests.verdict_of (Err e)) }
{
    match e {
        EntryError::BadReference(at) => Refusal::Reference(at),
        EntryError::BadType(at) => Refusal::NamedType(at),
    }
}

fn typing_refusal(e: TypingError) -> Refusal
    ensures { Refuses result (types.verdict_of (Err e)) }
{
    match e {
        TypingError::Differ(at) => Refusal::Mismatch(at),
        TypingError::Unscoped(at) => Refusal::Scope(at),
        TypingError::Misused(at) => Refusal::Usage(at),
    }
}

// Row Entries, whose tests are made, then row Typing, which counts no nodes: it has the counts.
fn judge(
    entries: Entries,
    counts: Counts,
    tested: Tested,
    nodes: &[u16; MAX_TYPES],
    ws: &mut [u8],
) -> Result<Counts, Refusal>
    requires placed { Placed entries.program.now entries.types.now entries.terms.now entries.functions.now }
    requires typing_bytes_in_bounds { typing_bytes ≤ length ws.old }
    requires signatures_are { SignaturesAre entries.program.now entries.functions.now entries.table.now }
    requires entries_tested { EntriesTested entries.program.now entries.types.now entries.terms.now entries.functions.now nodes.now tested }
    ensures { Examined result counts entries.entry.program.now entries.entry.types.now entries.entry.terms.now entries.entry.functions.now entries.entry.table.now }
{
    tested.verdict.map_err(entry_refusal)?;
    functions::check_functions(&entries, nodes, ws).map_err(typing_refusal)?;
    Ok(counts)
}

// What loading answers: how many entries of each tag are ready, at the fronts of the buffers, or refusal 2 to 8 at a field's offset. Beside
// it the tally of the counts of type nodes that were made, and the table that keeps them (document 02, F-4).
#[derive(Clone, Copy)]
pub struct TalliedLoad {
    pub loaded: Result<Counts, Refusal>,
    pub tally: Tally,
    pub counts: [u16; MAX_TYPES],
}

// A refusal before any type was counted.
fn untallied(refusal: Refusal) -> TalliedLoad
    ensures { Untallied result (Err refusal) }
{
    TalliedLoad {
        loaded: Err(refusal),
        tally: Tally { counted: 0 },
        counts: [0u16; MAX_TYPES],
    }
}

// Both rows, for fields that are read, with the tally.
fn examine(entries: Entries, counts: Counts, ws: &mut [u8]) -> TalliedLoad
    requires placed { Placed entries.program.now entries.types.now entries.terms.now entries.functions.now }
    requires typing_bytes_in_bounds { typing_bytes ≤ length ws.old }
    requires signatures_are { SignaturesAre entries.program.now entries.functions.now entries.table.now }
    ensures examined { Examined result.loaded counts entries.entry.program.now entries.entry.types.now entries.entry.terms.now entries.entry.functions.now entries.entry.table.now }
    ensures tally_means { TallyMeans result entries.entry.program.now }
{
    let mut nodes = [0u16; MAX_TYPES];
    let tested = testing::test_entries(
        entries.program,
        entries.types,
        entries.terms,
        entries.functions,
        &mut nodes,
    );
    let tally = tested.tally;
    let loaded = judge(entries, counts, tested, &nodes, ws);
    TalliedLoad {
        loaded,
        tally,
        counts: nodes,
    }
}

// All three rows, with the tally, in buffers that the caller lends. The workspace is room for the types that typing makes; the table is left
// with the signatures of the functions.
pub fn load_tallied(
    p: &[u8],
    types: &mut [u16],
    terms: &mut [u16],
    functions: &mut [u16],
    table: &mut [[u16; MAX_PARAMETERS]; MAX_FUNCTIONS],
    ws: &mut [u8],
) -> TalliedLoad
    requires buffers { Buffers types.old terms.old functions.old }
    requires typing_bytes_in_bounds { typing_bytes ≤ length ws.old }
    requires table_value { table.old ≡ unsigned }
    ensures load_means { LoadMeans result.loaded p.now types.new terms.new functions.new table.new }
    ensures tally_means { TallyMeans result p.now }
{
    match fields::layout(p, types, terms, functions, table) {
        Ok(counts) => {
            let i = counts.types;
            let j = counts.terms;
            let k = counts.functions;
            let entries = Entries {
                program: p,
                types: &types[..i],
                terms: &terms[..j],
                functions: &functions[..k],
                table,
            };
            examine(entries, counts, ws)
        }
        Err(e) => untallied(field_refusal(e)),
    }
}

// All three rows, for callers that do not ask for the tally: what is loaded has the arrays.
pub fn load<'a>(program: &'a [u8], workspace: &mut [u8]) -> Result<Loaded<'a>, Refusal>
    requires { typing_bytes ≤ length workspace.old }
    ensures { Loads result program.now }
{
    let mut types = [0u16; MAX_TYPES];
    let mut terms = [0u16; MAX_TERMS];
    let mut functions = [0u16; MAX_FUNCTIONS];
    let mut table = [[0u16; MAX_PARAMETERS]; MAX_FUNCTIONS];
    let tallied = load_tallied(
        program,
        &mut types,
        &mut terms,
        &mut functions,
        &mut table,
        workspace,
    );
    let counts = tallied.loaded?;
    Ok(Loaded {
        program,
        counts,
        types,
        terms,
        functions,
        table,
    })
}

// All three rows, for callers that ask only whether the program is accepted: no array is handed back.
pub fn accepts(program: &[u8], workspace: &mut [u8]) -> Result<(), Refusal>
    requires { typing_bytes ≤ length workspace.old }
    ensures { AcceptsMeans result program.now }
{
    let mut room = Room::new();
    match room::load_into(program, &mut room, workspace) {
        Ok(_) => Ok(()),
        Err(refusal) => Err(refusal),
    }
}
