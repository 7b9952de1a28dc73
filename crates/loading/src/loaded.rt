// A program that is accepted, with what loading found of it.
ghost use Rattle.std.specs.Prelude.{take};
ghost use Rattle.program.specs.Places.{Within};
ghost use Rattle.loading.specs.Loading.{AcceptedAs};

use program::entries::Entries;
use program::fields::Counts;
use rules::{MAX_FUNCTIONS, MAX_PARAMETERS, MAX_TERMS, MAX_TYPES};

// An accepted program by its entries: the rows of a call and of a run begin with it.
#[derive(Clone, Copy)]
pub struct AcceptedProgram<'a> {
    pub entries: Entries<'a>,
    ghost accepted: { AcceptedAs entries.program.now entries.types.now entries.terms.now entries.functions.now entries.table.now },
}

// An accepted program with room of its own: the offsets of its entries stand at the fronts of the arrays, as many as were counted.
#[derive(Clone, Copy)]
pub struct Loaded<'a> {
    pub program: &'a [u8],
    pub counts: Counts,
    pub types: [u16; MAX_TYPES],
    pub terms: [u16; MAX_TERMS],
    pub functions: [u16; MAX_FUNCTIONS],
    pub table: [[u16; MAX_PARAMETERS]; MAX_FUNCTIONS],
    ghost within: { Within counts },
    ghost accepted: { AcceptedAs program.now (take counts.types types) (take counts.terms terms) (take counts.functions functions) table },
}

impl Loaded<'_> {
    ghost use Rattle.std.specs.Prelude.{◌≡◌};
    ghost use Rattle.loading.specs.Loads.{program_loaded, program_accepted};

    // What goes on.
    pub fn accepted(&self) -> AcceptedProgram<'_>
        ensures { program_accepted result ≡ program_loaded self.now }
    {
        let i = self.counts.types;
        let j = self.counts.terms;
        let k = self.counts.functions;
        let entries = Entries {
            program: self.program,
            types: &self.types[..i],
            terms: &self.terms[..j],
            functions: &self.functions[..k],
            table: &self.table,
        };
        AcceptedProgram { entries }
    }
}
