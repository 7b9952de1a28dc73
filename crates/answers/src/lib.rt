// What the calls answer (document 01, section 4). Loading, admission and runs answer these too, so that a refusal goes out as it was met.
// Which number and place a refusal has, and what an answer is in the definitions' terms: specs/Answers.
#![tactic(auto)]

// A refusal by its kind, in the order of section 4's table, 1 to 20, with its place: the offset of a field's first byte (2 to 8), or a
// term entry (12 to 16); the others have none.
#[derive(Clone, Copy, PartialEq, Eq, Debug)]
pub enum Refusal {
    Workspace,
    Field(usize),
    Limit(usize),
    Reference(usize),
    NamedType(usize),
    Mismatch(usize),
    Scope(usize),
    Usage(usize),
    Function,
    Values,
    ValueType,
    Fuel(u16),
    Height(u16),
    Long(u16),
    FirstMatch(u16),
    NoInput(u16),
    Output,
    Journal,
    Standing,
    Full,
}

// Check and open answer only that they accept.
pub type CheckAnswer = Result<(), Refusal>;

// The length of a run's value, or of the record that convert and rollback leave held, and the steps.
#[derive(Clone, Copy, PartialEq, Eq, Debug)]
pub struct Done {
    pub len: u16,
    pub steps: u16,
}

pub type RunAnswer = Result<Done, Refusal>;

// The length of the held value, which the nurse's reader wrote, and how many conversions stand (document 02, F-1).
#[derive(Clone, Copy, PartialEq, Eq, Debug)]
pub struct Shown {
    pub len: u16,
    pub standing: u16,
}

pub type NurseAnswer = Result<Shown, Refusal>;

// How many bytes a call wrote into its output.
pub type WriteAnswer = Result<usize, Refusal>;
