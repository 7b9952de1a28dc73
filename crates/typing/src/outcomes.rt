// Outcomes of typing, and the scope that a term is typed in. specs/Outcomes says what an outcome means.
use types::codes::Code;
use varsets::Uses;

// The variables in scope, n of them: the first q are ancilla parameters, those from q on and below lo are barred; `owed` are those that
// must be used, `marks` those whose namings a let could help (document 02, F-2). Their types, and the namings that wait, stand in lent bytes.
#[derive(Clone, Copy)]
pub struct Scope {
    pub q: u8,
    pub lo: u8,
    pub n: u8,
    pub owed: Uses,
    pub marks: Uses,
}

// The type of a term, and the variables that it uses.
#[derive(Clone, Copy)]
pub struct Found {
    pub code: Code,
    pub uses: Uses,
}

// Refusals 6 to 8 (section 4), each with its term. The term's number is as wide as the widest part of `Found`, so that a `Result` of the two
// lies alike in memory whichever it is: an outcome is then copied in the widths in which it was written.
#[derive(Clone, Copy, PartialEq, Eq, Debug)]
pub enum Fault {
    Differ(u32),
    Unscoped(u32),
    Misused(u32),
}
