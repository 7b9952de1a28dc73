// The limits of document 01 for code, named once: the numbers of specs/Limits.
#![tactic(auto)]

// Programs (section 1).

pub const MAX_TYPES: usize = 256;

pub const MAX_TERMS: usize = 1024;

pub const MAX_FUNCTIONS: usize = 64;

pub const MAX_PROGRAM_BYTES: usize = 32768;

pub const MAX_PARAMETERS: usize = 8;

// Variables in scope at one point.
pub const MAX_VARIABLES: usize = 32;

// Nodes of a type that a term or function names, or that typing gives a term.
pub const MAX_NODES: usize = 1024;

// Values (section 1).

pub const MAX_VALUE_BYTES: usize = 1024;

// Ancillae of one call, together.
pub const MAX_ANCILLA_BYTES: usize = 1024;

// Runs (section 2).

pub const MAX_HEIGHT: usize = 1024;

pub const MAX_FUEL: usize = 65535;

// The workspace needs the base and so many bytes for each unit of fuel.
pub const WORKSPACE_BASE: usize = 32768;

pub const WORKSPACE_PER_FUEL: usize = 32;

// Journals (section 5): standing conversions.
pub const MAX_CONVERSIONS: usize = 64;
