// Values from bytes (document 01, section 1): where a value ends, how many values there are, the parts of a pair, and whether a value
// is of a type. Nothing here copies a value: a part of one is a part of the caller's slice.
#![tactic(auto)]

// the kinds of values, by their first bytes
pub mod kinds;
// where values end, and the parts of a pair
pub mod scan;
// the type entries of a program, and the parts that they promise
pub mod table;
// a walk over a value's bytes by types
pub mod walk;
// whether a value is of a type
pub mod typed;
