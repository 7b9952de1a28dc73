// The journal's bytes (document 01, section 5): whether they have its form, what they say of the held value, of the conversions' fields and of the
// newest conversion, and how open, convert and rollback write them anew. The calls that use these stand in the crates above.
#![tactic(auto)]

// where the fields of a journal stand
pub mod places;
// the test of the form (18), in one pass
pub mod form;
// the held value, the conversions' fields and the newest conversion
pub mod parts;
// whether a new journal fits (20), and writing it in place
pub mod writing;
