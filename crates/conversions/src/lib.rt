// Open, convert and rollback from the rows of the program on (document 01, sections 4 and 5).
#![tactic(auto)]

// open: the first record
pub mod opening;
// convert: one conversion more
pub mod converting;
// rollback: the newest conversion struck
pub mod returning;
// the same for a program in bytes: its rows come first
pub mod programs;
