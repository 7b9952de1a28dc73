// The tests on a program's entries, against calls/specs/Named.
#![tactic(auto)]

mod figured;
pub mod measures;
pub mod testing;
