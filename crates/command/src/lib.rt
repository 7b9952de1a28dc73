// The commands that make one call and report its answer in words: what is pure of them, so that the program above is thin.
#![tactic(auto)]

// what each call answered, as text
pub mod reports;
// the calls, made and reported
pub mod single;
// the readers of a journal, made and reported
pub mod readings;
// what playing a script answered, as text
pub mod plays;
