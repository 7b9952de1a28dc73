// Calls and answers as text (tests/second/README.md has the form): what is pure of the command line, so that the program above it is thin.
#![tactic(auto)]

// bytes as hexadecimal digits
pub mod hexadecimal;
// numbers as decimal digits
pub mod decimal;
// the words of a line, between single spaces
pub mod words;
// the call that a line says
pub mod calls;
// answers as lines
pub mod answers;
