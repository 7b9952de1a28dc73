// A program decoded: rows of numbers, one for each term and each function, so that a run reads no byte of the program. A row says what the
// entry's field says (specs/Rows).
#![tactic(auto)]

pub mod decode;
pub mod naming;
pub mod rows;
