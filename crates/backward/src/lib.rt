// Backward evaluation (section 2): what the variables of a term are, if the term gives a value; or the refusal that it meets, by the rules'
// `backward`.
#![tactic(auto)]

pub mod arguments;
pub mod eval;
pub mod outcomes;
pub mod start;
