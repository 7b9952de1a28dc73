// Forward evaluation (section 2): the value of a term, or the refusal that it meets, by the rules' `forward`.
#![tactic(auto)]

pub mod eval;
pub mod outcomes;
