// Typing (document 01, section 4, row Typing): functions in order, and the type of a term, or the refusal 6, 7 or 8 that it meets, by the
// rules' `check_funs` and `infer`.
#![tactic(auto)]

pub mod outcomes; // outcomes.rt: what typing a term answers, and scopes
pub mod subject; // subject.rt: what is typed
pub mod namings; // namings.rt: namings that wait, in lent bytes
pub mod variables; // variables.rt: the types of variables in lent bytes
pub mod tests; // tests.rt: the tests after a part is typed
pub mod leaves; // leaves.rt: where the field of an entry starts; the unit type
pub mod infer; // infer.rt: terms, in a cycle with binds and calling
pub mod binds; // binds.rt: terms that bind variables
pub mod calling; // calling.rt: calls
pub mod functions; // functions.rt: the functions of a program in order
