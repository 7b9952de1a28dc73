// What is in scope while a term runs: nodes of the value graph by variable number. Scopes stand in lent numbers, with the machine before them;
// backward, what variables are bound to is a state by value, over cells in the value graph, and the slots of a scope find its cells.
#![tactic(auto)]

pub mod bindings;
pub mod slots;
pub mod state;
