// The run of a call that was admitted (document 01, section 4, rows Run and Output): its values become nodes in the workspace, its
// function is run on them, and the value that it gives fills the output.
#![tactic(auto)]

pub mod ahead;
pub mod back;
pub mod begin;
pub mod ended;
