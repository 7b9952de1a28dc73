// The rows of document 01's section 4 for a program in bytes: the workspace's test, and in a workspace that is long enough each row's tests
// in order.
#![tactic(auto)]

pub mod checking;
pub mod preparing;
pub mod running;
