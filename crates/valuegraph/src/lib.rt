// Values in lent bytes.
#![tactic(auto)]

pub mod kinds; // kinds.rt: the kinds of nodes
pub mod nodes; // nodes.rt: the value graph
