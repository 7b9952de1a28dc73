// The public calls (document 01, section 4; document 02, F-1): none asks anything of its caller, and each contract is an equation with calls/specs.
// The readers of a journal take no workspace, and are handed on as they are.
#![tactic(auto)]

pub mod checking;
pub mod keeping;
pub mod running;
// what four of the calls share: the workspace's test before, its clearing after
mod serving;

pub use checking::check;
pub use keeping::{convert, open, rollback};
pub use readers::{nurse, workshop};
pub use running::{backward, forward};
