// A script of journal calls (document 01, section 5), played on one program, one workspace and one journal's buffer, so that demand 3
// is a promise of one call.
#![tactic(auto)]

// reading a script
pub mod scripts;
// the lines that answer its calls
pub mod told;
// what playing answers
pub mod replies;
// one call
pub mod making;
// all calls
pub mod playing;

pub use playing::replay;
