// Programs as bytes: reading their fields and entries, against calls/specs/Fields and Entries.
#![tactic(auto)]

pub mod entries;
pub mod fields;
pub mod kinds;
pub mod reader;
pub mod signatures;
pub mod tags;
pub mod views;
