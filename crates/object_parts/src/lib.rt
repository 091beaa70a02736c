//! The parts of an object: its programs by name, and its functions by section and address.
#![tactic(auto)]

mod by_name;
mod function;
mod functions;
mod laws;
mod matched_tables;
mod program;

pub use by_name::Programs;
pub use function::{Function, SLOT_SIZE};
pub use functions::{Code, Functions};
pub use laws::changes_are_installed;
pub use matched_tables::MatchedTables;
pub use program::Program;
