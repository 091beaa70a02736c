//! What an object's file holds: its types, and the contents of its sections.
#![tactic(auto)]

mod contents;
mod types;

pub use contents::{Contents, read_contents};
pub use types::{Types, read_types};
