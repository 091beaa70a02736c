//! What an eBPF object holds after parsing, as text: an item a line.
#![tactic(auto)]

mod code;
mod error;
mod externs;
mod file;
mod inspecting;
mod maps;
mod names;
mod notes;
mod type_relocations;

pub use error::InspectError;
pub use inspecting::inspect;
