//! Why relocations or calls of an object's functions can't be resolved.
#![tactic(auto)]

mod error;
mod place;
mod type_relocations;

pub use error::{EbpfRelocationError, RelocationError};
pub use place::RelocationPlace;
pub use type_relocations::{BtfRelocationCause, BtfRelocationError};
