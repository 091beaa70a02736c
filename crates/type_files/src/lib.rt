//! Files with types of a kernel: what a file is by its first bytes, and which of its bytes are the
//! table.
#![tactic(auto)]

mod fault;
mod formats;
mod starts;
mod tables;

pub use fault::TypesFault;
pub use formats::FileFormat;
pub use starts::{FileStart, start_of};
pub use tables::{FoundTypes, types_in};
