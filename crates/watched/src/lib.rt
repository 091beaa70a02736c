//! Readers and writers that record whether a call failed.
#![tactic(auto)]

mod watch;

pub use watch::{TakeBytes, Watched};
