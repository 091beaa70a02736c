//! The copies of functions that a program of a plan consists of.
//!
//! A linked program is its own function and behind it a copy of each function that it reaches, one
//! after the other. The slots that refer to functions tell where each copy begins.
#![tactic(auto)]

mod copies;
mod walk;

pub use copies::{FunctionCopy, FunctionKey, ObjectFunctions, slot_after};
pub use walk::copies_of;
