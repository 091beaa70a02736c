//! What the kernel makes of types: records that it refuses, and the words of a program's context.
#![tactic(auto)]

mod contexts;
mod members;
mod names;
mod records;

pub use contexts::context_words;
pub use records::{RefusedType, TypeFault, refused_type};
