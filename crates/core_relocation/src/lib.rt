//! Type relocations: what a kernel's types give to the instructions of an object's functions ("BTF
//! CO-RE relocations"; tools/lib/bpf/relo_core.c).
//!
//! The relocations are made one after the other, on copies of the functions: the relocation's
//! function is found, the relocation is resolved in the kernel's types, and the result is written.
//! The copies replace the functions once all relocations are made.
#![tactic(auto)]

mod cause;
mod conflicting;
mod laws;
mod lookup;
mod place;
mod placed_relocation;
mod relocation;
mod section_infos;
mod texts;
mod write;

pub use core_patch::{Patch, Width, WriteError};
pub use laws::{reach_is_least, relocations_rest, types_are_written};
pub use lookup::function_holding;
pub use placed_relocation::PlacedRelocation;
pub use relocation::relocate_types;
