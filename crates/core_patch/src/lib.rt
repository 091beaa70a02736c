//! What type relocations do to instructions (`bpf_core_patch_insn`, tools/lib/bpf/relo_core.c).
#![tactic(auto)]

mod instruction;
mod patch;

pub use instruction::{WriteError, patched};
pub use patch::{Patch, Width, patch_of};
