//! Resolving type relocations against the kernel's types (`bpf_core_calc_relo_insn`,
//! tools/lib/bpf/relo_core.c).
#![tactic(auto)]

mod error;
mod known;
mod laws;
mod matcher;
mod matches;
mod paths;
mod relocation;
mod resolved;

pub use core_match::KernelType;
pub use error::TypeRelocationError;
pub use laws::{lists_of_one_table, outcomes_rest};
pub use matcher::TypeMatcher;
pub use matches::{Match, kernel_matches};
pub use relocation::{RelocationOutcome, TypeRelocation, relocation_outcome};
pub use resolved::{Resolved, conflicts, outcome_of};
