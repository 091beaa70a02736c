//! Whether types of two tables are compatible (`__bpf_core_types_are_compat` and
//! `bpf_core_fields_are_compat`, tools/lib/bpf/relo_core.c).
#![tactic(auto)]

mod compatibility;
mod fields;
mod laws;
mod pairs;

pub use compatibility::types_are_compatible;
pub use fields::fields_are_compatible;
pub use laws::comparisons_rest;
