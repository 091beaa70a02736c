//! The resolution of a program's externs in the kernel (libbpf's `bpf_object__resolve_externs`).
#![tactic(auto)]

mod addressed;
mod error;
mod kernel_records;
mod resolving;
mod typed;

pub use error::KsymsError;
pub use resolving::resolve_externs;
