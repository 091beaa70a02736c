//! The externs of an object: the kernel's functions and variables that its programs use (libbpf's
//! `bpf_object__collect_externs`; Documentation/bpf/btf.rst, "BTF_KIND_DATASEC").
#![tactic(auto)]

mod entries;
mod extern_desc;
mod externs;
mod first_symbols;
mod placeholder;
mod reading;
mod section;
mod symbols;

pub use extern_desc::ExternDesc;
pub use externs::Externs;
pub use reading::{declared_externs, read_externs};
pub use symbols::is_extern_symbol;
