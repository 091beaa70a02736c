//! Records of the BPF Type Format (BTF) as bytes, as the kernel's BTF documentation lays them out
//! (Documentation/bpf/btf.rst, "Type Encoding").
#![tactic(auto)]

mod item;
mod reading;
mod rewriting;
mod view;
mod writing;

pub use reading::{after, record_len};
pub use rewriting::push_types;
pub use view::TypeRef;
pub use writing::push_type;
