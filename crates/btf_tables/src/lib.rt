//! Type tables of the BPF Type Format (BTF), over the bytes that they were read from
//! (Documentation/bpf/btf.rst, "BTF Type and String Encoding").
#![tactic(auto)]

mod essential_names;
mod growing;
mod half_words;
mod lookup;
mod section;
mod table;

pub use btf_storage::{Strings, Types};
pub use essential_names::essential_name;
pub use table::Btf;
