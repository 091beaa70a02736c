//! How type records are rewritten for a kernel that lacks features of the BPF Type Format
//! (Documentation/bpf/btf.rst), kind by kind, as libbpf sanitizes a table (tools/lib/bpf/libbpf.c).
#![tactic(auto)]

mod additions;
mod answers;
mod func_proto;
mod items;
mod known;
mod names;
mod own_texts;
mod rows;
mod section;
mod staying;
mod table;

pub use answers::{Answers, ask_all};
pub use known::Known;
pub use table::{SanitizedTable, sanitize};
