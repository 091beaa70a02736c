//! Type tables rewritten for one kernel: their section `.ksyms`, and the features that the kernel
//! doesn't support (`bpf_object__sanitize_btf` and `bpf_object__collect_externs`,
//! tools/lib/bpf/libbpf.c).
#![tactic(auto)]

mod ksyms_section;
mod ksyms_step;
mod rewrite_btf;
mod rewriting;

pub use btf_sanitize::Answers;
pub use btf_storage::KsymsIds;
pub use rewrite_btf::RewriteBtf;
pub use rewriting::{fixup_and_sanitize, fixup_ksyms_datasec};
