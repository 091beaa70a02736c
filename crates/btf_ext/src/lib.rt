//! The section `.BTF.ext`, which describes the instructions of an object: the functions and the
//! lines that they come from, and the type relocations that apply to them
//! (Documentation/bpf/btf.rst, "BTF.ext section").
#![tactic(auto)]

mod extension;
mod header;
mod named_records;
mod record;
mod region;
mod relocations;
mod sec_info;
mod section_info_list;

pub use extension::{BtfExt, FuncInfo};
pub use named_records::NamedRecords;
pub use record::{bpf_core_relo, bpf_func_info, bpf_line_info};
pub use relocations::{SecInfo, SecInfoIter};
pub use sec_info::{FuncSecInfo, LineSecInfo};
