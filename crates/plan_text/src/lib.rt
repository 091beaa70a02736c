//! Load plans, what a loader hands to one kernel, and their text.
#![tactic(auto)]

mod laws;
mod limits;
mod map_lines;
mod plan;
mod program_lines;
mod reading;
mod writing;

pub use btf_ext::{FuncSecInfo, LineSecInfo, bpf_func_info, bpf_line_info};
pub use btf_records::BtfFeature;
pub use btf_sanitize::Answers;
pub use ebpf_items::{PinningType, ProgramSection, Slots, Watched, bpf_insn};
pub use laws::texts_are_read_back;
pub use plan::{Plan, PlanMap, PlanParts, PlanProgram, plan_of_parts};
pub use plan_lines::MapWords;
pub use reading::PlanReadError;
