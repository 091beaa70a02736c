//! From an eBPF object to its load plan, what a loader hands to one kernel.
#![tactic(auto)]

mod contents;
mod contents_laws;
mod denied;
mod laws;
mod making;
mod named_functions;
mod numbered;
mod numbering;
mod order;
mod plan_map;
mod planning;
mod rewritten_functions;
mod run_error;
mod running;

pub use btf_ext::{FuncSecInfo, LineSecInfo, bpf_func_info, bpf_line_info};
pub use btf_records::{BtfError, BtfFeature, Endianness};
pub use btf_tables::Btf;
pub use ebpf_object::{
    BtfRelocationCause, BtfRelocationError, CgroupSkbAttachType, CgroupSockAddrAttachType,
    CgroupSockAttachType, CgroupSockoptAttachType, ElfError, GlobalValue, GlobalValues,
    InvalidSection, KsymsError, ParseError, PinningType, ProgramSection, RelocationKind,
    RelocationPlace, SkReuseportAttachType, SkSkbKind, SlotIter, Slots, TakeBytes, Watched,
    XdpAttachType, bpf_insn,
};
pub use laws::orders_agree;
pub use numbering::number_maps;
pub use order::Order;
pub use plan_errors::PrepareError;
pub use plan_text::{
    Answers, MapWords, Plan, PlanMap, PlanProgram, PlanReadError, texts_are_read_back,
};
pub use planning::prepare;
pub use relocation_errors::{EbpfRelocationError, RelocationError};
pub use run_error::RunError;
pub use run_settings::RunSettings;
pub use running::run;
pub use settings::Settings;
