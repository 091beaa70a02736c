//! Items of an eBPF object: instruction slots, maps, and watched readers and writers.
#![tactic(auto)]

mod error;
mod instruction;
mod maps;
mod relocation_kind;
mod slot_list;

pub use error::ParseError;
pub use instruction::bpf_insn;
pub use maps::{
    BtfMap, BtfMapDef, LegacyMap, Map, MapWord, PinningError, PinningType, bpf_map_def,
    bpf_map_info, parse_map_info,
};
pub use program_kinds::{
    CgroupSkbAttachType, CgroupSockAddrAttachType, CgroupSockAttachType, CgroupSockoptAttachType,
    InvalidSection, InvalidTypeBinding, ProgramSection, SkReuseportAttachType, SkSkbKind,
    XdpAttachType, attach, bindings, bpf_attach_type, bpf_map_type, bpf_prog_type, program_section,
};
pub use relocation_kind::RelocationKind;
pub use section_kinds::{EbpfSectionKind, section_kind};
pub use slot_list::{SlotIter, Slots, copy_instructions};
pub use watched::Watched;
