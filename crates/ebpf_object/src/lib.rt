//! Parsed eBPF objects, and the items of the crates that make them up.
#![tactic(auto)]

mod copies;
mod externs;
mod globals;
mod hashed;
mod object;
mod rewriting;
mod slots;
mod text_sections;
mod type_relocations;

pub use btf_ext::{BtfExt, FuncSecInfo, LineSecInfo, bpf_func_info, bpf_line_info};
pub use btf_records::{BtfError, BtfFeature, Endianness};
pub use btf_rewrite::{Answers, KsymsIds};
pub use btf_tables::Btf;
pub use ebpf_items::{
    BtfMap, BtfMapDef, CgroupSkbAttachType, CgroupSockAddrAttachType, CgroupSockAttachType,
    CgroupSockoptAttachType, EbpfSectionKind, InvalidSection, InvalidTypeBinding, LegacyMap, Map,
    MapWord, ParseError, PinningError, PinningType, ProgramSection, RelocationKind,
    SkReuseportAttachType, SkSkbKind, SlotIter, Slots, Watched, XdpAttachType, bpf_attach_type,
    bpf_insn, bpf_map_def, bpf_map_info, bpf_map_type, bpf_prog_type, copy_instructions,
    parse_map_info,
};
pub use elf64::{ElfError, RelocView, SectionView, SymbolKind, SymbolView};
pub use extern_resolution::KsymsError;
pub use object::Object;
pub use object_externs::{ExternDesc, Externs};
pub use object_file::{ObjectFile, OpenedFile, ReadSection, ReadSymbol, unnamed_symbol};
pub use object_maps::Maps;
pub use object_parse::{function_without_code, name_at};
pub use object_parts::{Function, Functions, MatchedTables, Program, Programs};
pub use relocation_errors::{
    BtfRelocationCause, BtfRelocationError, EbpfRelocationError, RelocationError, RelocationPlace,
};
pub use settings::{GlobalValue, GlobalValues};
pub use slot_relocation::NumberedMap;
pub use watched::TakeBytes;
