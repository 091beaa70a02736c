//! Kinds of programs and maps, by their names and by the kernel's numbers.
#![tactic(auto)]

pub mod attach;
mod attributes;
pub mod bindings;
mod numbers;
pub mod program_section;

pub use attach::{
    CgroupSkbAttachType, CgroupSockAddrAttachType, CgroupSockAttachType, CgroupSockoptAttachType,
    SkReuseportAttachType, SkSkbKind, XdpAttachType,
};
pub use attributes::{LoadAttributes, load_attributes};
pub use bindings::{InvalidTypeBinding, bpf_attach_type, bpf_map_type, bpf_prog_type};
pub use program_section::{InvalidSection, ProgramSection};
