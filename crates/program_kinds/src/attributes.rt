//! The attributes of a program by its kind.

ghost use Rattle.std.specs.Prelude.{◌≡◌};
ghost use Rattle.program_kinds.specs.Attributes.{attributes_of, flag};

use crate::bindings::{bpf_attach_type, bpf_prog_type};
use crate::numbers::{
    BPF_CGROUP_DEVICE, BPF_CGROUP_SOCK_OPS, BPF_CGROUP_SYSCTL, BPF_F_SLEEPABLE,
    BPF_F_XDP_HAS_FRAGS, BPF_FLOW_DISSECTOR, BPF_LIRC_MODE2, BPF_LSM_CGROUP, BPF_LSM_MAC,
    BPF_SK_LOOKUP, BPF_SK_MSG_VERDICT, BPF_TRACE_FENTRY, BPF_TRACE_FEXIT, BPF_TRACE_ITER,
    BPF_TRACE_RAW_TP, BPF_TRACE_UPROBE_MULTI,
};
use crate::program_section::ProgramSection;

/// The attributes of `BPF_PROG_LOAD` that depend on a program's kind.
#[derive(Clone, Copy, Debug, PartialEq, Eq)]
pub struct LoadAttributes {
    /// `prog_type`
    pub prog_type: bpf_prog_type,
    /// `expected_attach_type`, a number of the kernel's `enum bpf_attach_type`; where there is none
    /// a loader passes 0.
    pub expected_attach_type: Option<u32>,
    /// `prog_flags`
    pub flags: u32,
}

/// The attributes of a program of a kind, by the kernel's `bpf.h` and libbpf's `section_defs`:
/// `specs/Attributes.antt` has the table.
pub fn load_attributes(kind: &ProgramSection) -> LoadAttributes
    ensures { result ≡ attributes_of kind.now }
{
    LoadAttributes {
        prog_type: prog_type_of(kind),
        expected_attach_type: attach_type_of(kind),
        flags: flags_of(kind),
    }
}

fn prog_type_of(kind: &ProgramSection) -> bpf_prog_type
    ensures { result ≡ (attributes_of kind.now).prog_type }
{
    match kind {
        ProgramSection::KRetProbe | ProgramSection::KProbe => bpf_prog_type::BPF_PROG_TYPE_KPROBE,
        ProgramSection::UProbe { .. } => bpf_prog_type::BPF_PROG_TYPE_KPROBE,
        ProgramSection::URetProbe { .. } => bpf_prog_type::BPF_PROG_TYPE_KPROBE,
        ProgramSection::TracePoint => bpf_prog_type::BPF_PROG_TYPE_TRACEPOINT,
        ProgramSection::SocketFilter => bpf_prog_type::BPF_PROG_TYPE_SOCKET_FILTER,
        ProgramSection::Xdp { .. } => bpf_prog_type::BPF_PROG_TYPE_XDP,
        ProgramSection::SkMsg => bpf_prog_type::BPF_PROG_TYPE_SK_MSG,
        ProgramSection::SkSkbStream { .. } => bpf_prog_type::BPF_PROG_TYPE_SK_SKB,
        ProgramSection::SockOps => bpf_prog_type::BPF_PROG_TYPE_SOCK_OPS,
        ProgramSection::SchedClassifier => bpf_prog_type::BPF_PROG_TYPE_SCHED_CLS,
        ProgramSection::CgroupSkb { .. } => bpf_prog_type::BPF_PROG_TYPE_CGROUP_SKB,
        ProgramSection::CgroupSockAddr { .. } => bpf_prog_type::BPF_PROG_TYPE_CGROUP_SOCK_ADDR,
        ProgramSection::CgroupSysctl => bpf_prog_type::BPF_PROG_TYPE_CGROUP_SYSCTL,
        ProgramSection::CgroupSockopt { .. } => bpf_prog_type::BPF_PROG_TYPE_CGROUP_SOCKOPT,
        ProgramSection::LircMode2 => bpf_prog_type::BPF_PROG_TYPE_LIRC_MODE2,
        ProgramSection::PerfEvent => bpf_prog_type::BPF_PROG_TYPE_PERF_EVENT,
        ProgramSection::RawTracePoint => bpf_prog_type::BPF_PROG_TYPE_RAW_TRACEPOINT,
        ProgramSection::Lsm { .. } => bpf_prog_type::BPF_PROG_TYPE_LSM,
        ProgramSection::LsmCgroup => bpf_prog_type::BPF_PROG_TYPE_LSM,
        ProgramSection::BtfTracePoint => bpf_prog_type::BPF_PROG_TYPE_TRACING,
        ProgramSection::FEntry { .. } => bpf_prog_type::BPF_PROG_TYPE_TRACING,
        ProgramSection::FExit { .. } => bpf_prog_type::BPF_PROG_TYPE_TRACING,
        ProgramSection::FlowDissector => bpf_prog_type::BPF_PROG_TYPE_FLOW_DISSECTOR,
        ProgramSection::Extension => bpf_prog_type::BPF_PROG_TYPE_EXT,
        ProgramSection::SkLookup => bpf_prog_type::BPF_PROG_TYPE_SK_LOOKUP,
        ProgramSection::SkReuseport { .. } => bpf_prog_type::BPF_PROG_TYPE_SK_REUSEPORT,
        ProgramSection::CgroupSock { .. } => bpf_prog_type::BPF_PROG_TYPE_CGROUP_SOCK,
        ProgramSection::CgroupDevice => bpf_prog_type::BPF_PROG_TYPE_CGROUP_DEVICE,
        ProgramSection::Iter { .. } => bpf_prog_type::BPF_PROG_TYPE_TRACING,
    }
}

fn attach_type_of(kind: &ProgramSection) -> Option<u32>
    ensures { result ≡ (attributes_of kind.now).expected_attach_type }
{
    match kind {
        ProgramSection::UProbe { multi: true, .. } => Some(BPF_TRACE_UPROBE_MULTI),
        ProgramSection::URetProbe { multi: true, .. } => Some(BPF_TRACE_UPROBE_MULTI),
        ProgramSection::SkMsg => Some(BPF_SK_MSG_VERDICT),
        ProgramSection::SockOps => Some(BPF_CGROUP_SOCK_OPS),
        ProgramSection::CgroupSysctl => Some(BPF_CGROUP_SYSCTL),
        ProgramSection::LircMode2 => Some(BPF_LIRC_MODE2),
        ProgramSection::Lsm { .. } => Some(BPF_LSM_MAC),
        ProgramSection::LsmCgroup => Some(BPF_LSM_CGROUP),
        ProgramSection::BtfTracePoint => Some(BPF_TRACE_RAW_TP),
        ProgramSection::FEntry { .. } => Some(BPF_TRACE_FENTRY),
        ProgramSection::FExit { .. } => Some(BPF_TRACE_FEXIT),
        ProgramSection::FlowDissector => Some(BPF_FLOW_DISSECTOR),
        ProgramSection::SkLookup => Some(BPF_SK_LOOKUP),
        ProgramSection::CgroupDevice => Some(BPF_CGROUP_DEVICE),
        ProgramSection::Iter { .. } => Some(BPF_TRACE_ITER),
        ProgramSection::Xdp { attach_type, .. } => {
            Some(bpf_attach_type::from(*attach_type).number())
        }
        ProgramSection::SkSkbStream { kind } => Some(bpf_attach_type::from(*kind).number()),
        ProgramSection::CgroupSkb {
            attach_type: Some(way),
        } => { Some(bpf_attach_type::from(*way).number()) }
        ProgramSection::CgroupSockAddr { attach_type } => {
            Some(bpf_attach_type::from(*attach_type).number())
        }
        ProgramSection::CgroupSockopt { attach_type } => {
            Some(bpf_attach_type::from(*attach_type).number())
        }
        ProgramSection::SkReuseport { attach_type } => {
            Some(bpf_attach_type::from(*attach_type).number())
        }
        ProgramSection::CgroupSock { attach_type } => {
            Some(bpf_attach_type::from(*attach_type).number())
        }
        _ => None,
    }
}

/// `value` if the flag is set, else 0.
fn flag(is_set: bool, value: u32) -> u32
    ensures { result ≡ flag is_set value }
{
    if is_set { value } else { 0 }
}

fn flags_of(kind: &ProgramSection) -> u32
    ensures { result ≡ (attributes_of kind.now).flags }
{
    match kind {
        ProgramSection::UProbe { sleepable, .. } => flag(*sleepable, BPF_F_SLEEPABLE),
        ProgramSection::URetProbe { sleepable, .. } => flag(*sleepable, BPF_F_SLEEPABLE),
        ProgramSection::Xdp { frags, .. } => flag(*frags, BPF_F_XDP_HAS_FRAGS),
        ProgramSection::Lsm { sleepable } => flag(*sleepable, BPF_F_SLEEPABLE),
        ProgramSection::FEntry { sleepable } => flag(*sleepable, BPF_F_SLEEPABLE),
        ProgramSection::FExit { sleepable } => flag(*sleepable, BPF_F_SLEEPABLE),
        ProgramSection::Iter { sleepable } => flag(*sleepable, BPF_F_SLEEPABLE),
        _ => 0,
    }
}
