//! Kinds of programs, by the names of their sections.

ghost use Rattle.std.specs.Prelude.{◌≡◌, Some};
ghost use Rattle.std.specs.Option.{option_copied, option_map};
ghost use Rattle.std.specs.Result.{result_ok};
ghost use Rattle.program_kinds.specs.ProgramSection.{first_piece, second_piece, kind_of_name, kind_of_pieces, kind_by_first, unparted_kind, kind_by_second, parted_kind, plain_kinds, user_probe_kinds, sleepable_kinds, xdp_kinds, sk_skb_kinds, sk_reuseport_kinds, cgroup_skb_kinds, cgroup_kinds};
ghost use Rattle.program_kinds.specs.declared.program_section.ProgramSection.TheVariants.{CgroupSock, CgroupSockAddr, CgroupSockopt};

use crate::attach::{
    CgroupSkbAttachType, CgroupSockAddrAttachType, CgroupSockAttachType, CgroupSockoptAttachType,
    SkReuseportAttachType, SkSkbKind, XdpAttachType,
};
use std::error::Error;
use std::fmt;
use std::str::FromStr;

/// The kind of a program, by its section's name. The first two pieces of the name between `/`
/// decide, by the tables of `specs/ProgramSection.antt`, after the kernel's
/// `libbpf/program_types.rst`. Pieces after the second are ignored.
#[derive(Clone, Debug, Drop)]
pub enum ProgramSection {
    /// `kretprobe`
    KRetProbe,
    /// `kprobe`
    KProbe,
    /// `uprobe`, with `.multi` and `.s`
    UProbe {
        sleepable: bool,
        multi: bool,
    },
    /// `uretprobe`, with `.multi` and `.s`
    URetProbe {
        sleepable: bool,
        multi: bool,
    },
    /// `tracepoint` or `tp`
    TracePoint,
    /// `socket`
    SocketFilter,
    /// `xdp`, with `.frags`; then nothing, `cpumap` or `devmap`
    Xdp {
        frags: bool,
        attach_type: XdpAttachType,
    },
    /// `sk_msg`
    SkMsg,
    /// `sk_skb/stream_parser` or `sk_skb/stream_verdict`
    SkSkbStream {
        kind: SkSkbKind,
    },
    /// `sockops`
    SockOps,
    /// `classifier`
    SchedClassifier,
    /// `cgroup_skb/ingress`, `cgroup_skb/egress`, or `cgroup/skb` for neither
    CgroupSkb {
        attach_type: Option<CgroupSkbAttachType>,
    },
    /// `cgroup/bind4` and its like
    CgroupSockAddr {
        attach_type: CgroupSockAddrAttachType,
    },
    /// `cgroup/sysctl`
    CgroupSysctl,
    /// `cgroup/getsockopt` or `cgroup/setsockopt`
    CgroupSockopt {
        attach_type: CgroupSockoptAttachType,
    },
    /// `lirc_mode2`
    LircMode2,
    /// `perf_event`
    PerfEvent,
    /// `raw_tp` or `raw_tracepoint`
    RawTracePoint,
    /// `lsm`, with `.s`
    Lsm {
        sleepable: bool,
    },
    /// `lsm_cgroup`
    LsmCgroup,
    /// `tp_btf`
    BtfTracePoint,
    /// `fentry`, with `.s`
    FEntry {
        sleepable: bool,
    },
    /// `fexit`, with `.s`
    FExit {
        sleepable: bool,
    },
    /// `flow_dissector`
    FlowDissector,
    /// `freplace`
    Extension,
    /// `sk_lookup`
    SkLookup,
    /// `sk_reuseport`, then nothing or `migrate`
    SkReuseport {
        attach_type: SkReuseportAttachType,
    },
    /// `cgroup/sock_create` and its like; `cgroup/sock` for the default
    CgroupSock {
        attach_type: CgroupSockAttachType,
    },
    /// `cgroup/dev`
    CgroupDevice,
    /// `iter`, with `.s`
    Iter {
        sleepable: bool,
    },
}

/// The error of a section's name that names no kind of program.
#[derive(Debug, Drop)]
pub struct InvalidSection;

impl fmt::Display for InvalidSection {
    fn fmt<W: fmt::Write>(&self, f: &mut fmt::Formatter<W>) -> fmt::Result {
        write!(f, "no kind of program has this name")
    }
}

impl Error for InvalidSection {}

impl FromStr for ProgramSection {
    type Err = InvalidSection;

    ghost from_str_gives = { λ name r. result_ok r ≡ kind_of_name name };

    /// Allocates no memory.
    fn from_str(section: &str) -> Result<ProgramSection, InvalidSection> {
        let (first, rest) = pieces(section);
        kind_of_pieces(first, rest).ok_or(InvalidSection)
    }
}

/// The text before the first `/`, and the text after it, where there is a `/`.
fn pieces(section: &str) -> (&str, Option<&str>)
    ensures first { result.0.now ≡ first_piece section.now }
    ensures second { option_map (λ rest. first_piece rest.now) result.1 ≡ second_piece section.now }
{
    match section.split_once('/') {
        Some((first, rest)) => (first, Some(rest)),
        None => (section, None),
    }
}

fn up_to_slash(text: &str) -> &str
    ensures { result.now ≡ first_piece text.now }
{
    match text.split_once('/') {
        Some((front, _)) => front,
        None => text,
    }
}

/// The second piece, of the text after the first `/`.
fn second_piece<'n>(rest: Option<&'n str>) -> Option<&'n str>
    ensures { option_copied result ≡ option_map (λ rest. first_piece rest.now) rest.entry }
{
    match rest {
        Some(rest) => Some(up_to_slash(rest)),
        None => None,
    }
}

/// The kind by the first piece and the text after it. The text after it may be long, and is only
/// read where the first piece doesn't decide.
fn kind_of_pieces(first: &str, rest: Option<&str>) -> Option<ProgramSection>
    ensures { result
        ≡ kind_of_pieces first.now (option_map (λ rest. first_piece rest.now) rest.entry) }
{
    match unparted_kind(first) {
        Some(kind) => Some(kind),
        None => parted_kind(first, second_piece(rest)),
    }
}

/// The kind that the first piece alone decides.
fn unparted_kind(first: &str) -> Option<ProgramSection>
    ensures { result ≡ unparted_kind first.now }
{
    plain_kind(first)
        .or_else(|| user_probe_kind(first))
        .or_else(|| sleepable_kind(first))
}

fn plain_kind(first: &str) -> Option<ProgramSection>
    ensures { result ≡ kind_by_first plain_kinds first.now }
{
    match first {
        "kprobe" => Some(ProgramSection::KProbe),
        "kretprobe" => Some(ProgramSection::KRetProbe),
        "tp_btf" => Some(ProgramSection::BtfTracePoint),
        "tracepoint" | "tp" => Some(ProgramSection::TracePoint),
        "socket" => Some(ProgramSection::SocketFilter),
        "sk_msg" => Some(ProgramSection::SkMsg),
        "sockops" => Some(ProgramSection::SockOps),
        "classifier" => Some(ProgramSection::SchedClassifier),
        "lirc_mode2" => Some(ProgramSection::LircMode2),
        "perf_event" => Some(ProgramSection::PerfEvent),
        "raw_tp" | "raw_tracepoint" => Some(ProgramSection::RawTracePoint),
        "lsm_cgroup" => Some(ProgramSection::LsmCgroup),
        "flow_dissector" => Some(ProgramSection::FlowDissector),
        "freplace" => Some(ProgramSection::Extension),
        "sk_lookup" => Some(ProgramSection::SkLookup),
        _ => None,
    }
}

fn user_probe_kind(first: &str) -> Option<ProgramSection>
    ensures { result ≡ kind_by_first user_probe_kinds first.now }
{
    let (is_return, sleepable, multi) = match first {
        "uprobe" => (false, false, false),
        "uprobe.s" => (false, true, false),
        "uprobe.multi" => (false, false, true),
        "uprobe.multi.s" => (false, true, true),
        "uretprobe" => (true, false, false),
        "uretprobe.s" => (true, true, false),
        "uretprobe.multi" => (true, false, true),
        "uretprobe.multi.s" => (true, true, true),
        _ => return None,
    };
    if is_return {
        Some(ProgramSection::URetProbe { sleepable, multi })
    } else {
        Some(ProgramSection::UProbe { sleepable, multi })
    }
}

fn sleepable_kind(first: &str) -> Option<ProgramSection>
    ensures { result ≡ kind_by_first sleepable_kinds first.now }
{
    match first {
        "lsm" => Some(ProgramSection::Lsm { sleepable: false }),
        "lsm.s" => Some(ProgramSection::Lsm { sleepable: true }),
        "fentry" => Some(ProgramSection::FEntry { sleepable: false }),
        "fentry.s" => Some(ProgramSection::FEntry { sleepable: true }),
        "fexit" => Some(ProgramSection::FExit { sleepable: false }),
        "fexit.s" => Some(ProgramSection::FExit { sleepable: true }),
        "iter" => Some(ProgramSection::Iter { sleepable: false }),
        "iter.s" => Some(ProgramSection::Iter { sleepable: true }),
        _ => None,
    }
}

fn parted_kind(first: &str, second: Option<&str>) -> Option<ProgramSection>
    ensures { result ≡ parted_kind first.now (option_copied second.entry) }
{
    match first {
        "xdp" => xdp_kind(false, second),
        "xdp.frags" => xdp_kind(true, second),
        "sk_skb" => sk_skb_kind(second?),
        "sk_reuseport" => sk_reuseport_kind(second),
        "cgroup_skb" => cgroup_skb_kind(second?),
        "cgroup" => cgroup_kind(second?),
        _ => None,
    }
}

fn xdp_kind(frags: bool, second: Option<&str>) -> Option<ProgramSection>
    ensures { result ≡ kind_by_second (xdp_kinds frags) (option_copied second.entry) }
{
    let attach_type = match second {
        None => XdpAttachType::Interface,
        Some("cpumap") => XdpAttachType::CpuMap,
        Some("devmap") => XdpAttachType::DevMap,
        Some(_) => return None,
    };
    Some(ProgramSection::Xdp { frags, attach_type })
}

fn sk_skb_kind(second: &str) -> Option<ProgramSection>
    ensures { result ≡ kind_by_second sk_skb_kinds (Some second.now) }
{
    let kind = match second {
        "stream_parser" => SkSkbKind::StreamParser,
        "stream_verdict" => SkSkbKind::StreamVerdict,
        _ => return None,
    };
    Some(ProgramSection::SkSkbStream { kind })
}

fn sk_reuseport_kind(second: Option<&str>) -> Option<ProgramSection>
    ensures { result ≡ kind_by_second sk_reuseport_kinds (option_copied second.entry) }
{
    let attach_type = match second {
        None => SkReuseportAttachType::Select,
        Some("migrate") => SkReuseportAttachType::SelectOrMigrate,
        Some(_) => return None,
    };
    Some(ProgramSection::SkReuseport { attach_type })
}

fn cgroup_skb_kind(second: &str) -> Option<ProgramSection>
    ensures { result ≡ kind_by_second cgroup_skb_kinds (Some second.now) }
{
    let attach_type = match second {
        "ingress" => CgroupSkbAttachType::Ingress,
        "egress" => CgroupSkbAttachType::Egress,
        _ => return None,
    };
    Some(ProgramSection::CgroupSkb {
        attach_type: Some(attach_type),
    })
}

fn cgroup_kind(second: &str) -> Option<ProgramSection>
    ensures { result ≡ kind_by_second cgroup_kinds (Some second.now) }
{
    match second {
        "skb" => Some(ProgramSection::CgroupSkb { attach_type: None }),
        "sysctl" => Some(ProgramSection::CgroupSysctl),
        "dev" => Some(ProgramSection::CgroupDevice),
        "getsockopt" => sockopt(CgroupSockoptAttachType::Get),
        "setsockopt" => sockopt(CgroupSockoptAttachType::Set),
        "sock" => sock(CgroupSockAttachType::default()),
        "post_bind4" => sock(CgroupSockAttachType::PostBind4),
        "post_bind6" => sock(CgroupSockAttachType::PostBind6),
        "sock_create" => sock(CgroupSockAttachType::SockCreate),
        "sock_release" => sock(CgroupSockAttachType::SockRelease),
        "bind4" => sock_addr(CgroupSockAddrAttachType::Bind4),
        "bind6" => sock_addr(CgroupSockAddrAttachType::Bind6),
        "connect4" => sock_addr(CgroupSockAddrAttachType::Connect4),
        "connect6" => sock_addr(CgroupSockAddrAttachType::Connect6),
        "getpeername4" => sock_addr(CgroupSockAddrAttachType::GetPeerName4),
        "getpeername6" => sock_addr(CgroupSockAddrAttachType::GetPeerName6),
        "getsockname4" => sock_addr(CgroupSockAddrAttachType::GetSockName4),
        "getsockname6" => sock_addr(CgroupSockAddrAttachType::GetSockName6),
        "sendmsg4" => sock_addr(CgroupSockAddrAttachType::UDPSendMsg4),
        "sendmsg6" => sock_addr(CgroupSockAddrAttachType::UDPSendMsg6),
        "recvmsg4" => sock_addr(CgroupSockAddrAttachType::UDPRecvMsg4),
        "recvmsg6" => sock_addr(CgroupSockAddrAttachType::UDPRecvMsg6),
        _ => None,
    }
}

fn sockopt(attach_type: CgroupSockoptAttachType) -> Option<ProgramSection>
    ensures { result ≡ Some (CgroupSockopt attach_type) }
{
    Some(ProgramSection::CgroupSockopt { attach_type })
}

fn sock(attach_type: CgroupSockAttachType) -> Option<ProgramSection>
    ensures { result ≡ Some (CgroupSock attach_type) }
{
    Some(ProgramSection::CgroupSock { attach_type })
}

fn sock_addr(attach_type: CgroupSockAddrAttachType) -> Option<ProgramSection>
    ensures { result ≡ Some (CgroupSockAddr attach_type) }
{
    Some(ProgramSection::CgroupSockAddr { attach_type })
}
