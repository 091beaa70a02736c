//! The numbers that stand for a kind of program in a plan's text.

ghost use Rattle.std.specs.Prelude.{◌≡◌};
ghost use Rattle.plan_lines.specs.ProgramKinds.{xdp_number, sk_skb_number, reuseport_number, skb_number, sockopt_number, sock_number, sock_addr_number, flag_number, kind_numbers, numbered};

use program_kinds::{
    CgroupSkbAttachType, CgroupSockAddrAttachType, CgroupSockAttachType, CgroupSockoptAttachType,
    ProgramSection, SkReuseportAttachType, SkSkbKind, XdpAttachType,
};

/// The kind's number, and the numbers of its fields in order, 0 for a missing field.
#[derive(Clone, Copy, Debug)]
pub struct KindNumbers {
    pub kind: u8,
    pub first: u8,
    pub second: u8,
}

fn numbered(kind: u8, first: u8, second: u8) -> KindNumbers
    ensures { result ≡ numbered kind first second }
{
    KindNumbers {
        kind,
        first,
        second,
    }
}

fn flag_number(flag: bool) -> u8
    ensures { result ≡ flag_number flag }
{
    flag as u8
}

fn xdp_number(attach_type: XdpAttachType) -> u8
    ensures { result ≡ xdp_number attach_type }
{
    attach_type as u8
}

fn sk_skb_number(kind: SkSkbKind) -> u8
    ensures { result ≡ sk_skb_number kind }
{
    kind as u8
}

fn reuseport_number(attach_type: SkReuseportAttachType) -> u8
    ensures { result ≡ reuseport_number attach_type }
{
    attach_type as u8
}

fn skb_number(attach_type: Option<CgroupSkbAttachType>) -> u8
    ensures { result ≡ skb_number attach_type }
{
    match attach_type {
        None => 0,
        Some(attach_type) => attach_type as u8 + 1,
    }
}

fn sockopt_number(attach_type: CgroupSockoptAttachType) -> u8
    ensures { result ≡ sockopt_number attach_type }
{
    attach_type as u8
}

fn sock_number(attach_type: CgroupSockAttachType) -> u8
    ensures { result ≡ sock_number attach_type }
{
    attach_type as u8
}

fn sock_addr_number(attach_type: CgroupSockAddrAttachType) -> u8
    ensures { result ≡ sock_addr_number attach_type }
{
    attach_type as u8
}

/// The numbers of a kind of program: its place in the list of kinds, and those of its fields.
pub fn kind_numbers(section: &ProgramSection) -> KindNumbers
    ensures { result ≡ kind_numbers section.now }
{
    match section {
        ProgramSection::KRetProbe => numbered(0, 0, 0),
        ProgramSection::KProbe => numbered(1, 0, 0),
        ProgramSection::UProbe { sleepable, multi } => {
            numbered(2, flag_number(*sleepable), flag_number(*multi))
        }
        ProgramSection::URetProbe { sleepable, multi } => {
            numbered(3, flag_number(*sleepable), flag_number(*multi))
        }
        ProgramSection::TracePoint => numbered(4, 0, 0),
        ProgramSection::SocketFilter => numbered(5, 0, 0),
        ProgramSection::Xdp { frags, attach_type } => {
            numbered(6, flag_number(*frags), xdp_number(*attach_type))
        }
        ProgramSection::SkMsg => numbered(7, 0, 0),
        ProgramSection::SkSkbStream { kind } => numbered(8, sk_skb_number(*kind), 0),
        ProgramSection::SockOps => numbered(9, 0, 0),
        ProgramSection::SchedClassifier => numbered(10, 0, 0),
        ProgramSection::CgroupSkb { attach_type } => numbered(11, skb_number(*attach_type), 0),
        ProgramSection::CgroupSockAddr { attach_type } => {
            numbered(12, sock_addr_number(*attach_type), 0)
        }
        ProgramSection::CgroupSysctl => numbered(13, 0, 0),
        ProgramSection::CgroupSockopt { attach_type } => {
            numbered(14, sockopt_number(*attach_type), 0)
        }
        ProgramSection::LircMode2 => numbered(15, 0, 0),
        ProgramSection::PerfEvent => numbered(16, 0, 0),
        ProgramSection::RawTracePoint => numbered(17, 0, 0),
        ProgramSection::Lsm { sleepable } => numbered(18, flag_number(*sleepable), 0),
        ProgramSection::LsmCgroup => numbered(19, 0, 0),
        ProgramSection::BtfTracePoint => numbered(20, 0, 0),
        ProgramSection::FEntry { sleepable } => numbered(21, flag_number(*sleepable), 0),
        ProgramSection::FExit { sleepable } => numbered(22, flag_number(*sleepable), 0),
        ProgramSection::FlowDissector => numbered(23, 0, 0),
        ProgramSection::Extension => numbered(24, 0, 0),
        ProgramSection::SkLookup => numbered(25, 0, 0),
        ProgramSection::SkReuseport { attach_type } => {
            numbered(26, reuseport_number(*attach_type), 0)
        }
        ProgramSection::CgroupSock { attach_type } => numbered(27, sock_number(*attach_type), 0),
        ProgramSection::CgroupDevice => numbered(28, 0, 0),
        ProgramSection::Iter { sleepable } => numbered(29, flag_number(*sleepable), 0),
    }
}
