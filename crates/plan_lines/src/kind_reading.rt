//! The kind of program that numbers stand for.

ghost use Rattle.std.specs.Prelude.{◌≡◌};
ghost use Rattle.plan_lines.specs.Kinds.{are_same, section_of};
ghost use Rattle.plan_lines.specs.LineReading.{Says};

use crate::error::LineError;
use crate::program_kind::{KindNumbers, kind_numbers};
use program_kinds::{
    CgroupSkbAttachType, CgroupSockAddrAttachType, CgroupSockAttachType, CgroupSockoptAttachType,
    ProgramSection, SkReuseportAttachType, SkSkbKind, XdpAttachType,
};

/// All kinds of programs, in the order of their numbers.
const SECTIONS: [ProgramSection; 64] = [
    ProgramSection::KRetProbe,
    ProgramSection::KProbe,
    ProgramSection::UProbe {
        sleepable: false,
        multi: false,
    },
    ProgramSection::UProbe {
        sleepable: false,
        multi: true,
    },
    ProgramSection::UProbe {
        sleepable: true,
        multi: false,
    },
    ProgramSection::UProbe {
        sleepable: true,
        multi: true,
    },
    ProgramSection::URetProbe {
        sleepable: false,
        multi: false,
    },
    ProgramSection::URetProbe {
        sleepable: false,
        multi: true,
    },
    ProgramSection::URetProbe {
        sleepable: true,
        multi: false,
    },
    ProgramSection::URetProbe {
        sleepable: true,
        multi: true,
    },
    ProgramSection::TracePoint,
    ProgramSection::SocketFilter,
    ProgramSection::Xdp {
        frags: false,
        attach_type: XdpAttachType::Interface,
    },
    ProgramSection::Xdp {
        frags: false,
        attach_type: XdpAttachType::CpuMap,
    },
    ProgramSection::Xdp {
        frags: false,
        attach_type: XdpAttachType::DevMap,
    },
    ProgramSection::Xdp {
        frags: true,
        attach_type: XdpAttachType::Interface,
    },
    ProgramSection::Xdp {
        frags: true,
        attach_type: XdpAttachType::CpuMap,
    },
    ProgramSection::Xdp {
        frags: true,
        attach_type: XdpAttachType::DevMap,
    },
    ProgramSection::SkMsg,
    ProgramSection::SkSkbStream {
        kind: SkSkbKind::StreamParser,
    },
    ProgramSection::SkSkbStream {
        kind: SkSkbKind::StreamVerdict,
    },
    ProgramSection::SockOps,
    ProgramSection::SchedClassifier,
    ProgramSection::CgroupSkb { attach_type: None },
    ProgramSection::CgroupSkb {
        attach_type: Some(CgroupSkbAttachType::Ingress),
    },
    ProgramSection::CgroupSkb {
        attach_type: Some(CgroupSkbAttachType::Egress),
    },
    ProgramSection::CgroupSockAddr {
        attach_type: CgroupSockAddrAttachType::Bind4,
    },
    ProgramSection::CgroupSockAddr {
        attach_type: CgroupSockAddrAttachType::Bind6,
    },
    ProgramSection::CgroupSockAddr {
        attach_type: CgroupSockAddrAttachType::Connect4,
    },
    ProgramSection::CgroupSockAddr {
        attach_type: CgroupSockAddrAttachType::Connect6,
    },
    ProgramSection::CgroupSockAddr {
        attach_type: CgroupSockAddrAttachType::GetPeerName4,
    },
    ProgramSection::CgroupSockAddr {
        attach_type: CgroupSockAddrAttachType::GetPeerName6,
    },
    ProgramSection::CgroupSockAddr {
        attach_type: CgroupSockAddrAttachType::GetSockName4,
    },
    ProgramSection::CgroupSockAddr {
        attach_type: CgroupSockAddrAttachType::GetSockName6,
    },
    ProgramSection::CgroupSockAddr {
        attach_type: CgroupSockAddrAttachType::UDPSendMsg4,
    },
    ProgramSection::CgroupSockAddr {
        attach_type: CgroupSockAddrAttachType::UDPSendMsg6,
    },
    ProgramSection::CgroupSockAddr {
        attach_type: CgroupSockAddrAttachType::UDPRecvMsg4,
    },
    ProgramSection::CgroupSockAddr {
        attach_type: CgroupSockAddrAttachType::UDPRecvMsg6,
    },
    ProgramSection::CgroupSysctl,
    ProgramSection::CgroupSockopt {
        attach_type: CgroupSockoptAttachType::Get,
    },
    ProgramSection::CgroupSockopt {
        attach_type: CgroupSockoptAttachType::Set,
    },
    ProgramSection::LircMode2,
    ProgramSection::PerfEvent,
    ProgramSection::RawTracePoint,
    ProgramSection::Lsm { sleepable: false },
    ProgramSection::Lsm { sleepable: true },
    ProgramSection::LsmCgroup,
    ProgramSection::BtfTracePoint,
    ProgramSection::FEntry { sleepable: false },
    ProgramSection::FEntry { sleepable: true },
    ProgramSection::FExit { sleepable: false },
    ProgramSection::FExit { sleepable: true },
    ProgramSection::FlowDissector,
    ProgramSection::Extension,
    ProgramSection::SkLookup,
    ProgramSection::SkReuseport {
        attach_type: SkReuseportAttachType::Select,
    },
    ProgramSection::SkReuseport {
        attach_type: SkReuseportAttachType::SelectOrMigrate,
    },
    ProgramSection::CgroupSock {
        attach_type: CgroupSockAttachType::PostBind4,
    },
    ProgramSection::CgroupSock {
        attach_type: CgroupSockAttachType::PostBind6,
    },
    ProgramSection::CgroupSock {
        attach_type: CgroupSockAttachType::SockCreate,
    },
    ProgramSection::CgroupSock {
        attach_type: CgroupSockAttachType::SockRelease,
    },
    ProgramSection::CgroupDevice,
    ProgramSection::Iter { sleepable: false },
    ProgramSection::Iter { sleepable: true },
];

fn are_same(a: KindNumbers, b: KindNumbers) -> bool
    ensures { result ≡ are_same a b }
{
    a.kind == b.kind && a.first == b.first && a.second == b.second
}

/// The kind with these numbers.
pub(crate) fn section_of(numbers: KindNumbers) -> Result<ProgramSection, LineError>
    ensures { Says (λ section. section) (section_of numbers) result }
{
    for section in SECTIONS {
        if are_same(kind_numbers(&section), numbers) {
            return Ok(section);
        }
    }
    Err(LineError::Invalid)
}
