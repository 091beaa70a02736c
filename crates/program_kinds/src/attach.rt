//! Where programs of a kind may be attached.

ghost use Rattle.std.specs.Prelude.{◌≡◌};
ghost use Rattle.program_kinds.specs.Attach.{of_xdp, of_sk_skb, of_sk_reuseport, of_cgroup_skb, of_cgroup_sockopt, of_cgroup_sock, of_cgroup_sock_addr};

use crate::bindings::bpf_attach_type;

/// Where an XDP program is attached.
#[derive(Clone, Copy, Debug)]
pub enum XdpAttachType {
    /// To a network interface.
    Interface,
    /// To a CPU map.
    CpuMap,
    /// To a device map.
    DevMap,
}

/// What a program of a socket map does with a stream.
#[derive(Clone, Copy, Debug)]
pub enum SkSkbKind {
    /// It finds where messages end.
    StreamParser,
    /// It decides where messages go.
    StreamVerdict,
}

/// Which choices of a socket a `SO_REUSEPORT` program makes.
#[derive(Clone, Copy, Debug)]
pub enum SkReuseportAttachType {
    /// For new connections.
    Select,
    /// For new connections, and for those that migrate from a closed socket.
    SelectOrMigrate,
}

/// Which way the packets of a control group go.
#[derive(Clone, Copy, Debug)]
pub enum CgroupSkbAttachType {
    /// Packets that come in.
    Ingress,
    /// Packets that go out.
    Egress,
}

/// Which call on a socket's options a program of a control group sees.
#[derive(Clone, Copy, Debug)]
pub enum CgroupSockoptAttachType {
    /// `getsockopt`
    Get,
    /// `setsockopt`
    Set,
}

/// Which event of a socket a program of a control group sees.
#[derive(Clone, Copy, Debug)]
pub enum CgroupSockAttachType {
    /// After it is bound to an IPv4 address.
    PostBind4,
    /// After it is bound to an IPv6 address.
    PostBind6,
    /// When it is made.
    SockCreate,
    /// When it is released.
    SockRelease,
}

/// When the socket is made.
impl Default for CgroupSockAttachType {
    ghost use Rattle.program_kinds.specs.declared.attach.CgroupSockAttachType.TheVariants.{SockCreate};

    ghost is_default = { λ attach_type. attach_type ≡ SockCreate };

    fn default() -> CgroupSockAttachType {
        CgroupSockAttachType::SockCreate
    }
}

/// Which call with a socket's address a program of a control group sees.
#[derive(Clone, Copy, Debug)]
pub enum CgroupSockAddrAttachType {
    /// `bind` to an IPv4 address.
    Bind4,
    /// `bind` to an IPv6 address.
    Bind6,
    /// `connect` to an IPv4 address.
    Connect4,
    /// `connect` to an IPv6 address.
    Connect6,
    /// `getpeername` of an IPv4 socket.
    GetPeerName4,
    /// `getpeername` of an IPv6 socket.
    GetPeerName6,
    /// `getsockname` of an IPv4 socket.
    GetSockName4,
    /// `getsockname` of an IPv6 socket.
    GetSockName6,
    /// `sendmsg` of a UDP socket over IPv4.
    UDPSendMsg4,
    /// `sendmsg` of a UDP socket over IPv6.
    UDPSendMsg6,
    /// `recvmsg` of a UDP socket over IPv4.
    UDPRecvMsg4,
    /// `recvmsg` of a UDP socket over IPv6.
    UDPRecvMsg6,
}

impl From<XdpAttachType> for bpf_attach_type {
    ghost from_gives = { λ attach_type place. place ≡ of_xdp attach_type };

    fn from(attach_type: XdpAttachType) -> bpf_attach_type {
        match attach_type {
            XdpAttachType::Interface => bpf_attach_type::BPF_XDP,
            XdpAttachType::CpuMap => bpf_attach_type::BPF_XDP_CPUMAP,
            XdpAttachType::DevMap => bpf_attach_type::BPF_XDP_DEVMAP,
        }
    }
}

impl From<SkSkbKind> for bpf_attach_type {
    ghost from_gives = { λ attach_type place. place ≡ of_sk_skb attach_type };

    fn from(attach_type: SkSkbKind) -> bpf_attach_type {
        match attach_type {
            SkSkbKind::StreamParser => bpf_attach_type::BPF_SK_SKB_STREAM_PARSER,
            SkSkbKind::StreamVerdict => bpf_attach_type::BPF_SK_SKB_STREAM_VERDICT,
        }
    }
}

impl From<SkReuseportAttachType> for bpf_attach_type {
    ghost from_gives = { λ attach_type place. place ≡ of_sk_reuseport attach_type };

    fn from(attach_type: SkReuseportAttachType) -> bpf_attach_type {
        match attach_type {
            SkReuseportAttachType::Select => bpf_attach_type::BPF_SK_REUSEPORT_SELECT,
            SkReuseportAttachType::SelectOrMigrate =>
                bpf_attach_type::BPF_SK_REUSEPORT_SELECT_OR_MIGRATE,
        }
    }
}

impl From<CgroupSkbAttachType> for bpf_attach_type {
    ghost from_gives = { λ attach_type place. place ≡ of_cgroup_skb attach_type };

    fn from(attach_type: CgroupSkbAttachType) -> bpf_attach_type {
        match attach_type {
            CgroupSkbAttachType::Ingress => bpf_attach_type::BPF_CGROUP_INET_INGRESS,
            CgroupSkbAttachType::Egress => bpf_attach_type::BPF_CGROUP_INET_EGRESS,
        }
    }
}

impl From<CgroupSockoptAttachType> for bpf_attach_type {
    ghost from_gives = { λ attach_type place. place ≡ of_cgroup_sockopt attach_type };

    fn from(attach_type: CgroupSockoptAttachType) -> bpf_attach_type {
        match attach_type {
            CgroupSockoptAttachType::Get => bpf_attach_type::BPF_CGROUP_GETSOCKOPT,
            CgroupSockoptAttachType::Set => bpf_attach_type::BPF_CGROUP_SETSOCKOPT,
        }
    }
}

impl From<CgroupSockAttachType> for bpf_attach_type {
    ghost from_gives = { λ attach_type place. place ≡ of_cgroup_sock attach_type };

    fn from(attach_type: CgroupSockAttachType) -> bpf_attach_type {
        match attach_type {
            CgroupSockAttachType::PostBind4 => bpf_attach_type::BPF_CGROUP_INET4_POST_BIND,
            CgroupSockAttachType::PostBind6 => bpf_attach_type::BPF_CGROUP_INET6_POST_BIND,
            CgroupSockAttachType::SockCreate => bpf_attach_type::BPF_CGROUP_INET_SOCK_CREATE,
            CgroupSockAttachType::SockRelease => bpf_attach_type::BPF_CGROUP_INET_SOCK_RELEASE,
        }
    }
}

impl From<CgroupSockAddrAttachType> for bpf_attach_type {
    ghost from_gives = { λ attach_type place. place ≡ of_cgroup_sock_addr attach_type };

    fn from(attach_type: CgroupSockAddrAttachType) -> bpf_attach_type {
        match attach_type {
            CgroupSockAddrAttachType::Bind4 => bpf_attach_type::BPF_CGROUP_INET4_BIND,
            CgroupSockAddrAttachType::Bind6 => bpf_attach_type::BPF_CGROUP_INET6_BIND,
            CgroupSockAddrAttachType::Connect4 => bpf_attach_type::BPF_CGROUP_INET4_CONNECT,
            CgroupSockAddrAttachType::Connect6 => bpf_attach_type::BPF_CGROUP_INET6_CONNECT,
            CgroupSockAddrAttachType::GetPeerName4 => bpf_attach_type::BPF_CGROUP_INET4_GETPEERNAME,
            CgroupSockAddrAttachType::GetPeerName6 => bpf_attach_type::BPF_CGROUP_INET6_GETPEERNAME,
            CgroupSockAddrAttachType::GetSockName4 => bpf_attach_type::BPF_CGROUP_INET4_GETSOCKNAME,
            CgroupSockAddrAttachType::GetSockName6 => bpf_attach_type::BPF_CGROUP_INET6_GETSOCKNAME,
            CgroupSockAddrAttachType::UDPSendMsg4 => bpf_attach_type::BPF_CGROUP_UDP4_SENDMSG,
            CgroupSockAddrAttachType::UDPSendMsg6 => bpf_attach_type::BPF_CGROUP_UDP6_SENDMSG,
            CgroupSockAddrAttachType::UDPRecvMsg4 => bpf_attach_type::BPF_CGROUP_UDP4_RECVMSG,
            CgroupSockAddrAttachType::UDPRecvMsg6 => bpf_attach_type::BPF_CGROUP_UDP6_RECVMSG,
        }
    }
}
