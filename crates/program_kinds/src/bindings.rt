//! Numbers of the kernel's `bpf.h`.

ghost use Rattle.std.specs.Prelude.{◌≡◌, Some, slice_get};
ghost use Rattle.std.specs.Result.{result_ok};
ghost use Rattle.program_kinds.specs.Bindings.{map_types, prog_types, map_type_number, prog_type_number, attach_type_number, Refuses};

/// A number that no variant has.
#[derive(Drop)]
pub struct InvalidTypeBinding<T> {
    /// The number.
    pub value: T,
}

// The entry of a table at an index.
fn entry<T: Copy>(table: &[T], number: u32) -> Option<T>
    ensures { result ≡ slice_get table.now number }
{
    table.get(number as usize).copied()
}

/// Kinds of maps: `enum bpf_map_type`.
#[derive(Clone, Copy, Debug, PartialEq, Eq)]
pub enum bpf_map_type {
    BPF_MAP_TYPE_UNSPEC = 0,
    BPF_MAP_TYPE_HASH = 1,
    BPF_MAP_TYPE_ARRAY = 2,
    BPF_MAP_TYPE_PROG_ARRAY = 3,
    BPF_MAP_TYPE_PERF_EVENT_ARRAY = 4,
    BPF_MAP_TYPE_PERCPU_HASH = 5,
    BPF_MAP_TYPE_PERCPU_ARRAY = 6,
    BPF_MAP_TYPE_STACK_TRACE = 7,
    BPF_MAP_TYPE_CGROUP_ARRAY = 8,
    BPF_MAP_TYPE_LRU_HASH = 9,
    BPF_MAP_TYPE_LRU_PERCPU_HASH = 10,
    BPF_MAP_TYPE_LPM_TRIE = 11,
    BPF_MAP_TYPE_ARRAY_OF_MAPS = 12,
    BPF_MAP_TYPE_HASH_OF_MAPS = 13,
    BPF_MAP_TYPE_DEVMAP = 14,
    BPF_MAP_TYPE_SOCKMAP = 15,
    BPF_MAP_TYPE_CPUMAP = 16,
    BPF_MAP_TYPE_XSKMAP = 17,
    BPF_MAP_TYPE_SOCKHASH = 18,
    BPF_MAP_TYPE_CGROUP_STORAGE_DEPRECATED = 19,
    BPF_MAP_TYPE_REUSEPORT_SOCKARRAY = 20,
    BPF_MAP_TYPE_PERCPU_CGROUP_STORAGE_DEPRECATED = 21,
    BPF_MAP_TYPE_QUEUE = 22,
    BPF_MAP_TYPE_STACK = 23,
    BPF_MAP_TYPE_SK_STORAGE = 24,
    BPF_MAP_TYPE_DEVMAP_HASH = 25,
    BPF_MAP_TYPE_STRUCT_OPS = 26,
    BPF_MAP_TYPE_RINGBUF = 27,
    BPF_MAP_TYPE_INODE_STORAGE = 28,
    BPF_MAP_TYPE_TASK_STORAGE = 29,
    BPF_MAP_TYPE_BLOOM_FILTER = 30,
    BPF_MAP_TYPE_USER_RINGBUF = 31,
    BPF_MAP_TYPE_CGRP_STORAGE = 32,
    BPF_MAP_TYPE_ARENA = 33,
    BPF_MAP_TYPE_INSN_ARRAY = 34,
}

impl bpf_map_type {
    /// Its number in the kernel's `bpf.h`. `try_from` is the inverse.
    pub fn number(self) -> u32
        ensures value { result ≡ map_type_number self }
        ensures entry { slice_get map_types result ≡ Some self }
    {
        self as u32
    }
}

const MAP_TYPES: [bpf_map_type; 35] = [
    bpf_map_type::BPF_MAP_TYPE_UNSPEC,
    bpf_map_type::BPF_MAP_TYPE_HASH,
    bpf_map_type::BPF_MAP_TYPE_ARRAY,
    bpf_map_type::BPF_MAP_TYPE_PROG_ARRAY,
    bpf_map_type::BPF_MAP_TYPE_PERF_EVENT_ARRAY,
    bpf_map_type::BPF_MAP_TYPE_PERCPU_HASH,
    bpf_map_type::BPF_MAP_TYPE_PERCPU_ARRAY,
    bpf_map_type::BPF_MAP_TYPE_STACK_TRACE,
    bpf_map_type::BPF_MAP_TYPE_CGROUP_ARRAY,
    bpf_map_type::BPF_MAP_TYPE_LRU_HASH,
    bpf_map_type::BPF_MAP_TYPE_LRU_PERCPU_HASH,
    bpf_map_type::BPF_MAP_TYPE_LPM_TRIE,
    bpf_map_type::BPF_MAP_TYPE_ARRAY_OF_MAPS,
    bpf_map_type::BPF_MAP_TYPE_HASH_OF_MAPS,
    bpf_map_type::BPF_MAP_TYPE_DEVMAP,
    bpf_map_type::BPF_MAP_TYPE_SOCKMAP,
    bpf_map_type::BPF_MAP_TYPE_CPUMAP,
    bpf_map_type::BPF_MAP_TYPE_XSKMAP,
    bpf_map_type::BPF_MAP_TYPE_SOCKHASH,
    bpf_map_type::BPF_MAP_TYPE_CGROUP_STORAGE_DEPRECATED,
    bpf_map_type::BPF_MAP_TYPE_REUSEPORT_SOCKARRAY,
    bpf_map_type::BPF_MAP_TYPE_PERCPU_CGROUP_STORAGE_DEPRECATED,
    bpf_map_type::BPF_MAP_TYPE_QUEUE,
    bpf_map_type::BPF_MAP_TYPE_STACK,
    bpf_map_type::BPF_MAP_TYPE_SK_STORAGE,
    bpf_map_type::BPF_MAP_TYPE_DEVMAP_HASH,
    bpf_map_type::BPF_MAP_TYPE_STRUCT_OPS,
    bpf_map_type::BPF_MAP_TYPE_RINGBUF,
    bpf_map_type::BPF_MAP_TYPE_INODE_STORAGE,
    bpf_map_type::BPF_MAP_TYPE_TASK_STORAGE,
    bpf_map_type::BPF_MAP_TYPE_BLOOM_FILTER,
    bpf_map_type::BPF_MAP_TYPE_USER_RINGBUF,
    bpf_map_type::BPF_MAP_TYPE_CGRP_STORAGE,
    bpf_map_type::BPF_MAP_TYPE_ARENA,
    bpf_map_type::BPF_MAP_TYPE_INSN_ARRAY,
];

impl TryFrom<u32> for bpf_map_type {
    type Error = InvalidTypeBinding<u32>;

    ghost try_from_gives = { λ value r.
        (result_ok r ≡ slice_get map_types value) × Refuses value r };

    fn try_from(value: u32) -> Result<bpf_map_type, InvalidTypeBinding<u32>> {
        entry(&MAP_TYPES, value).ok_or(InvalidTypeBinding { value })
    }
}

/// Kinds of programs: `enum bpf_prog_type`.
#[derive(Clone, Copy, Debug, PartialEq, Eq)]
pub enum bpf_prog_type {
    BPF_PROG_TYPE_UNSPEC = 0,
    BPF_PROG_TYPE_SOCKET_FILTER = 1,
    BPF_PROG_TYPE_KPROBE = 2,
    BPF_PROG_TYPE_SCHED_CLS = 3,
    BPF_PROG_TYPE_SCHED_ACT = 4,
    BPF_PROG_TYPE_TRACEPOINT = 5,
    BPF_PROG_TYPE_XDP = 6,
    BPF_PROG_TYPE_PERF_EVENT = 7,
    BPF_PROG_TYPE_CGROUP_SKB = 8,
    BPF_PROG_TYPE_CGROUP_SOCK = 9,
    BPF_PROG_TYPE_LWT_IN = 10,
    BPF_PROG_TYPE_LWT_OUT = 11,
    BPF_PROG_TYPE_LWT_XMIT = 12,
    BPF_PROG_TYPE_SOCK_OPS = 13,
    BPF_PROG_TYPE_SK_SKB = 14,
    BPF_PROG_TYPE_CGROUP_DEVICE = 15,
    BPF_PROG_TYPE_SK_MSG = 16,
    BPF_PROG_TYPE_RAW_TRACEPOINT = 17,
    BPF_PROG_TYPE_CGROUP_SOCK_ADDR = 18,
    BPF_PROG_TYPE_LWT_SEG6LOCAL = 19,
    BPF_PROG_TYPE_LIRC_MODE2 = 20,
    BPF_PROG_TYPE_SK_REUSEPORT = 21,
    BPF_PROG_TYPE_FLOW_DISSECTOR = 22,
    BPF_PROG_TYPE_CGROUP_SYSCTL = 23,
    BPF_PROG_TYPE_RAW_TRACEPOINT_WRITABLE = 24,
    BPF_PROG_TYPE_CGROUP_SOCKOPT = 25,
    BPF_PROG_TYPE_TRACING = 26,
    BPF_PROG_TYPE_STRUCT_OPS = 27,
    BPF_PROG_TYPE_EXT = 28,
    BPF_PROG_TYPE_LSM = 29,
    BPF_PROG_TYPE_SK_LOOKUP = 30,
    BPF_PROG_TYPE_SYSCALL = 31,
    BPF_PROG_TYPE_NETFILTER = 32,
}

impl bpf_prog_type {
    /// Its number in the kernel's `bpf.h`. `try_from` is the inverse.
    pub fn number(self) -> u32
        ensures value { result ≡ prog_type_number self }
        ensures entry { slice_get prog_types result ≡ Some self }
    {
        self as u32
    }
}

const PROG_TYPES: [bpf_prog_type; 33] = [
    bpf_prog_type::BPF_PROG_TYPE_UNSPEC,
    bpf_prog_type::BPF_PROG_TYPE_SOCKET_FILTER,
    bpf_prog_type::BPF_PROG_TYPE_KPROBE,
    bpf_prog_type::BPF_PROG_TYPE_SCHED_CLS,
    bpf_prog_type::BPF_PROG_TYPE_SCHED_ACT,
    bpf_prog_type::BPF_PROG_TYPE_TRACEPOINT,
    bpf_prog_type::BPF_PROG_TYPE_XDP,
    bpf_prog_type::BPF_PROG_TYPE_PERF_EVENT,
    bpf_prog_type::BPF_PROG_TYPE_CGROUP_SKB,
    bpf_prog_type::BPF_PROG_TYPE_CGROUP_SOCK,
    bpf_prog_type::BPF_PROG_TYPE_LWT_IN,
    bpf_prog_type::BPF_PROG_TYPE_LWT_OUT,
    bpf_prog_type::BPF_PROG_TYPE_LWT_XMIT,
    bpf_prog_type::BPF_PROG_TYPE_SOCK_OPS,
    bpf_prog_type::BPF_PROG_TYPE_SK_SKB,
    bpf_prog_type::BPF_PROG_TYPE_CGROUP_DEVICE,
    bpf_prog_type::BPF_PROG_TYPE_SK_MSG,
    bpf_prog_type::BPF_PROG_TYPE_RAW_TRACEPOINT,
    bpf_prog_type::BPF_PROG_TYPE_CGROUP_SOCK_ADDR,
    bpf_prog_type::BPF_PROG_TYPE_LWT_SEG6LOCAL,
    bpf_prog_type::BPF_PROG_TYPE_LIRC_MODE2,
    bpf_prog_type::BPF_PROG_TYPE_SK_REUSEPORT,
    bpf_prog_type::BPF_PROG_TYPE_FLOW_DISSECTOR,
    bpf_prog_type::BPF_PROG_TYPE_CGROUP_SYSCTL,
    bpf_prog_type::BPF_PROG_TYPE_RAW_TRACEPOINT_WRITABLE,
    bpf_prog_type::BPF_PROG_TYPE_CGROUP_SOCKOPT,
    bpf_prog_type::BPF_PROG_TYPE_TRACING,
    bpf_prog_type::BPF_PROG_TYPE_STRUCT_OPS,
    bpf_prog_type::BPF_PROG_TYPE_EXT,
    bpf_prog_type::BPF_PROG_TYPE_LSM,
    bpf_prog_type::BPF_PROG_TYPE_SK_LOOKUP,
    bpf_prog_type::BPF_PROG_TYPE_SYSCALL,
    bpf_prog_type::BPF_PROG_TYPE_NETFILTER,
];

impl TryFrom<u32> for bpf_prog_type {
    type Error = InvalidTypeBinding<u32>;

    ghost try_from_gives = { λ value r.
        (result_ok r ≡ slice_get prog_types value) × Refuses value r };

    fn try_from(value: u32) -> Result<bpf_prog_type, InvalidTypeBinding<u32>> {
        entry(&PROG_TYPES, value).ok_or(InvalidTypeBinding { value })
    }
}

/// Attach types of programs: the values of `enum bpf_attach_type` that attach types of this crate
/// are converted to.
#[derive(Clone, Copy, Debug, PartialEq, Eq)]
pub enum bpf_attach_type {
    BPF_CGROUP_INET_INGRESS = 0,
    BPF_CGROUP_INET_EGRESS = 1,
    BPF_CGROUP_INET_SOCK_CREATE = 2,
    BPF_SK_SKB_STREAM_PARSER = 4,
    BPF_SK_SKB_STREAM_VERDICT = 5,
    BPF_CGROUP_INET4_BIND = 8,
    BPF_CGROUP_INET6_BIND = 9,
    BPF_CGROUP_INET4_CONNECT = 10,
    BPF_CGROUP_INET6_CONNECT = 11,
    BPF_CGROUP_INET4_POST_BIND = 12,
    BPF_CGROUP_INET6_POST_BIND = 13,
    BPF_CGROUP_UDP4_SENDMSG = 14,
    BPF_CGROUP_UDP6_SENDMSG = 15,
    BPF_CGROUP_UDP4_RECVMSG = 19,
    BPF_CGROUP_UDP6_RECVMSG = 20,
    BPF_CGROUP_GETSOCKOPT = 21,
    BPF_CGROUP_SETSOCKOPT = 22,
    BPF_CGROUP_INET4_GETPEERNAME = 29,
    BPF_CGROUP_INET6_GETPEERNAME = 30,
    BPF_CGROUP_INET4_GETSOCKNAME = 31,
    BPF_CGROUP_INET6_GETSOCKNAME = 32,
    BPF_XDP_DEVMAP = 33,
    BPF_CGROUP_INET_SOCK_RELEASE = 34,
    BPF_XDP_CPUMAP = 35,
    BPF_XDP = 37,
    BPF_SK_REUSEPORT_SELECT = 39,
    BPF_SK_REUSEPORT_SELECT_OR_MIGRATE = 40,
}

impl bpf_attach_type {
    /// Its number in the kernel's `bpf.h`.
    pub fn number(self) -> u32
        ensures { result ≡ attach_type_number self }
    {
        self as u32
    }
}
