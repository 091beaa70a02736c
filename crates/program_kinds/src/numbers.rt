//! Numbers of the kernel's `bpf.h` that `program_kinds` doesn't have.

// Of `enum bpf_attach_type`.
pub const BPF_CGROUP_SOCK_OPS: u32 = 3;

pub const BPF_CGROUP_DEVICE: u32 = 6;

pub const BPF_SK_MSG_VERDICT: u32 = 7;

pub const BPF_LIRC_MODE2: u32 = 16;

pub const BPF_FLOW_DISSECTOR: u32 = 17;

pub const BPF_CGROUP_SYSCTL: u32 = 18;

pub const BPF_TRACE_RAW_TP: u32 = 23;

pub const BPF_TRACE_FENTRY: u32 = 24;

pub const BPF_TRACE_FEXIT: u32 = 25;

pub const BPF_LSM_MAC: u32 = 27;

pub const BPF_TRACE_ITER: u32 = 28;

pub const BPF_SK_LOOKUP: u32 = 36;

pub const BPF_LSM_CGROUP: u32 = 43;

pub const BPF_TRACE_UPROBE_MULTI: u32 = 48;

// Of the flags of `BPF_PROG_LOAD`.
pub const BPF_F_SLEEPABLE: u32 = 1 << 4;

pub const BPF_F_XDP_HAS_FRAGS: u32 = 1 << 5;
