//! Names that sections of programs may have.

use std::alloc::{AllocError, Global};

/// The first pieces of names, up to the first `/`.
const FIRST_PIECES: &str =
    "kprobe, kretprobe, uprobe, uretprobe, tracepoint, tp, tp_btf, raw_tracepoint, raw_tp, fentry, fexit, freplace, iter, lsm, lsm_cgroup, perf_event, xdp, classifier, socket, sockops, sk_lookup, sk_msg, sk_reuseport, sk_skb, cgroup, cgroup_skb, flow_dissector, lirc_mode2";

/// What may follow some of them.
const ENDINGS: &str =
    "with .multi or .s after uprobe and uretprobe, .s after fentry, fexit, iter and lsm, .frags after xdp";

/// What may follow a first piece that alone doesn't decide the kind.
fn second_pieces(first: &str) -> Option<&'static str> {
    match first {
        "xdp" | "xdp.frags" => Some("nothing, /cpumap or /devmap"),
        "sk_skb" => Some("/stream_parser or /stream_verdict"),
        "sk_reuseport" => Some("nothing or /migrate"),
        "cgroup_skb" => Some("/ingress or /egress"),
        "cgroup" => Some(
            "/skb, /sysctl, /dev, /getsockopt, /setsockopt, /sock, /sock_create, /sock_release, /post_bind4, /post_bind6, /bind4, /bind6, /connect4, /connect6, /getpeername4, /getpeername6, /getsockname4, /getsockname6, /sendmsg4, /sendmsg6, /recvmsg4 or /recvmsg6",
        ),
        _ => None,
    }
}

/// The name up to its first `/`.
fn first_piece(section: &str) -> &str {
    match section.split_once('/') {
        Some((first, _)) => first,
        None => section,
    }
}

/// What to write for a first piece that libbpf takes (`section_defs` in tools/lib/bpf/libbpf.c) and
/// that names a kind of program under another name here.
fn other_name(first: &str) -> Option<&'static str> {
    match first {
        "tc" | "tcx" | "netkit" => Some("classifier"),
        "ksyscall" => Some("kprobe/ and the kernel's function of the system call"),
        "kretsyscall" => Some("kretprobe/ and the kernel's function of the system call"),
        "usdt" => Some("uprobe"),
        "usdt.s" => Some("uprobe.s"),
        _ => None,
    }
}

/// Whether libbpf takes a first piece whose kind of program isn't among those here.
fn is_of_libbpf(first: &str) -> bool {
    matches!(
        first,
        "action"
            | "fmod_ret"
            | "fmod_ret.s"
            | "kprobe.multi"
            | "kprobe.session"
            | "kretprobe.multi"
            | "lwt_in"
            | "lwt_out"
            | "lwt_seg6local"
            | "lwt_xmit"
            | "netfilter"
            | "raw_tp.w"
            | "raw_tracepoint.w"
            | "struct_ops"
            | "struct_ops.s"
            | "syscall"
            | "uprobe.session"
            | "uprobe.session.s"
    )
}

/// What the name could be of a section whose name is of no kind of program.
///
/// # Errors
///
/// `AllocError` where memory runs out.
pub fn section_hint(alloc: Global, section: &str) -> Result<String, AllocError> {
    if let Some(name) = section.strip_prefix('?') {
        return format!(in alloc;
            "libbpf takes a ? before a name, and doesn't load the program by itself; write {name}"
        );
    }
    let first = first_piece(section);
    if let Some(second) = second_pieces(first) {
        return format!(in alloc; "after {first} may stand {second}");
    }
    if let Some(other) = other_name(first) {
        return format!(in alloc; "for {first}, which libbpf takes, write {other}");
    }
    if is_of_libbpf(first) {
        return format!(in alloc; "libbpf takes {first}, and no other name stands for it here");
    }
    format!(in alloc;
        "up to its first / the name of a program's section is one of {FIRST_PIECES}, {ENDINGS}"
    )
}
