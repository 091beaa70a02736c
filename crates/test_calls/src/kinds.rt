//! Tables of kinds, and numbers at their limits.

ghost use Rattle.std.specs.Prelude.{◌≡◌, Some, None, codes, map, true, false};
ghost use Rattle.program_kinds.specs.ProgramSection.{plain_kinds, user_probe_kinds, sleepable_kinds, xdp_kinds, sk_skb_kinds, sk_reuseport_kinds, cgroup_skb_kinds, cgroup_kinds, kind_of_pieces};

use program_kinds::{bpf_map_type, bpf_prog_type};

// Each row of the tables gives its kind: no row comes after another with its name.
fn rows_give_their_kinds()
    ensures plain { map (λ row. kind_of_pieces row.0 None) plain_kinds
        ≡ map (λ row. Some row.1) plain_kinds }
    ensures probes { map (λ row. kind_of_pieces row.0 None) user_probe_kinds
        ≡ map (λ row. Some row.1) user_probe_kinds }
    ensures sleepable { map (λ row. kind_of_pieces row.0 None) sleepable_kinds
        ≡ map (λ row. Some row.1) sleepable_kinds }
    ensures xdp { map (λ row. kind_of_pieces (codes "xdp") row.0) (xdp_kinds false)
        ≡ map (λ row. Some row.1) (xdp_kinds false) }
    ensures fragments { map (λ row. kind_of_pieces (codes "xdp.frags") row.0) (xdp_kinds true)
        ≡ map (λ row. Some row.1) (xdp_kinds true) }
    ensures sk_skb { map (λ row. kind_of_pieces (codes "sk_skb") row.0) sk_skb_kinds
        ≡ map (λ row. Some row.1) sk_skb_kinds }
    ensures sk_reuseport { map (λ row. kind_of_pieces (codes "sk_reuseport") row.0)
        sk_reuseport_kinds
        ≡ map (λ row. Some row.1) sk_reuseport_kinds }
    ensures cgroup_skb { map (λ row. kind_of_pieces (codes "cgroup_skb") row.0) cgroup_skb_kinds
        ≡ map (λ row. Some row.1) cgroup_skb_kinds }
    ensures cgroup { map (λ row. kind_of_pieces (codes "cgroup") row.0) cgroup_kinds
        ≡ map (λ row. Some row.1) cgroup_kinds }
{}

// The type of a map, or the number that is no type.
fn map_type(number: u32) -> Result<bpf_map_type, u32> {
    match bpf_map_type::try_from(number) {
        Ok(kind) => Ok(kind),
        Err(error) => Err(error.value),
    }
}

// The type of a program, or the number that is no type.
fn program_type(number: u32) -> Result<bpf_prog_type, u32> {
    match bpf_prog_type::try_from(number) {
        Ok(kind) => Ok(kind),
        Err(error) => Err(error.value),
    }
}

#[test]
fn numbers_types_of_maps(rt: HostRuntime) {
    assert!(rt; map_type(0) == Ok(bpf_map_type::BPF_MAP_TYPE_UNSPEC));
    assert!(rt; map_type(27) == Ok(bpf_map_type::BPF_MAP_TYPE_RINGBUF));
    assert!(rt; map_type(34) == Ok(bpf_map_type::BPF_MAP_TYPE_INSN_ARRAY));
    assert!(rt; map_type(35) == Err(35));
    assert!(rt; bpf_map_type::BPF_MAP_TYPE_INSN_ARRAY as u32 == 34);
}

#[test]
fn numbers_types_of_programs(rt: HostRuntime) {
    assert!(rt; program_type(2) == Ok(bpf_prog_type::BPF_PROG_TYPE_KPROBE));
    assert!(rt; program_type(32) == Ok(bpf_prog_type::BPF_PROG_TYPE_NETFILTER));
    assert!(rt; program_type(33) == Err(33));
    assert!(rt; bpf_prog_type::BPF_PROG_TYPE_NETFILTER as u32 == 32);
}
