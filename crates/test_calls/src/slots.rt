//! Registers of slots, and slots that stay in the file.

use ebpf_items::{Slots, bpf_insn};

// Only the low four bits of a register's number count.
#[test]
fn registers_have_four_bits(rt: HostRuntime) {
    let mut slot = bpf_insn::from_bytes([0x61, 0x10, 0xff, 0x7f, 0, 0, 0, 0]);
    slot.set_dst_reg(0xff);
    slot.set_src_reg(0x12);
    assert!(rt; slot.to_bytes() == [0x61, 0x2f, 0xff, 0x7f, 0, 0, 0, 0]);
}

// Calls of bpf_probe_read_kernel and bpf_probe_read_kernel_str, and an exit.
const PROBES: &[u8] = &[
    0x85, 0, 0, 0, 0x71, 0, 0, 0, 0x85, 0, 0, 0, 0x73, 0, 0, 0, 0x95, 0, 0, 0, 0, 0, 0, 0,
];

const CALL: [u8; 8] = [0x85, 0x10, 0, 0, 0xff, 0xff, 0xff, 0xff];

fn immediate(slots: &Slots<'_>, index: usize) -> Option<i32> {
    Some(slots.get(index)?.imm)
}

// Whether the slots are borrowed from the file, their number, and the first two immediates.
fn seen(slots: &Slots<'_>) -> (bool, usize, Option<i32>, Option<i32>) {
    (
        slots.is_borrowed(),
        slots.len(),
        immediate(slots, 0),
        immediate(slots, 1),
    )
}

#[test]
fn copies_have_slots_of_their_own(rt: HostRuntime) {
    let mut slots = Slots::borrowed(rt.alloc(), PROBES).expect(&rt, "whole slots");
    slots.rename_helpers();
    let mut copy = slots.try_clone().expect(&rt, "memory");
    assert!(rt; seen(&copy) == (true, 3, Some(4), Some(45)));
    assert!(rt; copy.len() > 1);
    assert!(rt; copy.set(1, bpf_insn::from_bytes(CALL)).is_ok());
    assert!(rt; seen(&copy) == (false, 3, Some(4), Some(-1)));
    assert!(rt; seen(&slots) == (true, 3, Some(4), Some(45)));
    let again = copy.try_clone().expect(&rt, "memory");
    assert!(rt; seen(&again) == (false, 3, Some(4), Some(-1)));
}
