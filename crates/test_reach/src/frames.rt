//! Values in a function's frame.

use crate::programs::{
    NEWEST, add, call, copy, exit, helper, load_at, poison, reaches, set, skip_if, store,
    store_number,
};
use plan_registers::Verifier;

// `*(u64 *)(r10 - 8) = 1`, and back.
#[test]
fn a_stored_number_decides(rt: HostRuntime) {
    let slots = [
        set(1, 1),
        store(8, 1, -8),
        load_at(8, 2, -8),
        skip_if(2, 1, 1),
        poison(),
        exit(),
    ];
    assert!(rt; reaches(rt.alloc(), &slots, &[], NEWEST, 4) == Some(false));
    let older = Verifier {
        stored_numbers: false,
        ..NEWEST
    };
    assert!(rt; reaches(rt.alloc(), &slots, &[], older, 4) == Some(true));
}

// One byte that is 0, at the frame's end.
#[test]
fn a_stored_zero_decides(rt: HostRuntime) {
    let slots = [
        set(1, 0),
        store(1, 1, -1),
        load_at(1, 2, -1),
        skip_if(2, 0, 1),
        poison(),
        exit(),
    ];
    assert!(rt; reaches(rt.alloc(), &slots, &[], NEWEST, 4) == Some(false));
    // Linux knows no other number of one byte there.
    let other = [
        set(1, 1),
        store(1, 1, -1),
        load_at(1, 2, -1),
        skip_if(2, 1, 1),
        poison(),
        exit(),
    ];
    assert!(rt; reaches(rt.alloc(), &other, &[], NEWEST, 4) == Some(true));
}

// Four bytes at a multiple of eight (Linux 5.16).
#[test]
fn a_stored_part_decides(rt: HostRuntime) {
    let slots = [
        set(1, 7),
        store(4, 1, -16),
        load_at(4, 2, -16),
        skip_if(2, 7, 1),
        poison(),
        exit(),
    ];
    assert!(rt; reaches(rt.alloc(), &slots, &[], NEWEST, 4) == Some(false));
    let older = Verifier {
        stored_parts: false,
        ..NEWEST
    };
    assert!(rt; reaches(rt.alloc(), &slots, &[], older, 4) == Some(true));
}

// `*(u64 *)(r10 - 8) = 1` as an immediate (Linux 6.3).
#[test]
fn a_stored_immediate_decides(rt: HostRuntime) {
    let slots = [
        store_number(-8, 1),
        load_at(8, 2, -8),
        skip_if(2, 1, 1),
        poison(),
        exit(),
    ];
    assert!(rt; reaches(rt.alloc(), &slots, &[], NEWEST, 3) == Some(false));
    let older = Verifier {
        stored_immediates: false,
        ..NEWEST
    };
    assert!(rt; reaches(rt.alloc(), &slots, &[], older, 3) == Some(true));
}

// A helper may write to the frame whose address it gets, and to no other.
#[test]
fn a_helper_may_write(rt: HostRuntime) {
    let kept = [
        store_number(-8, 1),
        helper(5),
        load_at(8, 2, -8),
        skip_if(2, 1, 1),
        poison(),
        exit(),
    ];
    assert!(rt; reaches(rt.alloc(), &kept, &[], NEWEST, 4) == Some(false));
    let written = [
        store_number(-8, 1),
        copy(1, 10),
        add(1, -8),
        helper(5),
        load_at(8, 2, -8),
        skip_if(2, 1, 1),
        poison(),
        exit(),
    ];
    assert!(rt; reaches(rt.alloc(), &written, &[], NEWEST, 6) == Some(true));
}

// A function has a frame of its own.
#[test]
fn a_function_has_another_frame(rt: HostRuntime) {
    let slots = [
        store_number(-8, 1),
        set(1, 0),
        call(4),
        load_at(8, 2, -8),
        skip_if(2, 1, 1),
        poison(),
        exit(),
        store_number(-8, 2),
        set(0, 0),
        exit(),
    ];
    assert!(rt; reaches(rt.alloc(), &slots, &[], NEWEST, 5) == Some(false));
}
