//! What verifiers of older kernels don't keep track of.

use crate::programs::{
    NEWEST, add, add_register, copy_32, exit, load_at, poison, reaches, set, shift_left,
    shift_signed, shift_signed_32, skip_if, skip_if_greater, skip_if_same, store,
    subtract_register,
};
use plan_registers::Verifier;

// Linux 6.8 visits a global function only if it's called, and older kernels visit each.
#[test]
fn older_kernels_visit_each_global_function(rt: HostRuntime) {
    let slots = [set(0, 0), exit(), poison(), exit()];
    let older = Verifier {
        called_globals: false,
        ..NEWEST
    };
    assert!(rt; reaches(rt.alloc(), &slots, &[2], NEWEST, 2) == Some(false));
    assert!(rt; reaches(rt.alloc(), &slots, &[2], older, 2) == Some(true));
    assert!(rt; reaches(rt.alloc(), &slots, &[], older, 2) == Some(false));
    // A slot that the program hasn't is no function.
    assert!(rt; reaches(rt.alloc(), &slots, &[4], older, 2) == Some(false));
}

// Linux 5.11 knows that 3 isn't greater than 3.
#[test]
fn equal_signed_numbers(rt: HostRuntime) {
    let older = Verifier {
        signed_equals: false,
        ..NEWEST
    };
    let equal = [
        set(1, 3),
        skip_if_greater(1, 3, 1),
        exit(),
        poison(),
        exit(),
    ];
    assert!(rt; reaches(rt.alloc(), &equal, &[], NEWEST, 3) == Some(false));
    assert!(rt; reaches(rt.alloc(), &equal, &[], older, 3) == Some(true));
    let less = [
        set(1, 2),
        skip_if_greater(1, 3, 1),
        exit(),
        poison(),
        exit(),
    ];
    assert!(rt; reaches(rt.alloc(), &less, &[], older, 3) == Some(false));
}

// Linux 5.3 compares registers with each other.
#[test]
fn two_registers(rt: HostRuntime) {
    let older = Verifier {
        two_registers: false,
        ..NEWEST
    };
    let slots = [
        set(1, 3),
        set(2, 4),
        skip_if_same(1),
        exit(),
        poison(),
        exit(),
    ];
    assert!(rt; reaches(rt.alloc(), &slots, &[], NEWEST, 4) == Some(false));
    assert!(rt; reaches(rt.alloc(), &slots, &[], older, 4) == Some(true));
}

// Before Linux 5.0 only `==` and `!=` decide.
#[test]
fn order_of_numbers(rt: HostRuntime) {
    let older = Verifier {
        orders: false,
        ..NEWEST
    };
    let greater = [
        set(1, 2),
        skip_if_greater(1, 3, 1),
        exit(),
        poison(),
        exit(),
    ];
    assert!(rt; reaches(rt.alloc(), &greater, &[], NEWEST, 3) == Some(false));
    assert!(rt; reaches(rt.alloc(), &greater, &[], older, 3) == Some(true));
    let equal = [set(1, 2), skip_if(1, 3, 1), exit(), poison(), exit()];
    assert!(rt; reaches(rt.alloc(), &equal, &[], older, 3) == Some(false));
}

// Before Linux 4.14 no comparison of a register with a number decides.
#[test]
fn comparisons_with_numbers(rt: HostRuntime) {
    let older = Verifier {
        comparisons: false,
        ..NEWEST
    };
    let slots = [set(1, 3), skip_if(1, 3, 1), poison(), exit()];
    assert!(rt; reaches(rt.alloc(), &slots, &[], NEWEST, 2) == Some(false));
    assert!(rt; reaches(rt.alloc(), &slots, &[], older, 2) == Some(true));
}

// Before Linux 4.16 only equal numbers decide.
#[test]
fn unequal_numbers(rt: HostRuntime) {
    let older = Verifier {
        unequal_numbers: false,
        ..NEWEST
    };
    let unequal = [set(1, 2), skip_if(1, 3, 1), exit(), poison(), exit()];
    assert!(rt; reaches(rt.alloc(), &unequal, &[], NEWEST, 3) == Some(false));
    assert!(rt; reaches(rt.alloc(), &unequal, &[], older, 3) == Some(true));
    let equal = [set(1, 3), skip_if(1, 3, 1), poison(), exit()];
    assert!(rt; reaches(rt.alloc(), &equal, &[], older, 2) == Some(false));
}

// Linux 4.16 knows of bytes in the frame that they are 0, and Linux 5.3 other numbers too.
#[test]
fn zeros_in_a_frame(rt: HostRuntime) {
    let slots = [
        set(1, 0),
        store(8, 1, -8),
        load_at(1, 2, -1),
        skip_if(2, 0, 1),
        poison(),
        exit(),
    ];
    let oldest = Verifier {
        stored_zeros: false,
        ..NEWEST
    };
    let older = Verifier {
        stored_numbers: false,
        ..NEWEST
    };
    assert!(rt; reaches(rt.alloc(), &slots, &[], NEWEST, 4) == Some(false));
    assert!(rt; reaches(rt.alloc(), &slots, &[], oldest, 4) == Some(true));
    assert!(rt; reaches(rt.alloc(), &slots, &[], older, 4) == Some(false));
}

// Linux 5.0 knows what `w2 = w1` leaves.
#[test]
fn moves_of_32_bits(rt: HostRuntime) {
    let older = Verifier {
        low_moves: false,
        ..NEWEST
    };
    let slots = [set(1, 3), copy_32(2, 1), skip_if(2, 3, 1), poison(), exit()];
    assert!(rt; reaches(rt.alloc(), &slots, &[], NEWEST, 3) == Some(false));
    assert!(rt; reaches(rt.alloc(), &slots, &[], older, 3) == Some(true));
}

// Linux 4.18 knows that -8 s>> 2 is -2.
#[test]
fn signed_shifts(rt: HostRuntime) {
    let older = Verifier {
        signed_shifts: false,
        ..NEWEST
    };
    let slots = [
        set(1, -8),
        shift_signed(1, 2),
        skip_if(1, -2, 1),
        poison(),
        exit(),
    ];
    assert!(rt; reaches(rt.alloc(), &slots, &[], NEWEST, 3) == Some(false));
    assert!(rt; reaches(rt.alloc(), &slots, &[], older, 3) == Some(true));
}

// Linux 5.5 knows such a shift of 32 bits.
#[test]
fn signed_shifts_of_32_bits(rt: HostRuntime) {
    let older = Verifier {
        low_signed_shifts: false,
        ..NEWEST
    };
    let low = [
        set(1, 8),
        shift_signed_32(1, 2),
        skip_if(1, 2, 1),
        poison(),
        exit(),
    ];
    assert!(rt; reaches(rt.alloc(), &low, &[], NEWEST, 3) == Some(false));
    assert!(rt; reaches(rt.alloc(), &low, &[], older, 3) == Some(true));
    let all = [
        set(1, 8),
        shift_signed(1, 2),
        skip_if(1, 2, 1),
        poison(),
        exit(),
    ];
    assert!(rt; reaches(rt.alloc(), &all, &[], older, 3) == Some(false));
}

// Linux 5.7 knows that 2^63 + 2^63 is 0.
#[test]
fn sums_that_wrap(rt: HostRuntime) {
    let older = Verifier {
        wrapped_sums: false,
        ..NEWEST
    };
    let both = [
        set(1, 1),
        shift_left(1, 63),
        add_register(1, 1),
        skip_if(1, 0, 1),
        poison(),
        exit(),
    ];
    assert!(rt; reaches(rt.alloc(), &both, &[], NEWEST, 4) == Some(false));
    assert!(rt; reaches(rt.alloc(), &both, &[], older, 4) == Some(true));
    // -1 + 1 wraps without a sign alone.
    let unsigned = [set(1, -1), add(1, 1), skip_if(1, 0, 1), poison(), exit()];
    assert!(rt; reaches(rt.alloc(), &unsigned, &[], older, 3) == Some(false));
}

// Linux 5.7 knows that 0 - 2^63 is 2^63.
#[test]
fn differences_that_wrap(rt: HostRuntime) {
    let older = Verifier {
        wrapped_sums: false,
        ..NEWEST
    };
    let both = [
        set(1, 0),
        set(2, 1),
        shift_left(2, 63),
        subtract_register(1, 2),
        skip_if_same(1),
        poison(),
        exit(),
    ];
    assert!(rt; reaches(rt.alloc(), &both, &[], NEWEST, 5) == Some(false));
    assert!(rt; reaches(rt.alloc(), &both, &[], older, 5) == Some(true));
}
