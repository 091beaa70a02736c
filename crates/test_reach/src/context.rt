//! Loads from a program's context.

use crate::programs::{add, call, context_offset, copy_of_1, exit, helper, load, set, skip_if};

// `*(u64 *)(r1 + 0)`, `r6 = r1`, a call, `*(u64 *)(r6 + 0)`, `r6 += 8` and again.
#[test]
fn a_saved_register_is_the_context(rt: HostRuntime) {
    let slots = [
        load(1),
        copy_of_1(6),
        helper(5),
        load(6),
        add(6, 8),
        load(6),
        set(0, 0),
        exit(),
    ];
    assert!(rt; context_offset(rt.alloc(), &slots, &[], 0) == Some(0));
    assert!(rt; context_offset(rt.alloc(), &slots, &[], 3) == Some(0));
    assert!(rt; context_offset(rt.alloc(), &slots, &[], 5) == Some(8));
    // No load, and no slot.
    assert!(rt; context_offset(rt.alloc(), &slots, &[], 1) == None);
    assert!(rt; context_offset(rt.alloc(), &slots, &[], 8) == None);
}

// A helper leaves anything in register 1, and a load leaves anything.
#[test]
fn other_addresses_are_unknown(rt: HostRuntime) {
    let slots = [
        copy_of_1(6),
        helper(5),
        load(1),
        load(6),
        load(2),
        load(10),
        exit(),
    ];
    assert!(rt; context_offset(rt.alloc(), &slots, &[], 2) == None);
    assert!(rt; context_offset(rt.alloc(), &slots, &[], 3) == Some(0));
    assert!(rt; context_offset(rt.alloc(), &slots, &[], 4) == None);
    assert!(rt; context_offset(rt.alloc(), &slots, &[], 5) == None);
}

// Ways that meet with the context at 0 and at 8, and a load that no run reaches.
#[test]
fn offsets_that_differ_are_unknown(rt: HostRuntime) {
    let slots = [
        skip_if(2, 0, 1),
        add(1, 8),
        load(1),
        exit(),
        load(1),
        exit(),
    ];
    assert!(rt; context_offset(rt.alloc(), &slots, &[], 2) == None);
    assert!(rt; context_offset(rt.alloc(), &slots, &[], 4) == None);
}

// The context is an argument of a function, unless the function is global.
#[test]
fn an_argument_is_the_context(rt: HostRuntime) {
    let slots = [call(1), exit(), load(1), exit()];
    assert!(rt; context_offset(rt.alloc(), &slots, &[], 2) == Some(0));
    assert!(rt; context_offset(rt.alloc(), &slots, &[2], 2) == None);
}
