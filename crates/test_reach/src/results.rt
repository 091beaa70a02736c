//! Results of functions, and what is left in registers behind a call.

use crate::programs::{NEWEST, call, exit, helper, poison, reaches, set, skip, skip_if};

// A function that returns 1 guards poison.
#[test]
fn a_result_decides(rt: HostRuntime) {
    let slots = [
        call(4),
        skip_if(0, 1, 1),
        poison(),
        set(0, 0),
        exit(),
        set(0, 1),
        exit(),
    ];
    assert!(rt; reaches(rt.alloc(), &slots, &[], NEWEST, 2) == Some(false));
    assert!(rt; reaches(rt.alloc(), &slots, &[], NEWEST, 3) == Some(true));
    assert!(rt; reaches(rt.alloc(), &slots, &[], NEWEST, 6) == Some(true));
    // A global function's result is unknown.
    assert!(rt; reaches(rt.alloc(), &slots, &[5], NEWEST, 2) == Some(true));
}

// It returns 1 or 2.
#[test]
fn results_that_differ_are_unknown(rt: HostRuntime) {
    let slots = [
        call(4),
        skip_if(0, 1, 1),
        poison(),
        set(0, 0),
        exit(),
        skip_if(1, 0, 2),
        set(0, 1),
        exit(),
        set(0, 2),
        exit(),
    ];
    assert!(rt; reaches(rt.alloc(), &slots, &[], NEWEST, 2) == Some(true));
}

// It returns 1 at both of its exits.
#[test]
fn results_that_agree_are_known(rt: HostRuntime) {
    let slots = [
        call(4),
        skip_if(0, 1, 1),
        poison(),
        set(0, 0),
        exit(),
        skip_if(1, 0, 2),
        set(0, 1),
        exit(),
        set(0, 1),
        exit(),
    ];
    assert!(rt; reaches(rt.alloc(), &slots, &[], NEWEST, 2) == Some(false));
}

// Another program returns in place of a function that has a tail call.
#[test]
fn a_tail_call_has_any_result(rt: HostRuntime) {
    let slots = [
        call(4),
        skip_if(0, 1, 1),
        poison(),
        set(0, 0),
        exit(),
        helper(12),
        set(0, 1),
        exit(),
    ];
    assert!(rt; reaches(rt.alloc(), &slots, &[], NEWEST, 2) == Some(true));
}

// The result of a function that calls one.
#[test]
fn results_are_handed_on(rt: HostRuntime) {
    let slots = [
        call(4),
        skip_if(0, 1, 1),
        poison(),
        set(0, 0),
        exit(),
        call(1),
        exit(),
        set(0, 1),
        exit(),
    ];
    assert!(rt; reaches(rt.alloc(), &slots, &[], NEWEST, 2) == Some(false));
}

// A loop without an end.
#[test]
fn a_function_that_never_ends_comes_back_nowhere(rt: HostRuntime) {
    let slots = [call(1), poison(), skip(-1)];
    assert!(rt; reaches(rt.alloc(), &slots, &[], NEWEST, 1) == Some(false));
    assert!(rt; reaches(rt.alloc(), &slots, &[], NEWEST, 2) == Some(true));
}

// Register 6 is as before the call, and register 1 isn't.
#[test]
fn saved_registers_stay(rt: HostRuntime) {
    let slots = [
        set(6, 1),
        set(1, 1),
        call(5),
        skip_if(6, 1, 1),
        poison(),
        skip_if(1, 1, 1),
        poison(),
        exit(),
        set(6, 2),
        exit(),
    ];
    assert!(rt; reaches(rt.alloc(), &slots, &[], NEWEST, 4) == Some(false));
    assert!(rt; reaches(rt.alloc(), &slots, &[], NEWEST, 6) == Some(true));
}
