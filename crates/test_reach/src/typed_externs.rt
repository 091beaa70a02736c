//! Addresses of typed externs.

use crate::programs::{NEWEST, exit, load_typed, poison, reaches, skip_if};
use plan_registers::Verifier;

#[test]
fn an_address_of_a_function_is_not_0(rt: HostRuntime) {
    let [first, second] = load_typed(7);
    let slots = [first, second, skip_if(1, 0, 1), exit(), poison(), exit()];
    assert!(rt; reaches(rt.alloc(), &slots, &[], NEWEST, 4) == Some(false));
    // Kernels before 6.4 don't know, nor does any of a variable.
    let older = Verifier {
        functions: false,
        ..NEWEST
    };
    assert!(rt; reaches(rt.alloc(), &slots, &[], older, 4) == Some(true));
}
