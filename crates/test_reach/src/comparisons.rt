//! Comparisons of 64 bits, and of the low 32 (RFC 9669, section 4.3).

use crate::programs::{NEWEST, exit, poison, reaches, set_32, skip_if_less, skip_if_less_32};

// `w1 = -1` leaves 0 in the upper half, so that the number of 64 bits isn't negative.
#[test]
fn halves_are_compared(rt: HostRuntime) {
    let low = [
        set_32(1, -1),
        skip_if_less_32(1, 0, 2),
        poison(),
        exit(),
        poison(),
        exit(),
    ];
    assert!(rt; reaches(rt.alloc(), &low, &[], NEWEST, 2) == Some(false));
    assert!(rt; reaches(rt.alloc(), &low, &[], NEWEST, 4) == Some(true));
    let all = [
        set_32(1, -1),
        skip_if_less(1, 0, 2),
        poison(),
        exit(),
        poison(),
        exit(),
    ];
    assert!(rt; reaches(rt.alloc(), &all, &[], NEWEST, 2) == Some(true));
    assert!(rt; reaches(rt.alloc(), &all, &[], NEWEST, 4) == Some(false));
}
