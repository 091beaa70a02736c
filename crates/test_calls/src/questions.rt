//! How often a kernel is asked about a feature.

use crate::record_words::{DECL_TAG, ENUM64, FLOAT, PROTO, SIGNED, TYPE_TAG, VAR};
use crate::rewriting::{asks_once, parse};
use btf::Endianness;
use exercise_parts::section;

/// A record of each kind that needs a feature.
const EACH: [u32; 30] = [
    1, VAR, 0, 0, 1, FLOAT, 8, 1, VAR, 0, 1, 0, PROTO, 0, 1, TYPE_TAG, 0, 1, DECL_TAG, 0, 3, 1,
    SIGNED, 4, 1, ENUM64, 8, 1, FLOAT, 4,
];

// About sections of variables, floats, functions, both kinds of tags, and enums of 64 bits.
#[test]
fn features_are_asked_about_once(rt: HostRuntime) {
    let order = Endianness::Little;
    let bytes = section(rt.alloc(), order, &EACH, b"\0p\0", &[]).expect(&rt, "a section");
    let mut table = parse(&rt, rt.alloc(), bytes.as_slice(), order);
    assert!(rt; asks_once(rt.alloc(), &mut table, 6));
}
