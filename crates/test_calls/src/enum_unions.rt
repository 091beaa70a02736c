//! Enums that unions stand for.

use crate::record_words::{ALL_ONES, ENUM64_1, SIGNED64_2};
use crate::rewriting::{is_sanitized, parse};
use btf::{Btf, Endianness};
use exercise_parts::{ORDERS, section};
use std::alloc::Global;
use std::process::Abort;

/// A signed enum of -1 and 2^32 + 7, and an unsigned one of 9.
const ENUMS_OF_64_BITS: [u32; 15] = [
    1, SIGNED64_2, 8, 3, ALL_ONES, ALL_ONES, 5, 7, 1, 1, ENUM64_1, 8, 3, 9, 0,
];

/// The sign of the enum that the record with an id stands for, and the value of its variant at an
/// index.
fn enum_at(table: &Btf<'_>, id: u32, index: usize) -> Option<(bool, u64)> {
    let t = table.type_by_id(id).ok()?;
    let fallback = t.enum64_fallback()?;
    let variant = fallback.variants.as_slice().get(index)?;
    Some((fallback.signed, variant.value()))
}

/// The variants of the enums that a table's records stand for.
fn enums(table: &Btf<'_>) -> [Option<(bool, u64)>; 4] {
    [
        enum_at(table, 1, 0),
        enum_at(table, 1, 1),
        enum_at(table, 2, 0),
        enum_at(table, 3, 0),
    ]
}

const NO_ENUMS: [Option<(bool, u64)>; 4] = [None; 4];

const ENUMS_KEPT: [Option<(bool, u64)>; 4] = [
    Some((true, u64::MAX)),
    Some((true, 0x1_0000_0007)),
    Some((false, 9)),
    None,
];

/// Whether the records of a table stand for enums with these variants.
fn has_enums(table: &Btf<'_>, wanted: &[Option<(bool, u64)>; 4]) -> bool {
    enums(table) == *wanted
}

/// Whether the records of a table, passed by value, stand for the enums.
fn keeps_enums(table: Btf<'_>) -> bool {
    has_enums(&table, &ENUMS_KEPT)
}

fn check_enums(rt: &impl Abort, alloc: Global, order: Endianness) {
    let bytes = section(alloc, order, &ENUMS_OF_64_BITS, b"\0e\0a\0b\0", &[]);
    let bytes = bytes.expect(rt, "a section");
    let mut table = parse(rt, alloc, bytes.as_slice(), order);
    assert!(rt; has_enums(&table, &NO_ENUMS));
    assert!(rt; is_sanitized(alloc, &mut table));
    assert!(rt; keeps_enums(table));
}

#[test]
fn unions_keep_their_enums(rt: HostRuntime) {
    for order in ORDERS {
        check_enums(&rt, rt.alloc(), order);
    }
}
