//! Tables that are refused and stay unchanged.

use crate::record_words::{DATASEC_1, DATASEC_2, ENUM, EXTERN, INT, VAR};
use crate::rewriting::{is_written, parse, sanitize};
use btf::{Btf, BtfError, Endianness, KsymsIds, RewriteBtf};
use exercise_parts::{ORDERS, section};
use std::alloc::Global;
use std::process::Abort;

/// Why a table is refused.
#[derive(Clone, Copy, PartialEq)]
enum Refusal {
    InvalidDatasec,
    UnknownBtfType(u32),
    UnexpectedBtfType(u32),
    Other,
}

impl Refusal {
    fn of(error: &BtfError) -> Refusal {
        match error {
            BtfError::InvalidDatasec => Refusal::InvalidDatasec,
            BtfError::UnknownBtfType { type_id } => Refusal::UnknownBtfType(*type_id),
            BtfError::UnexpectedBtfType { type_id } => Refusal::UnexpectedBtfType(*type_id),
            _ => Refusal::Other,
        }
    }
}

/// `g` and `.bss` at 1 and 3.
const STRINGS: [u8; 8] = *b"\0g\0.bss\0";

/// The words of a table's records, the ids of its section `.ksyms` and the placeholder, and
/// why it is refused.
struct Refused {
    title: &'static str,
    types: &'static [u32],
    ksyms: KsymsIds,
    refusal: Refusal,
}

static EXTERNS: [Refused; 6] = [
    Refused {
        title: "an id of no section",
        types: &[1, ENUM, 4],
        ksyms: (1, None),
        refusal: Refusal::UnexpectedBtfType(1),
    },
    Refused {
        title: "an id of void",
        types: &[1, ENUM, 4],
        ksyms: (0, None),
        refusal: Refusal::UnexpectedBtfType(0),
    },
    Refused {
        title: "an id of nothing",
        types: &[1, ENUM, 4],
        ksyms: (2, None),
        refusal: Refusal::UnknownBtfType(2),
    },
    Refused {
        title: "a function and no placeholder",
        types: &[
            1, VAR, 0, 2, 1, EXTERN, 0, 3, DATASEC_2, 0, 1, 0, 0, 2, 0, 0,
        ],
        ksyms: (3, None),
        refusal: Refusal::InvalidDatasec,
    },
    Refused {
        title: "an entry of an integer in `.ksyms`",
        types: &[1, INT, 4, 0x20, 3, DATASEC_1, 0, 1, 0, 0],
        ksyms: (2, Some(1)),
        refusal: Refusal::InvalidDatasec,
    },
    Refused {
        title: "an entry of nothing in `.ksyms`",
        types: &[1, INT, 4, 0x20, 3, DATASEC_1, 0, 7, 0, 0],
        ksyms: (2, Some(1)),
        refusal: Refusal::UnknownBtfType(7),
    },
];

/// Whether a table is refused for this reason.
fn is_refusal(error: Option<BtfError>, wanted: Refusal) -> bool {
    match error {
        Some(error) => Refusal::of(&error) == wanted,
        None => false,
    }
}

/// Whether the step for externs alone refuses a table.
fn is_step_refused(table: &mut Btf<'_>, refused: &Refused) -> bool {
    let (id, placeholder) = refused.ksyms;
    let outcome = table.fixup_ksyms_datasec(id, placeholder);
    is_refusal(outcome.err(), refused.refusal)
}

fn is_refused(rt: &impl Abort, alloc: Global, order: Endianness, refused: &Refused) -> bool {
    let bytes = section(alloc, order, refused.types, &STRINGS, &[]).expect(rt, "a section");
    let mut table = parse(rt, alloc, bytes.as_slice(), order);
    let outcome = sanitize(alloc, &mut table, Some(refused.ksyms));
    let is_refused = is_refusal(outcome.err(), refused.refusal);
    let is_step_refused = is_step_refused(&mut table, refused);
    is_written(table, bytes.as_slice()) && is_refused && is_step_refused
}

/// Rewrites a table that is refused, in both byte orders.
fn check(rt: &impl Abort, alloc: Global, refused: &Refused) {
    for order in ORDERS {
        assert!(rt; is_refused(rt, alloc, order, refused), "{}", refused.title);
    }
}

#[test]
fn refused_tables_stay(rt: HostRuntime) {
    for refused in &EXTERNS {
        check(&rt, rt.alloc(), refused);
    }
}
