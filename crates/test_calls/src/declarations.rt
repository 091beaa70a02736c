//! Externs that no object gives: their types aren't those of their declarations, or what declares
//! them is no function and no variable.

use crate::record_words::{FUNC, INT, PROTO};
use crate::rewriting::parse;
use btf::{Btf, BtfError, Endianness};
use exercise_parts::section;
use extern_resolution::{KsymsError, resolve_externs};
use object_externs::{ExternDesc, Externs};
use std::alloc::Global;
use std::collections::BTreeMap;
use std::io;
use watched::Watched;

/// The types of the object and of the kernel: an integer, a prototype that returns it, and the
/// function `f` of that prototype.
const TYPES: [u32; 10] = [0, INT, 4, 0x20, 0, PROTO, 1, 1, FUNC, 2];

const INTEGER: u32 = 1;

const SIGNATURE: u32 = 2;

const FUNCTION: u32 = 3;

/// An id without a type.
const NOTHING: u32 = 99;

/// The id that an extern gets, or why it isn't resolved.
#[derive(Clone, Copy, PartialEq)]
enum DeclarationAnswer {
    Resolved(Option<u32>),
    Signature,
    NoDeclaration,
    NoType(u32),
    Other,
}

/// The id of the type that declares the extern `f___x`, the id of its type, whether it is weak, and
/// the answer.
type Case = (u32, u32, bool, DeclarationAnswer);

static CASES: [Case; 6] = [
    (
        FUNCTION,
        SIGNATURE,
        false,
        DeclarationAnswer::Resolved(Some(FUNCTION)),
    ),
    // The extern's type counts, not that of its declaration.
    (FUNCTION, INTEGER, false, DeclarationAnswer::Signature),
    // Strong and weak externs need a declaration.
    (INTEGER, SIGNATURE, false, DeclarationAnswer::NoDeclaration),
    (INTEGER, SIGNATURE, true, DeclarationAnswer::NoDeclaration),
    (0, SIGNATURE, true, DeclarationAnswer::NoDeclaration),
    (NOTHING, SIGNATURE, true, DeclarationAnswer::NoType(NOTHING)),
];

fn refusal_of(error: &KsymsError) -> DeclarationAnswer {
    match error {
        KsymsError::IncompatibleFunctionSignature { name } if name.as_str() == "f" => {
            DeclarationAnswer::Signature
        }
        KsymsError::InvalidExternType { name } if name.as_str() == "f___x" => {
            DeclarationAnswer::NoDeclaration
        }
        KsymsError::BtfError(BtfError::UnknownBtfType { type_id }) => DeclarationAnswer::NoType(
            *type_id,
        ),
        _ => DeclarationAnswer::Other,
    }
}

fn described(btf_id: u32, type_id: u32, is_weak: bool) -> ExternDesc<'static> {
    ExternDesc {
        name: "f___x",
        btf_id,
        is_weak,
        is_resolved: false,
        kernel_btf_id: None,
        ksym_addr: None,
        type_id: Some(type_id),
        essential_name: "f",
    }
}

/// The extern `f___x` alone.
fn externs_of(alloc: Global, desc: ExternDesc<'static>) -> Option<Externs<'static>> {
    let mut by_name = BTreeMap::new(alloc);
    by_name.insert("f___x", desc).ok()?;
    let mut externs = Externs::none(alloc);
    externs.set_by_name(by_name);
    Some(externs)
}

/// The answer for an extern of an object and a kernel with these types.
fn answer_of(
    alloc: Global,
    types: &Btf<'_>,
    desc: ExternDesc<'static>,
) -> Option<DeclarationAnswer> {
    let mut externs = externs_of(alloc, desc)?;
    let mut symbols = Watched::new(io::empty());
    match resolve_externs(alloc, &mut externs, Some(types), Some(types), &mut symbols) {
        Ok(()) => Some(DeclarationAnswer::Resolved(externs.get("f___x")?.kernel_btf_id)),
        Err(error) => Some(refusal_of(&error)),
    }
}

#[test]
fn declarations_are_looked_at(rt: HostRuntime) {
    let order = Endianness::Little;
    let bytes = section(rt.alloc(), order, &TYPES, b"\0f\0", &[]).expect(&rt, "a section");
    let types = parse(&rt, rt.alloc(), bytes.as_slice(), order);
    for (declared, type_id, is_weak, expected) in &CASES {
        let desc = described(*declared, *type_id, *is_weak);
        assert!(rt; answer_of(rt.alloc(), &types, desc) == Some(*expected));
    }
}
