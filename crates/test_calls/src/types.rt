//! Types that are made, and records of functions and lines as the kernel takes them, by the
//! kernel's BTF documentation.

use btf::{
    Array, Btf, BtfEnum, BtfEnum64, BtfExt, BtfKind, BtfParam, BtfType, DataSec, DataSecEntry,
    DeclTag, Endianness, Enum, Enum64, Float, Func, FuncLinkage, FuncProto, Fwd, Ptr, Restrict,
    TypeTag, Var, VarLinkage, Volatile,
};
use exercise_parts::{push_words, section};
use std::alloc::{AllocError, Global};

/// The words of the types that the test makes.
static TYPES: [&[u32]; 15] = [
    &[0, 0, 0],
    &[0, 0x0200_0000, 1],
    &[0, 0x0300_0000, 0, 2, 3, 16],
    &[8, 0x0700_0000, 0],
    &[0, 0x0900_0000, 1],
    &[0, 0x0b00_0000, 1],
    &[8, 0x0c00_0001, 3],
    &[9, 0x0e00_0000, 1, 2],
    &[9, 0x1000_0000, 8],
    &[9, 0x1100_0000, 2, 0xffff_ffff],
    &[9, 0x1200_0000, 2],
    &[3, 0x8600_0002, 4, 4, 0xffff_ffff, 6, 1],
    &[0, 0x0d00_0002, 1, 5, 2, 0, 0],
    &[9, 0x0f00_0001, 4, 7, 0, 4],
    &[9, 0x1300_0001, 8, 4, 0x89ab_cdef, 0x0123_4567],
];

/// The section of these types.
fn wanted_section(alloc: Global) -> Result<Vec<u8>, AllocError> {
    let mut words = Vec::new(alloc);
    for words_of_type in &TYPES {
        words.extend_from_slice(words_of_type)?;
    }
    section(alloc, Endianness::Little, words.as_slice(), b"\0int\0", &[])
}

/// Types that hold no list.
fn types_without_lists(alloc: Global) -> Result<Vec<BtfType>, AllocError> {
    let types = [
        BtfType::Unknown,
        BtfType::Ptr(Ptr::new(0, 1)),
        BtfType::Array(Array::new(0, 2, 3, 16)),
        BtfType::Fwd(Fwd::new(8)),
        BtfType::Volatile(Volatile::new(1)),
        BtfType::Restrict(Restrict::new(1)),
        BtfType::Func(Func::new(8, 3, FuncLinkage::Global)),
        BtfType::Var(Var::new(9, 1, VarLinkage::Extern)),
        BtfType::Float(Float::new(9, 8)),
        BtfType::DeclTag(DeclTag::new(9, 2, -1)),
        BtfType::TypeTag(TypeTag::new(9, 2)),
    ];
    Ok(Vec::from_array(alloc, types)?)
}

fn signed_enum(alloc: Global) -> Result<BtfType, AllocError> {
    let variants = [BtfEnum::new(4, 0xffff_ffff), BtfEnum::new(6, 1)];
    let variants = Vec::from_array(alloc, variants)?;
    Ok(BtfType::Enum(Enum::new(3, true, variants)))
}

fn prototype(alloc: Global) -> Result<BtfType, AllocError> {
    let number = BtfParam {
        name_offset: 5,
        btf_type: 2,
    };
    let more = BtfParam {
        name_offset: 0,
        btf_type: 0,
    };
    let params = Vec::from_array(alloc, [number, more])?;
    Ok(BtfType::FuncProto(FuncProto::new(params, 1)))
}

fn variables(alloc: Global) -> Result<BtfType, AllocError> {
    let entry = DataSecEntry {
        btf_type: 7,
        offset: 0,
        size: 4,
    };
    let entries = Vec::from_array(alloc, [entry])?;
    Ok(BtfType::DataSec(DataSec::new(9, entries, 4)))
}

fn long_enum(alloc: Global) -> Result<BtfType, AllocError> {
    let variants = Vec::from_array(alloc, [BtfEnum64::new(4, 0x0123_4567_89ab_cdef)])?;
    Ok(BtfType::Enum64(Enum64::new(9, false, variants)))
}

fn types_with_lists(alloc: Global) -> Result<Vec<BtfType>, AllocError> {
    let mut types = Vec::new(alloc);
    types.push(signed_enum(alloc)?)?;
    types.push(prototype(alloc)?)?;
    types.push(variables(alloc)?)?;
    types.push(long_enum(alloc)?)?;
    Ok(types)
}

/// Whether types are added to a table.
fn adds_all(table: &mut Btf<'_>, types: Vec<BtfType>) -> bool {
    for t in types {
        if table.add_type(t).is_err() {
            return false;
        }
    }
    true
}

#[test]
fn types_are_made(rt: HostRuntime) {
    let mut table = Btf::new(rt.alloc()).expect(&rt, "a table");
    assert!(rt; table.is_empty());
    assert!(rt; matches!(table.add_string("int"), Ok(1)));
    let without_lists = types_without_lists(rt.alloc()).expect(&rt, "types");
    assert!(rt; adds_all(&mut table, without_lists));
    let with_lists = types_with_lists(rt.alloc()).expect(&rt, "types");
    assert!(rt; adds_all(&mut table, with_lists));
    let wanted = wanted_section(rt.alloc()).expect(&rt, "bytes");
    let written = table.to_bytes().expect(&rt, "bytes");
    assert!(rt; written.as_slice() == wanted.as_slice());
}

/// The words of a section after magic, version and flags, with the records of a function and of a
/// line for a section without a name. Those of functions have 12 bytes.
const EXTENSION: [u32; 18] = [
    24, 0, 24, 24, 28, 12, 0, 1, 16, 7, 99, 16, 0, 1, 8, 2, 3, 1025,
];

/// Whether the records of functions are these bytes.
fn funcs_are(alloc: Global, extension: &BtfExt<'_>, wanted: &[u8]) -> bool {
    let Some(records) = extension.func_info().get("") else {
        return false;
    };
    let written = records.func_info_bytes(alloc);
    written.is_ok_and(|bytes| bytes.as_slice() == wanted)
}

/// Whether the records of lines are these bytes.
fn lines_are(alloc: Global, extension: &BtfExt<'_>, wanted: &[u8]) -> bool {
    let Some(records) = extension.line_info("") else {
        return false;
    };
    let written = records.line_info_bytes(alloc);
    written.is_ok_and(|bytes| bytes.as_slice() == wanted)
}

#[test]
fn records_are_written_low_byte_first(rt: HostRuntime) {
    let table = Btf::new(rt.alloc()).expect(&rt, "a table");
    let mut bytes = Vec::from_array(rt.alloc(), [0xeb, 0x9f, 1, 0]).expect(&rt, "bytes");
    push_words(&mut bytes, Endianness::Big, &EXTENSION).expect(&rt, "bytes");
    let extension = BtfExt::parse(rt.alloc(), bytes.as_slice(), Endianness::Big, &table);
    let extension = extension.ok().expect(&rt, "records");
    assert!(rt; extension.func_info_rec_size() == 12);
    assert!(rt; extension.line_info_rec_size() == 16);
    assert!(rt; funcs_are(rt.alloc(), &extension, &[2, 0, 0, 0, 7, 0, 0, 0]));
    let line = [1, 0, 0, 0, 2, 0, 0, 0, 3, 0, 0, 0, 1, 4, 0, 0];
    assert!(rt; lines_are(rt.alloc(), &extension, &line));
}

#[test]
fn kinds_have_names(rt: HostRuntime) {
    let text = format!(in rt.alloc(); "{}", BtfKind::FuncProto).expect(&rt, "a text");
    assert!(rt; text.as_str() == "[FUNC_PROTO]");
}
