//! Reading records from bytes.

ghost use Rattle.std.specs.Prelude.{◌≡◌, ◌+◌, ◌*◌, ◌<◌, ◌≤◌, ◌^◌, IfOk, IfErr, OnOk, IfSome, Option, Some, None, drop, length, slice_get};
ghost use Rattle.btf_encoding.specs.Items.{items_in};
ghost use Rattle.btf_records.specs.Info.{count_in, kind_number_in};
ghost use Rattle.btf_records.specs.Kinds.{kind_count, kind_of};
ghost use Rattle.btf_encoding.specs.Records.{HasRecord, ReadsSame, RecordFault, count_at, kind_at, len_after, record_len, type_in};

use crate::item::Item;
use btf_records::{
    Array, BtfArray, BtfError, BtfKind, BtfType, Const, DataSec, DeclTag, Endianness, Enum, Enum64,
    Float, Func, FuncProto, Fwd, InfoBits, Int, Items, Ptr, Restrict, Struct, TypeTag, Typedef,
    Union, Var, VarLinkage, Volatile, word,
};
use std::alloc::{AllocError, Global};

/// The bytes after the first `len`.
pub fn after(bytes: &[u8], len: usize) -> &[u8]
    requires { len ≤ length bytes.now }
    ensures value { result.now ≡ drop len bytes.now }
    ensures length { length result.now + len ≡ length bytes.now }
{
    bytes.split_at(len).1
}

/// The number of kinds of records.
const KINDS: u32 = 20;

/// The number of bytes of a record, except those of its list, by the number of its kind.
const FIXED_LEN: [usize; 20] = [
    12, 16, 12, 24, 12, 12, 12, 12, 12, 12, 12, 12, 12, 12, 16, 12, 12, 16, 12, 12,
];

/// The size in bytes of an item of a record's list, by the number of the record's kind.
const ITEM_LEN: [usize; 20] = [
    0, 0, 0, 0, 12, 12, 8, 0, 0, 0, 0, 0, 0, 8, 0, 12, 0, 0, 0, 12,
];

/// The number of bytes of a record, by the number of its kind and the count of its info word.
#[tactic(auto, using(crate::proofs::LensByNumber::len_by_number))]
fn len_by_number(kind: u32, count: usize) -> usize
    requires known { kind < kind_count }
    requires count { count < 65536 }
    ensures value { result ≡ 12 + len_after (kind_of kind) count }
{
    FIXED_LEN[kind as usize] + ITEM_LEN[kind as usize] * count
}

/// The number of bytes of a record with this info word.
pub(crate) fn len_with_info(info: u32) -> usize
    requires { kind_number_in info < kind_count }
    ensures { result ≡ 12 + len_after (kind_of (kind_number_in info)) (count_in info) }
{
    len_by_number(info / 0x100_0000 % 32, (info % 0x1_0000) as usize)
}

/// The number of bytes of the record that the bytes begin with.
///
/// `InvalidTypeInfo` where it is cut off, `InvalidTypeKind` where no record has the kind.
#[tactic(auto, using(crate::proofs::WhateverFollows::reads_same))]
pub fn record_len(order: Endianness, bytes: &[u8]) -> Result<usize, BtfError>
    ensures value { IfOk result (λ len. len ≡ record_len order bytes.now) }
    ensures found { OnOk result (HasRecord order bytes.now) }
    ensures alone { OnOk result (ReadsSame order bytes.now) }
    ensures refused { IfErr result (RecordFault order bytes.now) }
{
    if bytes.len() < 12 {
        return Err(BtfError::InvalidTypeInfo);
    }
    let info = word(order, bytes, 4);
    let kind = info / 0x100_0000 % 32;
    if kind >= KINDS {
        return Err(BtfError::InvalidTypeKind { kind });
    }
    let len = len_with_info(info);
    if bytes.len() < len {
        return Err(BtfError::InvalidTypeInfo);
    }
    Ok(len)
}

/// The item at an index of the list after a record's first three words.
pub(crate) fn item<T: Item>(order: Endianness, bytes: &[u8], index: usize) -> Option<T>
    requires head { 12 ≤ length bytes.now }
    requires whole { 12 + T.SIZE * count_at order bytes.now ≤ length bytes.now }
    ensures { result
        ≡ slice_get
        (items_in (T.item_in order) T.SIZE (count_at order bytes.now) (drop 12 bytes.now)) index }
{
    let count = (word(order, bytes, 4) % 0x1_0000) as usize;
    if index < count {
        let list = after(bytes, 12);
        Some(T::read(order, after(list, T::SIZE * index)))
    } else {
        None
    }
}

/// The list after a record's first three words.
fn items<T: Item>(alloc: Global, order: Endianness, bytes: &[u8]) -> Result<Items<T>, AllocError>
    requires head { 12 ≤ length bytes.now }
    requires whole { 12 + T.SIZE * count_at order bytes.now ≤ length bytes.now }
    ensures { IfOk result (λ items.
        items ≡ items_in (T.item_in order) T.SIZE (count_at order bytes.now) (drop 12 bytes.now)) }
{
    let count = (word(order, bytes, 4) % 0x1_0000) as usize;
    let mut items = Items::new(alloc);
    let mut rest = after(bytes, 12);
    for _ in 0..count {
        items.push(T::read(order, rest))?;
        rest = after(rest, T::SIZE);
    }
    Ok(items)
}

/// The kind of the record that the bytes begin with.
pub(crate) fn kind_of(order: Endianness, bytes: &[u8]) -> BtfKind
    requires { HasRecord order bytes.now }
    ensures { result ≡ kind_at order bytes.now }
{
    let number = word(order, bytes, 4) / 0x100_0000 % 32;
    BtfKind::try_from(number).unwrap()
}

/// The record that the bytes begin with.
pub(crate) fn read_type(
    alloc: Global,
    order: Endianness,
    bytes: &[u8],
) -> Result<BtfType, AllocError>
    requires { HasRecord order bytes.now }
    ensures { IfOk result (λ t. t ≡ type_in order bytes.now) }
{
    let name_offset = word(order, bytes, 0);
    let info_word = word(order, bytes, 4);
    let vlen = (info_word % 0x1_0000) as u16;
    let info = InfoBits::of_word(info_word);
    let third = word(order, bytes, 8);
    match kind_of(order, bytes) {
        BtfKind::Unknown => Ok(BtfType::Unknown),
        BtfKind::Int => Ok(BtfType::Int(Int {
            name_offset,
            vlen,
            info,
            size: third,
            int_word: word(order, bytes, 12),
        })),
        BtfKind::Ptr => Ok(BtfType::Ptr(Ptr {
            name_offset,
            vlen,
            info,
            btf_type: third,
        })),
        BtfKind::Array => Ok(BtfType::Array(Array {
            name_offset,
            vlen,
            info,
            array: BtfArray::read(order, after(bytes, 12)),
        })),
        BtfKind::Struct => Ok(BtfType::Struct(Struct {
            name_offset,
            info,
            size: third,
            members: items(alloc, order, bytes)?,
        })),
        BtfKind::Union => Ok(BtfType::Union(Union {
            name_offset,
            info,
            size: third,
            members: items(alloc, order, bytes)?,
            fallback: None,
        })),
        BtfKind::Enum => Ok(BtfType::Enum(Enum {
            name_offset,
            info,
            size: third,
            variants: items(alloc, order, bytes)?,
        })),
        BtfKind::Fwd => Ok(BtfType::Fwd(Fwd {
            name_offset,
            vlen,
            info,
        })),
        BtfKind::Typedef => Ok(BtfType::Typedef(Typedef {
            name_offset,
            vlen,
            info,
            btf_type: third,
        })),
        BtfKind::Volatile => Ok(BtfType::Volatile(Volatile {
            name_offset,
            vlen,
            info,
            btf_type: third,
        })),
        BtfKind::Const => Ok(BtfType::Const(Const {
            name_offset,
            vlen,
            info,
            btf_type: third,
        })),
        BtfKind::Restrict => Ok(BtfType::Restrict(Restrict {
            name_offset,
            vlen,
            info,
            btf_type: third,
        })),
        BtfKind::Func => Ok(BtfType::Func(Func {
            name_offset,
            vlen,
            info,
            btf_type: third,
        })),
        BtfKind::FuncProto => Ok(BtfType::FuncProto(FuncProto {
            name_offset,
            info,
            return_type: third,
            params: items(alloc, order, bytes)?,
        })),
        BtfKind::Var => Ok(BtfType::Var(Var {
            name_offset,
            vlen,
            info,
            btf_type: third,
            linkage: VarLinkage::from(word(order, bytes, 12)),
        })),
        BtfKind::DataSec => Ok(BtfType::DataSec(DataSec {
            name_offset,
            info,
            size: third,
            entries: items(alloc, order, bytes)?,
        })),
        BtfKind::Float => Ok(BtfType::Float(Float {
            name_offset,
            vlen,
            info,
            size: third,
        })),
        BtfKind::DeclTag => Ok(BtfType::DeclTag(DeclTag {
            name_offset,
            vlen,
            info,
            btf_type: third,
            index_word: word(order, bytes, 12),
        })),
        BtfKind::TypeTag => Ok(BtfType::TypeTag(TypeTag {
            name_offset,
            vlen,
            info,
            btf_type: third,
        })),
        BtfKind::Enum64 => Ok(BtfType::Enum64(Enum64 {
            name_offset,
            info,
            size: third,
            variants: items(alloc, order, bytes)?,
        })),
    }
}
