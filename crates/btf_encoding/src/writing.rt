//! Writing records to bytes.

ghost use Rattle.std.specs.Prelude.{◌≡◌, ◌++◌, ◌<◌, ◌^◌, All, length, take, OnOk, OnErr, IfOk};
ghost use Rattle.std.specs.List.{flat_map};
ghost use Rattle.btf_records.specs.Words.{words_bytes};
ghost use Rattle.btf_encoding.specs.Records.{IsInRange, ReadsBack, bits_of, count_of, record_bytes, words_after, words_of};

use crate::item::Item;
use btf_records::{BtfType, Endianness, Items, push_word};
use std::alloc::AllocError;

/// Appends words.
fn push_words(out: &mut Vec<u8>, order: Endianness, words: &[u32]) -> Result<(), AllocError>
    ensures ok { OnOk result (out.new.items ≡ out.old.items ++ words_bytes order words.now) }
    ensures fits { OnOk result (All (λ w. w < 2 ^ 32) words.now) }
    ensures err { OnErr result (take (length out.old.items) out.new.items ≡ out.old.items) }
{
    for word in words {
        push_word(out, order, *word)?;
    }
    Ok(())
}

/// Appends items.
fn push_items<T: Item>(out: &mut Vec<u8>, order: Endianness, items: &[T]) -> Result<(), AllocError>
    ensures ok { OnOk result
        (out.new.items ≡ out.old.items ++ words_bytes order (flat_map T.words items.now)) }
    ensures err { OnErr result (take (length out.old.items) out.new.items ≡ out.old.items) }
    ensures fits { OnOk result (All (λ w. w < 2 ^ 32) (flat_map T.words items.now)) }
{
    for item in items {
        item.write(order, out)?;
    }
    Ok(())
}

/// The count of a list, which fits in 16 bits.
fn count<T: Copy>(items: &Items<T>) -> u16
    ensures value { result ≡ length items.now }
    ensures bounded { length items.now < 65536 }
{
    items.len() as u16
}

/// The first three words of a record.
fn head_words(t: &BtfType) -> [u32; 3]
    ensures words { words_of t.now ≡ result ++ words_after t.now }
    ensures count { count_of t.now < 65536 }
    ensures bits { (bits_of t.now).bits_16_to_23 < 256 }
{
    let kind = t.kind();
    match t {
        BtfType::Unknown => [0, 0, 0],
        BtfType::Int(t) => [t.name_offset, t.info.word(kind, t.vlen), t.size],
        BtfType::Ptr(t) => [t.name_offset, t.info.word(kind, t.vlen), t.btf_type],
        BtfType::Array(t) => [t.name_offset, t.info.word(kind, t.vlen), 0],
        BtfType::Struct(t) => [t.name_offset, t.info.word(kind, count(&t.members)), t.size],
        BtfType::Union(t) => [t.name_offset, t.info.word(kind, count(&t.members)), t.size],
        BtfType::Enum(t) => [t.name_offset, t.info.word(kind, count(&t.variants)), t.size],
        BtfType::Fwd(t) => [t.name_offset, t.info.word(kind, t.vlen), 0],
        BtfType::Typedef(t) => [t.name_offset, t.info.word(kind, t.vlen), t.btf_type],
        BtfType::Volatile(t) => [t.name_offset, t.info.word(kind, t.vlen), t.btf_type],
        BtfType::Const(t) => [t.name_offset, t.info.word(kind, t.vlen), t.btf_type],
        BtfType::Restrict(t) => [t.name_offset, t.info.word(kind, t.vlen), t.btf_type],
        BtfType::Func(t) => [t.name_offset, t.info.word(kind, t.vlen), t.btf_type],
        BtfType::FuncProto(t) => [
            t.name_offset,
            t.info.word(kind, count(&t.params)),
            t.return_type,
        ],
        BtfType::Var(t) => [t.name_offset, t.info.word(kind, t.vlen), t.btf_type],
        BtfType::DataSec(t) => [t.name_offset, t.info.word(kind, count(&t.entries)), t.size],
        BtfType::Float(t) => [t.name_offset, t.info.word(kind, t.vlen), t.size],
        BtfType::DeclTag(t) => [t.name_offset, t.info.word(kind, t.vlen), t.btf_type],
        BtfType::TypeTag(t) => [t.name_offset, t.info.word(kind, t.vlen), t.btf_type],
        BtfType::Enum64(t) => [t.name_offset, t.info.word(kind, count(&t.variants)), t.size],
    }
}

/// Appends the words of a record after its first three.
fn push_tail(out: &mut Vec<u8>, order: Endianness, t: &BtfType) -> Result<(), AllocError>
    ensures ok { OnOk result (out.new.items ≡ out.old.items ++ words_bytes order (words_after t.now)) }
    ensures err { OnErr result (take (length out.old.items) out.new.items ≡ out.old.items) }
    ensures fits { OnOk result (All (λ w. w < 2 ^ 32) (words_after t.now)) }
{
    match t {
        BtfType::Int(t) => push_words(out, order, &[t.int_word]),
        BtfType::Array(t) => t.array.write(order, out),
        BtfType::Struct(t) => push_items(out, order, t.members.as_slice()),
        BtfType::Union(t) => push_items(out, order, t.members.as_slice()),
        BtfType::Enum(t) => push_items(out, order, t.variants.as_slice()),
        BtfType::FuncProto(t) => push_items(out, order, t.params.as_slice()),
        BtfType::Var(t) => push_words(out, order, &[t.linkage.number()]),
        BtfType::DataSec(t) => push_items(out, order, t.entries.as_slice()),
        BtfType::DeclTag(t) => push_words(out, order, &[t.index_word]),
        BtfType::Enum64(t) => push_items(out, order, t.variants.as_slice()),
        _ => Ok(()),
    }
}

/// Appends a record's words. When out of memory, a part of them may be appended.
#[tactic(auto, unfolding(crate::specs::Records::record_bytes))]
fn push_fields(out: &mut Vec<u8>, order: Endianness, t: &BtfType) -> Result<(), AllocError>
    ensures ok { OnOk result (out.new.items ≡ out.old.items ++ record_bytes order t.now) }
    ensures err { OnErr result (take (length out.old.items) out.new.items ≡ out.old.items) }
    ensures fits { OnOk result (All (λ w. w < 2 ^ 32) (words_of t.now)) }
    ensures count { count_of t.now < 65536 }
    ensures bits { (bits_of t.now).bits_16_to_23 < 256 }
{
    let head = head_words(t);
    push_words(out, order, &head)?;
    push_tail(out, order, t)
}

/// Appends a record's bytes. The third word of `BTF_KIND_FWD` and `BTF_KIND_ARRAY` is written as 0,
/// an unknown linkage of a `BTF_KIND_VAR` as 3, and `BTF_KIND_UNKN` as zeros.
pub fn push_type(out: &mut Vec<u8>, order: Endianness, t: &BtfType) -> Result<(), AllocError>
    ensures ok { OnOk result (out.new.items ≡ out.old.items ++ record_bytes order t.now) }
    ensures read_back { OnOk result (ReadsBack order t.now) }
    ensures err { OnErr result (out.new.items ≡ out.old.items) }
{
    let len = out.len();
    match push_fields(out, order, t) {
        Ok(()) => Ok(()),
        Err(error) => {
            out.truncate(len);
            Err(error)
        }
    }
}
