//! Writing records from the bytes that they are read from.

ghost use Rattle.std.specs.Prelude.{◌≡◌, ◌<◌, ◌≤◌, ◌⊎◌, ◌++◌, [], IfOk, OnErr, OnOk, length, take};
ghost use Rattle.btf_encoding.specs.Records.{HasRecord, ReadsBack, kind_at, record_bytes, record_len, type_in};
ghost use Rattle.btf_encoding.specs.Rewriting.{AreRecords, AreWrittenUpTo, IsWrittenAgain, is_kept};

use crate::reading::{after, kind_of, len_with_info, read_type};
use crate::view::TypeRef;
use crate::writing::push_type;
use btf_records::{BtfKind, Endianness, word};
use std::alloc::AllocError;

/// The number of bytes of the record that the bytes begin with.
fn len_of(order: Endianness, bytes: &[u8]) -> usize
    requires { HasRecord order bytes.now }
    ensures { result ≡ record_len order bytes.now }
{
    len_with_info(word(order, bytes, 4))
}

/// Whether the first three words are zeros.
fn is_zero(order: Endianness, bytes: &[u8]) -> bool
    requires { 12 ≤ length bytes.now }
    ensures { result ≡ is_kept BtfKind.Unknown order bytes.now }
{
    word(order, bytes, 0) == 0 && word(order, bytes, 4) == 0 && word(order, bytes, 8) == 0
}

/// Whether the record that the bytes begin with is written as the same bytes.
fn is_kept(order: Endianness, bytes: &[u8]) -> bool
    requires { HasRecord order bytes.now }
    ensures { result ≡ is_kept (kind_at order bytes.now) order bytes.now }
{
    match kind_of(order, bytes) {
        BtfKind::Unknown => is_zero(order, bytes),
        BtfKind::Array | BtfKind::Fwd => word(order, bytes, 8) == 0,
        BtfKind::Var => word(order, bytes, 12) < 4,
        _ => true,
    }
}

/// The bytes of the first records, up to the first that isn't written as the same bytes, and the
/// rest.
#[tactic(auto, using(crate::proofs::ManyTypes::first_record, crate::proofs::Rewritten::records_left))]
fn split_kept(order: Endianness, bytes: &[u8]) -> (&[u8], &[u8])
    requires { AreRecords order bytes.now }
    ensures written { AreWrittenUpTo order bytes.now result.1.now [] result.0.now }
    ensures within { length result.1.now ≤ length bytes.now }
{
    let mut rest = bytes;
    while !rest.is_empty() {
        if !is_kept(order, rest) {
            break;
        }
        rest = after(rest, len_of(order, rest));
    }
    bytes.split_at(bytes.len() - rest.len())
}

/// Appends the first record, if there is one, field by field, and returns the bytes after it.
#[tactic(auto, using(crate::proofs::ManyTypes::first_record, crate::proofs::Rewritten::none_yet, crate::proofs::Rewritten::pushed))]
fn push_first<'a>(
    out: &mut Vec<u8>,
    order: Endianness,
    bytes: &'a [u8],
) -> Result<&'a [u8], AllocError>
    requires { AreRecords order bytes.now }
    ensures written { IfOk result (λ rest.
        AreWrittenUpTo order bytes.now rest.now out.old.items out.new.items) }
    ensures shorter { IfOk result (λ rest.
        (length rest.now ≡ 0) ⊎ (length rest.now < length bytes.now)) }
    ensures err { OnErr result (out.new.items ≡ out.old.items) }
{
    if bytes.is_empty() {
        return Ok(bytes);
    }
    let t = read_type(*out.allocator(), order, bytes)?;
    push_type(out, order, &t)?;
    Ok(after(bytes, len_of(order, bytes)))
}

/// Appends records. When out of memory, a part of them may be appended.
#[tactic(auto, using(crate::proofs::Rewritten::none_yet))]
fn push_records(out: &mut Vec<u8>, order: Endianness, bytes: &[u8]) -> Result<(), AllocError>
    requires { AreRecords order bytes.now }
    ensures written { OnOk result (AreWrittenUpTo order bytes.now [] out.old.items out.new.items) }
    ensures err { OnErr result (take (length out.old.items) out.new.items ≡ out.old.items) }
{
    let mut rest = bytes;
    while !rest.is_empty() {
        let (kept, others) = split_kept(order, rest);
        out.extend_from_slice(kept)?;
        rest = push_first(out, order, others)?;
    }
    Ok(())
}

/// Appends the records in `bytes`, each as `push_type` writes it. Adjacent records that are written
/// as the same bytes are copied together.
#[tactic(auto, using(crate::proofs::Rewritten::all_again))]
pub fn push_types(out: &mut Vec<u8>, order: Endianness, bytes: &[u8]) -> Result<(), AllocError>
    requires { AreRecords order bytes.now }
    ensures written { OnOk result (IsWrittenAgain order bytes.now out.old.items out.new.items) }
    ensures err { OnErr result (out.new.items ≡ out.old.items) }
{
    let len = out.len();
    match push_records(out, order, bytes) {
        Ok(()) => Ok(()),
        Err(error) => {
            out.truncate(len);
            Err(error)
        }
    }
}

/// Appends the record that the bytes begin with, as `push_type` writes it.
fn push_read(out: &mut Vec<u8>, order: Endianness, bytes: &[u8]) -> Result<(), AllocError>
    requires { HasRecord order bytes.now }
    ensures ok { OnOk result
        (out.new.items ≡ out.old.items ++ record_bytes order (type_in order bytes.now)) }
    ensures read_back { OnOk result (ReadsBack order (type_in order bytes.now)) }
    ensures err { OnErr result (out.new.items ≡ out.old.items) }
{
    if is_kept(order, bytes) {
        let (record, _) = bytes.split_at(len_of(order, bytes));
        out.extend_from_slice(record)?;
        return Ok(());
    }
    let t = read_type(*out.allocator(), order, bytes)?;
    push_type(out, order, &t)
}

impl<'a> TypeRef<'a> {
    /// Appends the record's bytes in a byte order, as `push_type` writes the record. A record that
    /// is written as the same bytes is copied.
    #[tactic(auto, using(crate::proofs::CopiedBack::bytes_with))]
    pub fn push_to(&self, out: &mut Vec<u8>, order: Endianness) -> Result<(), AllocError>
        ensures ok { OnOk result (out.new.items ≡ out.old.items ++ record_bytes order self.now) }
        ensures read_back { OnOk result (ReadsBack order self.now) }
        ensures err { OnErr result (out.new.items ≡ out.old.items) }
    {
        if order == self.order {
            push_read(out, order, self.bytes)?;
            return Ok(());
        }
        let t = self.to_type(*out.allocator())?;
        push_type(out, order, &t)
    }
}
