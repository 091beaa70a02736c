//! Records that are added to a table.

ghost use Rattle.std.specs.Prelude.{◌≡◌, ◌++◌, IfOk, OnErr, OnOk};
ghost use Rattle.btf_encoding.specs.Records.{ReadsBack, record_bytes};
ghost use Rattle.btf_storage.specs.NewRecords.{record_of};
ghost use Rattle.btf_records.specs.Fields.{fallback_of};

use btf_encoding::{TypeRef, push_type};
use btf_records::{BtfType, Endianness, Enum64Fallback, Union};
use std::alloc::AllocError;

/// A record by value, or a view of a record whose bytes are copied.
#[derive(Drop)]
pub(crate) enum NewRecord<'t> {
    Own(BtfType),
    Copied(&'t TypeRef<'t>),
}

/// The enum that a record by value stands for.
fn own_fallback(t: BtfType) -> Option<Enum64Fallback>
    ensures { result ≡ fallback_of t }
{
    let BtfType::Union(union) = t else {
        return None;
    };
    let Union { fallback, .. } = union;
    fallback
}

/// The enum that a viewed record stands for.
fn copied_fallback(t: &TypeRef<'_>) -> Result<Option<Enum64Fallback>, AllocError>
    ensures { IfOk result (λ fallback. fallback ≡ fallback_of t.now) }
{
    match t.enum64_fallback() {
        Some(fallback) => Ok(Some(fallback.clone()?)),
        None => Ok(None),
    }
}

impl<'t> NewRecord<'t> {
    /// Appends its bytes.
    pub fn push_to(&self, out: &mut Vec<u8>, order: Endianness) -> Result<(), AllocError>
        ensures ok { OnOk result
            (out.new.items ≡ out.old.items ++ record_bytes order (record_of self.now)) }
        ensures read_back { OnOk result (ReadsBack order (record_of self.now)) }
        ensures err { OnErr result (out.new.items ≡ out.old.items) }
    {
        match self {
            NewRecord::Own(t) => push_type(out, order, t),
            NewRecord::Copied(t) => t.push_to(out, order),
        }
    }

    /// The enum that it stands for.
    pub fn into_fallback(self) -> Result<Option<Enum64Fallback>, AllocError>
        ensures { IfOk result (λ fallback. fallback ≡ fallback_of (record_of self.entry)) }
    {
        match self {
            NewRecord::Own(t) => Ok(own_fallback(t)),
            NewRecord::Copied(t) => copied_fallback(t),
        }
    }
}
