//! Type relocations as text.

ghost use Rattle.std.specs.Prelude.{◌≡◌, ◌↔◌, IsTrue};
ghost use Rattle.core_spec.specs.declared.error.AccessError.TheVariants.{BtfError as TypeError};
ghost use Rattle.btf_records.specs.declared.error.BtfError.TheVariants.{OutOfMemory};

use crate::error::AccessError;
use crate::local::local_path;
use crate::path_text::{push_path, push_type};
use btf_records::BtfError;
use btf_tables::Btf;
use ebpf_items::RelocationKind;
use std::alloc::{AllocError, Global};

/// The property of a field, a type or a variant, by the kind of type relocation.
fn kind_text(kind: RelocationKind) -> &'static str {
    match kind {
        RelocationKind::FieldByteOffset => "byte offset of ",
        RelocationKind::FieldByteSize => "byte size of ",
        RelocationKind::FieldExists => "existence of ",
        RelocationKind::FieldSigned => "signedness of ",
        RelocationKind::FieldLShift64 => "left shift for ",
        RelocationKind::FieldRShift64 => "right shift for ",
        RelocationKind::TypeIdLocal => "local id of ",
        RelocationKind::TypeIdTarget => "kernel's id of ",
        RelocationKind::TypeExists => "existence of ",
        RelocationKind::TypeSize => "size of ",
        RelocationKind::EnumVariantExists => "existence of ",
        RelocationKind::EnumVariantValue => "value of ",
    }
}

/// Whether memory ran out, which isn't an error of the access.
fn is_out_of_memory(error: &AccessError) -> bool
    ensures { IsTrue result ↔ (error.now ≡ TypeError OutOfMemory) }
{
    matches!(error, AccessError::BtfError(BtfError::OutOfMemory))
}

/// Appends the type and the access string of an access without a path.
fn push_unread(
    alloc: Global,
    text: &mut String,
    table: &Btf<'_>,
    type_id: u32,
    access_str_off: u32,
) -> Result<(), AllocError> {
    push_type(alloc, text, table, type_id)?;
    match table.string_at(access_str_off) {
        Ok(access_str) => text.push_str(format!(in alloc; " by {access_str:?}")?.as_str()),
        Err(_) => Ok(()),
    }
}

/// The text of a type relocation: the kind in words, and the type with the members, the elements or
/// the variant of the access. `table` has the types that the program was compiled against. For an
/// access without a path, the text has the access string instead.
pub fn relocation_text(
    alloc: Global,
    table: &Btf<'_>,
    kind: RelocationKind,
    type_id: u32,
    access_str_off: u32,
) -> Result<String, AllocError> {
    let mut text = String::from_str(alloc, kind_text(kind))?;
    match local_path(table, kind, type_id, access_str_off) {
        Ok(path) => push_path(alloc, &mut text, table, &path)?,
        Err(error) => {
            if is_out_of_memory(&error) {
                return Err(AllocError);
            }
            push_unread(alloc, &mut text, table, type_id, access_str_off)?;
        }
    }
    Ok(text)
}
