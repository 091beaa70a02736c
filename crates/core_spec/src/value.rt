//! Values of paths.

ghost use Rattle.std.specs.Prelude.{◌≡◌};
ghost use Rattle.core_spec.specs.PathValues.{enum_value, field_value, path_value, type_size_value};

use crate::error::AccessError;
use crate::field_values::{WholeField, element_value, member_value, plain};
use crate::path::{AccessPath, Step};
use crate::variant_values::variant_value;
use btf_tables::Btf;
use ebpf_items::RelocationKind;

/// The value of a type relocation's path.
#[derive(Clone, Copy, Debug)]
pub struct RelocationValue {
    pub value: u64,
    /// For a byte offset, the field at that offset, unless it is a bit field.
    pub field: Option<WholeField>,
}

/// The value of a path to a field, for the kinds of a field's offset, size, sign and shifts.
fn field_value(
    table: &Btf<'_>,
    kind: RelocationKind,
    path: &AccessPath,
) -> Result<RelocationValue, AccessError>
    ensures { result ≡ field_value table.now kind path.now }
{
    match path.steps.last() {
        Some(Step::Element(place)) => element_value(table, kind, place.type_id, path.bit_offset),
        Some(Step::Member(place)) => member_value(table, kind, place, path.bit_offset),
        _ => Err(AccessError::InvalidRelocationKindForType {
            type_id: path.type_id,
        }),
    }
}

/// The size of the type that a path begins with.
fn type_size_value(table: &Btf<'_>, type_id: u32) -> Result<RelocationValue, AccessError>
    ensures { result ≡ type_size_value table.now type_id }
{
    let size = table.type_size_u32(type_id)?;
    Ok(plain(u64::from(size)))
}

/// The value of the variant that a path leads to.
fn enum_value(table: &Btf<'_>, path: &AccessPath) -> Result<RelocationValue, AccessError>
    ensures { result ≡ enum_value table.now path.now }
{
    let Some(Step::Variant(place)) = path.steps.last() else {
        return Err(AccessError::InvalidRelocationKindForType {
            type_id: path.type_id,
        });
    };
    let t = table.type_by_id(place.type_id)?;
    match variant_value(&t, place.index as usize) {
        Some(value) => Ok(plain(value)),
        None => Err(AccessError::InvalidRelocationKindForType {
            type_id: place.type_id,
        }),
    }
}

/// The value of a path through a table's types, by the kind of type relocation: a field's offset or
/// size in bytes, whether it is signed, or its shift in 64 bits; a type's id or its size in bytes;
/// a variant's value; and 1 for the existence of a field, a type or a variant.
///
/// The offset and size of a bit field are those of the least aligned unit that it fits in. The unit
/// has the size of the field's type, doubled as often as needed while it is below 8 bytes.
///
/// `InvalidRelocationKindForType` for the sign or a shift of an element,
/// `BtfError::InvalidTypeInfo` where a bit field has no unit, a size doesn't fit in 32 bits, or a
/// shift would be negative, and the errors of the look-ups of sizes and types.
pub fn path_value(
    table: &Btf<'_>,
    kind: RelocationKind,
    path: &AccessPath,
) -> Result<RelocationValue, AccessError>
    ensures { result ≡ path_value table.now kind path.now }
{
    match kind {
        RelocationKind::FieldExists
        | RelocationKind::TypeExists
        | RelocationKind::EnumVariantExists => Ok(plain(1)),
        RelocationKind::TypeIdLocal | RelocationKind::TypeIdTarget => {
            Ok(plain(u64::from(path.type_id)))
        }
        RelocationKind::TypeSize => type_size_value(table, path.type_id),
        RelocationKind::EnumVariantValue => enum_value(table, path),
        RelocationKind::FieldByteOffset
        | RelocationKind::FieldByteSize
        | RelocationKind::FieldSigned
        | RelocationKind::FieldLShift64
        | RelocationKind::FieldRShift64 => field_value(table, kind, path),
    }
}
