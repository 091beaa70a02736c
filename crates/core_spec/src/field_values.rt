//! Values of fields.

ghost use Rattle.std.specs.Prelude.{◌≡◌, ◌<◌, ◌+◌, ◌^◌};
ghost use Rattle.core_spec.specs.FieldValues.{element_value, field_at, is_signed, member_value, of_extent, plain, shift_past};

use crate::error::AccessError;
use crate::extent::{Extent, Field, extent_of};
use crate::path::Place;
use crate::value::RelocationValue;
use btf_encoding::TypeRef;
use btf_records::{BtfError, BtfKind, IntEncoding};
use btf_tables::Btf;
use ebpf_items::RelocationKind;

/// A field that isn't a bit field: an instruction that loads it has its size.
#[derive(Clone, Copy, Debug)]
pub struct WholeField {
    /// The id of its type, after modifiers.
    pub type_id: u32,
    /// Its size in bytes.
    pub size: u32,
}

/// A value without a field.
pub(crate) fn plain(value: u64) -> RelocationValue
    ensures { result ≡ plain value }
{
    RelocationValue { value, field: None }
}

/// The difference of 64 and a number of bits.
///
/// `BtfError::InvalidTypeInfo` where there are more than 64 bits.
fn shift_past(bits: u64) -> Result<RelocationValue, AccessError>
    ensures { result ≡ shift_past bits }
{
    match u64::checked_sub(64, bits) {
        Some(shift) => Ok(plain(shift)),
        None => Err(AccessError::BtfError(BtfError::InvalidTypeInfo)),
    }
}

/// The value of an element at the offset `at`, in bits.
pub(crate) fn element_value(
    table: &Btf<'_>,
    kind: RelocationKind,
    type_id: u32,
    at: u32,
) -> Result<RelocationValue, AccessError>
    ensures { result ≡ element_value table.now kind type_id at }
{
    match kind {
        RelocationKind::FieldByteOffset => {
            let size = table.type_size_u32(type_id)?;
            Ok(RelocationValue {
                value: u64::from(at / 8),
                field: Some(WholeField { type_id, size }),
            })
        }
        RelocationKind::FieldByteSize => {
            let size = table.type_size_u32(type_id)?;
            Ok(plain(u64::from(size)))
        }
        _ => Err(AccessError::InvalidRelocationKindForType { type_id }),
    }
}

/// Whether a type's numbers are signed.
fn is_signed(t: &TypeRef<'_>) -> bool
    ensures { result ≡ is_signed t.now }
{
    match t.kind() {
        BtfKind::Enum | BtfKind::Enum64 => t.flag(),
        BtfKind::Int => match t.int() {
            Some(int) => matches!(int.encoding(), IntEncoding::Signed | IntEncoding::Unknown),
            None => false,
        },
        _ => false,
    }
}

/// The field of a member.
fn field_at(table: &Btf<'_>, place: Place) -> Result<Field, AccessError>
    ensures { result ≡ field_at table.now place }
{
    let t = table.type_by_id(place.type_id)?;
    let Some(member) = t.member(place.index as usize) else {
        return Err(AccessError::InvalidRelocationKindForType {
            type_id: place.type_id,
        });
    };
    let type_id = table.resolve_type(member.btf_type)?;
    let size = table.type_size_u32(type_id)?;
    Ok(Field {
        type_id,
        size,
        bit_size: member.bit_size(t.flag()),
    })
}

/// The value of a field with this extent.
fn of_extent(
    table: &Btf<'_>,
    kind: RelocationKind,
    field: Field,
    extent: Extent,
) -> Result<RelocationValue, AccessError>
    requires { extent.start + extent.bits < 2 ^ 64 }
    ensures { result ≡ of_extent table.now kind field extent }
{
    match kind {
        RelocationKind::FieldByteOffset => Ok(RelocationValue {
            value: extent.byte_offset,
            field: if field.bit_size == 0 {
                Some(WholeField {
                    type_id: field.type_id,
                    size: field.size,
                })
            } else {
                None
            },
        }),
        RelocationKind::FieldByteSize => Ok(plain(u64::from(extent.byte_size))),
        RelocationKind::FieldSigned => {
            let t = table.type_by_id(field.type_id)?;
            Ok(plain(u64::from(is_signed(&t))))
        }
        RelocationKind::FieldLShift64 => shift_past(extent.start + extent.bits),
        RelocationKind::FieldRShift64 => shift_past(extent.bits),
        _ => Err(AccessError::InvalidRelocationKindForType {
            type_id: field.type_id,
        }),
    }
}

/// The value of a member at the offset `at`, in bits.
pub(crate) fn member_value(
    table: &Btf<'_>,
    kind: RelocationKind,
    place: Place,
    at: u32,
) -> Result<RelocationValue, AccessError>
    ensures { result ≡ member_value table.now kind place at }
{
    let field = field_at(table, place)?;
    match extent_of(field, at) {
        Some(extent) => of_extent(table, kind, field, extent),
        None => Err(AccessError::BtfError(BtfError::InvalidTypeInfo)),
    }
}
