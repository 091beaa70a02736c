//! Variants of enums.

ghost use Rattle.std.specs.Prelude.{◌≡◌};
ghost use Rattle.core_spec.specs.Variants.{variant_count, variant_name, variant_place};

use crate::error::AccessError;
use crate::path::Place;
use btf_encoding::TypeRef;
use btf_records::BtfKind;
use btf_tables::Btf;

/// The number of variants of an enum, or of a union that stands for one.
pub fn variant_count(t: &TypeRef<'_>) -> Option<usize>
    ensures { result ≡ variant_count t.now }
{
    match t.kind() {
        BtfKind::Enum | BtfKind::Enum64 => Some(t.count()),
        BtfKind::Union => t.enum64_fallback().map(|fallback| fallback.variants.len()),
        _ => None,
    }
}

/// The name offset of a variant of an enum, or of a union that stands for one.
pub fn variant_name(t: &TypeRef<'_>, index: usize) -> Option<u32>
    ensures { result ≡ variant_name t.now index }
{
    match t.kind() {
        BtfKind::Enum => Some(t.variant(index)?.name_offset),
        BtfKind::Enum64 => Some(t.variant64(index)?.name_offset),
        BtfKind::Union => {
            let fallback = t.enum64_fallback()?;
            Some(fallback.variants.as_slice().get(index)?.name_offset)
        }
        _ => None,
    }
}

/// The variant for the numbers of an access string, in the type `root` without modifiers.
///
/// `InvalidRelocationKindForType` where the type isn't an enum, `InvalidAccessString` where there
/// isn't exactly one number, `InvalidAccessIndex` where the enum has no such variant,
/// `InvalidStringOffset` where its name can't be read.
pub(crate) fn variant_place(
    table: &Btf<'_>,
    root: u32,
    numbers: &[u64],
) -> Result<Place, AccessError>
    ensures { result ≡ variant_place table.now root numbers.now }
{
    let t = table.type_by_id(root)?;
    let Some(len) = variant_count(&t) else {
        return Err(AccessError::InvalidRelocationKindForType { type_id: root });
    };
    let [index] = numbers else {
        return Err(AccessError::InvalidAccessString);
    };
    let place = Place {
        type_id: root,
        index: *index,
    };
    let Some(name_offset) = variant_name(&t, *index as usize) else {
        return Err(AccessError::InvalidAccessIndex { place, len });
    };
    let _name = table.string_at(name_offset)?;
    Ok(place)
}
