//! Members, variants, parameters and variables that the kernel refuses.

use crate::names::NameRule;
use crate::records::TypeFault;
use btf_encoding::TypeRef;
use btf_records::BtfKind;
use btf_tables::Btf;

/// Why the kernel refuses a member of a struct or a union. Each has a type, and a place at or behind that of the
/// one in front, in a union 0, and begins within the record.
pub(crate) fn has_members(types: &Btf<'_>, t: &TypeRef<'_>) -> Option<TypeFault> {
    let size = u64::from(t.size()?);
    let mut last = 0u32;
    for index in 0..t.count() {
        let member = t.member(index)?;
        if !NameRule::OptionalIdentifier.is_met(types, member.name_offset) {
            return Some(TypeFault::PartName(index));
        }
        if member.btf_type == 0 {
            return Some(TypeFault::PartType(index));
        }
        let offset = member.bit_offset(t.flag());
        let is_out = u64::from(offset).div_ceil(8) > size;
        let is_moved = t.kind() == BtfKind::Union && offset != 0;
        if is_out || is_moved || offset < last {
            return Some(TypeFault::PartPlace(index));
        }
        last = offset;
    }
    None
}

/// The offset of the name of a variant.
fn variant_name(t: &TypeRef<'_>, index: usize) -> Option<u32> {
    if let Some(variant) = t.variant(index) {
        return Some(variant.name_offset);
    }
    Some(t.variant64(index)?.name_offset)
}

/// Why the kernel refuses a variant of an enum.
pub(crate) fn has_variants(types: &Btf<'_>, t: &TypeRef<'_>) -> Option<TypeFault> {
    for index in 0..t.count() {
        let name_offset = variant_name(t, index)?;
        if !NameRule::Identifier.is_met(types, name_offset) {
            return Some(TypeFault::PartName(index));
        }
    }
    None
}

/// Why the kernel refuses a parameter of a prototype. A last one without a type stands for any
/// number of arguments, and has no name.
pub(crate) fn has_parameters(
    types: &Btf<'_>,
    t: &TypeRef<'_>,
    rule: NameRule,
) -> Option<TypeFault> {
    for index in 0..t.count() {
        let param = t.param(index)?;
        let rule = if param.btf_type == 0 {
            NameRule::Nameless
        } else {
            rule
        };
        if !rule.is_met(types, param.name_offset) {
            return Some(TypeFault::PartName(index));
        }
    }
    None
}

/// Why the kernel refuses a variable of a section. Each has a type and a size, and they follow each
/// other within the section.
pub(crate) fn has_variables(t: &TypeRef<'_>) -> Option<TypeFault> {
    let size = u64::from(t.size()?);
    let mut end = 0u64;
    for index in 0..t.count() {
        let entry = t.entry(index)?;
        if entry.btf_type == 0 {
            return Some(TypeFault::PartType(index));
        }
        let offset = u64::from(entry.offset);
        if entry.size == 0 || offset < end {
            return Some(TypeFault::PartPlace(index));
        }
        end = offset + u64::from(entry.size);
        if end > size {
            return Some(TypeFault::PartPlace(index));
        }
    }
    None
}
