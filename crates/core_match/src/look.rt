//! The comparison of one member.

ghost use Rattle.std.specs.Prelude.{◌≡◌};
ghost use Rattle.core_match.specs.Looks.{is_composite, look_at, look_at_named, look_at_unnamed, searched};

use btf_compatibility::fields_are_compatible;
use btf_encoding::TypeRef;
use btf_records::{BtfKind, BtfMember};
use btf_tables::Btf;
use core_spec::AccessError;

/// The result of the comparison of a member of a struct or union.
#[derive(Clone, Copy)]
pub(crate) enum Look {
    /// It doesn't match; the next one may match.
    Next,
    /// It has the name and isn't compatible: no member of the struct or union matches.
    Mismatch,
    /// It matches.
    Match,
    /// It has no name, and its type is the struct or union of this id, which is searched.
    Descend(u32),
}

fn is_composite(t: &TypeRef<'_>) -> bool
    ensures { result ≡ is_composite t.now }
{
    matches!(t.kind(), BtfKind::Struct | BtfKind::Union)
}

/// The comparison of a member without a name.
fn look_at_unnamed(target: &Btf<'_>, member: BtfMember) -> Result<Look, AccessError>
    ensures { result ≡ look_at_unnamed target.now member }
{
    let type_id = target.resolve_type(member.btf_type)?;
    let t = target.type_by_id(type_id)?;
    if is_composite(&t) {
        Ok(Look::Descend(type_id))
    } else {
        Ok(Look::Next)
    }
}

/// The comparison of a member with the wanted name.
fn look_at_named<'t>(
    local: &Btf<'t>,
    type_id: u32,
    target: &Btf<'t>,
    member: BtfMember,
) -> Result<Look, AccessError>
    ensures { result ≡ look_at_named local.now type_id target.now member }
{
    if fields_are_compatible(local, type_id, target, member.btf_type)? {
        Ok(Look::Match)
    } else {
        Ok(Look::Mismatch)
    }
}

/// Compares a member of a target type: whether it has this name and is compatible with the local
/// type of this id.
///
/// `BtfError` where its name or its type can't be looked up, or types can't be compared.
pub(crate) fn look_at<'t>(
    local: &Btf<'t>,
    type_id: u32,
    name: &str,
    target: &Btf<'t>,
    member: BtfMember,
) -> Result<Look, AccessError>
    ensures { result ≡ look_at (searched local.now type_id name.now target.now) member }
{
    let member_name = target.string_at(member.name_offset)?;
    if member_name.is_empty() {
        return look_at_unnamed(target, member);
    }
    if member_name == name {
        return look_at_named(local, type_id, target, member);
    }
    Ok(Look::Next)
}
