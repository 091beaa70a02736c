//! The first record of a kind and a name.

ghost use Rattle.std.specs.Prelude.{◌≡◌, ◌∷◌, [], find, IfOk};
ghost use Rattle.btf_search.specs.NamedTypes.{named_ids};
ghost use Rattle.btf_tables.specs.EssentialNames.{essential_name};
ghost use Rattle.report_needs.specs.Records.{first_enum, first_named, is_enum, is_enum_at, is_named, is_named_at};

use btf_encoding::TypeRef;
use btf_records::BtfKind;
use btf_search::NamedTypes;
use btf_tables::{Btf, essential_name};
use std::alloc::{AllocError, Global};

/// Whether a record has the kind and the name.
pub(crate) fn is_named(kernel: &Btf<'_>, kind: BtfKind, name: &str, t: &TypeRef<'_>) -> bool
    ensures { result ≡ is_named kernel.now kind name.now t.now }
{
    if t.kind() as u8 != kind as u8 {
        return false;
    }
    match kernel.string_at(t.name_offset()) {
        Ok(text) => text == name,
        Err(_error) => false,
    }
}

/// Whether the record with an id has the kind and the name.
fn is_named_at(kernel: &Btf<'_>, kind: BtfKind, name: &str, id: u32) -> bool
    ensures { result ≡ is_named_at kernel.now kind name.now id }
{
    match kernel.type_by_id(id) {
        Ok(t) => is_named(kernel, kind, name, &t),
        Err(_error) => false,
    }
}

/// Whether a record is an enum of this kind and name. One without variants declares an enum, and
/// isn't it.
fn is_enum(kernel: &Btf<'_>, kind: BtfKind, name: &str, t: &TypeRef<'_>) -> bool
    ensures { result ≡ is_enum kernel.now kind name.now t.now }
{
    is_named(kernel, kind, name, t) && t.count() > 0
}

/// Whether the record with an id is such an enum.
fn is_enum_at(kernel: &Btf<'_>, kind: BtfKind, name: &str, id: u32) -> bool
    ensures { result ≡ is_enum_at kernel.now kind name.now id }
{
    match kernel.type_by_id(id) {
        Ok(t) => is_enum(kernel, kind, name, &t),
        Err(_error) => false,
    }
}

/// The first of some ids whose record has the kind and the name.
fn first_named_among(kernel: &Btf<'_>, kind: BtfKind, name: &str, ids: &[u32]) -> Option<u32>
    ensures { result ≡ find (is_named_at kernel.now kind name.now) ids.now }
{
    ids.iter()
        .copied()
        .find(|id| is_named_at(kernel, kind, name, *id))
}

/// The first of some ids whose record is the enum of this kind and name.
fn first_enum_among(kernel: &Btf<'_>, kind: BtfKind, name: &str, ids: &[u32]) -> Option<u32>
    ensures { result ≡ find (is_enum_at kernel.now kind name.now) ids.now }
{
    ids.iter()
        .copied()
        .find(|id| is_enum_at(kernel, kind, name, *id))
}

/// The id of the first record of a kind and a name. The kernel is the only table of `types`.
pub(crate) fn first_named(
    alloc: Global,
    kernel: &Btf<'_>,
    types: &NamedTypes<'_, '_>,
    kind: BtfKind,
    name: &str,
) -> Result<Option<u32>, AllocError>
    requires { types.now ≡ kernel.now ∷ [] }
    ensures { IfOk result (λ found. found ≡ first_named kernel.now kind name.now) }
{
    let ids = types.ids(alloc, 0, &[kind], essential_name(name))?;
    Ok(first_named_among(kernel, kind, name, ids.as_slice()))
}

/// The id of the first enum of a kind and a name. The kernel is the only table of `types`.
pub(crate) fn first_enum(
    alloc: Global,
    kernel: &Btf<'_>,
    types: &NamedTypes<'_, '_>,
    kind: BtfKind,
    name: &str,
) -> Result<Option<u32>, AllocError>
    requires { types.now ≡ kernel.now ∷ [] }
    ensures { IfOk result (λ found. found ≡ first_enum kernel.now kind name.now) }
{
    let ids = types.ids(alloc, 0, &[kind], essential_name(name))?;
    Ok(first_enum_among(kernel, kind, name, ids.as_slice()))
}
