//! Look-up of the types that the members of a map's struct refer to.

ghost use Rattle.std.specs.Prelude.{◌≡◌, MatchResult, Ok, Err};
ghost use Rattle.btf_records.specs.Fields.{type_of, var_of};
ghost use Rattle.object_maps.specs.Lookups.{array_at, is_struct, name_at, number_of, pointer_target, sized_target, struct_at_end, struct_after_modifiers, struct_of_element, target_of, typed_target, unexpected, values_struct, variable_at};

use btf_encoding::TypeRef;
use btf_records::{BtfArray, BtfError, BtfKind, Var};
use btf_tables::Btf;
use std::alloc::AllocFailed;

/// Why a map's struct is refused; the map's name is added later.
#[derive(Drop)]
pub enum DefinitionError {
    /// A look-up in the type table fails, or memory runs out.
    Types(BtfError),
    /// An inner map is pinned.
    PinnedInnerMap,
    /// An inner map has maps as values.
    MapsInInnerMap,
    /// The array of inner maps has elements.
    ValuesWithCount,
}

impl From<BtfError> for DefinitionError {
    ghost use Rattle.std.specs.Prelude.{◌≡◌};
    ghost use Rattle.object_maps.specs.declared.lookup.DefinitionError.TheVariants.{Types};

    ghost from_gives = { λ error r. r ≡ Types error };

    fn from(error: BtfError) -> DefinitionError {
        DefinitionError::Types(error)
    }
}

impl<T: Drop> From<AllocFailed<T>> for DefinitionError {
    ghost use Rattle.std.specs.Prelude.{◌≡◌};
    ghost use Rattle.object_maps.specs.Definitions.{out_of_memory};

    ghost from_gives = { λ _ r. r ≡ out_of_memory };

    fn from(_error: AllocFailed<T>) -> DefinitionError {
        DefinitionError::Types(BtfError::OutOfMemory)
    }
}

/// A type of keys or values.
#[derive(Clone, Copy)]
pub(crate) struct SizedType {
    pub type_id: u32,
    /// The size in bytes.
    pub size: u32,
}

fn target(t: &TypeRef<'_>) -> Option<u32>
    ensures { result ≡ target_of t.now }
{
    match t.kind() {
        BtfKind::Ptr => t.btf_type(),
        _ => None,
    }
}

fn is_struct(t: &TypeRef<'_>) -> bool
    ensures { result ≡ is_struct t.now }
{
    t.kind() == BtfKind::Struct
}

/// The error for a record of an unexpected kind.
fn unexpected(t: &TypeRef<'_>) -> BtfError
    ensures { result ≡ unexpected t.now }
{
    BtfError::UnexpectedBtfType {
        type_id: t.btf_type().unwrap_or(0),
    }
}

fn pointer_target(table: &Btf<'_>, type_id: u32) -> Result<u32, BtfError>
    ensures { result ≡ pointer_target table.now type_id }
{
    let t = table.type_by_id(type_id)?;
    match target(&t) {
        Some(id) => Ok(id),
        None => Err(unexpected(&t)),
    }
}

fn array_at(table: &Btf<'_>, type_id: u32) -> Result<BtfArray, BtfError>
    ensures { result ≡ array_at table.now type_id }
{
    let t = table.type_by_id(type_id)?;
    match t.array() {
        Some(array) => Ok(array),
        None => Err(unexpected(&t)),
    }
}

/// The variable with this id.
pub(crate) fn variable_at(table: &Btf<'_>, type_id: u32) -> Result<Var, BtfError>
    ensures { result ≡ variable_at table.now type_id }
{
    let t = table.type_by_id(type_id)?;
    match t.var() {
        Some(variable) => Ok(variable),
        None => Err(unexpected(&t)),
    }
}

/// The id of the struct at the end of a chain of modifiers.
pub(crate) fn struct_after_modifiers(table: &Btf<'_>, type_id: u32) -> Result<u32, BtfError>
    ensures { result ≡ struct_after_modifiers table.now type_id }
{
    let end = table.resolve_type(type_id)?;
    let t = table.type_by_id(end)?;
    if is_struct(&t) {
        Ok(end)
    } else {
        Err(unexpected(&t))
    }
}

/// The number that a member gives: the count of the array that it points to.
pub(crate) fn number_of(table: &Btf<'_>, type_id: u32) -> Result<u32, BtfError>
    ensures { result ≡ number_of table.now type_id }
{
    let target = pointer_target(table, type_id)?;
    let array = array_at(table, target)?;
    Ok(array.len)
}

/// The id of the type of keys or values that a member points to.
fn typed_target(table: &Btf<'_>, type_id: u32) -> Result<u32, BtfError>
    ensures { result ≡ typed_target table.now type_id }
{
    let t = table.type_by_id(type_id)?;
    target(&t).ok_or(BtfError::UnexpectedBtfType { type_id })
}

/// The type of keys or values that a member gives, with its size.
pub(crate) fn sized_target(table: &Btf<'_>, type_id: u32) -> Result<SizedType, BtfError>
    ensures { result ≡ sized_target table.now type_id }
{
    let type_id = typed_target(table, type_id)?;
    let size = table.type_size_u32(type_id)?;
    Ok(SizedType { type_id, size })
}

fn struct_of_element(table: &Btf<'_>, element: u32) -> Result<u32, BtfError>
    ensures { result ≡ struct_of_element table.now element }
{
    let end = table.resolve_type(element)?;
    let target = pointer_target(table, end)?;
    struct_after_modifiers(table, target)
}

/// The id of the struct of the maps that a member gives as values.
pub(crate) fn values_struct(table: &Btf<'_>, type_id: u32) -> Result<u32, DefinitionError>
    ensures { result ≡ values_struct table.now type_id }
{
    let array = array_at(table, type_id)?;
    if array.len != 0 {
        return Err(DefinitionError::ValuesWithCount);
    }
    let id = struct_of_element(table, array.element_type)?;
    Ok(id)
}

/// The text at an offset of the table's strings.
pub(crate) fn name_at<'t>(table: &'t Btf<'_>, offset: u32) -> Result<&'t str, BtfError>
    ensures { MatchResult result (λ name. name_at table.now offset ≡ Ok name.now) (λ e.
        name_at table.now offset ≡ Err e) }
{
    table.string_at(offset)
}
