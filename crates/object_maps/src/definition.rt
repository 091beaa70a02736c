//! Maps that are defined by types.

ghost use Rattle.std.specs.Prelude.{◌≡◌, ◌≢◌, List, [], Contains, MatchResult, IfOk, IfErr, OnOk, Ok, Err};
ghost use Rattle.ebpf_items.specs.Maps.{btf_words};
ghost use Rattle.btf_records.specs.declared.error.BtfError.TheVariants.{OutOfMemory};
ghost use Rattle.object_maps.specs.Definitions.{IsFaultAmong, inner_errors, inner_words, map_variable, out_of_memory};

use crate::lookup::{DefinitionError, name_at, struct_after_modifiers, variable_at};
use crate::member::{enter_said, member_said_inside};
use crate::members::Members;
use btf_records::BtfError;
use btf_tables::Btf;
use ebpf_items::BtfMapDef;
use std::alloc::Global;

/// The variable of a map in a section `.maps`.
#[derive(Debug, Drop)]
pub struct MapVariable<'t> {
    pub name: &'t str,
    /// The id of the struct that defines it.
    pub struct_id: u32,
}

/// A map's words, and those of the maps that are its values.
#[derive(Clone, Copy, Debug)]
pub struct BtfDefinition {
    pub def: BtfMapDef,
    pub inner: Option<BtfMapDef>,
}

/// The variable of an entry of a section `.maps`, by the entry's type.
///
/// # Errors
///
/// `UnknownBtfType` where a type isn't in the table, `UnexpectedBtfType` where the entry's type
/// isn't a variable or the variable's type isn't a struct, `InvalidStringOffset` where the name
/// can't be read, `MaximumTypeDepthReached` where the chain of modifiers before the struct is too
/// long.
pub fn map_variable<'t>(table: &'t Btf<'_>, type_id: u32) -> Result<MapVariable<'t>, BtfError>
    ensures { MatchResult result (λ v.
        map_variable table.now type_id ≡ Ok (v.name.now, v.struct_id)) (λ e.
        map_variable table.now type_id ≡ Err e) }
{
    let variable = variable_at(table, type_id)?;
    let name = name_at(table, variable.name_offset)?;
    let struct_id = struct_after_modifiers(table, variable.btf_type)?;
    Ok(MapVariable { name, struct_id })
}

/// The words of the inner maps that are defined by the struct of this id.
pub(crate) fn inner_def(table: &Btf<'_>, struct_id: u32) -> Result<BtfMapDef, DefinitionError>
    ensures value { IfOk result (λ def. btf_words def ≡ inner_words table.now struct_id) }
    ensures accepted { OnOk result (inner_errors table.now struct_id ≡ []) }
    ensures refused { IfErr result (Contains (inner_errors table.now struct_id)) }
{
    let mut def = BtfMapDef::default();
    for member in Members::new(table, struct_id) {
        let said = member_said_inside(table, member)?;
        enter_said(&mut def, said);
    }
    Ok(def)
}

/// The error for a definition_error of the map with this name.
pub(crate) fn named_error(alloc: Global, name: &str, definition_error: DefinitionError) -> BtfError
    ensures { (all : List DefinitionError)
        → (definition_error ≢ out_of_memory → Contains all definition_error)
        → result ≢ OutOfMemory
        → IsFaultAmong all name.now result }
{
    let name = match String::from_str(alloc, name) {
        Ok(name) => name,
        Err(_error) => return BtfError::OutOfMemory,
    };
    match definition_error {
        DefinitionError::Types(error) => error,
        DefinitionError::PinnedInnerMap => BtfError::InnerMapCannotBePinned { name },
        DefinitionError::MapsInInnerMap => BtfError::MultiLevelMapInMapNotSupported { name },
        DefinitionError::ValuesWithCount => BtfError::InvalidValuesSpec { name },
    }
}
