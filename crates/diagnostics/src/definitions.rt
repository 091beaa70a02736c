//! Maps that types define wrongly.

use crate::members::faulty_member;
use crate::tables::table_of;
use btf_encoding::TypeRef;
use btf_records::{BtfError, BtfKind};
use btf_tables::Btf;
use object_maps::{Definitions, map_variable};
use std::alloc::{AllocError, Global};

/// How the names of sections begin whose maps types define.
const MAPS: &str = ".maps";

/// Whether a type is a section of maps.
fn is_of_maps(table: &Btf<'_>, t: &TypeRef<'_>) -> bool {
    t.kind() == BtfKind::DataSec
        && table
            .string_at(t.name_offset())
            .is_ok_and(|name| name.starts_with(MAPS))
}

/// Why a variable doesn't define a map.
fn error_of(alloc: Global, maps: &mut Definitions<'_, '_>, type_id: u32) -> Option<BtfError> {
    match map_variable(maps.table(), type_id) {
        Ok(variable) => maps
            .definition(alloc, variable.name, variable.struct_id)
            .err(),
        Err(error) => Some(error),
    }
}

/// The id of the first variable of a section that doesn't define a map, and why.
fn first_in(
    alloc: Global,
    maps: &mut Definitions<'_, '_>,
    section: &TypeRef<'_>,
) -> Option<(u32, BtfError)> {
    for index in 0..section.count() {
        let entry = section.entry(index)?;
        if let Some(error) = error_of(alloc, maps, entry.btf_type) {
            return Some((entry.btf_type, error));
        }
    }
    None
}

/// The id of the first variable of sections of maps that doesn't define a map, and why.
fn first_fault(alloc: Global, table: &Btf<'_>) -> Option<(u32, BtfError)> {
    let mut maps = Definitions::new(alloc, table);
    for t in table.types() {
        if !is_of_maps(table, &t) {
            continue;
        }
        if let Some(found) = first_in(alloc, &mut maps, &t) {
            return Some(found);
        }
    }
    None
}

/// Whether two errors have the same text.
fn say_the_same(alloc: Global, one: &BtfError, other: &BtfError) -> Result<bool, AllocError> {
    let text = format!(in alloc; "{one}")?;
    Ok(text == format!(in alloc; "{other}")?)
}

/// The name of the variable with an id, empty where it can't be read.
fn variable_name<'t>(table: &'t Btf<'_>, type_id: u32) -> &'t str {
    match table.type_by_id(type_id).map(|t| t.var()) {
        Ok(Some(variable)) => table.string_at(variable.name_offset).unwrap_or(""),
        _ => "",
    }
}

/// The map of a variable, and its wrong member where it is known.
fn fault_text(alloc: Global, table: &Btf<'_>, type_id: u32) -> Result<String, AllocError> {
    let name = variable_name(table, type_id);
    let Ok(variable) = map_variable(table, type_id) else {
        return format!(in alloc; "map {name:?}");
    };
    match faulty_member(table, variable.struct_id) {
        Some(member) => {
            format!(in alloc;
                "map {name:?}: its member {:?} {}",
                member.name, member.fault
            )
        }
        None => format!(in alloc; "map {name:?}"),
    }
}

/// The first map that a table defines wrongly, if the error is its.
fn hint_in(alloc: Global, table: &Btf<'_>, error: &BtfError) -> Result<Option<String>, AllocError> {
    let Some((type_id, found)) = first_fault(alloc, table) else {
        return Ok(None);
    };
    if !say_the_same(alloc, &found, error)? {
        return Ok(None);
    }
    Ok(Some(fault_text(alloc, table, type_id)?))
}

/// The first map that an object's types define wrongly, if the error is its.
pub(crate) fn definition_hint(
    alloc: Global,
    object: &[u8],
    error: &BtfError,
) -> Result<Option<String>, AllocError> {
    match table_of(alloc, object) {
        Some(table) => hint_in(alloc, &table, error),
        None => Ok(None),
    }
}
