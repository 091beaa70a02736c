//! The key of a document that isn't valid.

ghost use Rattle.std.specs.Prelude.{◌≡◌, is_none, is_some, IfOk};
ghost use Rattle.std.specs.Option.{option_map};
ghost use Rattle.std.specs.String.{string_bytes};
ghost use Rattle.toml.specs.View.{table_view, view};
ghost use Rattle.run_settings.specs.Documents.{nothing_set, with_members};
ghost use Rattle.run_settings.specs.Invalid.{first_invalid, invalid_entry, invalid_part, is_taken};

use crate::document::number_of;
use crate::features::feature_named;
use crate::globals::global_of;
use std::alloc::{AllocError, Global};
use toml::{Table, Value};

/// Whether a member of a table of the document is valid.
fn is_taken(alloc: Global, table: &str, name: &str, value: &Value) -> Result<bool, AllocError>
    ensures { IfOk result (λ r. r ≡ is_taken table.now name.now (view value.now)) }
{
    if table == "maps" {
        return Ok(number_of(value).is_some());
    }
    if table == "globals" {
        let global = global_of(alloc, value)?;
        return Ok(global.is_some());
    }
    Ok(feature_named(name).is_some() && value.as_bool().is_some())
}

/// The first member of a table of the document that isn't valid, by its key.
fn invalid_entry(alloc: Global, name: &str, table: &Table) -> Result<Option<String>, AllocError>
    ensures { IfOk result (λ found.
        option_map string_bytes found ≡ invalid_entry name.now (table_view table.now)) }
{
    let mut entries = table.iter();
    while let Some((key, value)) = entries.next() {
        if !is_taken(alloc, name, key.as_str(), value)? {
            return Ok(Some(format!(in alloc; "{name}.{key}")?));
        }
    }
    Ok(None)
}

/// The key that isn't valid in a member of a document's table.
fn invalid_part(alloc: Global, key: &str, value: &Value) -> Result<Option<String>, AllocError>
    ensures { IfOk result (λ found.
        option_map string_bytes found ≡ invalid_part key.now (view value.now)) }
{
    if key == "maps" || key == "globals" || key == "features" {
        if let Some(members) = value.as_table() {
            return invalid_entry(alloc, key, members);
        }
        return Ok(Some(String::from_str(alloc, key)?));
    }
    if key == "probe" && value.as_bool().is_some() {
        return Ok(None);
    }
    Ok(Some(String::from_str(alloc, key)?))
}

/// The first key of a document's table, in order of the keys' bytes, that settings don't have, or
/// that has a value of another kind: `maps.counter`, say. `None` exactly where all are valid.
pub fn invalid_key(alloc: Global, table: &Table) -> Result<Option<String>, AllocError>
    ensures key { IfOk result (λ found.
        option_map string_bytes found ≡ first_invalid (table_view table.now)) }
    ensures none { IfOk result (λ found.
        is_some (with_members nothing_set (table_view table.now)) ≡ is_none found) }
{
    let found = first_invalid(alloc, table)?;
    Ok(found)
}

/// The first key that isn't valid.
fn first_invalid(alloc: Global, table: &Table) -> Result<Option<String>, AllocError>
    ensures { IfOk result (λ found.
        option_map string_bytes found ≡ first_invalid (table_view table.now)) }
{
    let mut entries = table.iter();
    while let Some((key, value)) = entries.next() {
        let found = invalid_part(alloc, key.as_str(), value)?;
        if found.is_some() {
            return Ok(found);
        }
    }
    Ok(None)
}
