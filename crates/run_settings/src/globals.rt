//! Values of global variables in a document.

ghost use Rattle.std.specs.Prelude.{◌≡◌, None, Some, IfOk, false, if◌then◌else◌};
ghost use Rattle.std.specs.Option.{option_map};
ghost use Rattle.toml.specs.View.{table_view, view};
ghost use Rattle.run_settings.specs.Documents.{bytes_of, global_of, with_globals, with_part, with_parts};

use hex::FromHexError;
use settings::{GlobalValue, Settings};
use std::alloc::{AllocError, Global};
use std::marker::Model;
use toml::{Table, Value};

/// A variable's bytes, once they are given, and whether the object must have the variable.
#[derive(Drop)]
struct GlobalParts {
    bytes: Option<Vec<u8>>,
    required: bool,
}

impl Model for GlobalParts {
    ghost use Rattle.std.specs.Option.{option_map};
    ghost use Rattle.run_settings.specs.Documents as documents;

    ghost Value = { documents.GlobalParts };

    ghost view = { λ g.
        record { bytes = option_map (λ bytes. bytes.items) g.bytes; required = g.required } };
}

/// The bytes of hexadecimal digits.
fn bytes_of(alloc: Global, value: &Value) -> Result<Option<Vec<u8>>, AllocError>
    ensures { IfOk result (λ r. option_map (λ bytes. bytes.items) r ≡ bytes_of (view value.now)) }
{
    let Some(text) = value.as_str() else {
        return Ok(None);
    };
    match hex::decode(alloc, text.as_bytes()) {
        Ok(bytes) => Ok(Some(bytes)),
        Err(FromHexError::OutOfMemory) => Err(AllocError),
        Err(_) => Ok(None),
    }
}

impl GlobalParts {
    /// Takes a member of a variable's table. Returns whether it is a valid one.
    fn set_part(&mut self, alloc: Global, key: &str, value: &Value) -> Result<bool, AllocError>
        ensures { IfOk result (λ is_set.
            with_part self.old key.now (view value.now)
            ≡ (if is_set then Some self.new else None)) }
    {
        if key == "value" {
            let Some(bytes) = bytes_of(alloc, value)? else {
                return Ok(false);
            };
            self.bytes = Some(bytes);
            return Ok(true);
        }
        if key == "required" {
            let Some(required) = value.as_bool() else {
                return Ok(false);
            };
            self.required = required;
            return Ok(true);
        }
        Ok(false)
    }

    /// Takes the members of a variable's table. Returns whether each is a valid one.
    fn set_parts(&mut self, alloc: Global, table: &Table) -> Result<bool, AllocError>
        ensures { IfOk result (λ is_set.
            with_parts self.old (table_view table.now) ≡ (if is_set then Some self.new else None)) }
    {
        let mut entries = table.iter();
        while let Some((key, value)) = entries.next() {
            if !self.set_part(alloc, key.as_str(), value)? {
                return Ok(false);
            }
        }
        Ok(true)
    }
}

/// The value of a variable.
pub(crate) fn global_of(alloc: Global, value: &Value) -> Result<Option<GlobalValue>, AllocError>
    ensures { IfOk result (λ r. r ≡ global_of (view value.now)) }
{
    let Some(table) = value.as_table() else {
        return Ok(None);
    };
    let mut parts = GlobalParts {
        bytes: None,
        required: false,
    };
    if !parts.set_parts(alloc, table)? {
        return Ok(None);
    }
    let GlobalParts { bytes, required } = parts;
    match bytes {
        Some(bytes) => Ok(Some(GlobalValue {
            bytes,
            must_exist: required,
        })),
        None => Ok(None),
    }
}

/// Sets the values of the variables of a table. Returns whether each member is a valid one.
pub(crate) fn set_globals(
    alloc: Global,
    settings: &mut Settings,
    table: &Table,
) -> Result<bool, AllocError>
    ensures value { IfOk result (λ is_set.
        with_globals settings.old.globals (table_view table.now)
        ≡ (if is_set then Some settings.new.globals else None)) }
    ensures others { settings.new.maps ≡ settings.old.maps }
{
    let mut entries = table.iter();
    while let Some((name, value)) = entries.next() {
        let Some(global) = global_of(alloc, value)? else {
            return Ok(false);
        };
        settings.set_global(name.as_str(), &global.bytes, global.must_exist)?;
    }
    Ok(true)
}
