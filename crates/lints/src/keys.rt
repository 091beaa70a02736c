//! The key of a document's settings that is wrong.

use crate::lines::line_of;
use hex::FromHexError;
use quoting::Text;
use run_settings::invalid_key;
use std::alloc::{AllocError, Global};
use toml::{Table, Value};

/// The keys of a document's table.
const KEYS: [&str; 4] = ["features", "globals", "maps", "probe"];

/// The value of a key in a table.
fn member<'t>(table: &'t Table, key: &str) -> Option<&'t Value> {
    let mut entries = table.iter();
    while let Some((name, value)) = entries.next() {
        if name.as_str() == key {
            return Some(value);
        }
    }
    None
}

/// The table of a variable, if the key is that of one.
fn variable_of<'t>(table: &'t Table, key: &str) -> Option<&'t Table> {
    let name = key.strip_prefix("globals.")?;
    member(member(table, "globals")?.as_table()?, name)?.as_table()
}

/// Whether a value has the bytes of a variable, as hexadecimal digits.
fn has_bytes(alloc: Global, value: &Value) -> Result<bool, AllocError> {
    let Some(text) = value.as_str() else {
        return Ok(false);
    };
    match hex::decode(alloc, text.as_bytes()) {
        Ok(_bytes) => Ok(true),
        Err(FromHexError::OutOfMemory) => Err(AllocError),
        Err(_) => Ok(false),
    }
}

/// Whether an entry of a variable's table is a valid one.
fn is_entry(alloc: Global, key: &str, value: &Value) -> Result<bool, AllocError> {
    match key {
        "value" => has_bytes(alloc, value),
        "required" => Ok(value.as_bool().is_some()),
        _ => Ok(false),
    }
}

/// The key of the first wrong entry of a variable, and any other key as it is.
fn entry_key(alloc: Global, table: &Table, key: &str) -> Result<String, AllocError> {
    let Some(variable) = variable_of(table, key) else {
        return String::from_str(alloc, key);
    };
    let mut entries = variable.iter();
    while let Some((name, value)) = entries.next() {
        if !is_entry(alloc, name.as_str(), value)? {
            return format!(in alloc; "{key}.{name}");
        }
    }
    String::from_str(alloc, key)
}

/// The key that a user may mean by one that no document has: it lacks the `s` at its end, or has one
/// more.
fn meant(key: &str) -> Option<&'static str> {
    KEYS.iter().copied().find(|known| known.strip_suffix('s') == Some(key)
        || key.strip_suffix('s') == Some(known))
}

/// What is wrong with a key.
fn fault_of(alloc: Global, key: &str) -> Result<String, AllocError> {
    let shown = Text::of(key);
    match meant(key) {
        Some(known) => format!(in alloc; "{shown} is no setting; did you mean {known}?"),
        None => format!(in alloc; "{shown} is no setting, or its value is of another kind"),
    }
}

/// What is wrong with a document whose table is this one: the first key that isn't valid
/// ([`invalid_key`]), or that of the first wrong entry of its variable, and the line that has it.
/// `None` where all are valid.
///
/// # Errors
///
/// `AllocError` where memory runs out.
pub fn invalid_text(
    alloc: Global,
    text: &str,
    table: &Table,
) -> Result<Option<String>, AllocError> {
    let Some(key) = invalid_key(alloc, table)? else {
        return Ok(None);
    };
    let key = entry_key(alloc, table, &key)?;
    let fault = fault_of(alloc, &key)?;
    match line_of(alloc, text, &key)? {
        Some(line) => Ok(Some(format!(in alloc; "line {line}: {fault}")?)),
        None => Ok(Some(fault)),
    }
}
