//! Texts and names for messages.

use btf_tables::Btf;
use std::alloc::{AllocError, Global};

/// The text at an offset of a table's strings, empty where it can't be read.
pub(crate) fn text_at(alloc: Global, table: &Btf<'_>, offset: u32) -> Result<String, AllocError> {
    match table.string_at(offset) {
        Ok(text) => String::from_str(alloc, text),
        Err(_) => Ok(String::new(alloc)),
    }
}

/// The name of a section at an offset of a table's strings, or the offset where it can't be read.
pub(crate) fn section_name(
    alloc: Global,
    table: &Btf<'_>,
    offset: u32,
) -> Result<String, AllocError> {
    match table.string_at(offset) {
        Ok(name) => String::from_str(alloc, name),
        Err(_) => format!(in alloc; "section@{offset}"),
    }
}

/// The name of a type, if it can be read.
pub(crate) fn type_name(
    alloc: Global,
    table: &Btf<'_>,
    type_id: u32,
) -> Result<Option<String>, AllocError> {
    let Ok(t) = table.type_by_id(type_id) else {
        return Ok(None);
    };
    match table.string_at(t.name_offset()) {
        Ok(name) => Ok(Some(String::from_str(alloc, name)?)),
        Err(_) => Ok(None),
    }
}

/// The name of a type, empty where it can't be read.
pub(crate) fn name_or_empty(
    alloc: Global,
    table: &Btf<'_>,
    type_id: u32,
) -> Result<String, AllocError> {
    match type_name(alloc, table, type_id)? {
        Some(name) => Ok(name),
        None => Ok(String::new(alloc)),
    }
}

/// The kind of a type as text, empty where there is no such type.
pub(crate) fn kind_name(
    alloc: Global,
    table: &Btf<'_>,
    type_id: u32,
) -> Result<String, AllocError> {
    let kind = match table.type_by_id(type_id) {
        Ok(t) => t.kind(),
        Err(_) => return Ok(String::new(alloc)),
    };
    format!(in alloc; "{kind}")
}
