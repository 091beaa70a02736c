//! Types and paths through them, in the form of C.

use crate::path::{AccessPath, Place, Step};
use crate::variants::variant_name;
use btf_encoding::TypeRef;
use btf_records::BtfKind;
use btf_tables::Btf;
use std::alloc::{AllocError, Global};

/// The text for a name that is empty or can't be read.
const ANONYMOUS: &str = "<anonymous>";

/// The keyword before the name of a type, by its kind.
fn keyword(kind: BtfKind) -> &'static str {
    match kind {
        BtfKind::Struct => "struct ",
        BtfKind::Union => "union ",
        BtfKind::Enum | BtfKind::Enum64 => "enum ",
        _ => "",
    }
}

/// Appends the name at an offset of a table's strings.
fn push_name(text: &mut String, table: &Btf<'_>, offset: u32) -> Result<(), AllocError> {
    match table.string_at(offset) {
        Ok("") | Err(_) => text.push_str(ANONYMOUS),
        Ok(name) => text.push_str(name),
    }
}

/// Appends a type.
pub(crate) fn push_type(
    alloc: Global,
    text: &mut String,
    table: &Btf<'_>,
    type_id: u32,
) -> Result<(), AllocError> {
    let Ok(t) = table.type_by_id(type_id) else {
        return text.push_str(format!(in alloc; "unknown type {type_id}")?.as_str());
    };
    text.push_str(keyword(t.kind()))?;
    push_name(text, table, t.name_offset())
}

/// The name offset of a member.
fn member_name(t: &TypeRef<'_>, index: usize) -> Option<u32> {
    Some(t.member(index)?.name_offset)
}

/// Appends the name of a member or a variant.
fn push_part(
    text: &mut String,
    table: &Btf<'_>,
    separator: &str,
    name: Option<u32>,
) -> Result<(), AllocError> {
    text.push_str(separator)?;
    match name {
        Some(offset) => push_name(text, table, offset),
        None => text.push_str(ANONYMOUS),
    }
}

/// The record of the type of a place.
fn record_at<'t>(table: &'t Btf<'_>, place: Place) -> Option<TypeRef<'t>> {
    table.type_by_id(place.type_id).ok()
}

/// Appends a step.
fn push_step(
    alloc: Global,
    text: &mut String,
    table: &Btf<'_>,
    step: Step,
) -> Result<(), AllocError> {
    match step {
        Step::Element(place) => text.push_str(format!(in alloc; "[{}]", place.index)?.as_str()),
        Step::Member(place) => {
            let record = record_at(table, place);
            let name = record.and_then(|t| member_name(&t, place.index as usize));
            push_part(text, table, ".", name)
        }
        Step::Variant(place) => {
            let record = record_at(table, place);
            let name = record.and_then(|t| variant_name(&t, place.index as usize));
            push_part(text, table, "::", name)
        }
    }
}

/// Appends a path: its type and its steps. A first step to element 0 is left out.
pub(crate) fn push_path(
    alloc: Global,
    text: &mut String,
    table: &Btf<'_>,
    path: &AccessPath,
) -> Result<(), AllocError> {
    push_type(alloc, text, table, path.type_id)?;
    for (number, step) in path.steps.as_slice().iter().enumerate() {
        let is_first = matches!(step, Step::Element(Place { index: 0, .. })) && number == 0;
        if !is_first {
            push_step(alloc, text, table, *step)?;
        }
    }
    Ok(())
}
