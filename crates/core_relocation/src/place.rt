//! The places of type relocations, for messages.

use crate::conflicting::matches_of;
use crate::lookup::function_holding;
use btf_ext::bpf_core_relo;
use btf_tables::Btf;
use core_resolve::{Match, TypeRelocation};
use core_spec::relocation_text;
use ebpf_items::RelocationKind;
use object_parts::{Functions, SLOT_SIZE};
use relocation_errors::RelocationPlace;
use std::alloc::{AllocError, Global};

/// What a record asks for, as text; where its number stands for no kind, `kind` and the number.
pub(crate) fn asked_text(
    alloc: Global,
    local: &Btf<'_>,
    record: bpf_core_relo,
) -> Result<String, AllocError> {
    match RelocationKind::try_from(record.kind) {
        Ok(kind) => relocation_text(alloc, local, kind, record.type_id, record.access_str_off),
        Err(_) => format!(in alloc; "kind {}", record.kind),
    }
}

/// A text, followed by the kernel types that match.
fn with_matches(alloc: Global, text: String, matches: &[Match]) -> Result<String, AllocError> {
    let mut text = text;
    let mut separator = " in ";
    for found in matches {
        let place = format!(in alloc;
            "{separator}type {} of table {}",
            found.type_id, found.table
        )?;
        text.push_str(place.as_str())?;
        separator = ", ";
    }
    Ok(text)
}

/// What a record asks for, as text, with all kernel types that match.
pub(crate) fn asked_with_matches(
    alloc: Global,
    local: &Btf<'_>,
    targets: &[Btf<'_>],
    record: bpf_core_relo,
) -> Result<String, AllocError> {
    let text = asked_text(alloc, local, record)?;
    let Ok(kind) = RelocationKind::try_from(record.kind) else {
        return Ok(text);
    };
    let asked = TypeRelocation {
        kind,
        type_id: record.type_id,
        access_str_off: record.access_str_off,
    };
    let matches = matches_of(alloc, local, targets, asked)?;
    with_matches(alloc, text, matches.as_slice())
}

/// The place of a relocation in a section, with what it asks for.
pub(crate) fn place_in_section(
    alloc: Global,
    functions: &Functions<'_>,
    section_index: usize,
    record: bpf_core_relo,
    asked: String,
) -> Result<RelocationPlace, AllocError> {
    let offset = u64::from(record.insn_off);
    match function_holding(functions, section_index, offset) {
        Some(function) => Ok(RelocationPlace::Relocation {
            function: Some(String::from_str(alloc, function.name)?),
            instruction: offset.saturating_sub(function.section_offset as u64) / SLOT_SIZE,
            asked,
        }),
        None => Ok(RelocationPlace::Relocation {
            function: None,
            instruction: offset / SLOT_SIZE,
            asked,
        }),
    }
}
