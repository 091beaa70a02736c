//! Messages for relocations and calls that can't be resolved.

use crate::instructions::{RefusedInstruction, instruction_of};
use crate::names::Named;
use object_parts::SLOT_SIZE;
use relocation_errors::{EbpfRelocationError, RelocationError};
use std::alloc::{AllocError, Global};

/// An error's text, with the names of sections and symbols next to their indexes.
fn named_text(
    alloc: Global,
    object: &[u8],
    error: &EbpfRelocationError,
) -> Result<String, AllocError> {
    let function = error.function();
    match error.error() {
        RelocationError::SectionNotFound {
            section_index,
            symbol_index,
            ..
        } => {
            let section = Named::section(object, *section_index);
            let symbol = Named::symbol(object, *symbol_index);
            format!(in alloc;
                "error relocating function {function:?}: no map for {section} of {symbol}"
            )
        }
        RelocationError::UnknownProgram {
            section_index,
            address,
        } => {
            let section = Named::section(object, *section_index);
            format!(in alloc;
                "error relocating function {function:?}: no function of {section} at address {address:#x}"
            )
        }
        _ => format!(in alloc; "{error}"),
    }
}

/// The place of an instruction.
fn place_text(
    alloc: Global,
    object: &[u8],
    place: &RefusedInstruction<'_>,
) -> Result<String, AllocError> {
    let section = Named::section(object, place.section_index);
    let slot = place.distance / SLOT_SIZE;
    let inside = if place.distance % SLOT_SIZE == 0 {
        ""
    } else {
        "inside "
    };
    format!(in alloc;
        "{section}, function {:?}, {inside}instruction {slot} at offset {:#x}",
        place.function, place.offset
    )
}

/// A text, with the place of its instruction and the symbol of its relocation.
fn with_place(
    alloc: Global,
    object: &[u8],
    text: &str,
    place: &RefusedInstruction<'_>,
) -> Result<String, AllocError> {
    let at = place_text(alloc, object, place)?;
    match place.symbol {
        Some(index) => {
            let symbol = Named::symbol(object, index);
            format!(in alloc; "{text}: {at}, {symbol}")
        }
        None => format!(in alloc; "{text}: {at}"),
    }
}

/// The message for a relocation, or a call, that can't be resolved, with the names of its section
/// and symbol, and the instruction.
pub(crate) fn relocation_text(
    alloc: Global,
    object: &[u8],
    error: &EbpfRelocationError,
) -> Result<String, AllocError> {
    let text = named_text(alloc, object, error)?;
    match instruction_of(alloc, object, error) {
        Some(place) => with_place(alloc, object, &text, &place),
        None => Ok(text),
    }
}
