//! Messages for objects that can't be parsed.

use crate::definitions::definition_hint;
use crate::functions::two_at;
use crate::names::Named;
use crate::places::place_of_error;
use crate::unsupported::unsupported_hint;
use btf_records::BtfError;
use ebpf_items::ParseError;
use lints::{contents_hint, other_machine, section_hint};
use std::alloc::{AllocError, Global};
use std::fmt;

/// The message that two functions have the same address.
fn conflict_text(
    alloc: Global,
    object: &[u8],
    section_index: usize,
    address: u64,
) -> Result<String, AllocError> {
    let section = Named::section(object, section_index);
    match two_at(object, section_index, address) {
        Some((one, other)) => {
            format!(in alloc;
                "two functions of {section} at address {address:#x}: {one:?} and {other:?}"
            )
        }
        None => format!(in alloc; "two functions of {section} at address {address:#x}"),
    }
}

/// What there is, as a text.
fn shown<T: fmt::Display + Drop>(
    alloc: Global,
    found: Option<T>,
) -> Result<Option<String>, AllocError> {
    match found {
        Some(found) => Ok(Some(format!(in alloc; "{found}")?)),
        None => Ok(None),
    }
}

/// How the value of a variable of a size is given.
fn value_hint(alloc: Global, size: u64) -> Result<String, AllocError> {
    let digits = size.saturating_mul(2);
    format!(in alloc; "its value has {digits} hexadecimal digits, in the object's byte order")
}

/// What an error of an object for eBPF alone doesn't say.
fn hint(alloc: Global, object: &[u8], error: &ParseError) -> Result<Option<String>, AllocError> {
    match error {
        ParseError::ElfError(error) => shown(alloc, contents_hint(object, *error)),
        ParseError::InvalidProgramSection { section } => Ok(Some(section_hint(alloc, section)?)),
        ParseError::UnsupportedRelocationTarget => unsupported_hint(alloc, object),
        ParseError::BtfError(BtfError::InvalidSymbolName) | ParseError::InvalidProgramCode => {
            shown(alloc, place_of_error(alloc, object, error))
        }
        ParseError::BtfError(error) => definition_hint(alloc, object, error),
        ParseError::InvalidGlobalData {
            name: _,
            sym_size,
            data_size,
        } if *data_size as u64 != *sym_size => Ok(Some(value_hint(alloc, *sym_size)?)),
        _ => Ok(None),
    }
}

/// An error's text, and what it alone doesn't say.
fn text_with_hint(alloc: Global, object: &[u8], error: &ParseError) -> Result<String, AllocError> {
    if let Some(machine) = other_machine(object) {
        return format!(in alloc; "{error}: the object is for machine {machine}, eBPF is 247");
    }
    match hint(alloc, object, error)? {
        Some(hint) => format!(in alloc; "{error}: {hint}"),
        None => format!(in alloc; "{error}"),
    }
}

/// The message for an object that can't be parsed.
pub fn parse_text(alloc: Global, object: &[u8], error: &ParseError) -> Result<String, AllocError> {
    match error {
        ParseError::SectionError { index, error } => {
            let section = Named::section(object, *index);
            format!(in alloc; "error parsing {section}: {error}")
        }
        ParseError::SymbolTableConflict {
            section_index,
            address,
        } => conflict_text(alloc, object, *section_index, *address),
        ParseError::UnknownSymbol {
            section_index,
            address,
        } => {
            let section = Named::section(object, *section_index);
            format!(in alloc; "no function of {section} at address {address:#x}")
        }
        error => text_with_hint(alloc, object, error),
    }
}
