//! Instructions whose relocations are refused.

use ebpf_object::Object;
use elf64::RelocView;
use linker::{Target, target_of};
use object_file::ObjectFile;
use object_parts::{Function, Functions, SLOT_SIZE};
use relocation_errors::{EbpfRelocationError, RelocationError};
use std::alloc::{AllocError, Global};
use std::collections::BTreeSet;

/// An instruction of a function, and the symbol that its relocation names.
#[derive(Clone, Copy)]
pub(crate) struct RefusedInstruction<'a> {
    pub(crate) function: &'a str,
    pub(crate) section_index: usize,
    /// In bytes from the function's beginning.
    pub(crate) distance: u64,
    /// In bytes from the section's beginning.
    pub(crate) offset: u64,
    /// Its index, if there is a relocation that has one.
    pub(crate) symbol: Option<usize>,
}

/// The number of addresses.
const ADDRESSES: i128 = 18446744073709551616;

fn instruction_at<'a>(
    function: &Function<'a>,
    offset: u64,
    symbol: Option<usize>,
) -> RefusedInstruction<'a> {
    RefusedInstruction {
        function: function.name,
        section_index: function.section_index,
        distance: offset.saturating_sub(function.section_offset as u64),
        offset,
        symbol,
    }
}

/// Whether a relocation names the symbol with a name.
fn is_named(file: &ObjectFile<'_>, relocation: &RelocView, name: &str) -> bool {
    let Some(index) = relocation.symbol() else {
        return false;
    };
    match file.symbol_at(index) {
        Some(symbol) => symbol.name() == name,
        None => false,
    }
}

/// Whether an error can be about the relocation at an offset.
fn is_meant(
    file: &ObjectFile<'_>,
    error: &RelocationError,
    at: u64,
    relocation: &RelocView,
) -> bool {
    match error {
        RelocationError::InvalidRelocationOffset { offset, .. } => *offset == at,
        RelocationError::UnknownSymbol { index } => relocation.symbol() == Some(*index),
        RelocationError::SectionNotFound { symbol_index, .. } => {
            relocation.symbol() == Some(*symbol_index)
        }
        RelocationError::ExternNotFound { name } | RelocationError::UnresolvableSymbol { name } =>
            is_named(file, relocation, name),
        _ => false,
    }
}

/// The first instruction of a function whose relocation an error can be about.
fn relocation_in<'a>(
    file: &ObjectFile<'a>,
    function: &Function<'a>,
    error: &RelocationError,
) -> Option<RefusedInstruction<'a>> {
    let start = function.section_offset as u64;
    let end = u64::try_from(function.end()).unwrap_or(u64::MAX);
    if end < start {
        return None;
    }
    for (offset, relocation) in file.relocations_in(function.section_index, start, end) {
        if is_meant(file, error, *offset, relocation) {
            return Some(instruction_at(function, *offset, relocation.symbol()));
        }
    }
    None
}

/// The instruction whose relocation an error is about. It is in the function that the error names;
/// for a symbol that isn't known, it may also be in another function.
fn relocation_at<'a>(
    file: &ObjectFile<'a>,
    functions: &Functions<'a>,
    error: &EbpfRelocationError,
) -> Option<RefusedInstruction<'a>> {
    let mut other = None;
    for (_key, function) in functions.iter() {
        let Some(found) = relocation_in(file, function, error.error()) else {
            continue;
        };
        if function.name == error.function() {
            return Some(found);
        }
        other = other.or(Some(found));
    }
    match error.error() {
        RelocationError::UnknownSymbol { .. } => other,
        _ => None,
    }
}

/// The indexes of the sections with functions.
fn text_sections(alloc: Global, functions: &Functions<'_>) -> Result<BTreeSet<usize>, AllocError> {
    let mut sections = BTreeSet::new(alloc);
    for (key, _function) in functions.iter() {
        sections.insert(key.0)?;
    }
    Ok(sections)
}

/// Whether a slot leads to an address.
fn leads_to(target: Target, address: u64) -> bool {
    match target {
        Target::Function { address: to, .. } => to.rem_euclid(ADDRESSES) as u64 == address,
        _ => false,
    }
}

/// The first slot of a function that leads to an address.
fn slot_to(
    file: &ObjectFile<'_>,
    sections: &BTreeSet<usize>,
    function: &Function<'_>,
    address: u64,
) -> Option<usize> {
    for index in 0..function.instructions.len() {
        let slot = function.instructions.get(index)?;
        if leads_to(target_of(file, sections, function, index, slot), address) {
            return Some(index);
        }
    }
    None
}

/// The first instruction of a function that leads to an address.
fn call_in<'a>(
    file: &ObjectFile<'a>,
    sections: &BTreeSet<usize>,
    function: &Function<'a>,
    address: u64,
) -> Option<RefusedInstruction<'a>> {
    let slot = slot_to(file, sections, function, address)?;
    let distance = (slot as u64).checked_mul(SLOT_SIZE)?;
    let offset = distance.checked_add(function.section_offset as u64)?;
    let symbol = match file.relocation_at(function.section_index, offset) {
        Some(relocation) => relocation.symbol(),
        None => None,
    };
    Some(instruction_at(function, offset, symbol))
}

/// The instruction of the function with a name that leads to an address.
fn call_at<'a>(
    alloc: Global,
    file: &ObjectFile<'a>,
    functions: &Functions<'a>,
    name: &str,
    address: u64,
) -> Option<RefusedInstruction<'a>> {
    let sections = text_sections(alloc, functions).ok()?;
    for (_key, function) in functions.iter() {
        if function.name != name {
            continue;
        }
        let found = call_in(file, &sections, function, address);
        if found.is_some() {
            return found;
        }
    }
    None
}

/// The instruction that an error is about, where it can be found.
pub(crate) fn instruction_of<'o>(
    alloc: Global,
    object: &'o [u8],
    error: &EbpfRelocationError,
) -> Option<RefusedInstruction<'o>> {
    let object = Object::parse(alloc, object).ok()?;
    let (file, functions) = (object.file(), object.functions());
    match error.error() {
        RelocationError::UnknownFunction {
            address,
            caller_name,
        } => call_at(alloc, file, functions, caller_name, *address),
        _ => relocation_at(file, functions, error),
    }
}
