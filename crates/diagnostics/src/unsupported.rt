//! Relocations without a symbol.

use crate::names::Named;
use elf64::{ElfFile, RelocationSectionView};
use std::alloc::{AllocError, Global};
use std::collections::BTreeSet;

/// The offset of the first relocation without a symbol.
fn without_symbol(section: &RelocationSectionView<'_>) -> Option<u64> {
    for relocation in section.relocations() {
        if relocation.symbol().is_none() {
            return Some(relocation.offset());
        }
    }
    None
}

/// The first relocation without a symbol of the first section with a name: the section's index, and
/// the offset there.
fn place_by_name(elf: &ElfFile<'_>, name: &str) -> Option<(usize, u64)> {
    let index = elf.section_by_name(name)?.index();
    for section in elf.relocation_sections() {
        if section.target() != index {
            continue;
        }
        if let Some(offset) = without_symbol(&section) {
            return Some((index, offset));
        }
    }
    None
}

/// The same of the sections of types; one called `.BTF.ext` is read only beside `.BTF`.
fn place_in_types(elf: &ElfFile<'_>) -> Option<(usize, u64)> {
    if elf.section_by_name(".BTF").is_none() {
        return None;
    }
    place_by_name(elf, ".BTF").or_else(|| place_by_name(elf, ".BTF.ext"))
}

/// The indexes of the sections of types.
fn sections_of_types(alloc: Global, elf: &ElfFile<'_>) -> Result<BTreeSet<usize>, AllocError> {
    let mut sections = BTreeSet::new(alloc);
    for section in elf.sections() {
        if section.has_name(".BTF") || section.has_name(".BTF.ext") {
            sections.insert(section.index())?;
        }
    }
    Ok(sections)
}

/// Whether a section stands before the place that was found so far.
fn is_earlier(target: usize, found: Option<(usize, u64)>) -> bool {
    match found {
        Some((index, _offset)) => target < index,
        None => true,
    }
}

/// The same of the first section, by index, that isn't among those of types.
fn place_in_others(alloc: Global, elf: &ElfFile<'_>) -> Option<(usize, u64)> {
    let types = sections_of_types(alloc, elf).ok()?;
    let mut found = None;
    for section in elf.relocation_sections() {
        let target = section.target();
        if types.contains(&target) || !is_earlier(target, found) {
            continue;
        }
        if let Some(offset) = without_symbol(&section) {
            found = Some((target, offset));
        }
    }
    found
}

/// The first relocation of an object without a symbol, in the order in which its sections are read:
/// the index of its section, and its offset there.
fn place_without_symbol(alloc: Global, object: &[u8]) -> Option<(usize, u64)> {
    let elf = ElfFile::parse(object).ok()?;
    place_by_name(&elf, "license")
        .or_else(|| place_by_name(&elf, "version"))
        .or_else(|| place_in_types(&elf))
        .or_else(|| place_in_others(alloc, &elf))
}

/// The place of the first relocation without a symbol.
pub(crate) fn unsupported_hint(alloc: Global, object: &[u8]) -> Result<Option<String>, AllocError> {
    let Some((index, offset)) = place_without_symbol(alloc, object) else {
        return Ok(None);
    };
    let section = Named::section(object, index);
    Ok(Some(format!(in alloc; "{section}, offset {offset:#x}")?))
}
