//! The sections of an object that are read.

ghost use Rattle.std.specs.Prelude.{◌≡◌, IfOk};
ghost use Rattle.object_file.specs.Reading.{is_found, is_read, read_sections};

use elf64::{ElfFile, SectionView};
use std::alloc::{AllocError, Global};

/// Whether a section is `found`.
fn is_found(found: &Option<SectionView<'_>>, section: &SectionView<'_>) -> bool
    ensures { result ≡ is_found found.now section.now }
{
    match found {
        Some(found) => found.index() == section.index(),
        None => false,
    }
}

/// Whether a section is read, given the first `.BTF` and the first `.BTF.ext`.
fn is_read(
    types: &Option<SectionView<'_>>,
    extension: &Option<SectionView<'_>>,
    section: &SectionView<'_>,
) -> bool
    ensures { result ≡ is_read types.now extension.now section.now }
{
    if section.has_name(".BTF") {
        return is_found(types, section);
    }
    if section.has_name(".BTF.ext") {
        return types.is_some() && is_found(extension, section);
    }
    true
}

/// The sections of a file that are read, in order of index. They may have faults.
pub(crate) fn sections_of<'a>(
    alloc: Global,
    elf: &ElfFile<'a>,
) -> Result<Vec<SectionView<'a>>, AllocError>
    ensures { IfOk result (λ v. v.items ≡ read_sections elf.now) }
{
    let types = elf.section_by_name(".BTF");
    let extension = elf.section_by_name(".BTF.ext");
    let mut sections = Vec::new(alloc);
    for view in elf.sections() {
        if is_read(&types, &extension, &view) {
            sections.push(view)?;
        }
    }
    Ok(sections)
}
