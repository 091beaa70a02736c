//! Sections by name.

ghost use Rattle.std.specs.Prelude.{◌≡◌, IfOk};
ghost use Rattle.object_file.specs.Reading.{read_sections};
ghost use Rattle.object_file.specs.Named.{AreIndexes, AreSizes};

use crate::file::ObjectFile;
use crate::read::ReadSection;
use std::alloc::{AllocError, Global};
use std::collections::BTreeMap;

/// The sizes of some sections by name.
fn sizes<'a>(
    alloc: Global,
    sections: &[ReadSection<'a>],
) -> Result<BTreeMap<&'a str, u64>, AllocError>
    ensures { IfOk result (λ sizes. AreSizes sections.now sizes.entries) }
{
    let mut sizes = BTreeMap::new(alloc);
    for section in sections {
        sizes.insert(section.name(), section.size())?;
    }
    Ok(sizes)
}

/// The indexes of some sections by name.
fn indexes<'a>(
    alloc: Global,
    sections: &[ReadSection<'a>],
) -> Result<BTreeMap<&'a str, u64>, AllocError>
    ensures { IfOk result (λ indexes. AreIndexes sections.now indexes.entries) }
{
    let mut indexes = BTreeMap::new(alloc);
    for section in sections {
        indexes.insert(section.name(), section.index() as u64)?;
    }
    Ok(indexes)
}

/// The sizes in bytes (`sh_size`) of the sections that are read, by name; of several sections with
/// one name, the last counts.
pub fn section_sizes<'a>(
    alloc: Global,
    file: &ObjectFile<'a>,
) -> Result<BTreeMap<&'a str, u64>, AllocError>
    ensures { IfOk result (λ sizes. AreSizes (read_sections file.now) sizes.entries) }
{
    sizes(alloc, file.sections())
}

/// The indexes of the sections that are read, by name; of several sections with one name, the last
/// counts.
pub fn section_indexes<'a>(
    alloc: Global,
    file: &ObjectFile<'a>,
) -> Result<BTreeMap<&'a str, u64>, AllocError>
    ensures { IfOk result (λ indexes. AreIndexes (read_sections file.now) indexes.entries) }
{
    indexes(alloc, file.sections())
}
