//! The relocations of an object, by section, and by section and offset.

ghost use Rattle.std.specs.Prelude.{◌≡◌, ◌++◌, [], fold, IfOk, OnOk};
ghost use Rattle.std.specs.List.{list_any};
ghost use Rattle.std.specs.Option.{option_map_or};
ghost use Rattle.object_file.specs.Relocations.{lacks_symbol, with_relocation};

use elf64::{ElfFile, RelocView, RelocationSectionView};
use std::alloc::{AllocError, Global};
use std::collections::BTreeMap;

/// The relocations of each section, by the section's index.
#[derive(Debug, Drop)]
pub(crate) struct RelocationTable {
    by_section: BTreeMap<usize, Vec<RelocView>>,
    /// The last of several relocations at one offset.
    by_offset: BTreeMap<usize, BTreeMap<u64, RelocView>>,
    none: BTreeMap<u64, RelocView>,
}

impl RelocationTable {
    ghost use Rattle.object_file.specs.RelocationTable.{relocations_at, offsets_at, AreRelocationsOf, AddsRelocations};

    /// The relocations of a file.
    #[tactic(auto, unfolding(elf64::specs::Relocations::relocations_of))]
    pub(crate) fn read(alloc: Global, elf: &ElfFile<'_>) -> Result<RelocationTable, AllocError>
        ensures { IfOk result (λ t. AreRelocationsOf t elf.now) }
    {
        let mut table = RelocationTable {
            by_section: BTreeMap::new(alloc),
            by_offset: BTreeMap::new(alloc),
            none: BTreeMap::new(alloc),
        };
        for section in elf.relocation_sections() {
            table.add_section(&section)?;
        }
        Ok(table)
    }

    /// Appends the relocations of a relocation section to those of its target.
    fn add_section(&mut self, section: &RelocationSectionView<'_>) -> Result<(), AllocError>
        ensures { OnOk result
            (AddsRelocations self.old self.new section.now.target section.now.relocations) }
    {
        let target = section.target();
        let list = self.by_section.entry(target)?.or_default();
        let by_offset = self.by_offset.entry(target)?.or_default();
        add_relocations(list, by_offset, section)
    }

    /// The relocations of the section at an index, if there are any.
    pub(crate) fn of_section(&self, index: usize) -> Option<&Vec<RelocView>>
        ensures { option_map_or (λ v. v.now.items) result [] ≡ relocations_at self.now index }
    {
        self.by_section.get(&index)
    }

    /// Whether a relocation of the section at an index has no symbol.
    pub(crate) fn lacks_symbol(&self, index: usize) -> bool
        ensures { result ≡ list_any lacks_symbol (relocations_at self.now index) }
    {
        match self.of_section(index) {
            Some(relocations) => any_without_symbol(relocations.as_slice()),
            None => false,
        }
    }

    /// The relocations of the section at an index, by offset; the last of several at one offset.
    pub(crate) fn by_offset(&self, index: usize) -> &BTreeMap<u64, RelocView>
        requires { self.now.none.entries ≡ [] }
        ensures { result.now.entries ≡ offsets_at self.now index }
    {
        match self.by_offset.get(&index) {
            Some(relocations) => relocations,
            None => &self.none,
        }
    }
}

/// Appends the relocations of a relocation section to a list, and enters them by offset.
fn add_relocations(
    list: &mut Vec<RelocView>,
    by_offset: &mut BTreeMap<u64, RelocView>,
    section: &RelocationSectionView<'_>,
) -> Result<(), AllocError>
    ensures list { OnOk result (list.new.items ≡ list.old.items ++ section.now.relocations) }
    ensures by_offset { OnOk result
        (by_offset.new.entries
        ≡ fold with_relocation by_offset.old.entries section.now.relocations) }
{
    for relocation in section.relocations() {
        list.push(relocation.clone()?)?;
        by_offset.insert(relocation.offset(), relocation)?;
    }
    Ok(())
}

/// Whether one of some relocations has no symbol.
fn any_without_symbol(relocations: &[RelocView]) -> bool
    ensures { result ≡ list_any lacks_symbol relocations.now }
{
    relocations
        .iter()
        .any(|relocation| relocation.symbol().is_none())
}
