//! The type relocations of an object with the instructions that they apply to.

ghost use Rattle.std.specs.Prelude.{◌≡◌, ◌++◌, [], IfOk, OnOk};
ghost use Rattle.std.specs.Option.{option_and_then, option_copied};
ghost use Rattle.core_relocation.specs.Relocations.{function_holding, section_at, types_given};
ghost use Rattle.kernel_reports.specs.Relocations.{place_at, place_in, relocation_at, relocations_in, relocations_of};

use btf_ext::{BtfExt, SecInfo, bpf_core_relo};
use btf_tables::Btf;
use core_relocation::function_holding;
use ebpf_items::bpf_insn;
use object_file::{ObjectFile, section_indexes};
use object_parts::{Function, Functions, SLOT_SIZE};
use std::alloc::{AllocError, Global};
use std::collections::BTreeMap;
use std::marker::Model;

/// The instruction that a type relocation applies to.
#[derive(Clone, Copy, Debug)]
pub struct RelocatedSlot {
    /// The key of the function that holds it: its section's index and its address.
    pub key: (usize, u64),
    /// The index of its slot in the function.
    pub index: usize,
    pub slot: bpf_insn,
    /// The slot after it.
    pub next: Option<bpf_insn>,
}

/// A type relocation of an object.
#[derive(Clone, Copy, Debug)]
pub struct RelocationAt {
    /// The offset, in the strings of the object's types, of the name of its section info's section.
    pub name_offset: u32,
    /// What it asks for.
    pub asked: bpf_core_relo,
    /// Its instruction, where a function of the section holds it.
    pub place: Option<RelocatedSlot>,
}

/// The records of a section info.
fn records_of(alloc: Global, section_info: &SecInfo<'_>) -> Result<Vec<bpf_core_relo>, AllocError>
    ensures { IfOk result (λ records. records.items ≡ section_info.now.records) }
{
    let mut records = Vec::new(alloc);
    for number in 0..section_info.num_info() {
        if let Some(asked) = section_info.get(number as usize) {
            records.push(asked)?;
        }
    }
    Ok(records)
}

/// The sections, functions and types that relocations are placed in.
#[derive(Drop)]
struct RelocationScope<'r, 'o, 'f, 't> {
    file: &'r ObjectFile<'o>,
    /// The indexes of the file's sections, by name.
    sections: &'r BTreeMap<&'o str, u64>,
    functions: &'r Functions<'f>,
    local: &'r Btf<'t>,
}

impl<'r, 'o, 'f, 't> Model for RelocationScope<'r, 'o, 'f, 't> {
    ghost use Rattle.std.specs.Prelude.{◌≡◌, []};
    ghost use Rattle.object_file.specs.Reading.{read_sections};
    ghost use Rattle.object_file.specs.Named.{AreIndexes};
    ghost use Rattle.core_relocation.specs.Relocations.{TypesGiven};

    ghost Value = { TypesGiven };

    ghost view = { λ l.
        record {
          file = l.file.now;
          functions = l.functions.now;
          local = l.local.now;
          targets = [];
        } };

    ghost invariant = { λ l. AreIndexes (read_sections l.file.now) l.sections.now.entries };
}

/// The instruction of a function that a relocation inside it applies to.
fn place_in(function: &Function<'_>, asked: bpf_core_relo) -> Option<RelocatedSlot>
    ensures { result ≡ place_in asked function.now }
{
    let distance = u64::from(asked.insn_off).saturating_sub(function.section_offset as u64);
    let index = (distance / SLOT_SIZE) as usize;
    let slot = function.instructions.get(index)?;
    Some(RelocatedSlot {
        key: function.key(),
        index,
        slot,
        next: function.instructions.get(index + 1),
    })
}

impl<'r, 'o, 'f, 't> RelocationScope<'r, 'o, 'f, 't> {
    /// The index of the section whose name is at an offset of the strings.
    fn section(&self, name_offset: u32) -> Option<usize>
        ensures { result ≡ section_at self.now name_offset }
    {
        let Ok(name) = self.local.string_at(name_offset) else {
            return None;
        };
        match self.sections.get(name) {
            Some(index) => Some(*index as usize),
            None => None,
        }
    }

    /// The instruction that a relocation of the section with an index applies to.
    fn place_inside(&self, section: usize, asked: bpf_core_relo) -> Option<RelocatedSlot>
        ensures { result
            ≡ option_and_then (place_in asked)
            (function_holding self.now.functions section asked.insn_off) }
    {
        match function_holding(self.functions, section, u64::from(asked.insn_off)) {
            Some(function) => place_in(function, asked),
            None => None,
        }
    }

    /// The instruction that a relocation of a section applies to.
    fn place(&self, section: Option<usize>, asked: bpf_core_relo) -> Option<RelocatedSlot>
        ensures { result ≡ place_at self.now section asked }
    {
        match section {
            Some(section) => self.place_inside(section, asked),
            None => None,
        }
    }

    /// A relocation of the section whose name is at an offset of the strings.
    fn relocation_at(
        &self,
        name_offset: u32,
        section: Option<usize>,
        asked: bpf_core_relo,
    ) -> RelocationAt
        ensures { result ≡ relocation_at self.now name_offset section asked }
    {
        RelocationAt {
            name_offset,
            asked,
            place: self.place(section, asked),
        }
    }

    /// Adds the relocations of a section info.
    fn add_section_info(
        &self,
        alloc: Global,
        section_info: &SecInfo<'_>,
        list: &mut Vec<RelocationAt>,
    ) -> Result<(), AllocError>
        ensures { OnOk result
            (list.new.items ≡ list.old.items ++ relocations_in self.now section_info.now) }
    {
        let records = records_of(alloc, section_info)?;
        let name_offset = section_info.name_offset();
        let section = self.section(name_offset);
        for asked in &records {
            list.push(self.relocation_at(name_offset, section, *asked))?;
        }
        Ok(())
    }

    /// The relocations of all section infos.
    fn all(&self, alloc: Global, extension: &BtfExt<'_>) -> Result<Vec<RelocationAt>, AllocError>
        ensures { IfOk result (λ list.
            list.items ≡ relocations_of self.now extension.now.relocations) }
    {
        let mut list = Vec::new(alloc);
        for section_info in extension.relocations() {
            self.add_section_info(alloc, &section_info, &mut list)?;
        }
        Ok(list)
    }
}

/// The type relocations of an object, section info by section info, given its file, its functions,
/// its own types and its records of `.BTF.ext`.
///
/// # Errors
///
/// `AllocError` where memory runs out.
pub fn relocations_of(
    alloc: Global,
    file: &ObjectFile<'_>,
    functions: &Functions<'_>,
    local: &Btf<'_>,
    extension: &BtfExt<'_>,
) -> Result<Vec<RelocationAt>, AllocError>
    ensures { IfOk result (λ list.
        list.items
        ≡ relocations_of (types_given file.now functions.now local.now [])
        extension.now.relocations) }
{
    let sections = section_indexes(alloc, file)?;
    let scope = RelocationScope {
        file,
        sections: &sections,
        functions,
        local,
    };
    scope.all(alloc, extension)
}
