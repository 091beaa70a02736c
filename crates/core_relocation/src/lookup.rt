//! The functions of type relocations, and their resolution in a kernel's types.

ghost use Rattle.std.specs.Prelude.{◌≡◌, ◌≢◌, ◌<◌, ◌≤◌, ◌^◌, ◌⊎◌, length, Ok, Err, Some, IfOk, IfErr, IfSome, OnOk};
ghost use Rattle.std.specs.Option.{option_copied, option_to_list};
ghost use Rattle.object_file.specs.Named.{AreIndexes};
ghost use Rattle.object_file.specs.Reading.{read_sections};
ghost use Rattle.core_relocation.specs.Faults.{FaultOfSectionInfo, SectionInfosFault, LacksOutcome, RecordsFault};
ghost use Rattle.core_relocation.specs.Relocations.{all_placed, function_holding, record_outcome, placed, placed_among, placed_section_info, section_at};
ghost use Rattle.core_relocation.specs.Walks.{HasWriteFault, MakesAll, RecordFault, SectionInfoFault, StandsNone, matched};
ghost use Rattle.relocation_errors.specs.declared.type_relocations.BtfRelocationCause.TheVariants.{OutOfMemory};
ghost use Rattle.core_resolve.specs.RelocationOutcomes.{IsTableOf};

use crate::cause::{FailedRelocation, cause_of_match};
use crate::place::{asked_text, asked_with_matches, place_in_section};
use crate::placed_relocation::PlacedRelocation;
use crate::section_infos::RelocationSectionInfo;
use crate::texts::section_name;
use crate::write::relocate_among;
use btf_ext::bpf_core_relo;
use btf_records::BtfError;
use btf_tables::Btf;
use core_patch::patch_of;
use core_resolve::{RelocationOutcome, TypeMatcher, TypeRelocation};
use ebpf_items::RelocationKind;
use object_file::ObjectFile;
use object_parts::{Function, Functions};
use relocation_errors::{BtfRelocationCause, BtfRelocationError, RelocationPlace};
use std::alloc::{AllocError, Global};
use std::collections::BTreeMap;
use std::marker::Model;

/// The sections, functions and types that type relocations are resolved against.
#[derive(Drop)]
pub(crate) struct Lookup<'r, 'o, 'f, 't, 'k> {
    pub(crate) alloc: Global,
    pub(crate) file: &'r ObjectFile<'o>,
    /// The indexes of the file's sections, by name.
    pub(crate) sections: &'r BTreeMap<&'o str, u64>,
    pub(crate) functions: &'r Functions<'f>,
    pub(crate) local: &'r Btf<'t>,
    pub(crate) targets: &'r [Btf<'k>],
}

impl<'r, 'o, 'f, 't, 'k> Model for Lookup<'r, 'o, 'f, 't, 'k> {
    ghost use Rattle.std.specs.Prelude.{◌≡◌};
    ghost use Rattle.object_file.specs.Reading.{read_sections};
    ghost use Rattle.object_file.specs.Named.{AreIndexes};
    ghost use Rattle.core_relocation.specs.Relocations.{TypesGiven};

    ghost Value = { TypesGiven };

    ghost view = { λ l.
        record {
          file = l.file.now;
          functions = l.functions.now;
          local = l.local.now;
          targets = l.targets.now;
        } };

    ghost invariant = { λ l. AreIndexes (read_sections l.file.now) l.sections.now.entries };
}

/// The first function, by key, of a section's functions whose bytes hold an offset.
pub fn function_holding<'g, 'f>(
    functions: &'g Functions<'f>,
    section_index: usize,
    offset: u64,
) -> Option<&'g Function<'f>>
    ensures { option_copied result ≡ function_holding functions.entry.now section_index offset }
{
    for (_, function) in functions.iter() {
        if function.section_index == section_index && function.is_inside(offset) {
            return Some(function);
        }
    }
    None
}

/// The index of a table, of which there are at most 2^32.
fn table_place(table: Option<usize>) -> Option<u32>
    requires { IfSome table (λ place. place < 2 ^ 32) }
    ensures { result ≡ table }
{
    match table {
        Some(place) => Some(place as u32),
        None => None,
    }
}

impl<'r, 'o, 'f, 't, 'k> Lookup<'r, 'o, 'f, 't, 'k> {
    /// The section whose name is at an offset of the strings.
    fn section(&self, name_offset: u32) -> Result<usize, BtfRelocationCause>
        ensures value { IfOk result (λ s. section_at self.now name_offset ≡ Some s) }
        ensures accepted { OnOk result (StandsNone (FaultOfSectionInfo self.now name_offset)) }
        ensures refused { IfErr result (FaultOfSectionInfo self.now name_offset) }
    {
        let Ok(name) = self.local.string_at(name_offset) else {
            return Err(BtfRelocationCause::BtfError(BtfError::InvalidStringOffset {
                offset: name_offset as usize,
            }));
        };
        match self.sections.get(name) {
            Some(index) => Ok(*index as usize),
            None => Err(BtfRelocationCause::SectionNotFound),
        }
    }

    /// The outcome in the kernel's types of the relocation with a number in its section info.
    fn record_outcome(
        &self,
        matcher: &mut TypeMatcher<'_>,
        number: usize,
        relocation: bpf_core_relo,
    ) -> Result<RelocationOutcome, BtfRelocationCause>
        requires { matcher.old ≡ matched self.now }
        ensures value { IfOk result (λ o. record_outcome self.now relocation ≡ Ok o) }
        ensures table { IfOk result (λ o. IsTableOf self.now.targets o.table) }
        ensures accepted { OnOk result (StandsNone (LacksOutcome self.now relocation)) }
        ensures refused { IfErr result (λ c. c ≢ OutOfMemory → LacksOutcome self.now relocation c) }
        ensures same { matcher.new ≡ matcher.old }
    {
        let kind = match RelocationKind::try_from(relocation.kind) {
            Ok(kind) => kind,
            Err(error) => return Err(BtfRelocationCause::BtfError(error)),
        };
        let asked = TypeRelocation {
            kind,
            type_id: relocation.type_id,
            access_str_off: relocation.access_str_off,
        };
        match matcher.relocation_outcome(asked) {
            Ok(outcome) => Ok(outcome),
            Err(error) => {
                let failed = FailedRelocation {
                    alloc: self.alloc,
                    local: self.local,
                    targets: self.targets,
                    number,
                    offset: u64::from(relocation.insn_off),
                    asked,
                };
                Err(cause_of_match(&failed, error))
            }
        }
    }

    /// A relocation of a section, with its function and what it gives. `number` is its index in its
    /// section info.
    fn place(
        &self,
        matcher: &mut TypeMatcher<'_>,
        section_index: usize,
        number: usize,
        relocation: bpf_core_relo,
    ) -> Result<PlacedRelocation, BtfRelocationCause>
        requires few { length self.now.targets ≤ 2 ^ 32 }
        requires same { matcher.old ≡ matched self.now }
        ensures value { IfOk result (λ p.
            placed self.now (Some section_index) relocation ≡ Some p) }
        ensures accepted { OnOk result
            (StandsNone (RecordFault self.now (Some section_index) relocation)) }
        ensures refused { IfErr result (λ c.
            c ≢ OutOfMemory → RecordFault self.now (Some section_index) relocation c) }
        ensures same { matcher.new ≡ matcher.old }
    {
        let offset = u64::from(relocation.insn_off);
        let Some(function) = function_holding(self.functions, section_index, offset) else {
            return Err(BtfRelocationCause::FunctionNotFound);
        };
        let outcome = self.record_outcome(matcher, number, relocation)?;
        Ok(PlacedRelocation {
            key: function.key(),
            offset,
            patch: patch_of(self.local, self.targets, outcome),
            table: table_place(outcome.table),
        })
    }

    /// Makes a relocation of a section in its function, among all functions after the relocations
    /// before it.
    fn relocate_record(
        &self,
        matcher: &mut TypeMatcher<'_>,
        section_index: usize,
        number: usize,
        relocation: bpf_core_relo,
        relocated: &mut Vec<Function<'_>>,
    ) -> Result<(), BtfRelocationCause>
        requires few { length self.now.targets ≤ 2 ^ 32 }
        requires same { matcher.old ≡ matched self.now }
        ensures made { OnOk result
            (MakesAll self.now (option_to_list (placed self.now (Some section_index) relocation))
            relocated.old.items relocated.new.items) }
        ensures accepted { OnOk result
            (StandsNone (RecordFault self.now (Some section_index) relocation)) }
        ensures refused { IfErr result (λ c.
            c ≢ OutOfMemory
            → RecordFault self.now (Some section_index) relocation c
            ⊎ HasWriteFault self.now
            (option_to_list (placed self.now (Some section_index) relocation)) relocated.old.items c) }
        ensures same { matcher.new ≡ matcher.old }
    {
        let placed = self.place(matcher, section_index, number, relocation)?;
        relocate_among(self.alloc, number, placed, relocated.as_mut_slice())?;
        Ok(())
    }

    /// What a relocation with a fault asks for; where kernel types conflict, with these.
    fn asked(&self, relo: bpf_core_relo, cause: &BtfRelocationCause) -> Result<String, AllocError> {
        if let BtfRelocationCause::ConflictingCandidates { .. } = cause {
            return asked_with_matches(self.alloc, self.local, self.targets, relo);
        }
        asked_text(self.alloc, self.local, relo)
    }

    /// The place of a relocation of a section.
    fn place_of(
        &self,
        section_index: usize,
        relocation: bpf_core_relo,
        cause: &BtfRelocationCause,
    ) -> Result<RelocationPlace, AllocError> {
        let asked = self.asked(relocation, cause)?;
        place_in_section(self.alloc, self.functions, section_index, relocation, asked)
    }

    /// The error for a cause at a place; the name of the section info's section is at an offset of
    /// the strings.
    fn error_at(
        &self,
        name_offset: u32,
        place: Result<RelocationPlace, AllocError>,
        cause: BtfRelocationCause,
    ) -> BtfRelocationError
        ensures { result.error ≢ OutOfMemory → result.error ≡ cause }
    {
        let section = section_name(self.alloc, self.local, name_offset);
        BtfRelocationError::new(section, place, cause)
    }

    /// Makes the relocations of a section in order. Its name is at an offset of the strings.
    fn relocate_records(
        &self,
        matcher: &mut TypeMatcher<'_>,
        section_index: usize,
        name_offset: u32,
        records: &[bpf_core_relo],
        relocated: &mut Vec<Function<'_>>,
    ) -> Result<(), BtfRelocationError>
        requires few { length self.now.targets ≤ 2 ^ 32 }
        requires same { matcher.old ≡ matched self.now }
        ensures made { OnOk result
            (MakesAll self.now (placed_among self.now (Some section_index) records.now)
            relocated.old.items relocated.new.items) }
        ensures accepted { OnOk result
            (StandsNone (RecordsFault self.now (Some section_index) records.now)) }
        ensures refused { IfErr result (λ e.
            e.error ≢ OutOfMemory
            → RecordsFault self.now (Some section_index) records.now e.error
            ⊎ HasWriteFault self.now
            (placed_among self.now (Some section_index) records.now)
            relocated.old.items e.error) }
        ensures same { matcher.new ≡ matcher.old }
    {
        for (number, relocation) in records.iter().enumerate() {
            match self.relocate_record(matcher, section_index, number, *relocation, relocated) {
                Ok(()) => {}
                Err(cause) => {
                    let place = self.place_of(section_index, *relocation, &cause);
                    return Err(self.error_at(name_offset, place, cause));
                }
            }
        }
        Ok(())
    }

    /// Makes the relocations of a section info.
    fn relocate_section_info(
        &self,
        matcher: &mut TypeMatcher<'_>,
        section_info: &RelocationSectionInfo,
        relocated: &mut Vec<Function<'_>>,
    ) -> Result<(), BtfRelocationError>
        requires few { length self.now.targets ≤ 2 ^ 32 }
        requires same { matcher.old ≡ matched self.now }
        ensures made { OnOk result
            (MakesAll self.now (placed_section_info self.now section_info.now) relocated.old.items
            relocated.new.items) }
        ensures accepted { OnOk result (StandsNone (SectionInfoFault self.now section_info.now)) }
        ensures refused { IfErr result (λ e.
            e.error ≢ OutOfMemory
            → SectionInfoFault self.now section_info.now e.error
            ⊎ HasWriteFault self.now (placed_section_info self.now section_info.now)
            relocated.old.items e.error) }
        ensures same { matcher.new ≡ matcher.old }
    {
        let name_offset = section_info.name_offset;
        match self.section(name_offset) {
            Ok(section_index) => {
                let records = section_info.records.as_slice();
                self.relocate_records(matcher, section_index, name_offset, records, relocated)
            }
            Err(cause) => Err(self.error_at(name_offset, Ok(RelocationPlace::SectionInfo), cause)),
        }
    }

    /// Makes the relocations of all section infos, in order, up to the first that can't be made.
    pub(crate) fn relocate_section_infos(
        &self,
        matcher: &mut TypeMatcher<'_>,
        section_infos: &[RelocationSectionInfo],
        relocated: &mut Vec<Function<'_>>,
    ) -> Result<(), BtfRelocationError>
        requires few { length self.now.targets ≤ 2 ^ 32 }
        requires same { matcher.old ≡ matched self.now }
        ensures made { OnOk result
            (MakesAll self.now (all_placed self.now section_infos.now) relocated.old.items
            relocated.new.items) }
        ensures accepted { OnOk result (StandsNone (SectionInfosFault self.now section_infos.now)) }
        ensures refused { IfErr result (λ e.
            e.error ≢ OutOfMemory
            → SectionInfosFault self.now section_infos.now e.error
            ⊎ HasWriteFault self.now (all_placed self.now section_infos.now)
            relocated.old.items e.error) }
    {
        for section_info in section_infos {
            self.relocate_section_info(matcher, section_info, relocated)?;
        }
        Ok(())
    }
}
