//! The records of a section, by their first slots.

ghost use Rattle.std.specs.Prelude.{◌≡◌, [], filter_map, map, slice_get, IfOk};
ghost use Rattle.object_parse.specs.Kept.{kept_functions, kept_lines, moved, moved_function, moved_line, section_content};
ghost use Rattle.object_parse.specs.SlotIndexes.{AreBySlot};

use crate::slot_index::{IndexedSlot, indexes_within, order_by_slot};
use btf_ext::{FuncSecInfo, LineSecInfo, NamedRecords, bpf_func_info, bpf_line_info};
use std::alloc::{AllocError, Global};
use std::marker::Model;

/// The records of an extension for a section of instructions. A function's records are found
/// without reading the others, in whatever order they are.
#[derive(Debug, Drop)]
pub struct SectionRecords<'e> {
    functions: FuncSecInfo<'e>,
    function_slots: Vec<IndexedSlot>,
    lines: LineSecInfo<'e>,
    line_slots: Vec<IndexedSlot>,
}

impl<'e> Model for SectionRecords<'e> {
    ghost use Rattle.std.specs.Prelude.{map};
    ghost use Rattle.object_parse.specs.Kept.{SectionContent};
    ghost use Rattle.object_parse.specs.SlotIndexes.{AreBySlot};

    ghost Value = { SectionContent };

    ghost view = { λ s. record { functions = s.functions; lines = s.lines } };

    ghost invariant = { λ s.
        AreBySlot (map (λ r. r.insn_off) s.functions) s.function_slots.items
        × AreBySlot (map (λ r. r.insn_off) s.lines) s.line_slots.items };
}

/// The first slots of function records, sorted.
fn slots_of_functions(
    alloc: Global,
    records: &FuncSecInfo<'_>,
) -> Result<Vec<IndexedSlot>, AllocError>
    ensures { IfOk result (λ places. AreBySlot (map (λ r. r.insn_off) records.now) places.items) }
{
    let mut places = Vec::with_capacity(alloc, records.num_info() as usize)?;
    let mut index = 0;
    while let Some(record) = records.get(index) {
        places.push(IndexedSlot::new(record.insn_off, index as u32))?;
        index += 1;
    }
    order_by_slot(&mut places)?;
    Ok(places)
}

/// The first slots of line records, sorted.
fn slots_of_lines(alloc: Global, records: &LineSecInfo<'_>) -> Result<Vec<IndexedSlot>, AllocError>
    ensures { IfOk result (λ places. AreBySlot (map (λ r. r.insn_off) records.now) places.items) }
{
    let mut places = Vec::with_capacity(alloc, records.num_info() as usize)?;
    let mut index = 0;
    while let Some(record) = records.get(index) {
        places.push(IndexedSlot::new(record.insn_off, index as u32))?;
        index += 1;
    }
    order_by_slot(&mut places)?;
    Ok(places)
}

/// A slot of the section. If `relative` is set, it is counted from a function's start.
fn moved(relative: bool, start: u64, slot: u32) -> u32
    ensures { result ≡ moved relative start slot }
{
    if relative {
        (slot as u64).saturating_sub(start) as u32
    } else {
        slot
    }
}

/// The function records at some indexes.
fn functions_of(
    alloc: Global,
    records: &FuncSecInfo<'_>,
    indexes: &[u32],
    relative: bool,
    start: u64,
) -> Result<Vec<bpf_func_info>, AllocError>
    ensures { IfOk result (λ kept.
        kept.items
        ≡ map (moved_function relative start) (filter_map (slice_get records.now) indexes.now)) }
{
    let mut kept = Vec::with_capacity(alloc, indexes.len())?;
    for index in indexes {
        if let Some(record) = records.get(*index as usize) {
            kept.push(bpf_func_info {
                insn_off: moved(relative, start, record.insn_off),
                ..record
            })?;
        }
    }
    Ok(kept)
}

/// The line records at some indexes.
fn lines_of(
    alloc: Global,
    records: &LineSecInfo<'_>,
    indexes: &[u32],
    relative: bool,
    start: u64,
) -> Result<Vec<bpf_line_info>, AllocError>
    ensures { IfOk result (λ kept.
        kept.items
        ≡ map (moved_line relative start) (filter_map (slice_get records.now) indexes.now)) }
{
    let mut kept = Vec::with_capacity(alloc, indexes.len())?;
    for index in indexes {
        if let Some(record) = records.get(*index as usize) {
            kept.push(bpf_line_info {
                insn_off: moved(relative, start, record.insn_off),
                ..record
            })?;
        }
    }
    Ok(kept)
}

impl<'e> SectionRecords<'e> {
    fn of_records(
        alloc: Global,
        functions: FuncSecInfo<'e>,
        lines: LineSecInfo<'e>,
    ) -> Result<SectionRecords<'e>, AllocError>
        ensures { IfOk result (λ records.
            records ≡ record { functions = functions.entry; lines = lines.entry }) }
    {
        Ok(SectionRecords {
            function_slots: slots_of_functions(alloc, &functions)?,
            functions,
            line_slots: slots_of_lines(alloc, &lines)?,
            lines,
        })
    }

    /// No records.
    pub fn empty(alloc: Global) -> Result<SectionRecords<'e>, AllocError>
        ensures { IfOk result (λ records. records ≡ record { functions = []; lines = [] }) }
    {
        let functions = FuncSecInfo::from_records(Vec::new(alloc));
        let lines = LineSecInfo::from_records(Vec::new(alloc));
        SectionRecords::of_records(alloc, functions, lines)
    }

    /// The records of an extension for the section with this name; none where no section info has
    /// its name.
    pub fn new(
        alloc: Global,
        extension: &NamedRecords<'e>,
        section: &str,
    ) -> Result<SectionRecords<'e>, AllocError>
        ensures { IfOk result (λ records. records ≡ section_content extension.now section.now) }
    {
        let functions = match extension.functions_of(section) {
            Some(functions) => functions,
            None => FuncSecInfo::from_records(Vec::new(alloc)),
        };
        let lines = match extension.lines_of(section) {
            Some(lines) => lines,
            None => LineSecInfo::from_records(Vec::new(alloc)),
        };
        SectionRecords::of_records(alloc, functions, lines)
    }

    /// The function records of the slot `start`, in order. If `relative` is set, their slots are
    /// counted from `start`, else from the section's start.
    pub fn functions_at<'a>(
        &self,
        alloc: Global,
        start: u64,
        relative: bool,
    ) -> Result<FuncSecInfo<'a>, AllocError>
        ensures { IfOk result (λ kept. kept ≡ kept_functions relative start self.now.functions) }
    {
        let indexes = indexes_within(alloc, self.function_slots.as_slice(), start, 1)?;
        // The number of records fits in 32 bits.
        let _count = self.functions.num_info();
        let kept = functions_of(alloc, &self.functions, indexes.as_slice(), relative, start)?;
        Ok(FuncSecInfo::from_records(kept))
    }

    /// The line records of the `slots` slots from `start` on, in order. If `relative` is set, their
    /// slots are counted from `start`, else from the section's start.
    pub fn lines_in<'a>(
        &self,
        alloc: Global,
        start: u64,
        slots: u64,
        relative: bool,
    ) -> Result<LineSecInfo<'a>, AllocError>
        ensures { IfOk result (λ kept. kept ≡ kept_lines relative start slots self.now.lines) }
    {
        let indexes = indexes_within(alloc, self.line_slots.as_slice(), start, slots)?;
        // The number of records fits in 32 bits.
        let _count = self.lines.num_info();
        let kept = lines_of(alloc, &self.lines, indexes.as_slice(), relative, start)?;
        Ok(LineSecInfo::from_records(kept))
    }
}
