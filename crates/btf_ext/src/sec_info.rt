//! The records of a section info.

ghost use Rattle.std.specs.Prelude.{◌≡◌, ◌++◌, ◌+◌, ◌*◌, ◌≤◌, ◌<◌, ◌^◌, length, slice_get, IfOk, IfSome};
ghost use Rattle.btf_encoding.specs.Items.{items_in};
ghost use Rattle.btf_ext.specs.Records.{func_bytes, func_in, line_bytes, line_in};

use crate::record::{Record, bpf_func_info, bpf_line_info};
use btf_encoding::after;
use btf_records::Endianness;
use std::alloc::{AllocError, Global};
use std::marker::Model;

/// The records of a section info, over the section's bytes.
#[derive(Clone, Copy, Debug)]
pub(crate) struct SectionInfoRecords<'a> {
    pub(crate) order: Endianness,
    /// The size of a record in bytes.
    pub(crate) size: usize,
    pub(crate) count: u32,
    pub(crate) bytes: &'a [u8],
}

/// The record at an index.
#[tactic(auto, using(crate::proofs::SectionInfos::item_within))]
pub(crate) fn record_at<R: Record>(section_info: &SectionInfoRecords<'_>, index: usize) -> Option<R>
    requires whole { section_info.now.size * section_info.now.count ≤ length section_info.now.bytes.now }
    requires sized { R.SIZE ≤ section_info.now.size }
    ensures value { result
        ≡ slice_get
        (items_in (R.record_in section_info.now.order) section_info.now.size section_info.now.count section_info.now.bytes.now)
        index }
    ensures within { IfSome result (λ _. index < section_info.now.count) }
    ensures few { section_info.now.count < 2 ^ 32 }
{
    if index < section_info.count as usize {
        Some(R::read(
            section_info.order,
            after(section_info.bytes, section_info.size * index),
        ))
    } else {
        None
    }
}

#[derive(Debug, Drop)]
enum FuncRecords<'a> {
    SectionInfo(SectionInfoRecords<'a>),
    List(Vec<bpf_func_info>),
}

/// Function records: those of a section info, or a list.
#[derive(Debug, Drop)]
pub struct FuncSecInfo<'a> {
    records: FuncRecords<'a>,
}

impl<'a> Model for FuncSecInfo<'a> {
    ghost use Rattle.std.specs.Prelude.{List};
    ghost use Rattle.btf_ext.specs.SecInfoRecords.{AreFuncs, funcs_of};
    ghost use Rattle.btf_ext.specs.declared.record.bpf_func_info.{bpf_func_info};

    ghost Value = { List bpf_func_info };

    ghost view = { λ s. funcs_of s.records };

    ghost invariant = { λ s. AreFuncs s.records };
}

impl<'a> FuncSecInfo<'a> {
    /// The records of a section info.
    pub(crate) fn of_section_info(section_info: SectionInfoRecords<'a>) -> FuncSecInfo<'a>
        requires whole { section_info.size * section_info.count ≤ length section_info.bytes.now }
        requires sized { 8 ≤ section_info.size }
        ensures { result
            ≡ items_in (func_in section_info.entry.order) section_info.entry.size section_info.entry.count
            section_info.entry.bytes.now }
    {
        FuncSecInfo {
            records: FuncRecords::SectionInfo(section_info),
        }
    }

    /// The records of a list.
    pub fn from_records(records: Vec<bpf_func_info>) -> FuncSecInfo<'a>
        requires { length records.items < 2 ^ 32 }
        ensures { result ≡ records.items }
    {
        FuncSecInfo {
            records: FuncRecords::List(records),
        }
    }

    /// The number of records.
    #[tactic(auto, using(crate::proofs::Items::length_items_in))]
    pub fn num_info(&self) -> u32
        ensures { result ≡ length self.now }
    {
        match &self.records {
            FuncRecords::SectionInfo(section_info) => section_info.count,
            FuncRecords::List(records) => records.len() as u32,
        }
    }

    /// The number of bytes of `func_info_bytes`.
    pub fn len(&self) -> usize
        ensures { result ≡ 8 * length self.now }
    {
        self.num_info() as usize * 8
    }

    /// The record at an index.
    #[tactic(auto, using(crate::proofs::Items::length_items_in))]
    pub fn get(&self, index: usize) -> Option<bpf_func_info>
        ensures value { result ≡ slice_get self.now index }
        ensures within { IfSome result (λ _. index < length self.now) }
        ensures bounded { IfSome result (λ _. index < 2 ^ 32) }
    {
        match &self.records {
            FuncRecords::SectionInfo(section_info) => record_at(section_info, index),
            FuncRecords::List(records) => records.get(index).copied(),
        }
    }

    /// A copy; the records of a section info stay borrowed.
    pub fn try_clone(&self) -> Result<FuncSecInfo<'a>, AllocError>
        ensures { IfOk result (λ records. records ≡ self.now) }
    {
        match &self.records {
            FuncRecords::SectionInfo(section_info) => Ok(FuncSecInfo::of_section_info(
                *section_info,
            )),
            FuncRecords::List(records) => {
                let copy = Vec::from_slice(*records.allocator(), records.as_slice())?;
                Ok(FuncSecInfo::from_records(copy))
            }
        }
    }

    /// The records in the kernel's format: two little-endian words each.
    pub fn func_info_bytes(&self, alloc: Global) -> Result<Vec<u8>, AllocError>
        ensures { IfOk result (λ bytes. bytes.items ≡ func_bytes self.now) }
    {
        let mut out = Vec::with_capacity(alloc, self.len())?;
        let mut index = 0;
        while let Some(record) = self.get(index) {
            record.write(&mut out)?;
            index += 1;
        }
        Ok(out)
    }
}

#[derive(Debug, Drop)]
enum LineRecords<'a> {
    SectionInfo(SectionInfoRecords<'a>),
    List(Vec<bpf_line_info>),
}

/// Line records: those of a section info, or a list.
#[derive(Debug, Drop)]
pub struct LineSecInfo<'a> {
    records: LineRecords<'a>,
}

impl<'a> Model for LineSecInfo<'a> {
    ghost use Rattle.std.specs.Prelude.{List};
    ghost use Rattle.btf_ext.specs.SecInfoRecords.{AreLines, lines_of};
    ghost use Rattle.btf_ext.specs.declared.record.bpf_line_info.{bpf_line_info};

    ghost Value = { List bpf_line_info };

    ghost view = { λ s. lines_of s.records };

    ghost invariant = { λ s. AreLines s.records };
}

impl<'a> LineSecInfo<'a> {
    /// The records of a section info.
    pub(crate) fn of_section_info(section_info: SectionInfoRecords<'a>) -> LineSecInfo<'a>
        requires whole { section_info.size * section_info.count ≤ length section_info.bytes.now }
        requires sized { 16 ≤ section_info.size }
        ensures { result
            ≡ items_in (line_in section_info.entry.order) section_info.entry.size section_info.entry.count
            section_info.entry.bytes.now }
    {
        LineSecInfo {
            records: LineRecords::SectionInfo(section_info),
        }
    }

    /// The records of a list.
    pub fn from_records(records: Vec<bpf_line_info>) -> LineSecInfo<'a>
        requires { length records.items < 2 ^ 32 }
        ensures { result ≡ records.items }
    {
        LineSecInfo {
            records: LineRecords::List(records),
        }
    }

    /// The number of records.
    #[tactic(auto, using(crate::proofs::Items::length_items_in))]
    pub fn num_info(&self) -> u32
        ensures { result ≡ length self.now }
    {
        match &self.records {
            LineRecords::SectionInfo(section_info) => section_info.count,
            LineRecords::List(records) => records.len() as u32,
        }
    }

    /// The number of bytes of `line_info_bytes`.
    pub fn len(&self) -> usize
        ensures { result ≡ 16 * length self.now }
    {
        self.num_info() as usize * 16
    }

    /// The record at an index.
    #[tactic(auto, using(crate::proofs::Items::length_items_in))]
    pub fn get(&self, index: usize) -> Option<bpf_line_info>
        ensures value { result ≡ slice_get self.now index }
        ensures within { IfSome result (λ _. index < length self.now) }
        ensures bounded { IfSome result (λ _. index < 2 ^ 32) }
    {
        match &self.records {
            LineRecords::SectionInfo(section_info) => record_at(section_info, index),
            LineRecords::List(records) => records.get(index).copied(),
        }
    }

    /// A copy; the records of a section info stay borrowed.
    pub fn try_clone(&self) -> Result<LineSecInfo<'a>, AllocError>
        ensures { IfOk result (λ records. records ≡ self.now) }
    {
        match &self.records {
            LineRecords::SectionInfo(section_info) => Ok(LineSecInfo::of_section_info(
                *section_info,
            )),
            LineRecords::List(records) => {
                let copy = Vec::from_slice(*records.allocator(), records.as_slice())?;
                Ok(LineSecInfo::from_records(copy))
            }
        }
    }

    /// The records in the kernel's format: four little-endian words each.
    pub fn line_info_bytes(&self, alloc: Global) -> Result<Vec<u8>, AllocError>
        ensures { IfOk result (λ bytes. bytes.items ≡ line_bytes self.now) }
    {
        let mut out = Vec::with_capacity(alloc, self.len())?;
        let mut index = 0;
        while let Some(record) = self.get(index) {
            record.write(&mut out)?;
            index += 1;
        }
        Ok(out)
    }
}
