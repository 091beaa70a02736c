//! The section infos of a region, and their offsets.

ghost use Rattle.std.specs.Prelude.{◌≡◌, ◌≢◌, ◌≤◌, ◌<◌, ◌+◌, ◌*◌, ◌^◌, ◌⊎◌, All, length, drop, find, reverse, IfErr, IfOk, IfSome, IsSome, OnOk, MatchOption, slice_get};
ghost use Rattle.btf_records.specs.Words.{word_at};
ghost use Rattle.btf_records.specs.declared.error.BtfError.TheVariants.{OutOfMemory};
ghost use Rattle.string_table.specs.Texts.{text_at};
ghost use Rattle.btf_ext.specs.Faults.{FaultHere, SectionInfoFault, KindFault, NameFault, RecordsFault};
ghost use Rattle.btf_ext.specs.SectionInfos.{IsSectionInfo, StandsAfter, count_in, section_info_len};
ghost use Rattle.btf_ext.specs.Layout.{AreKindsKnown, AreLaidOut, AreRecordsOf, AreSameSectionInfos, AreWhole, is_named, ArePlaces, IsFaultless, IsRead};
ghost use Rattle.btf_ext.specs.Regions.{least_size};

use crate::header::Region;
use crate::region::RegionKind;
use crate::sec_info::SectionInfoRecords;
use btf_encoding::after;
use btf_records::{BtfError, Endianness, word};
use btf_tables::{Btf, Strings};
use std::alloc::{AllocError, Global};

/// The section infos of a region.
#[derive(Debug, Drop)]
pub(crate) struct SectionInfoList<'a> {
    pub(crate) order: Endianness,
    /// The size of a record in bytes.
    pub(crate) size: usize,
    pub(crate) bytes: &'a [u8],
    /// The offset of each section info in the bytes.
    pub(crate) places: Vec<u32>,
}

/// The greatest number of bytes at the end of a region that are too few for a section info.
const REST_LEN: usize = 8;

/// The number of the kinds of relocations.
const KIND_COUNT: u32 = 12;

/// The size in bytes of the section info that the bytes begin with, if it isn't cut off.
#[tactic(auto, using(crate::proofs::SectionInfos::product_fits))]
fn section_info_len(order: Endianness, size: usize, bytes: &[u8]) -> Option<usize>
    requires head { 8 < length bytes.now }
    requires few { size < 2 ^ 32 }
    ensures { MatchOption result (length bytes.now < section_info_len order size bytes.now) (λ len.
        (len ≡ section_info_len order size bytes.now) × IsSectionInfo order size bytes.now) }
{
    let len = 8 + size * word(order, bytes, 4) as usize;
    if len <= bytes.len() { Some(len) } else { None }
}

/// The kind of the relocation at an index of a section info.
#[tactic(auto, using(crate::proofs::SectionInfos::item_within))]
fn kind_at(order: Endianness, size: usize, section_info: &[u8], index: usize) -> u32
    requires whole { IsSectionInfo order size section_info.now }
    requires sized { 16 ≤ size }
    requires within { index < count_in order section_info.now }
    ensures { result ≡ word_at order (drop (size * index) (drop 8 section_info.now)) 12 }
{
    word(order, after(after(section_info, 8), size * index), 12)
}

/// Refuses a section info with a relocation of an unknown kind.
fn check_kinds(order: Endianness, size: usize, section_info: &[u8]) -> Result<(), BtfError>
    requires whole { IsSectionInfo order size section_info.now }
    requires sized { 16 ≤ size }
    ensures good { OnOk result (AreKindsKnown order size section_info.now) }
    ensures bad { IfErr result (KindFault order size section_info.now) }
{
    let count = word(order, section_info, 4) as usize;
    for index in 0..count {
        let kind = kind_at(order, size, section_info, index);
        if kind >= KIND_COUNT {
            return Err(BtfError::InvalidRelocationKind { kind });
        }
    }
    Ok(())
}

/// Refuses a section info whose name can't be read.
fn check_name(order: Endianness, table: &Btf<'_>, section_info: &[u8]) -> Result<(), BtfError>
    requires { 8 < length section_info.now }
    ensures good { OnOk result (IsSome (text_at table.now.strings (word_at order section_info.now 0))) }
    ensures bad { IfErr result (NameFault order table.now.strings section_info.now) }
{
    let _name = table.string_at(word(order, section_info, 0))?;
    Ok(())
}

/// Checks a section info that isn't cut off.
#[tactic(auto, using(crate::proofs::Faults::named_function, crate::proofs::Faults::named_line, crate::proofs::Faults::known_kinds))]
fn check_section_info(
    kind: RegionKind,
    order: Endianness,
    size: usize,
    table: &Btf<'_>,
    section_info: &[u8],
) -> Result<(), BtfError>
    requires whole { IsSectionInfo order size section_info.now }
    requires sized { least_size kind ≤ size }
    ensures good { OnOk result (IsFaultless kind order size table.now.strings section_info.now) }
    ensures bad { IfErr result (SectionInfoFault kind order size table.now.strings section_info.now) }
{
    match kind {
        RegionKind::Functions => check_name(order, table, section_info),
        RegionKind::Lines => check_name(order, table, section_info),
        RegionKind::Relocations => check_kinds(order, size, section_info),
    }
}

/// The size in bytes of the section info that the bytes begin with, after it is checked.
fn checked_len(
    region: Region<'_>,
    order: Endianness,
    size: usize,
    table: &Btf<'_>,
    bytes: &[u8],
) -> Result<usize, BtfError>
    requires head { 8 < length bytes.now }
    requires sized { least_size region.kind ≤ size }
    requires few { size < 2 ^ 32 }
    ensures len { IfOk result (λ len. len ≡ section_info_len order size bytes.now) }
    ensures whole { OnOk result (IsSectionInfo order size bytes.now) }
    ensures good { OnOk result
        (IsFaultless region.entry.kind order size table.now.strings bytes.now) }
    ensures refused { IfErr result (λ e.
        FaultHere region.entry.kind order size table.now.strings region.entry.extent e bytes.now) }
{
    let Some(len) = section_info_len(order, size, bytes) else {
        return Err(region.extent.bad_records(region.kind));
    };
    check_section_info(region.kind, order, size, table, bytes)?;
    Ok(len)
}

/// The offsets of the section infos in `bytes`.
#[tactic(auto, using(crate::proofs::SectionInfos::reach_none, crate::proofs::SectionInfos::reach_more))]
fn places(
    alloc: Global,
    region: Region<'_>,
    order: Endianness,
    size: usize,
    table: &Btf<'_>,
    bytes: &[u8],
) -> Result<Vec<u32>, BtfError>
    requires few { length bytes.now < 2 ^ 32 }
    requires sized { least_size region.kind ≤ size }
    requires few_bytes { size < 2 ^ 32 }
    ensures ok { IfOk result (λ places.
        ArePlaces region.entry.kind order size table.now.strings bytes.now places.items) }
    ensures stand { IfOk result (λ places.
        All (λ place. IsSectionInfo order size (drop place bytes.now)) places.items) }
    ensures refused { IfErr result (λ e.
        e ≢ OutOfMemory
        → StandsAfter order size bytes.now
        (FaultHere region.entry.kind order size table.now.strings region.entry.extent e)) }
{
    let mut places = Vec::new(alloc);
    let mut at = 0;
    while bytes.len() - at > REST_LEN {
        let len = checked_len(region, order, size, table, after(bytes, at))?;
        places.push(at as u32)?;
        at += len;
    }
    Ok(places)
}

impl<'a> SectionInfoList<'a> {
    /// The offset of the section info at an index.
    pub(crate) fn place(&self, index: usize) -> Option<u32>
        requires { AreWhole self.now }
        ensures value { result ≡ slice_get self.now.places.items index }
        ensures within { IfSome result (λ _. index < length self.now.places.items) }
        ensures stands { IfSome result (λ place.
            IsSectionInfo self.now.order self.now.size (drop place self.now.bytes.now)) }
    {
        self.places.get(index).copied()
    }

    /// The name offset of the section info at the offset `place`.
    #[tactic(auto, using(crate::proofs::SectionInfos::place_within))]
    pub(crate) fn name_offset(&self, place: u32) -> u32
        requires { IsSectionInfo self.now.order self.now.size (drop place self.now.bytes.now) }
        ensures { result ≡ word_at self.now.order (drop place self.now.bytes.now) 0 }
    {
        word(self.order, after(self.bytes, place as usize), 0)
    }

    /// Whether the section info at the offset `place` has this name.
    pub(crate) fn is_named(&self, strings: &Strings<'_>, place: u32, name: &str) -> bool
        requires { IsSectionInfo self.now.order self.now.size (drop place self.now.bytes.now) }
        ensures { result ≡ is_named strings.now name.now self.now place }
    {
        match strings.text_at(self.name_offset(place)) {
            Some(text) => text == name,
            None => false,
        }
    }

    /// The records of the section info at the offset `place`.
    #[tactic(auto, using(crate::proofs::SectionInfos::place_within, crate::proofs::SectionInfos::records_there))]
    pub(crate) fn records(&self, place: u32) -> SectionInfoRecords<'a>
        requires { IsSectionInfo self.now.order self.now.size (drop place self.now.bytes.now) }
        ensures value { AreRecordsOf self.now place result }
        ensures whole { result.size * result.count ≤ length result.bytes.now }
    {
        let section_info = after(self.bytes, place as usize);
        SectionInfoRecords {
            order: self.order,
            size: self.size,
            count: word(self.order, section_info, 4),
            bytes: after(section_info, 8),
        }
    }

    /// The offset of the last section info with this name.
    pub(crate) fn last_named(&self, strings: &Strings<'_>, name: &str) -> Option<u32>
        requires { AreWhole self.now }
        ensures value { result
            ≡ find (is_named strings.now name.now self.now) (reverse self.now.places.items) }
        ensures stands { IfSome result (λ place.
            IsSectionInfo self.now.order self.now.size (drop place self.now.bytes.now)) }
    {
        let mut index = self.places.len();
        while index > 0 {
            index -= 1;
            let place = self.places[index];
            if self.is_named(strings, place, name) {
                return Some(place);
            }
        }
        None
    }

    /// A copy.
    pub(crate) fn try_clone(&self) -> Result<SectionInfoList<'a>, AllocError>
        ensures { IfOk result (AreSameSectionInfos self.now) }
    {
        Ok(SectionInfoList {
            order: self.order,
            size: self.size,
            bytes: self.bytes,
            places: self.places.clone()?,
        })
    }

    /// The section infos of a region.
    ///
    /// `InvalidInfo`, `InvalidLineInfo` or `InvalidRelocationInfo`, by the region's kind, where its
    /// records are too short or a section info is cut off; `InvalidStringOffset` where the name of
    /// a section info of functions or lines can't be read; `InvalidRelocationKind` where a
    /// relocation's kind is above 11.
    pub(crate) fn read(
        alloc: Global,
        order: Endianness,
        table: &Btf<'_>,
        region: Region<'a>,
    ) -> Result<SectionInfoList<'a>, BtfError>
        requires sized { (length region.bytes.now ≡ 0) ⊎ (4 ≤ length region.bytes.now) }
        requires few { length region.bytes.now < 2 ^ 32 }
        ensures read { IfOk result
            (IsRead region.entry.kind order table.now.strings region.entry.bytes.now) }
        ensures laid_out { IfOk result (AreLaidOut (least_size region.entry.kind)) }
        ensures refused { IfErr result (λ e.
            e ≢ OutOfMemory
            → RecordsFault region.entry.kind order table.now.strings region.entry.extent
            region.entry.bytes.now e) }
    {
        if region.bytes.is_empty() {
            return Ok(SectionInfoList {
                order,
                size: 0,
                bytes: region.bytes,
                places: Vec::new(alloc),
            });
        }
        let size = word(order, region.bytes, 0) as usize;
        if size < region.kind.least_size() {
            return Err(region.extent.bad_records(region.kind));
        }
        let bytes = after(region.bytes, 4);
        let places = places(alloc, region, order, size, table, bytes)?;
        Ok(SectionInfoList {
            order,
            size,
            bytes,
            places,
        })
    }
}
