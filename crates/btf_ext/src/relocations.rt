//! The type relocations of a section, section info by section info.

ghost use Rattle.std.specs.Prelude.{◌≡◌, ◌*◌, ◌≤◌, ◌<◌, ◌^◌, length, slice_get, IfSome};
ghost use Rattle.std.specs.Iterator.{YieldsFirst, item_count};
ghost use Rattle.btf_ext.specs.Faults.{kind_count};
ghost use Rattle.btf_ext.specs.Layout.{AreAllKindsKnown, AreLaidOut, section_infos_at};
ghost use Rattle.btf_ext.specs.Records.{relocation_in};

use crate::record::bpf_core_relo;
use crate::sec_info::{SectionInfoRecords, record_at};
use crate::section_info_list::SectionInfoList;
use std::marker::Model;

/// A section info of type relocations: the relocations of one section of instructions.
#[derive(Debug, Drop)]
pub struct SecInfo<'e> {
    name_offset: u32,
    records: SectionInfoRecords<'e>,
}

impl<'e> Model for SecInfo<'e> {
    ghost use Rattle.btf_ext.specs.SectionInfos.{SectionInfo};
    ghost use Rattle.btf_ext.specs.Records.{relocation_in};
    ghost use Rattle.btf_ext.specs.SecInfoRecords.{AreOfKnownKinds, AreThere, records_in};
    ghost use Rattle.btf_ext.specs.declared.record.bpf_core_relo.{bpf_core_relo};

    ghost Value = { SectionInfo bpf_core_relo };

    ghost view = { λ s.
        record { name_offset = s.name_offset; records = records_in relocation_in s.records } };

    ghost invariant = { λ s. AreThere 16 s.records × AreOfKnownKinds s.records };
}

impl<'e> SecInfo<'e> {
    /// The offset of the section's name in the strings.
    pub fn name_offset(&self) -> u32
        ensures { result ≡ self.now.name_offset }
    {
        self.name_offset
    }

    /// The number of relocations.
    #[tactic(auto, using(crate::proofs::Items::length_items_in))]
    pub fn num_info(&self) -> u32
        ensures { result ≡ length self.now.records }
    {
        self.records.count
    }

    /// The relocation at an index.
    pub fn get(&self, index: usize) -> Option<bpf_core_relo>
        ensures value { result ≡ slice_get self.now.records index }
        ensures known { IfSome result (λ r. r.kind < kind_count) }
    {
        record_at(&self.records, index)
    }
}

/// The section infos of type relocations, in order.
#[derive(Debug, Drop)]
pub struct SecInfoIter<'e> {
    section_infos: &'e SectionInfoList<'e>,
    /// The index of the next section info.
    next: usize,
}

impl<'e> Model for SecInfoIter<'e> {
    ghost use Rattle.std.specs.Prelude.{List, ◌≤◌, drop, length};
    ghost use Rattle.btf_ext.specs.SectionInfos.{SectionInfo};
    ghost use Rattle.btf_ext.specs.Layout.{AreAllKindsKnown, AreLaidOut, section_infos_at};
    ghost use Rattle.btf_ext.specs.Records.{relocation_in};
    ghost use Rattle.btf_ext.specs.declared.record.bpf_core_relo.{bpf_core_relo};

    ghost Value = { List (SectionInfo bpf_core_relo) };

    ghost view = { λ s. drop s.next (section_infos_at relocation_in s.section_infos.now) };

    ghost invariant = { λ s.
        AreLaidOut 16 s.section_infos.now
        × AreAllKindsKnown s.section_infos.now
        × (s.next ≤ length s.section_infos.now.places.items) };
}

/// The section info of relocations at an index.
fn section_info_at<'e>(section_infos: &'e SectionInfoList<'e>, index: usize) -> Option<SecInfo<'e>>
    requires laid_out { AreLaidOut 16 section_infos.now }
    requires known { AreAllKindsKnown section_infos.now }
    ensures { result ≡ slice_get (section_infos_at relocation_in section_infos.now) index }
{
    match section_infos.place(index) {
        Some(place) => Some(SecInfo {
            name_offset: section_infos.name_offset(place),
            records: section_infos.records(place),
        }),
        None => None,
    }
}

impl<'e> Iterator for SecInfoIter<'e> {
    type Item = SecInfo<'e>;

    ghost next_gives = { YieldsFirst (λ s. s) };

    ghost remaining = { item_count (λ s. s) };

    #[tactic(auto, using(crate::proofs::Written::left_some, crate::proofs::Written::left_none))]
    fn next(&mut self) -> Option<SecInfo<'e>> {
        match section_info_at(self.section_infos, self.next) {
            Some(section_info) => {
                self.next += 1;
                Some(section_info)
            }
            None => None,
        }
    }
}

impl<'e> SecInfoIter<'e> {
    pub(crate) fn new(section_infos: &'e SectionInfoList<'e>) -> SecInfoIter<'e>
        requires laid_out { AreLaidOut 16 section_infos.now }
        requires known { AreAllKindsKnown section_infos.now }
        ensures { result ≡ section_infos_at relocation_in section_infos.now }
    {
        SecInfoIter {
            section_infos,
            next: 0,
        }
    }
}
