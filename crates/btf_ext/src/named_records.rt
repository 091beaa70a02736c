//! The records of functions and lines, by the names of their sections.

ghost use Rattle.std.specs.Prelude.{◌≡◌, drop, IfOk, OnOk};
ghost use Rattle.btf_ext.specs.ByName.{AreLast, IsEntered};
ghost use Rattle.btf_ext.specs.Layout.{AreWhole};
ghost use Rattle.btf_ext.specs.Names.{records_of};
ghost use Rattle.btf_ext.specs.SectionInfos.{IsSectionInfo};

use crate::extension::BtfExt;
use crate::sec_info::{FuncSecInfo, LineSecInfo};
use crate::section_info_list::SectionInfoList;
use btf_tables::Strings;
use std::alloc::{AllocError, Global};
use std::collections::BTreeMap;
use std::marker::Model;

/// The section infos of a region, and the offset of the last one of each name.
#[derive(Drop)]
struct NamedInfos<'e> {
    infos: &'e SectionInfoList<'e>,
    by_name: BTreeMap<&'e str, u32>,
}

/// The records of functions and lines of an extension, each found by the name of their section
/// without a look at the other sections' names.
pub struct NamedRecords<'e> {
    extension: &'e BtfExt<'e>,
    functions: NamedInfos<'e>,
    lines: NamedInfos<'e>,
}

impl<'e> Drop for NamedRecords<'e> {
    // A single call where a value is dropped, instead of one call per field.
    fn drop(self) {
        let NamedRecords {
            extension: _extension,
            functions: _functions,
            lines: _lines,
        } = self;
    }
}

impl<'e> Model for NamedRecords<'e> {
    ghost use Rattle.btf_ext.specs.ByName.{AreNamed};
    ghost use Rattle.btf_ext.specs.Extensions.{Extension};
    ghost use Rattle.btf_ext.specs.Records.{func_in, line_in};

    ghost Value = { Extension };

    ghost view = { λ n. n.extension.now };

    ghost invariant = { λ n.
        AreNamed 8 func_in n.extension.now.strings n.extension.now.functions n.functions
        × AreNamed 16 line_in n.extension.now.strings n.extension.now.lines n.lines };
}

/// Enters the section info at the offset `place` under its name, if that can be read.
#[tactic(auto, using(std::proofs::lemmas::Map::Text::text_keys))]
fn enter<'e>(
    by_name: &mut BTreeMap<&'e str, u32>,
    strings: &'e Strings<'e>,
    infos: &SectionInfoList<'e>,
    place: u32,
) -> Result<(), AllocError>
    requires { IsSectionInfo infos.now.order infos.now.size (drop place infos.now.bytes.now) }
    ensures { OnOk result (IsEntered strings.now infos.now by_name.old by_name.new place) }
{
    if let Some(name) = strings.text_at(infos.name_offset(place)) {
        by_name.insert(name, place)?;
    }
    Ok(())
}

/// The offset of the last section info of each name.
fn last_of_names<'e>(
    alloc: Global,
    strings: &'e Strings<'e>,
    infos: &SectionInfoList<'e>,
) -> Result<BTreeMap<&'e str, u32>, AllocError>
    requires { AreWhole infos.now }
    ensures { IfOk result (AreLast strings.now infos.now infos.now.places.items) }
{
    let mut by_name = BTreeMap::new(alloc);
    for place in &infos.places {
        enter(&mut by_name, strings, infos, *place)?;
    }
    Ok(by_name)
}

impl<'e> NamedRecords<'e> {
    /// The records of an extension.
    pub fn new(alloc: Global, extension: &'e BtfExt<'e>) -> Result<NamedRecords<'e>, AllocError>
        ensures { IfOk result (λ named. named ≡ extension.now) }
    {
        let functions = NamedInfos {
            by_name: last_of_names(alloc, &extension.strings, &extension.functions)?,
            infos: &extension.functions,
        };
        let lines = NamedInfos {
            by_name: last_of_names(alloc, &extension.strings, &extension.lines)?,
            infos: &extension.lines,
        };
        Ok(NamedRecords {
            extension,
            functions,
            lines,
        })
    }

    /// The size of a function's record in bytes, by the section; 0 where it has no such records.
    pub fn func_info_rec_size(&self) -> usize
        ensures { result ≡ self.now.func_size }
    {
        self.extension.func_info_rec_size()
    }

    /// The size of a line's record in bytes, by the section; 0 where it has no such records.
    pub fn line_info_rec_size(&self) -> usize
        ensures { result ≡ self.now.line_size }
    {
        self.extension.line_info_rec_size()
    }

    /// The function records of a section of instructions, of the last section info with its name.
    pub fn functions_of(&self, name: &str) -> Option<FuncSecInfo<'e>>
        ensures { result ≡ records_of self.now.strings name.now self.now.functions }
    {
        match self.functions.by_name.get(name) {
            Some(place) => Some(FuncSecInfo::of_section_info(self.functions.infos.records(*place))),
            None => None,
        }
    }

    /// The line records of a section of instructions, of the last section info with its name.
    pub fn lines_of(&self, name: &str) -> Option<LineSecInfo<'e>>
        ensures { result ≡ records_of self.now.strings name.now self.now.lines }
    {
        match self.lines.by_name.get(name) {
            Some(place) => Some(LineSecInfo::of_section_info(self.lines.infos.records(*place))),
            None => None,
        }
    }
}
