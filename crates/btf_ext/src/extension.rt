//! A whole section.

ghost use Rattle.std.specs.Prelude.{◌≡◌, ◌≢◌, IfErr, IfOk};
ghost use Rattle.btf_records.specs.declared.error.BtfError.TheVariants.{OutOfMemory};
ghost use Rattle.btf_ext.specs.Extensions.{HoldsExtension};
ghost use Rattle.btf_ext.specs.Faults.{ExtensionFault};
ghost use Rattle.btf_ext.specs.Names.{records_of};

use crate::header::{header, region_of};
use crate::region::RegionKind;
use crate::relocations::SecInfoIter;
use crate::sec_info::{FuncSecInfo, LineSecInfo};
use crate::section_info_list::SectionInfoList;
use btf_records::{BtfError, Endianness};
use btf_tables::{Btf, Strings};
use std::alloc::{AllocError, Global};
use std::marker::Model;

/// A `.BTF.ext` section over its bytes. Records are read on demand.
#[derive(Debug)]
pub struct BtfExt<'a> {
    /// The table's strings, which name the section infos.
    pub(crate) strings: Strings<'a>,
    pub(crate) functions: SectionInfoList<'a>,
    pub(crate) lines: SectionInfoList<'a>,
    relocations: SectionInfoList<'a>,
}

impl<'a> Drop for BtfExt<'a> {
    // A single call where a value is dropped, instead of one call per field.
    fn drop(self) {
        let BtfExt {
            strings: _strings,
            functions: _functions,
            lines: _lines,
            relocations: _relocations,
        } = self;
    }
}

impl<'a> Model for BtfExt<'a> {
    ghost use Rattle.btf_ext.specs.Extensions.{Extension};
    ghost use Rattle.btf_ext.specs.Layout.{AreAllKindsKnown, AreLaidOut, extension_of};

    ghost Value = { Extension };

    ghost view = { λ x. extension_of x.strings x.functions x.lines x.relocations };

    ghost invariant = { λ x.
        AreLaidOut 8 x.functions
        × AreLaidOut 16 x.lines
        × AreLaidOut 16 x.relocations
        × AreAllKindsKnown x.relocations };
}

impl<'a> BtfExt<'a> {
    /// The extension in a section, in this byte order; `table` has the names of its section infos.
    /// Neither the magic number nor the version is checked. Header fields past the header's length
    /// are read as 0.
    ///
    /// `InvalidHeader` where the header is shorter than 8 bytes, or cut off; `InvalidInfo` where a
    /// region reaches past the end or is too short for the size of its records; `InvalidInfo`,
    /// `InvalidLineInfo` and `InvalidRelocationInfo` where records of functions, lines or
    /// relocations are too short or a section info of them is cut off; `InvalidStringOffset` where
    /// the name of a section info of functions or lines can't be read; `InvalidRelocationKind`
    /// where a relocation's kind is above 11.
    pub fn parse(
        alloc: Global,
        section: &'a [u8],
        order: Endianness,
        table: &Btf<'a>,
    ) -> Result<BtfExt<'a>, BtfError>
        ensures holds { IfOk result (λ extension.
            HoldsExtension order table.now.strings section.now extension) }
        ensures refused { IfErr result (λ e.
            e ≢ OutOfMemory → ExtensionFault order table.now.strings section.now e) }
    {
        let header = header(order, section)?;
        let function_region = region_of(RegionKind::Functions, order, section, header)?;
        let line_region = region_of(RegionKind::Lines, order, section, header)?;
        let relocation_region = region_of(RegionKind::Relocations, order, section, header)?;
        let functions = SectionInfoList::read(alloc, order, table, function_region)?;
        let lines = SectionInfoList::read(alloc, order, table, line_region)?;
        let relocations = SectionInfoList::read(alloc, order, table, relocation_region)?;
        Ok(BtfExt {
            strings: table.strings().try_clone()?,
            functions,
            lines,
            relocations,
        })
    }

    /// The size of a function's record in bytes, by the section; 0 where it has no such records.
    pub fn func_info_rec_size(&self) -> usize
        ensures { result ≡ self.now.func_size }
    {
        self.functions.size
    }

    /// The size of a line's record in bytes, by the section; 0 where it has no such records.
    pub fn line_info_rec_size(&self) -> usize
        ensures { result ≡ self.now.line_size }
    {
        self.lines.size
    }

    /// The records of functions.
    pub fn func_info(&self) -> FuncInfo<'_>
        ensures { result ≡ self.now }
    {
        FuncInfo { extension: self }
    }

    /// The function records of a section of instructions, of the last section info with its name.
    fn functions_of(&self, name: &str) -> Option<FuncSecInfo<'_>>
        ensures { result ≡ records_of self.now.strings name.now self.now.functions }
    {
        match self.functions.last_named(&self.strings, name) {
            Some(place) => Some(FuncSecInfo::of_section_info(self.functions.records(place))),
            None => None,
        }
    }

    /// The line records of a section of instructions, of the last section info with its name.
    pub fn line_info(&self, name: &str) -> Option<LineSecInfo<'_>>
        ensures { result ≡ records_of self.now.strings name.now self.now.lines }
    {
        match self.lines.last_named(&self.strings, name) {
            Some(place) => Some(LineSecInfo::of_section_info(self.lines.records(place))),
            None => None,
        }
    }

    /// The type relocations, section info by section info.
    pub fn relocations(&self) -> SecInfoIter<'_>
        ensures { result ≡ self.now.relocations }
    {
        SecInfoIter::new(&self.relocations)
    }

    /// A copy.
    pub fn try_clone(&self) -> Result<BtfExt<'a>, AllocError>
        ensures { IfOk result (λ extension. extension ≡ self.now) }
    {
        Ok(BtfExt {
            strings: self.strings.try_clone()?,
            functions: self.functions.try_clone()?,
            lines: self.lines.try_clone()?,
            relocations: self.relocations.try_clone()?,
        })
    }
}

/// The function records, by the name of their section.
#[derive(Debug, Drop)]
pub struct FuncInfo<'e> {
    extension: &'e BtfExt<'e>,
}

impl<'e> Model for FuncInfo<'e> {
    ghost use Rattle.btf_ext.specs.Extensions.{Extension};

    ghost Value = { Extension };

    ghost view = { λ f. f.extension.now };
}

impl<'e> FuncInfo<'e> {
    /// The function records of a section of instructions, of the last section info with its name.
    pub fn get(&self, name: &str) -> Option<FuncSecInfo<'e>>
        ensures { result ≡ records_of self.now.strings name.now self.now.functions }
    {
        self.extension.functions_of(name)
    }
}
