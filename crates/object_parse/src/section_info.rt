//! The records of the object's extension for the functions of a section.

ghost use Rattle.std.specs.Prelude.{◌≡◌, IfOk};
ghost use Rattle.std.specs.Option.{option_copied};
ghost use Rattle.object_parse.specs.SectionInfos.{info_of};

use crate::section_records::SectionRecords;
use btf_ext::NamedRecords;
use object_file::ReadSection;
use std::alloc::{AllocError, Global};
use std::marker::Model;

/// The records of a section, and their sizes in bytes.
#[derive(Drop)]
pub(crate) struct SectionInfo<'e> {
    pub(crate) records: SectionRecords<'e>,
    pub(crate) func_info_rec_size: usize,
    pub(crate) line_info_rec_size: usize,
}

impl<'e> Model for SectionInfo<'e> {
    ghost use Rattle.object_parse.specs.SectionInfos.{SectionInfo as Info};

    ghost Value = { Info };

    ghost view = { λ s.
        record {
          functions = s.records.functions;
          lines = s.records.lines;
          func_size = s.func_info_rec_size;
          line_size = s.line_info_rec_size;
        } };
}

impl<'e> SectionInfo<'e> {
    /// The records of an extension for a section; none where the object has no extension.
    pub(crate) fn of_section(
        alloc: Global,
        extension: Option<&NamedRecords<'e>>,
        section: &ReadSection<'_>,
    ) -> Result<SectionInfo<'e>, AllocError>
        ensures { IfOk result (λ info. info ≡ info_of (option_copied extension.entry) section.now) }
    {
        match extension {
            Some(extension) => Ok(SectionInfo {
                records: SectionRecords::new(alloc, extension, section.name())?,
                func_info_rec_size: extension.func_info_rec_size(),
                line_info_rec_size: extension.line_info_rec_size(),
            }),
            None => Ok(SectionInfo {
                records: SectionRecords::empty(alloc)?,
                func_info_rec_size: 0,
                line_info_rec_size: 0,
            }),
        }
    }
}
