//! Objects that reports are about.

use crate::error::{ProgramError, no_program};
use command_line::InspectArguments;
use ebpf_object::Object;
use kernel_reports::{
    RelocationAt, assumed_symbols, number_maps, relocations_in, section_names, target_names,
};
use load_plan::Settings;
use report_objects::{ObjectReport, make_optional, program_names};
use report_texts::rows_of;
use std::alloc::{AllocError, Global};

/// A parsed object, and its file.
pub(crate) struct ParsedObject<'f> {
    pub(crate) name: &'f str,
    pub(crate) file: &'f [u8],
    pub(crate) object: Object<'f>,
}

impl<'f> Drop for ParsedObject<'f> {
    // One call wherever it is dropped, in place of one for each part.
    fn drop(self) {
        let ParsedObject {
            name: _,
            file: _,
            object: _object,
        } = self;
    }
}

/// An object that reports are about, and what they share.
pub(crate) struct Inspected<'g, 'f> {
    pub(crate) parsed: &'g ParsedObject<'f>,
    pub(crate) relocations: Vec<RelocationAt>,
    pub(crate) settings: Settings,
    pub(crate) sections: Vec<&'g str>,
    /// The names of records that are looked for in kernels.
    pub(crate) targets: Vec<String>,
    /// A text of symbols in which all are there that the object needs.
    pub(crate) assumed: String,
}

impl<'g, 'f> Drop for Inspected<'g, 'f> {
    // One call wherever it is dropped, in place of one for each part.
    fn drop(self) {
        let Inspected {
            parsed: _,
            relocations: _relocations,
            settings: _settings,
            sections: _sections,
            targets: _targets,
            assumed: _assumed,
        } = self;
    }
}

impl<'g, 'f> Inspected<'g, 'f> {
    /// What the reports on an object share.
    pub(crate) fn of(
        alloc: Global,
        parsed: &'g ParsedObject<'f>,
    ) -> Result<Inspected<'g, 'f>, AllocError> {
        let object = &parsed.object;
        let sections = section_names(alloc, object)?;
        let targets = target_names(alloc, object)?;
        let assumed = assumed_symbols(alloc, object.externs())?;
        let mut settings = Settings::new(alloc);
        number_maps(alloc, object.maps(), &mut settings)?;
        Ok(Inspected {
            parsed,
            relocations: relocations_in(alloc, object)?,
            settings,
            sections,
            targets,
            assumed,
        })
    }

    /// The report on it, without kernels.
    pub(crate) fn report<'w>(
        &self,
        alloc: Global,
        is_strict: bool,
    ) -> Result<ObjectReport<'g, 'f, 'w>, AllocError> {
        let parsed = self.parsed;
        let rows = rows_of(
            alloc,
            parsed.file,
            &parsed.object,
            &self.sections,
            &self.relocations,
            is_strict,
        )?;
        Ok(ObjectReport {
            file: String::from_str(alloc, parsed.name)?,
            rows,
            columns: Vec::new(alloc),
        })
    }
}

/// Makes the programs optional that the command line names.
pub(crate) fn make_named_optional(
    alloc: Global,
    line: &InspectArguments<'_>,
    reports: &mut [ObjectReport<'_, '_, '_>],
) -> Result<(), ProgramError> {
    for name in &line.optional {
        if !make_optional(name, reports) {
            let names = program_names(alloc, reports)?;
            return Err(no_program(alloc, name, &names));
        }
    }
    Ok(())
}
