//! The sections of an object, and the programs, functions and maps that they hold.

ghost use Rattle.std.specs.Prelude.{◌≡◌, ◌≢◌, ◌++◌, ◌∷◌, ◌⊎◌, [], Contains, List, OnOk, IfErr, IfOk};
ghost use Rattle.std.specs.Option.{option_copied};
ghost use Rattle.ebpf_items.specs.declared.error.ParseError.TheVariants.{OutOfMemory};
ghost use Rattle.elf64.specs.Sections.{Section};
ghost use Rattle.object_file.specs.Faults.{HasFileFault};
ghost use Rattle.object_file.specs.Reading.{read_sections};
ghost use Rattle.object_contents.specs.Contents.{AreContentsOf};
ghost use Rattle.object_contents.specs.Faults.{HasSectionFault};

use btf_ext::{BtfExt, NamedRecords};
use btf_tables::Btf;
use ebpf_items::ParseError;
use elf64::SectionView;
use object_file::{OpenedFile, ReadSection};
use object_maps::Maps;
use object_parse::read_code;
use object_parts::{Code, Functions, Programs};
use std::alloc::{AllocError, Global};

/// Sections, and what they hold.
#[derive(Drop)]
pub struct Contents<'a> {
    /// The sections, in order of index.
    pub sections: Vec<ReadSection<'a>>,
    /// The programs and functions of the sections.
    pub code: Code<'a>,
    /// The maps of the sections, by name.
    pub maps: Maps<'a>,
}

impl<'a> Contents<'a> {
    /// No sections.
    fn new(alloc: Global) -> Contents<'a>
        ensures sections { result.sections.items ≡ [] }
        ensures programs { result.code.programs ≡ [] }
        ensures functions { result.code.functions ≡ [] }
        ensures maps { result.maps ≡ [] }
    {
        Contents {
            sections: Vec::new(alloc),
            code: Code {
                programs: Programs::new(alloc),
                functions: Functions::new(alloc),
            },
            maps: Maps::new(alloc),
        }
    }

    /// Reads a section, and then what it holds by its kind.
    fn read_section(
        &mut self,
        alloc: Global,
        file: &OpenedFile<'a>,
        table: Option<&Btf<'_>>,
        extension: Option<&NamedRecords<'_>>,
        view: SectionView<'a>,
    ) -> Result<(), ParseError>
        requires { Contains (read_sections file.now) view }
        ensures read { (sections : List Section)
            → AreContentsOf file.now (option_copied table.entry) (option_copied extension.entry)
            sections self.old
            → OnOk result
            (AreContentsOf file.now (option_copied table.entry) (option_copied extension.entry)
            (sections ++ view.entry ∷ []) self.new) }
        ensures refused { IfErr result (λ e.
            e ≢ OutOfMemory
            → HasFileFault file.now e
            ⊎ HasSectionFault file.now (option_copied table.entry) e) }
    {
        let section = file.read_section(view)?;
        read_code(alloc, file, extension, &section, &mut self.code)?;
        let symbols = file.symbols_in(section.index());
        self.maps.read_section(alloc, symbols, table, &section)?;
        self.sections.push(section)?;
        Ok(())
    }
}

/// Reads the sections of a file, whose records are found by the sections' names.
fn read_sections<'a>(
    alloc: Global,
    file: &OpenedFile<'a>,
    table: Option<&Btf<'_>>,
    extension: Option<&NamedRecords<'_>>,
) -> Result<Contents<'a>, ParseError>
    ensures value { IfOk result (λ contents.
        AreContentsOf file.now (option_copied table.entry) (option_copied extension.entry)
        (read_sections file.now) contents) }
    ensures refused { IfErr result (λ e.
        e ≢ OutOfMemory
        → HasFileFault file.now e ⊎ HasSectionFault file.now (option_copied table.entry) e) }
{
    let mut contents = Contents::new(alloc);
    for view in file.sections(alloc)? {
        contents.read_section(alloc, file, table, extension, view)?;
    }
    Ok(contents)
}

/// The records of an extension, to be found by the sections' names.
fn named_records<'e>(
    alloc: Global,
    extension: Option<&'e BtfExt<'e>>,
) -> Result<Option<NamedRecords<'e>>, AllocError>
    ensures { IfOk result (λ named. named ≡ option_copied extension.entry) }
{
    match extension {
        Some(extension) => Ok(Some(NamedRecords::new(alloc, extension)?)),
        None => Ok(None),
    }
}

/// Reads the sections of a file in order of index, each with what it holds before the next.
///
/// # Errors
///
/// Those of [`OpenedFile::read_section`], of [`read_code`] and of [`Maps::read_section`], and
/// `OutOfMemory`. The first fault of this walk is the one that is named.
pub fn read_contents<'a>(
    alloc: Global,
    file: &OpenedFile<'a>,
    table: Option<&Btf<'_>>,
    extension: Option<&BtfExt<'_>>,
) -> Result<Contents<'a>, ParseError>
    ensures value { IfOk result (λ contents.
        AreContentsOf file.now (option_copied table.entry) (option_copied extension.entry)
        (read_sections file.now) contents) }
    ensures refused { IfErr result (λ e.
        e ≢ OutOfMemory
        → HasFileFault file.now e ⊎ HasSectionFault file.now (option_copied table.entry) e) }
{
    let named = named_records(alloc, extension)?;
    read_sections(alloc, file, table, named.as_ref())
}
