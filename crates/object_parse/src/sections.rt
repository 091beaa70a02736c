//! The programs and functions of an object, section by section.

ghost use Rattle.std.specs.Prelude.{◌≡◌, ◌≢◌, OnOk, IfErr};
ghost use Rattle.std.specs.Option.{option_copied};
ghost use Rattle.elf64.specs.Symbols.{symbols_of};
ghost use Rattle.ebpf_items.specs.declared.error.ParseError.TheVariants.{OutOfMemory};
ghost use Rattle.object_file.specs.License.{license_of};
ghost use Rattle.object_file.specs.Version.{version_of};
ghost use Rattle.object_parts.specs.Content.{HaveFunctions};
ghost use Rattle.object_parse.specs.Faults.{IsSound, HasSectionFault, HasSoundCode};
ghost use Rattle.object_parse.specs.Functions.{with_functions, with_section_programs};

use crate::program_sections::add_programs;
use crate::section_info::SectionInfo;
use crate::text_sections::add_text;
use btf_ext::NamedRecords;
use ebpf_items::{EbpfSectionKind, ParseError};
use object_file::{OpenedFile, ReadSection};
use object_parts::Code;
use std::alloc::Global;

/// Enters the programs and functions of a section.
fn add_section<'a>(
    alloc: Global,
    file: &OpenedFile<'a>,
    extension: Option<&NamedRecords<'_>>,
    section: &ReadSection<'a>,
    code: &mut Code<'a>,
) -> Result<(), ParseError>
    ensures programs { OnOk result
        (code.new.programs
        ≡ with_section_programs (license_of file.now) (version_of file.now) (symbols_of file.now)
        code.old.programs section.now) }
    ensures functions { OnOk result
        (code.new.functions
        ≡ with_functions (option_copied extension.entry) (symbols_of file.now) code.old.functions
        section.now) }
    ensures accepted { OnOk result (IsSound (symbols_of file.now) section.now) }
    ensures refused { IfErr result (λ e.
        e ≢ OutOfMemory → HasSectionFault (symbols_of file.now) section.now e) }
{
    match section.kind() {
        EbpfSectionKind::Program => {
            let info = SectionInfo::of_section(alloc, extension, section)?;
            add_programs(alloc, file, section, &info, code)
        }
        EbpfSectionKind::Text => {
            let info = SectionInfo::of_section(alloc, extension, section)?;
            add_text(alloc, file, section, &info, code)
        }
        _ => Ok(()),
    }
}

/// Enters the programs and functions of a section, with their records in the extension
/// of the file's types. Where each program had its function before, it has it afterwards.
///
/// # Errors
///
/// `InvalidProgramSection` for a program section of an unknown kind, `NoSymbolsForSection` for one
/// without symbols, `InvalidProgramCode` for a function whose bytes aren't whole slots of its
/// section, `SymbolTableConflict` for two functions of a `.text` section at the same address,
/// `UnknownSymbol` where no symbol defines the function at its beginning or after one of its
/// functions, `InvalidSymbol` where that function's size is 0, and `OutOfMemory`.
pub fn read_code<'a>(
    alloc: Global,
    file: &OpenedFile<'a>,
    extension: Option<&NamedRecords<'_>>,
    section: &ReadSection<'a>,
    code: &mut Code<'a>,
) -> Result<(), ParseError>
    ensures programs { OnOk result
        (code.new.programs
        ≡ with_section_programs (license_of file.now) (version_of file.now) (symbols_of file.now)
        code.old.programs section.now) }
    ensures functions { OnOk result
        (code.new.functions
        ≡ with_functions (option_copied extension.entry) (symbols_of file.now) code.old.functions
        section.now) }
    ensures complete { HaveFunctions code.old.programs code.old.functions
        → OnOk result (HaveFunctions code.new.programs code.new.functions) }
    ensures accepted { OnOk result (HasSoundCode (symbols_of file.now) section.now) }
    ensures refused { IfErr result (λ e.
        e ≢ OutOfMemory → HasSectionFault (symbols_of file.now) section.now e) }
{
    add_section(alloc, file, extension, section, code)
}
