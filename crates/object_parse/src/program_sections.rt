//! The programs and functions of program sections.

ghost use Rattle.std.specs.Prelude.{◌≡◌, ◌≢◌, ◌∷◌, [], true, false, fold, is_some, Some, OnOk, IfOk, IfErr, IfSome};
ghost use Rattle.std.specs.List.{list_any};
ghost use Rattle.elf64.specs.Symbols.{symbols_of};
ghost use Rattle.ebpf_items.specs.declared.error.ParseError.TheVariants.{InvalidProgramCode, OutOfMemory};
ghost use Rattle.object_file.specs.License.{license_of};
ghost use Rattle.object_file.specs.Version.{version_of};
ghost use Rattle.object_parse.specs.Faults.{IsSound, HasSectionFault};
ghost use Rattle.object_parse.specs.Programs.{function_of, is_function, is_program, has_no_code, program_of, with_function, with_program, with_programs, with_program_functions};

use crate::code::{code_of, first_slot, function_name};
use crate::section_info::SectionInfo;
use ebpf_items::{ParseError, ProgramSection, Slots};
use object_file::{OpenedFile, ReadSection, ReadSymbol};
use object_parts::{Code, Function, MatchedTables, Program};
use std::alloc::{AllocError, Global};

/// The function of a symbol of a program section, under its name and with its code.
fn function<'a>(
    alloc: Global,
    section: &ReadSection<'a>,
    info: &SectionInfo<'_>,
    symbol: &ReadSymbol<'a>,
    name: &'a str,
) -> Result<Function<'a>, ParseError>
    requires function { is_function symbol.now ≡ true }
    requires name { symbol.now.name ≡ Some name.now }
    ensures value { IfOk result (λ f. f ≡ function_of info.now section.now symbol.now) }
    ensures accepted { OnOk result (has_no_code section.now symbol.now ≡ false) }
    ensures refused { IfErr result (λ e.
        e ≢ OutOfMemory → (e ≡ InvalidProgramCode) × (has_no_code section.now symbol.now ≡ true)) }
{
    let Some(code) = code_of(section, symbol) else {
        return Err(ParseError::InvalidProgramCode);
    };
    let Some(instructions) = Slots::borrowed(alloc, code) else {
        return Err(ParseError::InvalidProgramCode);
    };
    let start = first_slot(section, symbol);
    let slots = symbol.view().size() / 8;
    Ok(Function {
        address: symbol.view().address(),
        name,
        section_index: section.index(),
        section_offset: symbol.view().address() as usize,
        instructions,
        func_info: info.records.functions_at(alloc, start, true)?,
        line_info: info.records.lines_in(alloc, start, slots, true)?,
        func_info_rec_size: info.func_info_rec_size,
        line_info_rec_size: info.line_info_rec_size,
        matched_tables: MatchedTables::new(alloc),
    })
}

/// The program of a symbol of a program section.
fn program<'a>(
    file: &OpenedFile<'a>,
    section: &ReadSection<'a>,
    kind: &ProgramSection,
    symbol: &ReadSymbol<'a>,
) -> Result<Program<'a>, AllocError>
    ensures { IfOk result (λ p.
        p
        ≡ program_of (license_of file.now) (version_of file.now) section.now kind.now symbol.now) }
{
    Ok(Program {
        license: file.license(),
        kernel_version: file.kernel_version(),
        section: kind.clone()?,
        section_index: section.index(),
        address: symbol.view().address(),
    })
}

/// Enters a symbol's function and its program, if the symbol is a function.
fn add_symbol<'a>(
    alloc: Global,
    file: &OpenedFile<'a>,
    section: &ReadSection<'a>,
    info: &SectionInfo<'_>,
    kind: &ProgramSection,
    symbol: &ReadSymbol<'a>,
    code: &mut Code<'a>,
) -> Result<(), ParseError>
    ensures programs { OnOk result
        (code.new.programs
        ≡ with_program (license_of file.now) (version_of file.now) section.now kind.now
        code.old.programs symbol.now) }
    ensures functions { OnOk result
        (code.new.functions ≡ with_function info.now section.now code.old.functions symbol.now) }
    ensures accepted { OnOk result (has_no_code section.now symbol.now ≡ false) }
    ensures refused { IfErr result (λ e.
        e ≢ OutOfMemory → (e ≡ InvalidProgramCode) × (has_no_code section.now symbol.now ≡ true)) }
{
    let Some(name) = function_name(symbol) else {
        return Ok(());
    };
    let function = function(alloc, section, info, symbol, name)?;
    let program = program(file, section, kind, symbol)?;
    code.functions.insert(function)?;
    code.programs.insert(name, program)?;
    Ok(())
}

/// Enters the functions of a section of a kind.
fn add_symbols<'a>(
    alloc: Global,
    file: &OpenedFile<'a>,
    section: &ReadSection<'a>,
    info: &SectionInfo<'_>,
    kind: &ProgramSection,
    symbols: &[ReadSymbol<'a>],
    code: &mut Code<'a>,
) -> Result<(), ParseError>
    ensures programs { OnOk result
        (code.new.programs
        ≡ fold (with_program (license_of file.now) (version_of file.now) section.now kind.now)
        code.old.programs symbols.now) }
    ensures functions { OnOk result
        (code.new.functions
        ≡ fold (with_function info.now section.now) code.old.functions symbols.now) }
    ensures accepted { OnOk result (list_any (has_no_code section.now) symbols.now ≡ false) }
    ensures refused { IfErr result (λ e.
        e ≢ OutOfMemory
        → (e ≡ InvalidProgramCode) × (list_any (has_no_code section.now) symbols.now ≡ true)) }
{
    for symbol in symbols {
        add_symbol(alloc, file, section, info, kind, symbol, code)?;
    }
    Ok(())
}

/// Enters the programs of a program section, and their functions.
pub(crate) fn add_programs<'a>(
    alloc: Global,
    file: &OpenedFile<'a>,
    section: &ReadSection<'a>,
    info: &SectionInfo<'_>,
    code: &mut Code<'a>,
) -> Result<(), ParseError>
    requires { is_program section.now ≡ true }
    ensures programs { OnOk result
        (code.new.programs
        ≡ with_programs (license_of file.now) (version_of file.now) (symbols_of file.now)
        code.old.programs section.now) }
    ensures functions { OnOk result
        (code.new.functions
        ≡ with_program_functions info.now (symbols_of file.now) code.old.functions section.now) }
    ensures accepted { OnOk result (IsSound (symbols_of file.now) section.now) }
    ensures refused { IfErr result (λ e.
        e ≢ OutOfMemory → HasSectionFault (symbols_of file.now) section.now e) }
{
    let name = section.name();
    let Ok(kind) = name.parse::<ProgramSection>() else {
        return Err(ParseError::InvalidProgramSection {
            section: String::from_str(alloc, name)?,
        });
    };
    let symbols = file.symbols_in(section.index());
    if symbols.is_empty() {
        return Err(ParseError::NoSymbolsForSection {
            section_name: String::from_str(alloc, name)?,
        });
    }
    add_symbols(alloc, file, section, info, &kind, symbols, code)
}
