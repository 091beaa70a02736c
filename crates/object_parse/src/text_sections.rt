//! The functions of `.text` sections.

ghost use Rattle.std.specs.Prelude.{◌≡◌, ◌≢◌, ◌+◌, ◌%◌, ◌^◌, ◌<◌, ◌∷◌, [], true, false, Some, is_some, take, drop, length, unwrap_or, OnOk, IfOk, IfErr, IfSome};
ghost use Rattle.std.specs.BTreeMap.{insert_entry};
ghost use Rattle.std.specs.Option.{IsSomeAnd, option_copied};
ghost use Rattle.elf64.specs.Symbols.{symbols_of};
ghost use Rattle.ebpf_items.specs.declared.error.ParseError.TheVariants.{InvalidProgramCode, OutOfMemory};
ghost use Rattle.object_file.specs.Symbols.{symbols_in};
ghost use Rattle.object_parts.specs.Content.{key_cmp};
ghost use Rattle.object_parse.specs.Faults.{IsSound, HasPlaceFault, HasSectionFault, PlaceFault};
ghost use Rattle.object_parse.specs.Places.{AreDefinitionsOf, byte_count, defined_in, place_in};
ghost use Rattle.object_parse.specs.TextSections.{has_code_at, has_unsound_place, is_sound_at, is_text_section, text_function_of, with_text_functions};

use crate::addresses::{by_address, repeated_address};
use crate::section_info::SectionInfo;
use ebpf_items::{ParseError, Slots};
use object_file::{OpenedFile, ReadSection, ReadSymbol};
use object_parts::{Code, Function, MatchedTables};
use std::alloc::{AllocError, Global};
use std::collections::BTreeMap;

/// The symbol that defines the function at an offset of a section.
fn definition_at<'s, 'a>(
    section: &ReadSection<'_>,
    definitions: &'s BTreeMap<u64, ReadSymbol<'a>>,
    offset: usize,
) -> Option<&'s ReadSymbol<'a>>
    ensures { option_copied result
        ≡ defined_in definitions.entry.now (section.now.address + offset) }
{
    let address = section.address().checked_add(offset as u64)?;
    definitions.get(&address)
}

/// The symbol that defines the function at an offset of a section; its size isn't 0.
fn symbol_at<'s, 'a>(
    alloc: Global,
    section: &ReadSection<'_>,
    definitions: &'s BTreeMap<u64, ReadSymbol<'a>>,
    offset: usize,
) -> Result<&'s ReadSymbol<'a>, ParseError>
    ensures found { IfOk result (λ s.
        (defined_in definitions.entry.now (section.now.address + offset) ≡ Some s.now)
        × (s.now.size ≢ 0)) }
    ensures refused { IfErr result (λ e.
        e ≢ OutOfMemory
        → PlaceFault section.now (place_in definitions.entry.now section.now.address offset) e) }
{
    let Some(symbol) = definition_at(section, definitions, offset) else {
        return Err(ParseError::UnknownSymbol {
            section_index: section.index(),
            address: section.address().wrapping_add(offset as u64),
        });
    };
    if symbol.view().size() == 0 {
        return Err(ParseError::InvalidSymbol {
            index: symbol.view().index(),
            name: Some(String::from_str(alloc, symbol.name())?),
        });
    }
    Ok(symbol)
}

/// The bytes of a section from an offset on, of the size of a symbol, if they are whole slots.
fn code_at<'a>(
    section: &ReadSection<'a>,
    offset: usize,
    symbol: &ReadSymbol<'_>,
) -> Option<&'a [u8]>
    ensures found { is_some result ≡ has_code_at (byte_count section.now) offset symbol.now }
    ensures value { IfSome result (λ code.
        code.now ≡ take symbol.now.size (drop offset (unwrap_or section.now.contents []))) }
    ensures whole { IfSome result (λ code. length code.now % 8 ≡ 0) }
    ensures bounded { IfSome result (λ _. offset + symbol.now.size < 2 ^ 64) }
{
    let bytes = section.bytes();
    let len = bytes.len() as u64;
    let size = symbol.view().size();
    let end = (offset as u64).checked_add(size)?;
    if end > len || size % 8 != 0 {
        return None;
    }
    Some(&bytes[offset..end as usize])
}

/// The function of a symbol at an offset of a section.
fn function<'a>(
    alloc: Global,
    section: &ReadSection<'a>,
    info: &SectionInfo<'_>,
    symbol: &ReadSymbol<'a>,
    offset: usize,
) -> Result<Function<'a>, ParseError>
    ensures value { IfOk result (λ f. f ≡ text_function_of info.now section.now offset symbol.now) }
    ensures accepted { OnOk result (has_code_at (byte_count section.now) offset symbol.now ≡ true) }
    ensures bounded { OnOk result (offset + symbol.now.size < 2 ^ 64) }
    ensures refused { IfErr result (λ e.
        e ≢ OutOfMemory
        → (e ≡ InvalidProgramCode)
        × (has_code_at (byte_count section.now) offset symbol.now ≡ false)) }
{
    let Some(code) = code_at(section, offset, symbol) else {
        return Err(ParseError::InvalidProgramCode);
    };
    let Some(instructions) = Slots::borrowed(alloc, code) else {
        return Err(ParseError::InvalidProgramCode);
    };
    let start = offset as u64 / 8;
    let slots = symbol.view().size() / 8;
    Ok(Function {
        address: symbol.view().address(),
        name: symbol.name(),
        section_index: section.index(),
        section_offset: offset,
        instructions,
        func_info: info.records.functions_at(alloc, start, false)?,
        line_info: info.records.lines_in(alloc, start, slots, false)?,
        func_info_rec_size: info.func_info_rec_size,
        line_info_rec_size: info.line_info_rec_size,
        matched_tables: MatchedTables::new(alloc),
    })
}

/// Enters the function at an offset of a section, and returns the offset of its end.
fn add_function<'a>(
    alloc: Global,
    section: &ReadSection<'a>,
    info: &SectionInfo<'_>,
    definitions: &BTreeMap<u64, ReadSymbol<'a>>,
    offset: usize,
    code: &mut Code<'a>,
) -> Result<usize, ParseError>
    ensures programs { OnOk result (code.new.programs ≡ code.old.programs) }
    ensures entered { IfOk result (λ end.
        IsSomeAnd (defined_in definitions.now (section.now.address + offset)) (λ s.
        (is_sound_at (byte_count section.now) offset s ≡ true)
        × (end ≡ offset + s.size)
        × (code.new.functions
        ≡ insert_entry key_cmp code.old.functions (section.now.index, s.address)
        (text_function_of info.now section.now offset s)))) }
    ensures refused { IfErr result (λ e.
        e ≢ OutOfMemory
        → PlaceFault section.now (place_in definitions.now section.now.address offset) e) }
{
    let symbol = symbol_at(alloc, section, definitions, offset)?;
    let function = function(alloc, section, info, symbol, offset)?;
    code.functions.insert(function)?;
    Ok(offset + symbol.view().size() as usize)
}

/// Enters the functions of a section; each begins where the one before it ends.
fn add_each<'a>(
    alloc: Global,
    file: &OpenedFile<'a>,
    section: &ReadSection<'a>,
    info: &SectionInfo<'_>,
    definitions: &BTreeMap<u64, ReadSymbol<'a>>,
    code: &mut Code<'a>,
) -> Result<(), ParseError>
    requires { AreDefinitionsOf definitions.now
        (symbols_in (symbols_of file.now) section.now.index) }
    ensures programs { OnOk result (code.new.programs ≡ code.old.programs) }
    ensures functions { OnOk result
        (code.new.functions
        ≡ with_text_functions info.now (symbols_of file.now) code.old.functions section.now) }
    ensures accepted { OnOk result (has_unsound_place (symbols_of file.now) section.now ≡ false) }
    ensures refused { IfErr result (λ e.
        e ≢ OutOfMemory → HasPlaceFault (symbols_of file.now) section.now e) }
{
    let mut offset = 0;
    while offset < section.bytes().len() {
        offset = add_function(alloc, section, info, definitions, offset, code)?;
    }
    Ok(())
}

/// Enters the functions of a `.text` section.
pub(crate) fn add_text<'a>(
    alloc: Global,
    file: &OpenedFile<'a>,
    section: &ReadSection<'a>,
    info: &SectionInfo<'_>,
    code: &mut Code<'a>,
) -> Result<(), ParseError>
    requires { is_text_section section.now ≡ true }
    ensures programs { OnOk result (code.new.programs ≡ code.old.programs) }
    ensures functions { OnOk result
        (code.new.functions
        ≡ with_text_functions info.now (symbols_of file.now) code.old.functions section.now) }
    ensures accepted { OnOk result (IsSound (symbols_of file.now) section.now) }
    ensures refused { IfErr result (λ e.
        e ≢ OutOfMemory → HasSectionFault (symbols_of file.now) section.now e) }
{
    let symbols = file.symbols_in(section.index());
    if let Some(address) = repeated_address(alloc, symbols)? {
        return Err(ParseError::SymbolTableConflict {
            section_index: section.index(),
            address,
        });
    }
    let definitions = by_address(alloc, symbols)?;
    add_each(alloc, file, section, info, &definitions, code)
}
