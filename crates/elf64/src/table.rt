//! The symbol table of the section header table, and the checks of a file.

ghost use Rattle.std.specs.Prelude.{◌≡◌, ◌≢◌, ◌+◌, ◌*◌, ◌≤◌, ◌<◌, ◌/◌, ℕ, List, [], length, IfOk, IfErr, IfSome, Some, None, option_and_then, MatchResult, IsSomeAnd, IsTrue, ◌↔◌};
ghost use Rattle.std.specs.Option.{option_copied};
ghost use Rattle.elf64.specs.Headers.{order_of, header_of, table_in, section_header, section_at, header_count};
ghost use Rattle.elf64.specs.Sections.{section_names_in};
ghost use Rattle.elf64.specs.Symbols.{IsSymbolTable, symbol_names_in, symbol_entry};
ghost use Rattle.elf64.specs.Relocations.{is_relocation_table, entry_size};
ghost use Rattle.elf64.specs.Faults.{HasFault, IsBadSectionTable, HasExtendedIndex, IsBadSymbolTable, IsBadRelocationTable, HasBadRelocationTable};

use crate::error::ElfError;
use crate::header::{
    FILE_HEADER_SIZE, FileHeader, SYMBOL_SIZE, SectionHeader, file_header, section_at,
    section_header, section_header_count, section_table, symbol_entry,
};
use crate::order::{ByteOrder, bytes_at};
use crate::relocation::{entry_size, is_relocation_table};
use crate::section::{contents, file_bytes};

const SYMTAB: u32 = 2;

const XINDEX: u16 = 0xffff;

/// The contents of the section that holds the sections' names, if they lie in the file.
pub(crate) fn section_names<'a>(
    bytes: &'a [u8],
    header: &FileHeader,
    table: &[u8],
) -> Option<&'a [u8]>
    ensures { option_copied result ≡ section_names_in bytes.entry.now header.now table.now }
{
    let names = section_at(header.order, table, header.names_index as usize)?;
    contents(bytes, &names)
}

/// The string table that a symbol table is linked to.
pub(crate) fn symbol_names<'a>(
    bytes: &'a [u8],
    order: ByteOrder,
    table: &[u8],
    header: &SectionHeader,
) -> Option<&'a [u8]>
    ensures { option_copied result ≡ symbol_names_in bytes.entry.now order table.now header.now }
{
    let names = section_at(order, table, header.link as usize)?;
    file_bytes(bytes, &names)
}

/// The index of the first symbol table.
pub(crate) fn symbol_table_index(order: ByteOrder, table: &[u8]) -> Option<usize>
    ensures { IsSymbolTable order table.now result }
{
    for index in 1..section_header_count(table) {
        if section_header(order, table, index).kind == SYMTAB {
            return Some(index);
        }
    }
    None
}

/// The file header, where the file is an ELF64 file of a known byte order.
#[tactic(auto, unfolding(crate::specs::Headers::file_header))]
pub(crate) fn check_file_header(bytes: &[u8]) -> Result<FileHeader, ElfError>
    ensures value { IfOk result (λ h. header_of bytes.now ≡ Some h) }
    ensures order { IfOk result (λ h. order_of bytes.now ≡ Some h.order) }
    ensures accepted { IfOk result (λ _.
        (HasFault bytes.now ElfError.NotElf → ⊥)
        × (HasFault bytes.now ElfError.UnsupportedClass → ⊥)
        × (HasFault bytes.now ElfError.UnsupportedOrder → ⊥)) }
    ensures refused { IfErr result (HasFault bytes.now) }
{
    if bytes.len() < FILE_HEADER_SIZE || bytes[..4] != [0x7f, b'E', b'L', b'F'] {
        return Err(ElfError::NotElf);
    }
    if bytes[4] != 2 {
        return Err(ElfError::UnsupportedClass);
    }
    let order = match bytes[5] {
        1 => ByteOrder::Little,
        2 => ByteOrder::Big,
        _ => return Err(ElfError::UnsupportedOrder),
    };
    Ok(file_header(bytes, order))
}

/// The section header table, where it and the section of the names lie in the file.
pub(crate) fn check_section_table<'a>(
    bytes: &'a [u8],
    header: &FileHeader,
) -> Result<&'a [u8], ElfError>
    ensures value { IfOk result (λ t. table_in bytes.entry.now header.now ≡ Some t.now) }
    ensures accepted { IfOk result (λ _. IsBadSectionTable bytes.entry.now header.now → ⊥) }
    ensures refused { IfErr result (λ e.
        (e ≡ ElfError.BadSectionTable) × IsBadSectionTable bytes.entry.now header.now) }
{
    let Some(table) = section_table(bytes, header) else {
        return Err(ElfError::BadSectionTable);
    };
    if header.section_headers_offset == 0 {
        return Ok(table);
    }
    if header.section_count == 0 || section_names(bytes, header, table).is_none() {
        return Err(ElfError::BadSectionTable);
    }
    Ok(table)
}

/// Whether a symbol's section index is in another section (`SHN_XINDEX`).
fn has_extended_index(order: ByteOrder, entries: &[u8]) -> bool
    ensures { IsTrue result ↔ HasExtendedIndex order entries.now }
{
    for index in 1..entries.len() / SYMBOL_SIZE {
        if symbol_entry(order, entries, index).section == XINDEX {
            return true;
        }
    }
    false
}

/// Refuses a malformed symbol table.
pub(crate) fn check_symbol_table(
    bytes: &[u8],
    order: ByteOrder,
    table: &[u8],
    header: &SectionHeader,
) -> Result<(), ElfError>
    ensures accepted { IfOk result (λ _.
        IsBadSymbolTable bytes.now order table.now header.now → ⊥) }
    ensures refused { IfErr result (λ e.
        (e ≡ ElfError.BadSymbolTable) × IsBadSymbolTable bytes.now order table.now header.now) }
{
    let Some(entries) = bytes_at(bytes, header.offset, header.size) else {
        return Err(ElfError::BadSymbolTable);
    };
    if header.size % SYMBOL_SIZE as u64 != 0 {
        return Err(ElfError::BadSymbolTable);
    }
    if symbol_names(bytes, order, table, header).is_none() {
        return Err(ElfError::BadSymbolTable);
    }
    if has_extended_index(order, entries) {
        return Err(ElfError::BadSymbolTable);
    }
    Ok(())
}

/// Whether a section is a malformed relocation section of the symbol table, or one whose target is
/// missing.
fn is_bad_relocation_table(
    bytes: &[u8],
    order: ByteOrder,
    table: &[u8],
    symbol_table: usize,
    header: &SectionHeader,
) -> bool
    ensures { IsTrue result ↔ IsBadRelocationTable bytes.now order table.now symbol_table
        header.now }
{
    if !is_relocation_table(symbol_table, header) {
        return false;
    }
    section_at(order, table, header.info as usize).is_none()
        || bytes_at(bytes, header.offset, header.size).is_none()
        || header.size % entry_size(header) != 0
}

/// Refuses malformed relocation sections of the symbol table.
pub(crate) fn check_relocation_tables(
    bytes: &[u8],
    order: ByteOrder,
    table: &[u8],
    symbol_table: usize,
) -> Result<(), ElfError>
    ensures accepted { IfOk result (λ _.
        HasBadRelocationTable bytes.now order table.now symbol_table → ⊥) }
    ensures refused { IfErr result (λ e.
        (e ≡ ElfError.BadRelocationTable)
        × HasBadRelocationTable bytes.now order table.now symbol_table) }
{
    let count = section_header_count(table);
    for index in 1..count {
        let header = section_header(order, table, index);
        if is_bad_relocation_table(bytes, order, table, symbol_table, &header) {
            return Err(ElfError::BadRelocationTable);
        }
    }
    Ok(())
}
