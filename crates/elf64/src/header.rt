//! The fields of the file header, section headers and symbol table entries.

ghost use Rattle.std.specs.Prelude.{◌≡◌, ◌+◌, ◌*◌, ◌≤◌, ◌<◌, ◌/◌, length, slice_index, option_and_then};
ghost use Rattle.std.specs.Option.{option_copied};
ghost use Rattle.elf64.specs.Headers.{file_header, table_in, section_header, section_at, header_count};
ghost use Rattle.elf64.specs.Symbols.{symbol_entry};

use crate::order::{ByteOrder, bytes_at, u16_at, u32_at, u64_at};

/// The size of a file header.
pub(crate) const FILE_HEADER_SIZE: usize = 64;

/// The size of a section header.
pub(crate) const SECTION_HEADER_SIZE: usize = 64;

/// The size of a symbol table entry.
pub(crate) const SYMBOL_SIZE: usize = 24;

/// The fields of the file header that are read.
#[derive(Clone, Copy, Debug)]
pub(crate) struct FileHeader {
    /// `EI_DATA`.
    pub order: ByteOrder,
    /// `e_shoff`.
    pub section_headers_offset: u64,
    /// `e_shentsize`.
    pub section_header_size: u16,
    /// `e_shnum`, which counts section 0.
    pub section_count: u16,
    /// `e_shstrndx`.
    pub names_index: u16,
}

/// The fields of a section header that are read.
#[derive(Clone, Copy, Debug)]
pub(crate) struct SectionHeader {
    /// `sh_name`.
    pub name: u32,
    /// `sh_type`.
    pub kind: u32,
    /// `sh_flags`.
    pub flags: u64,
    /// `sh_addr`.
    pub address: u64,
    /// `sh_offset`.
    pub offset: u64,
    /// `sh_size`.
    pub size: u64,
    /// `sh_link`.
    pub link: u32,
    /// `sh_info`.
    pub info: u32,
}

/// The fields of a symbol table entry.
#[derive(Clone, Copy, Debug)]
pub(crate) struct SymbolEntry {
    /// `st_name`.
    pub name: u32,
    /// `st_info`.
    pub info: u8,
    /// `st_shndx`.
    pub section: u16,
    /// `st_value`.
    pub value: u64,
    /// `st_size`.
    pub size: u64,
}

#[tactic(auto, unfolding(crate::specs::Headers::file_header))]
pub(crate) fn file_header(bytes: &[u8], order: ByteOrder) -> FileHeader
    requires { 64 ≤ length bytes.now }
    ensures { result ≡ file_header bytes.now order }
{
    FileHeader {
        order,
        section_headers_offset: u64_at(order, bytes, 40),
        section_header_size: u16_at(order, bytes, 58),
        section_count: u16_at(order, bytes, 60),
        names_index: u16_at(order, bytes, 62),
    }
}

/// The bytes of the section header table.
pub(crate) fn section_table<'a>(bytes: &'a [u8], header: &FileHeader) -> Option<&'a [u8]>
    ensures { option_copied result ≡ table_in bytes.now header.now }
{
    if header.section_headers_offset == 0 {
        return Some(&[]);
    }
    if header.section_header_size as usize != SECTION_HEADER_SIZE {
        return None;
    }
    bytes_at(
        bytes,
        header.section_headers_offset,
        SECTION_HEADER_SIZE as u64 * header.section_count as u64,
    )
}

#[tactic(auto, unfolding(crate::specs::Headers::section_header))]
pub(crate) fn section_header(order: ByteOrder, table: &[u8], index: usize) -> SectionHeader
    requires { 64 * index + 64 ≤ length table.now }
    ensures { result ≡ section_header order table.now index }
{
    let at = SECTION_HEADER_SIZE * index;
    SectionHeader {
        name: u32_at(order, table, at),
        kind: u32_at(order, table, at + 4),
        flags: u64_at(order, table, at + 8),
        address: u64_at(order, table, at + 16),
        offset: u64_at(order, table, at + 24),
        size: u64_at(order, table, at + 32),
        link: u32_at(order, table, at + 40),
        info: u32_at(order, table, at + 44),
    }
}

/// The number of section headers, including that of index 0.
pub(crate) fn section_header_count(table: &[u8]) -> usize
    ensures { result ≡ header_count table.now }
{
    table.len() / SECTION_HEADER_SIZE
}

/// The header of the section at an index; none for index 0 and past the end.
pub(crate) fn section_at(order: ByteOrder, table: &[u8], index: usize) -> Option<SectionHeader>
    ensures { result ≡ section_at order table.now index }
{
    if index == 0 || section_header_count(table) <= index {
        return None;
    }
    Some(section_header(order, table, index))
}

#[tactic(auto, unfolding(crate::specs::Symbols::symbol_entry))]
pub(crate) fn symbol_entry(order: ByteOrder, entries: &[u8], index: usize) -> SymbolEntry
    requires { 24 * index + 24 ≤ length entries.now }
    ensures { result ≡ symbol_entry order entries.now index }
{
    let at = SYMBOL_SIZE * index;
    SymbolEntry {
        name: u32_at(order, entries, at),
        info: entries[at + 4],
        section: u16_at(order, entries, at + 6),
        value: u64_at(order, entries, at + 8),
        size: u64_at(order, entries, at + 16),
    }
}
