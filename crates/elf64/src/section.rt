//! The sections of a file.

ghost use Rattle.std.specs.Prelude.{◌≡◌, ◌+◌, ◌*◌, ◌≤◌, ◌<◌, ◌^◌, ℕ, List, length, MatchResult, Some, None};
ghost use Rattle.std.specs.Iterator.{YieldsFirst, item_count};
ghost use Rattle.std.specs.List.{range_with_len};
ghost use Rattle.std.specs.Option.{option_copied};
ghost use Rattle.elf64.specs.Headers.{section_indexes};
ghost use Rattle.elf64.specs.Sections.{contents_in, file_bytes_in, is_executable, section_from, sections_at, has_name};

use crate::error::ElfError;
use crate::header::{SectionHeader, section_header, section_header_count};
use crate::order::{ByteOrder, bytes_at};
use std::marker::Model;
use string_table::{is_text_at, text_at};

const PROGBITS: u32 = 1;

const NOBITS: u32 = 8;

const ALLOC_AND_EXECINSTR: u64 = 6;

/// The bytes of a section in the file; none for `SHT_NOBITS`, and where they lie past the end.
pub(crate) fn file_bytes<'a>(bytes: &'a [u8], header: &SectionHeader) -> Option<&'a [u8]>
    ensures { option_copied result ≡ file_bytes_in bytes.now header.now }
{
    if header.kind == NOBITS {
        return None;
    }
    bytes_at(bytes, header.offset, header.size)
}

/// The contents of a section, which are empty for `SHT_NOBITS`; none where they lie past the end.
pub(crate) fn contents<'a>(bytes: &'a [u8], header: &SectionHeader) -> Option<&'a [u8]>
    ensures { option_copied result ≡ contents_in bytes.now header.now }
{
    if header.kind == NOBITS {
        return Some(&[]);
    }
    bytes_at(bytes, header.offset, header.size)
}

/// A section of a file (ELF-64 object file format, "Sections").
#[derive(Drop, Debug)]
pub struct SectionView<'a> {
    bytes: &'a [u8],
    names: Option<&'a [u8]>,
    index: usize,
    header: SectionHeader,
}

impl<'a> Model for SectionView<'a> {
    ghost use Rattle.std.specs.Option.{option_copied};
    ghost use Rattle.elf64.specs.Sections.{Section, section_from};

    ghost Value = { Section };

    ghost view = { λ s. section_from s.bytes.now (option_copied s.names) s.index s.header };
}

impl<'a> SectionView<'a> {
    /// The index in the section header table: at least 1.
    #[tactic(auto, unfolding(crate::specs::Sections::section_from))]
    pub fn index(&self) -> usize
        ensures { result ≡ self.now.index }
    {
        self.index
    }

    /// The offset of the name in the bytes of the sections' names (`sh_name`).
    #[tactic(auto, unfolding(crate::specs::Sections::section_from))]
    pub fn name_offset(&self) -> u32
        ensures { result ≡ self.now.name_offset }
    {
        self.header.name
    }

    /// The name. Returns [`ElfError::Name`] where it isn't UTF-8 text ended by a NUL inside the
    /// section of the names. Reads each byte of it.
    #[tactic(auto, unfolding(crate::specs::Sections::section_from))]
    pub fn name(&self) -> Result<&'a str, ElfError>
        ensures { MatchResult result (λ s. self.now.name ≡ Some s.now) (λ e.
            (e ≡ ElfError.Name) × (self.now.name ≡ None)) }
    {
        let Some(names) = self.names else {
            return Err(ElfError::Name);
        };
        text_at(names, self.header.name).ok_or(ElfError::Name)
    }

    /// Whether the section's name is `name`. Reads at most one byte more than `name` has.
    #[tactic(auto, unfolding(crate::specs::Sections::section_from))]
    pub fn has_name(&self, name: &str) -> bool
        ensures { result ≡ has_name name.now self.now }
    {
        match self.names {
            Some(names) => is_text_at(names, self.header.name, name),
            None => false,
        }
    }

    /// The contents, which are empty for `SHT_NOBITS`. Returns [`ElfError::SectionData`] where they
    /// lie past the end of the file.
    #[tactic(auto, unfolding(crate::specs::Sections::section_from))]
    pub fn data(&self) -> Result<&'a [u8], ElfError>
        ensures { MatchResult result (λ b. self.now.contents ≡ Some b.now) (λ e.
            (e ≡ ElfError.SectionData) × (self.now.contents ≡ None)) }
    {
        match contents(self.bytes, &self.header) {
            Some(bytes) => Ok(bytes),
            None => Err(ElfError::SectionData),
        }
    }

    /// The address (`sh_addr`).
    #[tactic(auto, unfolding(crate::specs::Sections::section_from))]
    pub fn address(&self) -> u64
        ensures { result ≡ self.now.address }
    {
        self.header.address
    }

    /// The size in bytes (`sh_size`), also for `SHT_NOBITS`.
    #[tactic(auto, unfolding(crate::specs::Sections::section_from))]
    pub fn size(&self) -> u64
        ensures { result ≡ self.now.size }
    {
        self.header.size
    }

    /// Whether this is executable text: `SHT_PROGBITS` with `SHF_ALLOC` and `SHF_EXECINSTR`.
    #[tactic(auto, unfolding(crate::specs::Sections::section_from))]
    pub fn is_text(&self) -> bool
        ensures { result ≡ self.now.is_text }
    {
        self.header.kind == PROGBITS
            && self.header.flags & ALLOC_AND_EXECINSTR == ALLOC_AND_EXECINSTR
    }
}

/// The sections of a file, in order of index, without section 0.
#[derive(Drop, Debug)]
pub struct Sections<'a> {
    bytes: &'a [u8],
    order: ByteOrder,
    table: &'a [u8],
    names: Option<&'a [u8]>,
    next: usize,
    left: usize,
}

impl<'a> Model for Sections<'a> {
    ghost use Rattle.std.specs.Prelude.{List, length, ◌+◌, ◌*◌, ◌≤◌, ◌<◌};
    ghost use Rattle.std.specs.List.{range_with_len};
    ghost use Rattle.std.specs.Option.{option_copied};
    ghost use Rattle.elf64.specs.Sections.{Section, sections_at};

    ghost Value = { List Section };

    ghost view = { λ s.
        sections_at s.bytes.now s.order s.table.now (option_copied s.names)
        (range_with_len s.next s.left) };

    ghost invariant = { λ s. 0 < s.left → 64 * (s.next + s.left) ≤ length s.table.now };
}

impl<'a> Iterator for Sections<'a> {
    type Item = SectionView<'a>;

    ghost next_gives = { YieldsFirst (λ s. s) };

    ghost remaining = { item_count (λ s. s) };

    fn next(&mut self) -> Option<SectionView<'a>> {
        if self.left == 0 {
            return None;
        }
        let view = SectionView {
            bytes: self.bytes,
            names: self.names,
            index: self.next,
            header: section_header(self.order, self.table, self.next),
        };
        self.next += 1;
        self.left -= 1;
        Some(view)
    }
}

impl<'a> Sections<'a> {
    /// The sections of a section header table.
    pub(crate) fn new(
        bytes: &'a [u8],
        order: ByteOrder,
        table: &'a [u8],
        names: Option<&'a [u8]>,
    ) -> Sections<'a>
        ensures value { result
            ≡ sections_at bytes.now order table.now (option_copied names.entry)
            (section_indexes table.now) }
        ensures countable { length result < 2 ^ 64 }
    {
        Sections {
            bytes,
            order,
            table,
            names,
            next: 1,
            left: section_header_count(table).saturating_sub(1),
        }
    }
}
