//! A whole file.

ghost use Rattle.std.specs.Prelude.{◌≡◌, ◌+◌, ◌*◌, ◌≤◌, ◌<◌, ◌^◌, ℕ, List, length, IfOk, IfErr, Some, find};
ghost use Rattle.elf64.specs.Headers.{AreNumbered, order_of};
ghost use Rattle.std.specs.Option.{option_copied};
ghost use Rattle.elf64.specs.Names.{AreNamed};
ghost use Rattle.elf64.specs.Sections.{sections_of, section_names_of, has_name, section_named};
ghost use Rattle.elf64.specs.Symbols.{symbols_of, symbol_names_of};
ghost use Rattle.elf64.specs.Relocations.{relocation_sections_of, relocations_of};
ghost use Rattle.elf64.specs.Faults.{HasFault, IsFaultless};

use crate::error::ElfError;
use crate::header::{FileHeader, section_header};
use crate::order::{ByteOrder, bytes_at};
use crate::relocation_section::{RelocationSections, Relocations};
use crate::section::{SectionView, Sections};
use crate::symbol::Symbols;
use crate::table::{
    check_file_header, check_relocation_tables, check_section_table, check_symbol_table,
    section_names, symbol_names, symbol_table_index,
};
use std::marker::Model;

/// An ELF64 file over borrowed bytes (ELF-64 object file format, "File Header").
#[derive(Drop, Debug)]
pub struct ElfFile<'a> {
    bytes: &'a [u8],
    header: FileHeader,
    table: &'a [u8],
    /// The index of the first symbol table.
    symbol_table: Option<usize>,
}

impl<'a> Model for ElfFile<'a> {
    ghost use Rattle.std.specs.Prelude.{List, ℕ};
    ghost use Rattle.elf64.specs.Headers.{HasHeaders};
    ghost use Rattle.elf64.specs.Symbols.{IsSymbolTable};

    ghost Value = { List ℕ };

    ghost view = { λ f. f.bytes.now };

    ghost invariant = { λ f.
        HasHeaders f.bytes.now f.header f.table.now
        × IsSymbolTable f.header.order f.table.now f.symbol_table };
}

impl<'a> ElfFile<'a> {
    /// Reads a file's headers. A file is refused for each fault of [`ElfError`] except
    /// [`ElfError::Name`] and [`ElfError::SectionData`]. A file without a section header table
    /// (`e_shoff` 0) has no sections. `e_machine` and `e_type` aren't checked.
    pub fn parse(bytes: &'a [u8]) -> Result<ElfFile<'a>, ElfError>
        ensures value { IfOk result (λ f. f ≡ bytes.entry.now) }
        ensures accepted { IfOk result (λ _. IsFaultless bytes.entry.now) }
        ensures refused { IfErr result (HasFault bytes.entry.now) }
    {
        let header = check_file_header(bytes)?;
        let table = check_section_table(bytes, &header)?;
        let symbol_table = symbol_table_index(header.order, table);
        if let Some(index) = symbol_table {
            let symbols = section_header(header.order, table, index);
            check_symbol_table(bytes, header.order, table, &symbols)?;
            check_relocation_tables(bytes, header.order, table, index)?;
        }
        Ok(ElfFile {
            bytes,
            header,
            table,
            symbol_table,
        })
    }

    /// The byte order of the file's numbers (`EI_DATA`).
    pub fn order(&self) -> ByteOrder
        ensures { order_of self.now ≡ Some result }
    {
        self.header.order
    }

    /// The bytes that hold the sections' names (`e_shstrndx`), if there are any.
    #[tactic(auto, unfolding(crate::specs::Sections::section_names_of))]
    pub fn section_names(&self) -> Option<&'a [u8]>
        ensures { option_copied result ≡ section_names_of self.now }
    {
        section_names(self.bytes, &self.header, self.table)
    }

    /// The bytes that hold the symbols' names: the string table that the first symbol table is
    /// linked to.
    #[tactic(auto, unfolding(crate::specs::Symbols::symbol_names_of))]
    pub fn symbol_names(&self) -> Option<&'a [u8]>
        ensures { option_copied result ≡ symbol_names_of self.now }
    {
        let order = self.order();
        let header = section_header(order, self.table, self.symbol_table?);
        symbol_names(self.bytes, order, self.table, &header)
    }

    /// The sections, in order of index, without section 0.
    #[tactic(auto, unfolding(crate::specs::Sections::sections_of, crate::specs::Sections::section_names_of))]
    pub fn sections(&self) -> Sections<'a>
        ensures value { result ≡ sections_of self.now }
        ensures numbered { AreNumbered (sections_of self.now) (λ s. s.index) }
        ensures named { AreNamed (section_names_of self.now) (sections_of self.now) (λ s. s.name)
            (λ s. s.name_offset) }
        ensures countable { length result < 2 ^ 64 }
    {
        Sections::new(self.bytes, self.order(), self.table, self.section_names())
    }

    /// The first section with this name. Sections whose names can't be read are skipped. At most
    /// one byte more of each section's name is read than `name` has.
    pub fn section_by_name(&self, name: &str) -> Option<SectionView<'a>>
        ensures { result ≡ section_named self.now name.now }
    {
        for section in self.sections() {
            if section.has_name(name) {
                return Some(section);
            }
        }
        None
    }

    /// The symbols of the first symbol table, in order of index, without symbol 0.
    #[tactic(auto, unfolding(crate::specs::Symbols::symbols_of))]
    pub fn symbols(&self) -> Symbols<'a>
        ensures value { result ≡ symbols_of self.now }
        ensures numbered { AreNumbered (symbols_of self.now) (λ s. s.index) }
        ensures named { AreNamed (symbol_names_of self.now) (symbols_of self.now) (λ s. s.name)
            (λ s. s.name_offset) }
        ensures countable { length result < 2 ^ 64 }
    {
        let order = self.order();
        let Some(index) = self.symbol_table else {
            return Symbols::new(order, &[], None);
        };
        let header = section_header(order, self.table, index);
        let names = symbol_names(self.bytes, order, self.table, &header);
        let entries = bytes_at(self.bytes, header.offset, header.size).unwrap_or(&[]);
        Symbols::new(order, entries, names)
    }

    /// The relocation sections of the first symbol table that have a target, in order of index.
    #[tactic(auto, unfolding(crate::specs::Relocations::relocation_sections_of))]
    pub fn relocation_sections(&self) -> RelocationSections<'a>
        ensures value { result ≡ relocation_sections_of self.now }
        ensures countable { length result < 2 ^ 64 }
    {
        let order = self.order();
        match self.symbol_table {
            Some(index) => RelocationSections::new(self.bytes, order, self.table, index),
            None => RelocationSections::none(order),
        }
    }

    /// The relocations of the section at an index, in order of relocation section and then of
    /// entry; none for an index that no section has. For the relocations of many sections, iterate
    /// over [`ElfFile::relocation_sections`] once.
    #[tactic(auto, unfolding(crate::specs::Relocations::relocations_of))]
    pub fn relocations(&self, section: usize) -> Relocations<'a>
        ensures { result ≡ relocations_of self.now section }
    {
        Relocations::of_target(self.relocation_sections(), section)
    }
}
