//! The relocation sections of a file, and the relocations in them.

ghost use Rattle.std.specs.Prelude.{◌≡◌, ◌++◌, ◌+◌, ◌*◌, ◌^◌, ◌≤◌, ◌<◌, ℕ, List, [], length, Some, None};
ghost use Rattle.std.specs.Iterator.{YieldsFirst, item_count};
ghost use Rattle.std.specs.List.{range_with_len};
ghost use Rattle.elf64.specs.Headers.{section_header, section_indexes};
ghost use Rattle.elf64.specs.Relocations.{is_relocation_table, relocation_section_from, relocation_sections_at, relocations_to};

use crate::header::{SectionHeader, section_header, section_header_count};
use crate::order::{ByteOrder, bytes_at};
use crate::relocation::{Entries, RelocView, entry_size, is_relocation_table};
use std::marker::Model;

/// A relocation section of the first symbol table that has a target (ELF-64 object file format,
/// "Relocation").
#[derive(Drop, Debug)]
pub struct RelocationSectionView<'a> {
    bytes: &'a [u8],
    order: ByteOrder,
    header: SectionHeader,
}

impl<'a> Model for RelocationSectionView<'a> {
    ghost use Rattle.elf64.specs.Relocations.{RelocationSection, relocation_section_from};

    ghost Value = { RelocationSection };

    ghost view = { λ s. relocation_section_from s.bytes.now s.order s.header };
}

/// The relocation sections of the first symbol table that have a target, in order of index.
#[derive(Drop, Debug)]
pub struct RelocationSections<'a> {
    bytes: &'a [u8],
    order: ByteOrder,
    table: &'a [u8],
    symbol_table: usize,
    next: usize,
    left: usize,
}

impl<'a> Model for RelocationSections<'a> {
    ghost use Rattle.std.specs.Prelude.{List, length, ◌+◌, ◌*◌, ◌^◌, ◌≤◌, ◌<◌};
    ghost use Rattle.std.specs.List.{range_with_len};
    ghost use Rattle.elf64.specs.Relocations.{RelocationSection, relocation_sections_at};

    ghost Value = { List RelocationSection };

    ghost view = { λ s.
        relocation_sections_at s.bytes.now s.order s.table.now s.symbol_table
        (range_with_len s.next s.left) };

    ghost invariant = { λ s.
        (0 < s.left → 64 * (s.next + s.left) ≤ length s.table.now)
        × (length s.table.now < 2 ^ 64) };
}

impl<'a> Iterator for RelocationSections<'a> {
    type Item = RelocationSectionView<'a>;

    ghost next_gives = { YieldsFirst (λ s. s) };

    ghost remaining = { item_count (λ s. s) };

    fn next(&mut self) -> Option<RelocationSectionView<'a>> {
        while self.left > 0 {
            let header = section_header(self.order, self.table, self.next);
            self.next += 1;
            self.left -= 1;
            if is_relocation_table(self.symbol_table, &header) {
                return Some(RelocationSectionView {
                    bytes: self.bytes,
                    order: self.order,
                    header,
                });
            }
        }
        None
    }
}

impl<'a> RelocationSections<'a> {
    /// The relocation sections of the symbol table at an index.
    pub(crate) fn new(
        bytes: &'a [u8],
        order: ByteOrder,
        table: &'a [u8],
        symbol_table: usize,
    ) -> RelocationSections<'a>
        ensures value { result
            ≡ relocation_sections_at bytes.now order table.now symbol_table
            (section_indexes table.now) }
        ensures countable { length result < 2 ^ 64 }
    {
        RelocationSections {
            bytes,
            order,
            table,
            symbol_table,
            next: 1,
            left: section_header_count(table).saturating_sub(1),
        }
    }

    /// No relocation sections.
    pub(crate) fn none(order: ByteOrder) -> RelocationSections<'a>
        ensures { result ≡ [] }
    {
        RelocationSections::new(&[], order, &[], 0)
    }
}

/// Some relocations, by relocation section and then by entry.
#[derive(Drop, Debug)]
pub struct Relocations<'a> {
    entries: Entries<'a>,
    sections: RelocationSections<'a>,
    target: usize,
}

impl<'a> Model for Relocations<'a> {
    ghost use Rattle.std.specs.Prelude.{List, ◌++◌};
    ghost use Rattle.elf64.specs.Relocations.{Relocation, relocations_to};

    ghost Value = { List Relocation };

    ghost view = { λ s. s.entries ++ relocations_to s.target s.sections };
}

impl<'a> Iterator for Relocations<'a> {
    type Item = RelocView;

    ghost next_gives = { YieldsFirst (λ s. s) };

    ghost remaining = { item_count (λ s. s) };

    fn next(&mut self) -> Option<RelocView> {
        loop {
            if let Some(relocation) = self.entries.next() {
                return Some(relocation);
            }
            let section = self.sections.next()?;
            if section.target() == self.target {
                self.entries = section.entries();
            }
        }
    }
}

impl<'a> Relocations<'a> {
    /// The relocations of a target in some relocation sections.
    pub(crate) fn of_target(sections: RelocationSections<'a>, target: usize) -> Relocations<'a>
        ensures { result ≡ relocations_to target sections.entry }
    {
        Relocations {
            entries: Entries::none(sections.order),
            sections,
            target,
        }
    }
}

impl<'a> RelocationSectionView<'a> {
    /// The index of the section that the relocations apply to (`sh_info`): at least 1.
    #[tactic(auto, unfolding(crate::specs::Relocations::relocation_section_from))]
    pub fn target(&self) -> usize
        ensures { result ≡ self.now.target }
    {
        self.header.info as usize
    }

    /// The entries.
    #[tactic(auto, unfolding(crate::specs::Relocations::relocation_section_from))]
    fn entries(&self) -> Entries<'a>
        ensures { result ≡ self.now.relocations }
    {
        match bytes_at(self.bytes, self.header.offset, self.header.size) {
            Some(bytes) => Entries::new(self.order, bytes, entry_size(&self.header) as usize),
            None => Entries::none(self.order),
        }
    }

    /// The relocations, in order of entry.
    pub fn relocations(&self) -> Relocations<'a>
        ensures { result ≡ self.now.relocations }
    {
        Relocations {
            entries: self.entries(),
            sections: RelocationSections::none(self.order),
            target: 0,
        }
    }
}
