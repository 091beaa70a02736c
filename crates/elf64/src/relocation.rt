//! The relocations of a file.

ghost use Rattle.std.specs.Prelude.{◌≡◌, ◌+◌, ◌-◌, ◌*◌, ◌/◌, ◌≤◌, ◌<◌, ℕ, List, [], length, Some, None};
ghost use Rattle.std.specs.Iterator.{YieldsFirst, item_count};
ghost use Rattle.std.specs.List.{range_with_len};
ghost use Rattle.elf64.specs.Relocations.{symbol_in, width_in, entry_size, is_relocation_table, entries_in};

use crate::header::{SectionHeader, section_header, section_header_count};
use crate::order::{ByteOrder, bytes_at, u64_at};
use std::marker::Model;

const RELA: u32 = 4;

const REL: u32 = 9;

const RELA_SIZE: u64 = 24;

const REL_SIZE: u64 = 16;

const R_BPF_64_64: u64 = 1;

const R_BPF_64_32: u64 = 10;

/// The size of an entry of a relocation section.
pub(crate) fn entry_size(header: &SectionHeader) -> u64
    ensures value { result ≡ entry_size header.now }
    ensures least { 16 ≤ result }
{
    if header.kind == RELA {
        RELA_SIZE
    } else {
        REL_SIZE
    }
}

/// Whether a section holds relocations that use the symbol table at this index, and has a target.
pub(crate) fn is_relocation_table(symbol_table: usize, header: &SectionHeader) -> bool
    ensures { result ≡ is_relocation_table symbol_table header.now }
{
    (header.kind == RELA || header.kind == REL)
        && header.link as usize == symbol_table
        && header.info != 0
}

/// A relocation of a section (ELF-64 object file format, "Relocation").
#[derive(Clone, Drop, Debug)]
pub struct RelocView {
    offset: u64,
    info: u64,
}

impl Model for RelocView {
    ghost use Rattle.elf64.specs.Relocations.{Relocation, relocation_from};

    ghost Value = { Relocation };

    ghost view = { λ r. relocation_from r.offset r.info };
}

impl RelocView {
    /// The offset in its section that the relocation applies to, in bytes (`r_offset`).
    #[tactic(auto, unfolding(crate::specs::Relocations::relocation_from))]
    pub fn offset(&self) -> u64
        ensures { result ≡ self.now.offset }
    {
        self.offset
    }

    /// The index of the symbol (`ELF64_R_SYM`), where the relocation has one.
    #[tactic(auto, unfolding(crate::specs::Relocations::relocation_from))]
    pub fn symbol(&self) -> Option<usize>
        ensures { result ≡ self.now.symbol }
    {
        match self.info >> 32 {
            0 => None,
            symbol => Some(symbol as usize),
        }
    }

    /// The number of bits that the relocation writes: 64 for `R_BPF_64_64`, 32 for `R_BPF_64_32`,
    /// and 0 for any other type (`ELF64_R_TYPE`).
    #[tactic(auto, unfolding(crate::specs::Relocations::relocation_from))]
    pub fn width(&self) -> u8
        ensures { result ≡ self.now.width }
    {
        match self.info & 0xffff_ffff {
            R_BPF_64_64 => 64,
            R_BPF_64_32 => 32,
            _ => 0,
        }
    }
}

/// The entries of one relocation section.
#[derive(Drop, Debug)]
pub(crate) struct Entries<'a> {
    order: ByteOrder,
    bytes: &'a [u8],
    size: usize,
    next: usize,
    left: usize,
}

impl<'a> Model for Entries<'a> {
    ghost use Rattle.elf64.specs.Relocations.{Relocation, entries_at, AreEntriesWithin};
    ghost use Rattle.std.specs.List.{range_with_len};
    ghost use Rattle.std.specs.Prelude.{List, length};

    ghost Value = { List Relocation };

    ghost view = { λ s. entries_at s.order s.size s.bytes.now (range_with_len s.next s.left) };

    ghost invariant = { λ s. AreEntriesWithin s.size s.next s.left (length s.bytes.now) };
}

impl<'a> Iterator for Entries<'a> {
    type Item = RelocView;

    ghost next_gives = { YieldsFirst (λ s. s) };

    ghost remaining = { item_count (λ s. s) };

    fn next(&mut self) -> Option<RelocView> {
        if self.left == 0 {
            return None;
        }
        let at = self.size * self.next;
        let view = RelocView {
            offset: u64_at(self.order, self.bytes, at),
            info: u64_at(self.order, self.bytes, at + 8),
        };
        self.next += 1;
        self.left -= 1;
        Some(view)
    }
}

impl<'a> Entries<'a> {
    /// No entries.
    pub(crate) fn none(order: ByteOrder) -> Entries<'a>
        ensures { result ≡ [] }
    {
        Entries::new(order, &[], REL_SIZE as usize)
    }

    /// The entries in some bytes, of `size` bytes each.
    pub(crate) fn new(order: ByteOrder, bytes: &'a [u8], size: usize) -> Entries<'a>
        requires { 16 ≤ size }
        ensures { result ≡ entries_in order size bytes.now }
    {
        Entries {
            order,
            bytes,
            size,
            next: 0,
            left: bytes.len() / size,
        }
    }
}
