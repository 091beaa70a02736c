//! The symbols of a file.

ghost use Rattle.std.specs.Prelude.{◌≡◌, ◌+◌, ◌-◌, ◌*◌, ◌/◌, ◌≤◌, ◌<◌, ◌^◌, ℕ, List, length, MatchResult, Some, None};
ghost use Rattle.std.specs.Iterator.{YieldsFirst, item_count};
ghost use Rattle.std.specs.List.{range_with_len};
ghost use Rattle.std.specs.Option.{option_copied};
ghost use Rattle.elf64.specs.Symbols.{symbols_at, section_of, kind_of, type_of, binding_of};

use crate::error::ElfError;
use crate::header::{SYMBOL_SIZE, SymbolEntry, symbol_entry};
use crate::kind::SymbolKind;
use crate::order::ByteOrder;
use std::marker::Model;
use string_table::text_at;

/// `SHN_LORESERVE`: section indexes from here on are reserved.
const LORESERVE: u16 = 0xff00;

const LOCAL: u8 = 0;

const WEAK: u8 = 2;

const NOTYPE: u8 = 0;

const OBJECT: u8 = 1;

const FUNC: u8 = 2;

const SECTION: u8 = 3;

const FILE: u8 = 4;

const COMMON: u8 = 5;

const TLS: u8 = 6;

const GNU_IFUNC: u8 = 10;

/// The binding of a symbol.
fn binding(entry: &SymbolEntry) -> u8
    ensures { result ≡ binding_of entry.now }
{
    entry.info >> 4
}

/// The type of a symbol.
fn symbol_type(entry: &SymbolEntry) -> u8
    ensures { result ≡ type_of entry.now }
{
    entry.info & 0xf
}

/// The section in which a symbol is defined.
fn section_index(entry: &SymbolEntry) -> Option<usize>
    ensures { result ≡ section_of entry.now }
{
    if entry.section == 0 || entry.section >= LORESERVE {
        return None;
    }
    Some(entry.section as usize)
}

/// What a symbol of a type denotes.
fn kind_of(symbol_type: u8) -> SymbolKind
    ensures { result ≡ kind_of symbol_type }
{
    match symbol_type {
        OBJECT | COMMON => SymbolKind::Data,
        FUNC | GNU_IFUNC => SymbolKind::Text,
        SECTION => SymbolKind::Section,
        FILE => SymbolKind::File,
        TLS => SymbolKind::Tls,
        _ => SymbolKind::Unknown,
    }
}

/// A symbol of a file (ELF-64 object file format, "Symbol Table").
#[derive(Clone, Drop, Debug)]
pub struct SymbolView<'a> {
    names: Option<&'a [u8]>,
    index: usize,
    entry: SymbolEntry,
}

impl<'a> Model for SymbolView<'a> {
    ghost use Rattle.std.specs.Option.{option_copied};
    ghost use Rattle.elf64.specs.Symbols.{Symbol, symbol_from};

    ghost Value = { Symbol };

    ghost view = { λ s. symbol_from (option_copied s.names) s.index s.entry };
}

impl<'a> SymbolView<'a> {
    /// The index in the symbol table: at least 1.
    #[tactic(auto, unfolding(crate::specs::Symbols::symbol_from))]
    pub fn index(&self) -> usize
        ensures { result ≡ self.now.index }
    {
        self.index
    }

    /// The offset of the name in the bytes of the symbols' names (`st_name`).
    #[tactic(auto, unfolding(crate::specs::Symbols::symbol_from))]
    pub fn name_offset(&self) -> u32
        ensures { result ≡ self.now.name_offset }
    {
        self.entry.name
    }

    /// The name. Returns [`ElfError::Name`] where it isn't UTF-8 text ended by a NUL inside the
    /// symbol table's string table. Reads each byte of it.
    #[tactic(auto, unfolding(crate::specs::Symbols::symbol_from))]
    pub fn name(&self) -> Result<&'a str, ElfError>
        ensures { MatchResult result (λ s. self.now.name ≡ Some s.now) (λ e.
            (e ≡ ElfError.Name) × (self.now.name ≡ None)) }
    {
        let Some(names) = self.names else {
            return Err(ElfError::Name);
        };
        text_at(names, self.entry.name).ok_or(ElfError::Name)
    }

    /// The index of the section in which the symbol is defined (`st_shndx`): none for `SHN_UNDEF`
    /// and the reserved indexes.
    #[tactic(auto, unfolding(crate::specs::Symbols::symbol_from))]
    pub fn section_index(&self) -> Option<usize>
        ensures { result ≡ self.now.section_index }
    {
        section_index(&self.entry)
    }

    /// The address (`st_value`).
    #[tactic(auto, unfolding(crate::specs::Symbols::symbol_from))]
    pub fn address(&self) -> u64
        ensures { result ≡ self.now.address }
    {
        self.entry.value
    }

    /// The size in bytes (`st_size`); 0 where the symbol has no size or it isn't known.
    #[tactic(auto, unfolding(crate::specs::Symbols::symbol_from))]
    pub fn size(&self) -> u64
        ensures { result ≡ self.now.size }
    {
        self.entry.size
    }

    /// What the symbol denotes, by its type.
    #[tactic(auto, unfolding(crate::specs::Symbols::symbol_from))]
    pub fn kind(&self) -> SymbolKind
        ensures { result ≡ self.now.kind }
    {
        kind_of(symbol_type(&self.entry))
    }

    /// Whether the symbol defines something in a section: a function (`STT_FUNC`), an object
    /// (`STT_OBJECT`), or a symbol of no type (`STT_NOTYPE`) and of nonzero size.
    #[tactic(auto, unfolding(crate::specs::Symbols::symbol_from))]
    pub fn is_definition(&self) -> bool
        ensures { result ≡ self.now.is_definition }
    {
        if section_index(&self.entry).is_none() {
            return false;
        }
        match symbol_type(&self.entry) {
            OBJECT | FUNC => true,
            NOTYPE => self.size() != 0,
            _ => false,
        }
    }

    /// Whether the symbol is visible to other files: any binding except `STB_LOCAL`.
    #[tactic(auto, unfolding(crate::specs::Symbols::symbol_from))]
    pub fn is_global(&self) -> bool
        ensures { result ≡ self.now.is_global }
    {
        binding(&self.entry) != LOCAL
    }

    /// Whether the binding is `STB_WEAK`.
    #[tactic(auto, unfolding(crate::specs::Symbols::symbol_from))]
    pub fn is_weak(&self) -> bool
        ensures { result ≡ self.now.is_weak }
    {
        binding(&self.entry) == WEAK
    }
}

/// The symbols of a file, in order of index, without symbol 0.
#[derive(Drop, Debug)]
pub struct Symbols<'a> {
    order: ByteOrder,
    entries: &'a [u8],
    names: Option<&'a [u8]>,
    next: usize,
    left: usize,
}

impl<'a> Model for Symbols<'a> {
    ghost use Rattle.std.specs.Prelude.{List, length, ◌+◌, ◌*◌, ◌≤◌, ◌<◌};
    ghost use Rattle.std.specs.List.{range_with_len};
    ghost use Rattle.std.specs.Option.{option_copied};
    ghost use Rattle.elf64.specs.Symbols.{Symbol, symbols_at};

    ghost Value = { List Symbol };

    ghost view = { λ s.
        symbols_at s.order s.entries.now (option_copied s.names) (range_with_len s.next s.left) };

    ghost invariant = { λ s. 0 < s.left → 24 * (s.next + s.left) ≤ length s.entries.now };
}

impl<'a> Iterator for Symbols<'a> {
    type Item = SymbolView<'a>;

    ghost next_gives = { YieldsFirst (λ s. s) };

    ghost remaining = { item_count (λ s. s) };

    fn next(&mut self) -> Option<SymbolView<'a>> {
        if self.left == 0 {
            return None;
        }
        let view = SymbolView {
            names: self.names,
            index: self.next,
            entry: symbol_entry(self.order, self.entries, self.next),
        };
        self.next += 1;
        self.left -= 1;
        Some(view)
    }
}

impl<'a> Symbols<'a> {
    /// The symbols of a symbol table's bytes, with its string table.
    pub(crate) fn new(order: ByteOrder, entries: &'a [u8], names: Option<&'a [u8]>) -> Symbols<'a>
        ensures value { result
            ≡ symbols_at order entries.now (option_copied names.entry)
            (range_with_len 1 (length entries.now / 24 - 1)) }
        ensures countable { length result < 2 ^ 64 }
    {
        Symbols {
            order,
            entries,
            names,
            next: 1,
            left: (entries.len() / SYMBOL_SIZE).saturating_sub(1),
        }
    }
}
