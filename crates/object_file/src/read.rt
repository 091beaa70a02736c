//! Sections with their names and bytes, and symbols with their names.

ghost use Rattle.std.specs.Prelude.{◌≡◌, true, false, is_none, is_some, Some, IfOk, IfErr, OnOk, IfSome};
ghost use Rattle.std.specs.Option.{option_copied};
ghost use Rattle.object_file.specs.Kinds.{kind_of};
ghost use Rattle.object_file.specs.Reading.{IsUnreadable, is_unreadable};
ghost use Rattle.object_file.specs.Symbols.{is_named, is_unnamed, last_named};

use ebpf_items::{EbpfSectionKind, ParseError};
use elf64::{SectionView, SymbolView};
use std::marker::Model;

/// A section with its name and bytes.
#[derive(Debug, Drop)]
pub struct ReadSection<'a> {
    view: SectionView<'a>,
    name: &'a str,
    bytes: &'a [u8],
}

impl<'a> Model for ReadSection<'a> {
    ghost use Rattle.std.specs.Prelude.{◌≡◌, Some};
    ghost use Rattle.elf64.specs.Sections.{Section};

    ghost Value = { Section };

    ghost view = { λ s. s.view };

    ghost invariant = { λ s.
        (s.view.name ≡ Some s.name.now) × (s.view.contents ≡ Some s.bytes.now) };
}

impl<'a> ReadSection<'a> {
    /// A section with its name and bytes; `SectionError` where one of them can't be read.
    pub(crate) fn new(view: SectionView<'a>) -> Result<ReadSection<'a>, ParseError>
        ensures value { IfOk result (λ s. s ≡ view.entry) }
        ensures accepted { OnOk result (is_unreadable view.entry ≡ false) }
        ensures refused { IfErr result (IsUnreadable view.entry) }
    {
        let index = view.index();
        let name = match view.name() {
            Ok(name) => name,
            Err(error) => return Err(ParseError::SectionError { index, error }),
        };
        match view.data() {
            Ok(bytes) => Ok(ReadSection { view, name, bytes }),
            Err(error) => Err(ParseError::SectionError { index, error }),
        }
    }

    /// Its index in the section header table.
    pub fn index(&self) -> usize
        ensures { result ≡ self.now.index }
    {
        self.view.index()
    }

    /// Its name.
    pub fn name(&self) -> &'a str
        ensures { self.now.name ≡ Some result.now }
    {
        self.name
    }

    /// Its bytes in the file. A section that occupies no bytes there, such as `.bss`, has none.
    pub fn bytes(&self) -> &'a [u8]
        ensures { self.now.contents ≡ Some result.now }
    {
        self.bytes
    }

    /// Its address (`sh_addr`).
    pub fn address(&self) -> u64
        ensures { result ≡ self.now.address }
    {
        self.view.address()
    }

    /// Its size in memory, in bytes (`sh_size`).
    pub fn size(&self) -> u64
        ensures { result ≡ self.now.size }
    {
        self.view.size()
    }

    /// Its kind, by its name.
    pub fn kind(&self) -> EbpfSectionKind
        ensures value { result ≡ kind_of self.now }
        ensures named { is_some self.now.name ≡ true }
    {
        EbpfSectionKind::of_section(self.name, self.view.is_text(), self.view.size())
    }
}

/// A symbol with its name.
#[derive(Clone, Debug, Drop)]
pub struct ReadSymbol<'a> {
    view: SymbolView<'a>,
    name: &'a str,
}

impl<'a> Model for ReadSymbol<'a> {
    ghost use Rattle.std.specs.Prelude.{◌≡◌, Some};
    ghost use Rattle.elf64.specs.Symbols.{Symbol};

    ghost Value = { Symbol };

    ghost view = { λ s. s.view };

    ghost invariant = { λ s. s.view.name ≡ Some s.name.now };
}

impl<'a> ReadSymbol<'a> {
    /// A symbol with its name; `None` where the name can't be read.
    pub(crate) fn new(view: SymbolView<'a>) -> Option<ReadSymbol<'a>>
        ensures value { IfSome result (λ s. s ≡ view.entry) }
        ensures named { is_none result ≡ is_unnamed view.entry }
    {
        match view.name() {
            Ok(name) => Some(ReadSymbol { view, name }),
            Err(_) => None,
        }
    }

    /// Its entry in the symbol table.
    pub fn view(&self) -> &SymbolView<'a>
        ensures { result.now ≡ self.now }
    {
        &self.view
    }

    /// Its name.
    pub fn name(&self) -> &'a str
        ensures { self.now.name ≡ Some result.now }
    {
        self.name
    }
}

fn is_named(symbol: &ReadSymbol<'_>, name: &str) -> bool
    ensures { result ≡ is_named name.now symbol.now }
{
    symbol.name() == name
}

/// The last of some symbols with this name.
pub fn last_named<'s, 'a>(symbols: &'s [ReadSymbol<'a>], name: &str) -> Option<&'s ReadSymbol<'a>>
    ensures value { option_copied result ≡ last_named symbols.now name.now }
    ensures named { IfSome result (λ symbol. symbol.now.name ≡ Some name.now) }
{
    symbols.iter().rev().find(|symbol| is_named(symbol, name))
}
