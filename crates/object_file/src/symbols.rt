//! The symbols of an object, in order and by section.

ghost use Rattle.std.specs.Prelude.{◌≡◌, ◌≢◌, [], true, false, IfOk, IfErr, OnOk, find};
ghost use Rattle.std.specs.List.{list_any};
ghost use Rattle.std.specs.Option.{option_map, option_map_or};
ghost use Rattle.elf64.specs.Symbols.{symbols_of};
ghost use Rattle.ebpf_items.specs.declared.error.ParseError.TheVariants.{OutOfMemory};
ghost use Rattle.object_file.specs.Symbols.{is_unnamed};

use crate::read::ReadSymbol;
use btf_records::BtfError;
use ebpf_items::ParseError;
use elf64::ElfFile;
use std::alloc::{AllocError, Global};
use std::collections::BTreeMap;

/// The symbols of a file, and the symbols in each section by the section's index.
#[derive(Debug)]
pub(crate) struct SymbolTable<'a> {
    pub(crate) all: Vec<ReadSymbol<'a>>,
    by_section: BTreeMap<usize, Vec<ReadSymbol<'a>>>,
}

impl<'a> Drop for SymbolTable<'a> {
    // A single call where a value is dropped, instead of one call per field.
    fn drop(self) {
        let SymbolTable {
            all: _all,
            by_section: _by_section,
        } = self;
    }
}

impl<'a> SymbolTable<'a> {
    ghost use Rattle.object_file.specs.SymbolTable.{symbols_at, AreSymbolsOf, AddsSymbol};

    /// The symbols of a file; `BtfError(InvalidSymbolName)` where the name of one can't be read.
    pub(crate) fn read(alloc: Global, elf: &ElfFile<'a>) -> Result<SymbolTable<'a>, ParseError>
        ensures value { IfOk result (λ t. AreSymbolsOf t (symbols_of elf.now)) }
        ensures accepted { OnOk result (list_any is_unnamed (symbols_of elf.now) ≡ false) }
        ensures refused { IfErr result (λ e.
            e ≢ OutOfMemory
            → (e ≡ ParseError.BtfError BtfError.InvalidSymbolName)
            × (list_any is_unnamed (symbols_of elf.now) ≡ true)) }
    {
        let mut table = SymbolTable {
            all: Vec::new(alloc),
            by_section: BTreeMap::new(alloc),
        };
        for view in elf.symbols() {
            let Some(symbol) = ReadSymbol::new(view) else {
                return Err(ParseError::BtfError(BtfError::InvalidSymbolName));
            };
            table.add(symbol)?;
        }
        Ok(table)
    }

    fn add(&mut self, symbol: ReadSymbol<'a>) -> Result<(), AllocError>
        ensures { OnOk result (AddsSymbol self.old self.new symbol.entry) }
    {
        if let Some(index) = symbol.view().section_index() {
            self.by_section
                .entry(index)?
                .or_default()
                .push(symbol.clone()?)?;
        }
        self.all.push(symbol)?;
        Ok(())
    }

    /// The symbols in the section at an index, in order, if there are any.
    pub(crate) fn in_section(&self, index: usize) -> Option<&Vec<ReadSymbol<'a>>>
        ensures { option_map_or (λ v. v.now.items) result [] ≡ symbols_at self.now index }
    {
        self.by_section.get(&index)
    }
}

/// The index of the first symbol of a file whose name can't be read.
pub(crate) fn first_unnamed(elf: &ElfFile<'_>) -> Option<usize>
    ensures { result ≡ option_map (λ s. s.index) (find is_unnamed (symbols_of elf.now)) }
{
    for view in elf.symbols() {
        if view.name().is_err() {
            return Some(view.index());
        }
    }
    None
}
