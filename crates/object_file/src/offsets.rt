//! The offsets of symbols by name.

ghost use Rattle.std.specs.Prelude.{◌≡◌, IfOk, OnOk};
ghost use Rattle.elf64.specs.Symbols.{symbols_of};
ghost use Rattle.object_file.specs.Named.{AreOffsets, has_offset};

use crate::file::ObjectFile;
use crate::read::ReadSymbol;
use elf64::SymbolKind;
use std::alloc::{AllocError, Global};
use std::collections::BTreeMap;

/// Whether a symbol's offset is entered under its name.
fn has_offset(symbol: &ReadSymbol<'_>) -> bool
    ensures { result ≡ has_offset symbol.now }
{
    symbol.view().is_global() || symbol.view().kind() == SymbolKind::Data
}

/// The offsets of some symbols by name.
fn offsets<'a>(
    alloc: Global,
    symbols: &[ReadSymbol<'a>],
) -> Result<BTreeMap<&'a str, u64>, AllocError>
    ensures { IfOk result (λ offsets. AreOffsets symbols.now offsets.entries) }
{
    let mut offsets = BTreeMap::new(alloc);
    for symbol in symbols {
        if has_offset(symbol) {
            offsets.insert(symbol.name(), symbol.view().address())?;
        }
    }
    Ok(offsets)
}

/// The offsets (`st_value`) of the symbols that aren't local and of those of variables, by name. Of
/// several symbols with one name, the one with the greatest index counts.
pub fn symbol_offsets<'a>(
    alloc: Global,
    file: &ObjectFile<'a>,
) -> Result<BTreeMap<&'a str, u64>, AllocError>
    ensures { IfOk result (λ offsets. AreOffsets (symbols_of file.now) offsets.entries) }
{
    offsets(alloc, file.symbols())
}
