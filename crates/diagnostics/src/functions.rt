//! Functions at one address.

use elf64::{ElfFile, SymbolKind, SymbolView};

/// Whether a symbol defines a function at an address of the section with an index.
fn is_at(symbol: &SymbolView<'_>, section_index: usize, address: u64) -> bool {
    symbol.kind() == SymbolKind::Text
        && symbol.is_definition()
        && symbol.section_index() == Some(section_index)
        && symbol.address() == address
}

/// The names of the first two functions at an address of the section with an index, empty where
/// they can't be read.
pub(crate) fn two_at(object: &[u8], section_index: usize, address: u64) -> Option<(&str, &str)> {
    let elf = ElfFile::parse(object).ok()?;
    let mut found = elf
        .symbols()
        .filter(|symbol| is_at(symbol, section_index, address));
    let (one, other) = (found.next()?, found.next()?);
    Some((one.name().unwrap_or(""), other.name().unwrap_or("")))
}
