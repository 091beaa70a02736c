//! Symbols that are defined outside the object.

ghost use Rattle.std.specs.Prelude.{◌≡◌};
ghost use Rattle.object_externs.specs.Symbols.{is_extern_symbol};

use elf64::{SymbolKind, SymbolView};

/// Whether a symbol is defined outside the object: it has no section, isn't a definition, and has
/// no kind.
pub fn is_extern_symbol(symbol: &SymbolView<'_>) -> bool
    ensures { result ≡ is_extern_symbol symbol.now }
{
    symbol.section_index().is_none()
        && !symbol.is_definition()
        && symbol.kind() == SymbolKind::Unknown
}
