//! The addresses of the functions of a `.text` section.

ghost use Rattle.std.specs.Prelude.{◌≡◌, true, IfSome, IfNone, IfOk, OnOk};
ghost use Rattle.object_parse.specs.Addresses.{AddsAddress};
ghost use Rattle.object_parse.specs.Faults.{AreDistinct, repeats};
ghost use Rattle.object_parse.specs.Places.{AddsDefinition, AreDefinitionsOf};
ghost use Rattle.object_parse.specs.TextSections.{function_addresses, is_text_definition};

use elf64::SymbolKind;
use object_file::ReadSymbol;
use std::alloc::{AllocError, Global};
use std::collections::{BTreeMap, BTreeSet};

/// Whether a symbol defines a function.
fn is_text_definition(symbol: &ReadSymbol<'_>) -> bool
    ensures { result ≡ is_text_definition symbol.now }
{
    symbol.view().kind() == SymbolKind::Text && symbol.view().is_definition()
}

/// Adds the address of a symbol that defines a function, and returns whether it was added before.
fn is_repeated(addresses: &mut BTreeSet<u64>, symbol: &ReadSymbol<'_>) -> Result<bool, AllocError>
    ensures { IfOk result (λ r. AddsAddress addresses.old addresses.new symbol.now r) }
{
    if !is_text_definition(symbol) {
        return Ok(false);
    }
    Ok(!addresses.insert(symbol.view().address())?)
}

/// An address where two symbols define functions, if there is one.
pub(crate) fn repeated_address(
    alloc: Global,
    symbols: &[ReadSymbol<'_>],
) -> Result<Option<u64>, AllocError>
    ensures found { IfOk result (λ r.
        IfSome r (λ address. repeats address (function_addresses symbols.now) ≡ true)) }
    ensures none { IfOk result (λ r. IfNone r (AreDistinct (function_addresses symbols.now))) }
{
    let mut addresses = BTreeSet::new(alloc);
    for symbol in symbols {
        if is_repeated(&mut addresses, symbol)? {
            return Ok(Some(symbol.view().address()));
        }
    }
    Ok(None)
}

/// Enters a symbol that defines a function under its address, if no other is entered there.
fn add_definition<'a>(
    definitions: &mut BTreeMap<u64, ReadSymbol<'a>>,
    symbol: &ReadSymbol<'a>,
) -> Result<(), AllocError>
    ensures { OnOk result (AddsDefinition definitions.old definitions.new symbol.now) }
{
    if is_text_definition(symbol) {
        definitions
            .entry(symbol.view().address())?
            .or_insert(symbol.clone()?);
    }
    Ok(())
}

/// The symbols that define functions, by address; the first of several at one address.
pub(crate) fn by_address<'a>(
    alloc: Global,
    symbols: &[ReadSymbol<'a>],
) -> Result<BTreeMap<u64, ReadSymbol<'a>>, AllocError>
    ensures { IfOk result (λ m. AreDefinitionsOf m symbols.now) }
{
    let mut definitions = BTreeMap::new(alloc);
    for symbol in symbols {
        add_definition(&mut definitions, symbol)?;
    }
    Ok(definitions)
}
