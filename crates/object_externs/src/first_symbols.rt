//! The first symbols of their names.

ghost use Rattle.std.specs.Prelude.{◌≡◌, Some, IfOk, IfSome, OnOk};
ghost use Rattle.std.specs.Option.{option_copied};
ghost use Rattle.object_externs.specs.FirstSymbols.{IsEntered};
ghost use Rattle.object_file.specs.Symbols.{first_named};

use object_file::ReadSymbol;
use std::alloc::{AllocError, Global};
use std::collections::BTreeMap;
use std::marker::Model;

/// Symbols, and the first one of each name.
pub(crate) struct FirstSymbols<'s, 'a> {
    symbols: &'s [ReadSymbol<'a>],
    by_name: BTreeMap<&'a str, &'s ReadSymbol<'a>>,
}

impl<'s, 'a> Drop for FirstSymbols<'s, 'a> {
    // A single call where a value is dropped, instead of one call per field.
    fn drop(self) {
        let FirstSymbols {
            symbols: _symbols,
            by_name: _by_name,
        } = self;
    }
}

impl<'s, 'a> Model for FirstSymbols<'s, 'a> {
    ghost use Rattle.std.specs.Prelude.{List};
    ghost use Rattle.elf64.specs.Symbols.{Symbol};
    ghost use Rattle.object_externs.specs.FirstSymbols.{AreFirst};

    ghost Value = { List Symbol };

    ghost view = { λ s. s.symbols.now };

    ghost invariant = { λ s. AreFirst s.symbols.now s.by_name };
}

/// Enters a symbol under its name, unless another one is.
#[tactic(auto, using(std::proofs::lemmas::Map::Text::text_keys))]
fn enter<'s, 'a>(
    by_name: &mut BTreeMap<&'a str, &'s ReadSymbol<'a>>,
    symbol: &'s ReadSymbol<'a>,
) -> Result<(), AllocError>
    ensures { OnOk result (IsEntered by_name.old by_name.new symbol.entry) }
{
    by_name.entry(symbol.name())?.or_insert(symbol);
    Ok(())
}

impl<'s, 'a> FirstSymbols<'s, 'a> {
    pub(crate) fn new(
        alloc: Global,
        symbols: &'s [ReadSymbol<'a>],
    ) -> Result<FirstSymbols<'s, 'a>, AllocError>
        ensures { IfOk result (λ first. first ≡ symbols.now) }
    {
        let mut by_name = BTreeMap::new(alloc);
        for symbol in symbols {
            enter(&mut by_name, symbol)?;
        }
        Ok(FirstSymbols { symbols, by_name })
    }

    /// The symbol with this name and the least index.
    pub(crate) fn named(&self, name: &str) -> Option<&'s ReadSymbol<'a>>
        ensures value { option_copied result ≡ first_named self.now name.now }
        ensures named { IfSome result (λ symbol. symbol.now.name ≡ Some name.now) }
    {
        self.by_name.get(name).copied()
    }
}
