//! The last symbols of their names.

ghost use Rattle.std.specs.Prelude.{◌≡◌, Some, IfOk, IfSome, OnOk};
ghost use Rattle.std.specs.Option.{option_copied};
ghost use Rattle.object_maps.specs.LastSymbols.{IsEntered};
ghost use Rattle.object_file.specs.Symbols.{last_named};

use object_file::ReadSymbol;
use std::alloc::{AllocError, Global};
use std::collections::BTreeMap;
use std::marker::Model;

/// Symbols, and the last one of each name.
pub struct LastSymbols<'s, 'a> {
    symbols: &'s [ReadSymbol<'a>],
    by_name: BTreeMap<&'a str, &'s ReadSymbol<'a>>,
}

impl<'s, 'a> Drop for LastSymbols<'s, 'a> {
    // A single call where a value is dropped, instead of one call per field.
    fn drop(self) {
        let LastSymbols {
            symbols: _symbols,
            by_name: _by_name,
        } = self;
    }
}

impl<'s, 'a> Model for LastSymbols<'s, 'a> {
    ghost use Rattle.std.specs.Prelude.{List};
    ghost use Rattle.elf64.specs.Symbols.{Symbol};
    ghost use Rattle.object_maps.specs.LastSymbols.{AreLast};

    ghost Value = { List Symbol };

    ghost view = { λ s. s.symbols.now };

    ghost invariant = { λ s. AreLast s.symbols.now s.by_name };
}

/// Enters a symbol under its name. It replaces an earlier one.
#[tactic(auto, using(std::proofs::lemmas::Map::Text::text_keys))]
fn enter<'s, 'a>(
    by_name: &mut BTreeMap<&'a str, &'s ReadSymbol<'a>>,
    symbol: &'s ReadSymbol<'a>,
) -> Result<(), AllocError>
    ensures { OnOk result (IsEntered by_name.old by_name.new symbol.entry) }
{
    by_name.insert(symbol.name(), symbol)?;
    Ok(())
}

impl<'s, 'a> LastSymbols<'s, 'a> {
    /// Enters each symbol under its name.
    pub fn new(
        alloc: Global,
        symbols: &'s [ReadSymbol<'a>],
    ) -> Result<LastSymbols<'s, 'a>, AllocError>
        ensures { IfOk result (λ last. last ≡ symbols.now) }
    {
        let mut by_name = BTreeMap::new(alloc);
        for symbol in symbols {
            enter(&mut by_name, symbol)?;
        }
        Ok(LastSymbols { symbols, by_name })
    }

    /// The symbol with this name and the greatest index.
    pub fn named(&self, name: &str) -> Option<&'s ReadSymbol<'a>>
        ensures value { option_copied result ≡ last_named self.now name.now }
        ensures named { IfSome result (λ symbol. symbol.now.name ≡ Some name.now) }
    {
        self.by_name.get(name).copied()
    }
}
