//! Maps of sections `maps`.

ghost use Rattle.std.specs.Prelude.{◌≡◌, ◌≢◌, [], ◌++◌, flat_map, IfErr, OnOk};
ghost use Rattle.std.specs.List.{list_any};
ghost use Rattle.std.specs.Option.{option_copied, option_map};
ghost use Rattle.elf64.specs.Numbers.{bytes_at};
ghost use Rattle.ebpf_items.specs.Maps.{legacy_words};
ghost use Rattle.ebpf_items.specs.declared.error.ParseError.TheVariants.{OutOfMemory};
ghost use Rattle.object_maps.specs.Faults.{Says};
ghost use Rattle.object_maps.specs.LegacyMaps.{is_map_symbol, legacy_map_faults, legacy_maps_faults, map_symbol_faults, symbol_words, legacy_map, legacy_maps};
ghost use Rattle.object_maps.specs.Found.{entered};

use crate::legacy::legacy_map_def;
use crate::maps::Maps;
use ebpf_items::{EbpfSectionKind, LegacyMap, Map, ParseError, bpf_map_def};
use elf64::SymbolKind;
use object_file::{ReadSection, ReadSymbol};
use std::alloc::Global;

/// Whether a symbol of a section `maps` is a map. All but the section's own symbol are.
fn is_map(symbol: &ReadSymbol<'_>) -> bool
    ensures { result ≡ is_map_symbol symbol.now }
{
    symbol.view().kind() != SymbolKind::Section
}

fn any_map(symbols: &[ReadSymbol<'_>]) -> bool
    ensures { result ≡ list_any is_map_symbol symbols.now }
{
    for symbol in symbols {
        if is_map(symbol) {
            return true;
        }
    }
    false
}

/// The `size` bytes from an offset on; `None` past the end.
fn range(bytes: &[u8], offset: u64, len: u64) -> Option<&[u8]>
    ensures { option_copied result ≡ bytes_at bytes.now offset len }
{
    let end = offset.checked_add(len)?;
    if end > bytes.len() as u64 {
        return None;
    }
    Some(&bytes[offset as usize..end as usize])
}

/// The map definition at a symbol.
fn symbol_def(section: &ReadSection<'_>, symbol: &ReadSymbol<'_>) -> Option<bpf_map_def>
    ensures { option_map legacy_words result ≡ symbol_words section.now symbol.now }
{
    let view = symbol.view();
    let bytes = range(section.bytes(), view.address(), view.size())?;
    legacy_map_def(bytes)
}

impl<'a> Maps<'a> {
    /// Adds the map of a symbol, if it is one.
    #[tactic(auto, unfolding(crate::specs::Found::entered))]
    fn read_legacy_map(
        &mut self,
        alloc: Global,
        section: &ReadSection<'a>,
        symbol: &ReadSymbol<'a>,
    ) -> Result<(), ParseError>
        ensures value { OnOk result
            (self.new ≡ entered self.old (legacy_map section.now symbol.now)) }
        ensures accepted { OnOk result (legacy_map_faults section.now symbol.now ≡ []) }
        ensures refused { IfErr result (λ e.
            e ≢ OutOfMemory → Says (legacy_map_faults section.now symbol.now) e) }
    {
        if !is_map(symbol) {
            return Ok(());
        }
        let Some(def) = symbol_def(section, symbol) else {
            return Err(ParseError::InvalidMapDefinition {
                name: String::from_str(alloc, symbol.name())?,
            });
        };
        let map = LegacyMap {
            def,
            inner_def: None,
            section_index: section.index(),
            section_kind: EbpfSectionKind::Maps,
            symbol_index: Some(symbol.view().index()),
            contents: Vec::new(alloc),
        };
        self.insert(symbol.name(), Map::Legacy(map))?;
        Ok(())
    }

    /// Adds the maps of these symbols of a section.
    #[tactic(auto, using(crate::proofs::Entered::entered_none))]
    fn read_symbols(
        &mut self,
        alloc: Global,
        section: &ReadSection<'a>,
        symbols: &[ReadSymbol<'a>],
    ) -> Result<(), ParseError>
        ensures value { OnOk result
            (self.new ≡ entered self.old (flat_map (legacy_map section.now) symbols.now)) }
        ensures accepted { OnOk result (flat_map (legacy_map_faults section.now) symbols.now ≡ []) }
        ensures refused { IfErr result (λ e.
            e ≢ OutOfMemory → Says (flat_map (legacy_map_faults section.now) symbols.now) e) }
    {
        for symbol in symbols {
            self.read_legacy_map(alloc, section, symbol)?;
        }
        Ok(())
    }

    /// Adds the maps of a section `maps` with these symbols.
    pub(crate) fn read_legacy_maps(
        &mut self,
        alloc: Global,
        symbols: &[ReadSymbol<'a>],
        section: &ReadSection<'a>,
    ) -> Result<(), ParseError>
        ensures value { OnOk result
            (self.new ≡ entered self.old (legacy_maps symbols.now section.now)) }
        ensures accepted { OnOk result
            (map_symbol_faults symbols.now section.now ++ legacy_maps_faults symbols.now section.now
            ≡ []) }
        ensures refused { IfErr result (λ e.
            e ≢ OutOfMemory
            → Says
            (map_symbol_faults symbols.now section.now
            ++ legacy_maps_faults symbols.now section.now) e) }
    {
        if !any_map(symbols) {
            return Err(ParseError::NoSymbolsForSection {
                section_name: String::from_str(alloc, section.name())?,
            });
        }
        self.read_symbols(alloc, section, symbols)
    }
}
