//! Maps with their numbers, by symbol and by section.

ghost use Rattle.std.specs.Prelude.{◌≡◌, IfOk};
ghost use Rattle.std.specs.Option.{option_copied};
ghost use Rattle.slot_relocation.specs.Maps.{map_for};
ghost use Rattle.slot_relocation.specs.Walks.{map_at};

use ebpf_items::Map;
use std::alloc::{AllocError, Global};
use std::collections::BTreeMap;
use std::marker::Model;

/// A map with its name and the number that the kernel, or a plan, gives it.
#[derive(Debug, Drop)]
pub struct NumberedMap<'m> {
    pub name: &'m str,
    pub number: i32,
    pub map: &'m Map,
}

impl<'m> Model for NumberedMap<'m> {
    ghost use Rattle.ebpf_items.specs.Maps.{map_view};
    ghost use Rattle.slot_relocation.specs.Maps as definitions;

    ghost Value = { definitions.NumberedMap };

    ghost view = { λ m. record { name = m.name.now; number = m.number; map = map_view m.map.now } };
}

/// Maps, and the index of the last one of each symbol and of each section.
#[derive(Drop)]
pub(crate) struct MapIndex<'m> {
    maps: &'m [NumberedMap<'m>],
    by_symbol: BTreeMap<usize, usize>,
    by_section: BTreeMap<usize, usize>,
}

impl<'m> Model for MapIndex<'m> {
    ghost use Rattle.std.specs.Prelude.{List};
    ghost use Rattle.slot_relocation.specs.Maps as definitions;
    ghost use Rattle.slot_relocation.specs.Walks.{AreLastOf};

    ghost Value = { List definitions.NumberedMap };

    ghost view = { λ i. i.maps.now };

    ghost invariant = { λ i. AreLastOf i.maps.now i.maps.now i.by_symbol i.by_section };
}

impl<'m> MapIndex<'m> {
    pub(crate) fn new(
        alloc: Global,
        maps: &'m [NumberedMap<'m>],
    ) -> Result<MapIndex<'m>, AllocError>
        ensures { IfOk result (λ i. i ≡ maps.now) }
    {
        let mut by_symbol = BTreeMap::new(alloc);
        let mut by_section = BTreeMap::new(alloc);
        for (place, numbered) in maps.iter().enumerate() {
            if let Some(index) = numbered.map.symbol_index() {
                by_symbol.insert(index, place)?;
            }
            by_section.insert(numbered.map.section_index(), place)?;
        }
        Ok(MapIndex {
            maps,
            by_symbol,
            by_section,
        })
    }

    /// The map of a symbol or a section; `places` holds the indexes of the last ones.
    fn map_at(&self, places: &BTreeMap<usize, usize>, index: usize) -> Option<&'m NumberedMap<'m>>
        ensures { option_copied result ≡ map_at self.now places.now index }
    {
        let place = places.get(&index)?;
        self.maps.get(*place)
    }

    /// The map that a symbol of a section names: the last one of the symbol, or else the last one
    /// of the section.
    pub(crate) fn get(
        &self,
        symbol_index: usize,
        section_index: usize,
    ) -> Option<&'m NumberedMap<'m>>
        ensures { option_copied result ≡ map_for self.now symbol_index section_index }
    {
        if let Some(map) = self.map_at(&self.by_symbol, symbol_index) {
            return Some(map);
        }
        self.map_at(&self.by_section, section_index)
    }
}
