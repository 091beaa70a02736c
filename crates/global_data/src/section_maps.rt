//! The maps of sections.

ghost use Rattle.std.specs.Prelude.{◌≡◌, map, IfOk, OnOk};
ghost use Rattle.std.specs.Cmp.Lexicographic.{slice_cmp};
ghost use Rattle.std.specs.List.Sorted.{IsStrictlySortedBy};
ghost use Rattle.std.specs.Option.{option_copied, option_map};
ghost use Rattle.std.specs.Ordering.{nat_cmp};
ghost use Rattle.global_data.specs.GlobalData.{extent_of, map_of};
ghost use Rattle.global_data.specs.SectionMaps.{Enters};

use object_maps::Maps;
use std::alloc::{AllocError, Global};
use std::collections::BTreeMap;
use std::marker::Model;

/// A map's name and its number of bytes.
#[derive(Drop)]
pub(crate) struct MapExtent<'a> {
    pub(crate) name: &'a str,
    pub(crate) size: usize,
}

impl<'a> Model for MapExtent<'a> {
    ghost use Rattle.global_data.specs.GlobalData.{Extent};

    ghost Value = { Extent };

    ghost view = { λ e. record { name = e.name.now; size = e.size } };
}

/// The maps of sections, by the section's index; where a section has several, the first by name.
#[derive(Drop)]
pub(crate) struct SectionMaps<'m, 'a> {
    maps: &'m Maps<'a>,
    by_section: BTreeMap<usize, MapExtent<'a>>,
}

impl<'m, 'a> Model for SectionMaps<'m, 'a> {
    ghost use Rattle.std.specs.Prelude.{ℕ, List};
    ghost use Rattle.ebpf_items.specs.Maps.{MapView};
    ghost use Rattle.global_data.specs.SectionMaps.{AreExtents};

    ghost Value = { List (List ℕ × MapView) };

    ghost view = { λ m. m.maps.now };

    ghost invariant = { λ m. AreExtents m.maps.now m.by_section };
}

/// Enters a map of a section, unless the section has one.
fn enter<'a>(
    by_section: &mut BTreeMap<usize, MapExtent<'a>>,
    section: usize,
    extent: MapExtent<'a>,
) -> Result<(), AllocError>
    ensures { OnOk result (Enters by_section.old by_section.new section extent.entry) }
{
    by_section.entry(section)?.or_insert(extent);
    Ok(())
}

impl<'m, 'a> SectionMaps<'m, 'a> {
    /// The maps of the sections that `maps` are made of.
    pub(crate) fn new(alloc: Global, maps: &'m Maps<'a>) -> Result<SectionMaps<'m, 'a>, AllocError>
        ensures value { IfOk result (λ found. found ≡ maps.now) }
        ensures rising { OnOk result
            (IsStrictlySortedBy (slice_cmp nat_cmp) (map (λ e. e.0) maps.now)) }
    {
        let mut by_section = BTreeMap::new(alloc);
        for (name, map) in maps.iter() {
            let extent = MapExtent {
                name: *name,
                size: map.data().len(),
            };
            enter(&mut by_section, map.section_index(), extent)?;
        }
        Ok(SectionMaps { maps, by_section })
    }

    /// The map of the section with this index, if there is an index.
    pub(crate) fn of_section(&self, index: Option<usize>) -> Option<&MapExtent<'a>>
        ensures { option_copied result ≡ option_map extent_of (map_of self.now index) }
    {
        self.by_section.get(&index?)
    }
}
