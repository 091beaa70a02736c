//! Maps by name.

ghost use Rattle.std.specs.Prelude.{◌≡◌, ◌≤◌, ◌+◌, ◌↔◌, [], length, map, IfOk, IsTrue, OnErr, OnOk};
ghost use Rattle.std.specs.BTreeMap.{is_at};
ghost use Rattle.std.specs.Cmp.Lexicographic.{slice_cmp};
ghost use Rattle.std.specs.List.Sorted.{IsStrictlySortedBy};
ghost use Rattle.std.specs.Map.{lookup};
ghost use Rattle.std.specs.Option.{option_map};
ghost use Rattle.std.specs.Ordering.{nat_cmp};
ghost use Rattle.ebpf_items.specs.Maps.{map_view};
ghost use Rattle.object_maps.specs.Found.{with_map};
ghost use Rattle.object_maps.specs.Maps.{shown};
ghost use Rattle.object_maps.specs.Overwritten.{HasRange, map_overwritten, with_bytes};

use ebpf_items::Map;
use std::alloc::{AllocError, Global};
use std::collections::BTreeMap;
use std::collections::btree_map::Iter;
use std::marker::Model;

/// Overwrites the bytes of a map from offset `start` on.
fn overwrite(map: &mut Map, start: usize, bytes: &[u8])
    requires { start + length bytes.now ≤ length (map_view map.old).contents }
    ensures { map_view map.new ≡ map_overwritten start bytes.now (map_view map.old) }
{
    let contents = map.data_mut().as_mut_slice();
    contents[start..start + bytes.len()].copy_from_slice(bytes);
}

/// The maps of an object, sorted by name.
#[derive(Debug)]
pub struct Maps<'a> {
    by_name: BTreeMap<&'a str, Map>,
}

impl<'a> Drop for Maps<'a> {
    // One call wherever it is dropped, in place of one for each part.
    fn drop(self) {
        let Maps { by_name: _by_name } = self;
    }
}

impl<'a> Model for Maps<'a> {
    ghost use Rattle.std.specs.Prelude.{ℕ, List};
    ghost use Rattle.ebpf_items.specs.Maps.{MapView};
    ghost use Rattle.object_maps.specs.Maps.{shown};

    ghost Value = { List (List ℕ × MapView) };

    ghost view = { λ m. shown m.by_name.entries };
}

impl<'a> Maps<'a> {
    /// No maps.
    pub fn new(alloc: Global) -> Maps<'a>
        ensures { result ≡ [] }
    {
        Maps {
            by_name: BTreeMap::new(alloc),
        }
    }

    /// How many maps there are.
    pub fn len(&self) -> usize
        ensures { result ≡ length self.now }
    {
        self.by_name.len()
    }

    /// Whether there is no map.
    pub fn is_empty(&self) -> bool
        ensures { IsTrue result ↔ (self.now ≡ []) }
    {
        self.len() == 0
    }

    /// The map of a name.
    pub fn get(&self, name: &str) -> Option<&Map>
        ensures { option_map (λ m. map_view m.now) result
            ≡ lookup (is_at (slice_cmp nat_cmp name.now)) self.now }
    {
        self.by_name.get(name)
    }

    /// The names and their maps, sorted by name, without duplicates.
    pub fn iter(&self) -> Iter<'_, &'a str, Map>
        ensures value { shown result ≡ self.now }
        ensures rising { IsStrictlySortedBy (slice_cmp nat_cmp) (map (λ e. e.0) self.now) }
    {
        self.by_name.iter()
    }

    /// Adds a map; it replaces an earlier one of the same name.
    pub(crate) fn insert(&mut self, name: &'a str, map: Map) -> Result<(), AllocError>
        ensures ok { OnOk result (self.new ≡ with_map self.old (name.now, map_view map)) }
        ensures err { OnErr result (self.new ≡ self.old) }
    {
        self.by_name.insert(name, map)?;
        Ok(())
    }

    /// Overwrites the bytes of the map of a name from offset `start` on. The map exists, and its
    /// bytes reach as far.
    pub fn overwrite(&mut self, name: &str, start: usize, bytes: &[u8])
        requires { HasRange self.old name.now start (length bytes.now) }
        ensures { self.new ≡ with_bytes self.old name.now start bytes.now }
    {
        if let Some(map) = self.by_name.get_mut(name) {
            overwrite(map, start, bytes);
        }
    }

    /// A copy of the maps.
    pub fn try_clone(&self) -> Result<Maps<'a>, AllocError>
        ensures { IfOk result (λ maps. maps ≡ self.now) }
    {
        Ok(Maps {
            by_name: self.by_name.clone()?,
        })
    }
}
