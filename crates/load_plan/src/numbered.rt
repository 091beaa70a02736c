//! The numbers of maps.

ghost use Rattle.std.specs.Prelude.{◌≡◌, ◌<◌, ◌^◌, is_none, map, pos, true, IfOk, IfSome};
ghost use Rattle.load_plan.specs.Numbers.{are_numbered, is_unnumbered, lacks_number, number_of, numbered, set_number};
ghost use Rattle.ebpf_items.specs.Maps.{MapView};

use object_maps::Maps;
use settings::Settings;
use slot_relocation::NumberedMap;
use std::alloc::{AllocError, Global};

/// The number that is set for a map; 0 where none is.
pub(crate) fn number_of(settings: &Settings, name: &str) -> u32
    ensures value { result ≡ number_of settings.now name.now }
    ensures small { result < 2 ^ 31 }
{
    settings.map_number(name).unwrap_or(0)
}

/// Whether no number is set for a map.
#[tactic(auto, unfolding(crate::specs::Numbers::is_unnumbered))]
fn is_unnumbered(settings: &Settings, name: &str) -> bool
    ensures value { result ≡ is_none (set_number settings.now name.now) }
    ensures named { (map : MapView)
        → result ≡ true
        → is_unnumbered settings.now name.now (name.now, map) ≡ true }
{
    settings.map_number(name).is_none()
}

/// The name of the first map for which no number is set. Takes no memory.
pub fn unnumbered_map<'a>(maps: &Maps<'a>, settings: &Settings) -> Option<&'a str>
    ensures none { is_none result ≡ are_numbered settings.now maps.now }
    ensures lacks { IfSome result (λ name. lacks_number settings.now maps.now name.now ≡ true) }
{
    for (name, _) in maps.iter() {
        if is_unnumbered(settings, name) {
            return Some(*name);
        }
    }
    None
}

/// The maps with their names and the numbers that are set for them, names rising by bytes. A map
/// for which none is set has 0.
pub fn numbered_maps<'m>(
    alloc: Global,
    maps: &'m Maps<'_>,
    settings: &Settings,
) -> Result<Vec<NumberedMap<'m>>, AllocError>
    ensures { IfOk result (λ list. list.items ≡ map (numbered settings.now) maps.now) }
{
    let mut list = Vec::with_capacity(alloc, maps.len())?;
    for (name, map) in maps.iter() {
        let number = number_of(settings, name) as i32;
        list.push(NumberedMap { name, number, map })?;
    }
    Ok(list)
}
