//! The maps of a plan.

ghost use Rattle.std.specs.Prelude.{◌≡◌, ◌<◌, ◌^◌, [], ◌∷◌, ◌++◌, map, IfOk, IfSome, OnOk};
ghost use Rattle.std.specs.List.{All};
ghost use Rattle.std.specs.Option.{option_map};
ghost use Rattle.ebpf_items.specs.Maps.{map_view};
ghost use Rattle.load_plan.specs.PlanMaps.{is_typed, plan_map, plan_map_of, plan_words};
ghost use Rattle.plan_text.specs.Content.{map_names, AreRising, IsSoundMap};
ghost use Rattle.plan_lines.specs.Lines.{AreWordsOf};

use crate::numbered::number_of;
use ebpf_items::Map;
use object_maps::Maps;
use plan_text::{MapWords, PlanMap};
use settings::Settings;
use std::alloc::{AllocError, Global};

/// Whether types define a map.
fn is_typed(map: &Map) -> bool
    ensures { result ≡ is_typed map.now }
{
    match map {
        Map::Legacy(_) => false,
        Map::Btf(_) => true,
    }
}

/// The words of a map.
#[tactic(auto, using(crate::proofs::SoundMaps::words_sound))]
fn words_of(map: &Map) -> MapWords
    ensures value { result ≡ plan_words (map_view map.now).words }
    ensures sound { AreWordsOf (is_typed map.now) result }
{
    let (id, btf_key_type_id, btf_value_type_id) = match map {
        Map::Legacy(map) => (map.def.id, 0, 0),
        Map::Btf(map) => (0, map.def.btf_key_type_id, map.def.btf_value_type_id),
    };
    MapWords {
        map_type: map.map_type(),
        key_size: map.key_size(),
        value_size: map.value_size(),
        max_entries: map.max_entries(),
        map_flags: map.map_flags(),
        map_extra: map.map_extra(),
        pinning: map.pinning(),
        id,
        btf_key_type_id,
        btf_value_type_id,
    }
}

/// The words of the maps that a map holds.
fn inner_words_of(map: &Map) -> Option<MapWords>
    ensures value { result ≡ option_map plan_words (map_view map.now).inner }
    ensures sound { IfSome result (AreWordsOf (is_typed map.now)) }
{
    match map.inner() {
        Some(inner) => Some(words_of(&inner)),
        None => None,
    }
}

/// A map with a name and a number, and a copy of its bytes.
fn plan_map<'a>(
    alloc: Global,
    name: &'a str,
    number: u32,
    map: &Map,
) -> Result<PlanMap<'a>, AllocError>
    requires { number < 2 ^ 31 }
    ensures value { IfOk result (λ m. m ≡ plan_map_of name.now number (map_view map.now)) }
    ensures sound { IfOk result IsSoundMap }
{
    let words = words_of(map);
    let inner = inner_words_of(map);
    let contents = Vec::from_slice(alloc, map.data())?;
    Ok(PlanMap::new(name, number, is_typed(map), words, contents, inner))
}

/// Appends a map to maps that satisfy a plan's limits.
#[tactic(auto, using(crate::proofs::SoundMaps::with_sound))]
fn push_map<'a>(list: &mut Vec<PlanMap<'a>>, map: PlanMap<'a>) -> Result<(), AllocError>
    requires map { IsSoundMap map }
    requires list { All IsSoundMap list.old.items }
    ensures ok { OnOk result (list.new.items ≡ list.old.items ++ map.entry ∷ []) }
    ensures sound { OnOk result (All IsSoundMap list.new.items) }
{
    list.push(map)?;
    Ok(())
}

/// The maps of a plan, names rising by bytes, with the numbers that are set for them. A map for
/// which none is set has 0. Their bytes are copied.
pub fn plan_maps<'a>(
    alloc: Global,
    maps: &Maps<'a>,
    settings: &Settings,
) -> Result<Vec<PlanMap<'a>>, AllocError>
    ensures value { IfOk result (λ list. list.items ≡ map (plan_map settings.now) maps.now) }
    ensures sound { IfOk result (λ list. All IsSoundMap list.items) }
    ensures rising { IfOk result (λ list. AreRising (map_names list.items)) }
{
    let mut list = Vec::with_capacity(alloc, maps.len())?;
    for (name, map) in maps.iter() {
        let number = number_of(settings, name);
        push_map(&mut list, plan_map(alloc, name, number, map)?)?;
    }
    Ok(list)
}
