//! Maps that the kernel tells of, and changes of maps.

ghost use Rattle.std.specs.Prelude.{◌≡◌, take};
ghost use Rattle.ebpf_items.specs.Maps.{map_view};

use ebpf_items::{
    BtfMap, BtfMapDef, EbpfSectionKind, LegacyMap, Map, PinningType, bpf_map_def, bpf_map_info,
    bpf_map_type, parse_map_info,
};
use std::alloc::Global;
use std::process::Abort;

// The kernel's description of a map, with the ids of the types of its keys and values.
fn told(key: u32, value: u32) -> bpf_map_info {
    bpf_map_info {
        type_: 1,
        id: 7,
        key_size: 4,
        value_size: 8,
        max_entries: 16,
        map_flags: 128,
        map_extra: 5,
        btf_key_type_id: key,
        btf_value_type_id: value,
    }
}

// Type, sizes of keys and values, entries, flags and the extra word.
fn words(map: &Map) -> (u32, u32, u32, u32, u32, u64) {
    (
        map.map_type(),
        map.key_size(),
        map.value_size(),
        map.max_entries(),
        map.map_flags(),
        map.map_extra(),
    )
}

// Pinning, the section's index and kind, and the symbol.
fn place(map: &Map) -> (PinningType, usize, EbpfSectionKind, Option<usize>) {
    (
        map.pinning(),
        map.section_index(),
        map.section_kind(),
        map.symbol_index(),
    )
}

#[test]
fn reads_what_the_kernel_tells_of_maps_without_types(rt: HostRuntime) {
    for (key, value) in [(0, 0), (3, 0)] {
        let map = parse_map_info(rt.alloc(), told(key, value), PinningType::ByName);
        check_plain_map(&rt, &map);
    }
}

fn check_plain_map(rt: &impl Abort, map: &Map) {
    assert!(rt; matches!(map, Map::Legacy(_)));
    assert!(rt; words(map) == (1, 4, 8, 16, 128, 0));
    let kind = EbpfSectionKind::Undefined;
    assert!(rt; place(map) == (PinningType::ByName, 0, kind, None));
}

#[test]
fn reads_what_the_kernel_tells_of_a_map_with_types(rt: HostRuntime) {
    let map = parse_map_info(rt.alloc(), told(0, 3), PinningType::ByName);
    assert!(rt; matches!(map, Map::Btf(_)));
    assert!(rt; words(&map) == (1, 4, 8, 16, 128, 5));
    let kind = EbpfSectionKind::BtfMaps;
    assert!(rt; place(&map) == (PinningType::ByName, 0, kind, Some(0)));
}

// The ids of the types of keys and values.
fn type_ids(map: &Map) -> Option<(u32, u32)> {
    match map {
        Map::Legacy(_) => None,
        Map::Btf(typed) => Some((typed.def.btf_key_type_id, typed.def.btf_value_type_id)),
    }
}

#[test]
fn reads_what_the_kernel_tells_of_a_map_without_keys(rt: HostRuntime) {
    let info = bpf_map_info {
        type_: bpf_map_type::BPF_MAP_TYPE_BLOOM_FILTER.number(),
        id: 0,
        key_size: 0,
        value_size: 4,
        max_entries: 64,
        map_flags: 0,
        map_extra: 3,
        btf_key_type_id: 0,
        btf_value_type_id: 7,
    };
    let map = parse_map_info(rt.alloc(), info, PinningType::None);
    assert!(rt; words(&map) == (30, 0, 4, 64, 0, 3));
    assert!(rt; type_ids(&map) == Some((0, 7)));
}

// Keeps the first `count` bytes of a map.
fn shorten(map: &mut Map, count: usize)
    ensures { map_view map.new
        ≡ record (map_view map.old) { contents = take count (map_view map.old).contents } }
{
    map.data_mut().truncate(count);
}

// A map of constants that holds maps.
fn map_of_constants(contents: Vec<u8>) -> Map {
    Map::Legacy(LegacyMap {
        def: bpf_map_def::default(),
        inner_def: Some(bpf_map_def::default()),
        section_index: 3,
        section_kind: EbpfSectionKind::Rodata,
        symbol_index: Some(1),
        contents,
    })
}

// A map of maps that types define.
fn map_of_types(alloc: Global) -> Map {
    let words = BtfMapDef::default();
    Map::Btf(BtfMap::new(alloc, words, Some(words), 3, 1))
}

// Changes a map, and checks that a copy of it is unchanged.
fn check_changes(rt: &impl Abort, map: &mut Map) {
    let copy = map.try_clone().expect(rt, "memory");
    map.set_value_size(24);
    map.set_max_entries(2);
    shorten(map, 3);
    assert!(rt; words(map) == (0, 0, 24, 2, 0, 0));
    assert!(rt; map.data() == [1, 2, 3].as_slice());
    check_outer(rt, &copy);
}

// Checks that a map is as it was made, and that the one it holds is too.
fn check_outer(rt: &impl Abort, map: &Map) {
    assert!(rt; words(map) == (0, 0, 0, 0, 0, 0));
    assert!(rt; map.data().len() > 3);
    assert!(rt; (map.section_index(), map.symbol_index()) == (3, Some(1)));
    let inner = map.inner().expect(rt, "an inner map");
    assert!(rt; (inner.section_index(), inner.data().len()) == (0, 0));
    assert!(rt; inner.inner().is_none());
}

#[test]
fn changes_maps(rt: HostRuntime) {
    let bytes = [1, 2, 3, 4, 5, 6, 7, 8];
    let contents = Vec::from_slice(rt.alloc(), &bytes).expect(&rt, "memory");
    check_changes(&rt, &mut map_of_constants(contents));
    let mut typed = map_of_types(rt.alloc());
    assert!(rt; typed.data_mut().extend_from_slice(&bytes[..4]).is_ok());
    check_changes(&rt, &mut typed);
}
