//! Maps of an object.

ghost use Rattle.std.specs.Prelude.{◌≡◌, true, false, IfOk, IfErr};
ghost use Rattle.std.specs.Option.{option_map};
ghost use Rattle.std.specs.Result.{result_ok};
ghost use Rattle.std.specs.Borrow.{sem};
ghost use Rattle.ebpf_items.specs.LentContents.{LendsContents};
ghost use Rattle.ebpf_items.specs.Maps.{map_view, with_value_size, with_max_entries, zero_map_def, zero_btf_map_def, inner_view, bare_view, view_of_info, pinning_of, pinning_or_none, legacy_words, btf_words, btf_map_view, with_word};

use section_kinds::EbpfSectionKind;
use std::alloc::{AllocError, Global};
use thiserror::Error;

/// Whether a map is pinned, that is, has a path in the BPF file system.
#[derive(Clone, Copy, Debug, PartialEq, Eq)]
pub enum PinningType {
    /// The map isn't pinned.
    None = 0,
    /// The map is pinned under its own name.
    ByName = 1,
}

/// Not pinned.
impl Default for PinningType {
    ghost use Rattle.ebpf_items.specs.declared.maps.PinningType.TheVariants as pinning;

    ghost is_default = { λ p. p ≡ pinning.None };

    fn default() -> PinningType {
        PinningType::None
    }
}

/// The error of a number that is no pinning type.
#[derive(Debug, Drop, Error)]
pub enum PinningError {
    #[error("unsupported pinning type {pinning_type}")]
    Unsupported { pinning_type: u32 },
}

impl TryFrom<u32> for PinningType {
    type Error = PinningError;

    ghost use Rattle.ebpf_items.specs.declared.maps.PinningError.TheVariants.{Unsupported};

    ghost try_from_gives = { λ value r.
        (result_ok r ≡ pinning_of value) × IfErr r (λ e. e ≡ Unsupported value) };

    fn try_from(value: u32) -> Result<PinningType, PinningError> {
        match value {
            0 => Ok(PinningType::None),
            1 => Ok(PinningType::ByName),
            pinning_type => Err(PinningError::Unsupported { pinning_type }),
        }
    }
}

impl PinningType {
    /// The pinning type of a number in a map's definition; not pinned for an unknown number.
    pub fn of_number(value: u32) -> PinningType
        ensures { result ≡ pinning_or_none value }
    {
        PinningType::try_from(value).unwrap_or_default()
    }
}

/// The words that define a map of a section `maps`. Sizes are in bytes.
#[derive(Clone, Copy, Debug, PartialEq, Eq)]
pub struct bpf_map_def {
    pub map_type: u32,
    pub key_size: u32,
    pub value_size: u32,
    pub max_entries: u32,
    pub map_flags: u32,
    pub id: u32,
    pub pinning: PinningType,
}

/// Zeros, and no pinning.
impl Default for bpf_map_def {
    ghost is_default = { λ def. def ≡ zero_map_def };

    fn default() -> bpf_map_def {
        bpf_map_def {
            map_type: 0,
            key_size: 0,
            value_size: 0,
            max_entries: 0,
            map_flags: 0,
            id: 0,
            pinning: PinningType::default(),
        }
    }
}

/// The words that define a map of a section `.maps`. Sizes are in bytes. The ids are those of types
/// in the object's table; 0 means none.
#[derive(Clone, Copy, Debug, PartialEq, Eq)]
pub struct BtfMapDef {
    pub(crate) map_type: u32,
    pub(crate) key_size: u32,
    pub(crate) value_size: u32,
    pub(crate) max_entries: u32,
    pub(crate) map_flags: u32,
    pub(crate) map_extra: u64,
    pub(crate) pinning: PinningType,
    /// The type of keys.
    pub btf_key_type_id: u32,
    /// The type of values.
    pub btf_value_type_id: u32,
}

/// Zeros, and no pinning.
impl Default for BtfMapDef {
    ghost is_default = { λ def. def ≡ zero_btf_map_def };

    fn default() -> BtfMapDef {
        BtfMapDef {
            map_type: 0,
            key_size: 0,
            value_size: 0,
            max_entries: 0,
            map_flags: 0,
            map_extra: 0,
            pinning: PinningType::default(),
            btf_key_type_id: 0,
            btf_value_type_id: 0,
        }
    }
}

/// A word of a map's definition that is set to a number.
#[derive(Clone, Copy, Debug, PartialEq, Eq)]
pub enum MapWord {
    MapType,
    /// The size of a key, in bytes.
    KeySize,
    /// The size of a value, in bytes.
    ValueSize,
    MaxEntries,
    MapFlags,
    /// The per-type extra word.
    MapExtra,
    /// 1 means pinned by name, any other number not pinned.
    Pinning,
}

impl BtfMapDef {
    /// Sets one of its words.
    pub fn set_word(&mut self, word: MapWord, value: u32)
        ensures { btf_words self.new ≡ with_word word value (btf_words self.old) }
    {
        match word {
            MapWord::MapType => self.map_type = value,
            MapWord::KeySize => self.key_size = value,
            MapWord::ValueSize => self.value_size = value,
            MapWord::MaxEntries => self.max_entries = value,
            MapWord::MapFlags => self.map_flags = value,
            MapWord::MapExtra => self.map_extra = u64::from(value),
            MapWord::Pinning => self.pinning = PinningType::of_number(value),
        }
    }
}

/// The kernel's description of a map: nine fields of `struct bpf_map_info` of its `bpf.h`.
#[derive(Clone, Copy, Debug)]
pub struct bpf_map_info {
    pub type_: u32,
    pub id: u32,
    pub key_size: u32,
    pub value_size: u32,
    pub max_entries: u32,
    pub map_flags: u32,
    pub map_extra: u64,
    pub btf_key_type_id: u32,
    pub btf_value_type_id: u32,
}

/// A map that is defined by words, or a section's variables.
#[derive(Debug, Drop)]
pub struct LegacyMap {
    pub def: bpf_map_def,
    /// The words of the maps that are its values, if any.
    pub inner_def: Option<bpf_map_def>,
    pub section_index: usize,
    pub section_kind: EbpfSectionKind,
    /// The index of its symbol. A section's variables have none.
    pub symbol_index: Option<usize>,
    /// The bytes of the variables.
    pub contents: Vec<u8>,
}

/// A map that is defined by types.
#[derive(Debug, Drop)]
pub struct BtfMap {
    pub def: BtfMapDef,
    /// The words of the maps that are its values, if any.
    pub(crate) inner_def: Option<BtfMapDef>,
    pub(crate) section_index: usize,
    pub(crate) symbol_index: usize,
    pub(crate) contents: Vec<u8>,
}

impl BtfMap {
    /// A map without bytes, by its words and those of the maps that are its values.
    pub fn new(
        alloc: Global,
        def: BtfMapDef,
        inner_def: Option<BtfMapDef>,
        section_index: usize,
        symbol_index: usize,
    ) -> BtfMap
        ensures { map_view (Map.Btf result)
            ≡ btf_map_view (btf_words def) (option_map btf_words inner_def) section_index
            symbol_index }
    {
        BtfMap {
            def,
            inner_def,
            section_index,
            symbol_index,
            contents: Vec::new(alloc),
        }
    }
}

/// A map of an object, defined in one of libbpf's two ways.
#[derive(Debug, Drop)]
pub enum Map {
    /// A map of a section `maps`, or a section's variables.
    Legacy(LegacyMap),
    /// A map of a section `.maps`.
    Btf(BtfMap),
}

impl Map {
    /// A map with these words, and without a section.
    pub fn new_from_params(
        alloc: Global,
        map_type: u32,
        key_size: u32,
        value_size: u32,
        max_entries: u32,
        flags: u32,
    ) -> Map
        ensures { map_view result
            ≡ bare_view false
            (record {
              map_type = map_type;
              key_size = key_size;
              value_size = value_size;
              max_entries = max_entries;
              map_flags = flags;
              map_extra = 0;
              pinning = PinningType.None;
              id = 0;
              btf_key_type_id = 0;
              btf_value_type_id = 0;
            }) }
    {
        let def = bpf_map_def {
            map_type,
            key_size,
            value_size,
            max_entries,
            map_flags: flags,
            id: 0,
            pinning: PinningType::None,
        };
        bare_legacy(alloc, def)
    }

    pub fn map_type(&self) -> u32
        ensures { result ≡ (map_view self.now).words.map_type }
    {
        match self {
            Map::Legacy(map) => map.def.map_type,
            Map::Btf(map) => map.def.map_type,
        }
    }

    /// The size of a key, in bytes.
    pub fn key_size(&self) -> u32
        ensures { result ≡ (map_view self.now).words.key_size }
    {
        match self {
            Map::Legacy(map) => map.def.key_size,
            Map::Btf(map) => map.def.key_size,
        }
    }

    /// The size of a value, in bytes.
    pub fn value_size(&self) -> u32
        ensures { result ≡ (map_view self.now).words.value_size }
    {
        match self {
            Map::Legacy(map) => map.def.value_size,
            Map::Btf(map) => map.def.value_size,
        }
    }

    pub fn set_value_size(&mut self, size: u32)
        ensures { map_view self.new ≡ with_value_size (map_view self.old) size }
    {
        match self {
            Map::Legacy(map) => map.def.value_size = size,
            Map::Btf(map) => map.def.value_size = size,
        }
    }

    pub fn max_entries(&self) -> u32
        ensures { result ≡ (map_view self.now).words.max_entries }
    {
        match self {
            Map::Legacy(map) => map.def.max_entries,
            Map::Btf(map) => map.def.max_entries,
        }
    }

    pub fn set_max_entries(&mut self, max_entries: u32)
        ensures { map_view self.new ≡ with_max_entries (map_view self.old) max_entries }
    {
        match self {
            Map::Legacy(map) => map.def.max_entries = max_entries,
            Map::Btf(map) => map.def.max_entries = max_entries,
        }
    }

    pub fn map_flags(&self) -> u32
        ensures { result ≡ (map_view self.now).words.map_flags }
    {
        match self {
            Map::Legacy(map) => map.def.map_flags,
            Map::Btf(map) => map.def.map_flags,
        }
    }

    /// The per-type extra word; a legacy map has 0.
    pub fn map_extra(&self) -> u64
        ensures { result ≡ (map_view self.now).words.map_extra }
    {
        match self {
            Map::Legacy(_) => 0,
            Map::Btf(map) => map.def.map_extra,
        }
    }

    pub fn pinning(&self) -> PinningType
        ensures { result ≡ (map_view self.now).words.pinning }
    {
        match self {
            Map::Legacy(map) => map.def.pinning,
            Map::Btf(map) => map.def.pinning,
        }
    }

    /// The bytes of the variables.
    pub fn data(&self) -> &[u8]
        ensures { result.now ≡ (map_view self.now).contents }
    {
        match self {
            Map::Legacy(map) => map.contents.as_slice(),
            Map::Btf(map) => map.contents.as_slice(),
        }
    }

    /// The bytes of the variables, mutable.
    pub fn data_mut(&mut self) -> &mut Vec<u8>
        ensures* writes_back { sem 𝓛 (LendsContents self.entry result) }
        ensures shows { result.now.items ≡ (map_view self.old).contents }
    {
        match self {
            Map::Legacy(map) => &mut map.contents,
            Map::Btf(map) => &mut map.contents,
        }
    }

    pub fn section_index(&self) -> usize
        ensures { result ≡ (map_view self.now).section_index }
    {
        match self {
            Map::Legacy(map) => map.section_index,
            Map::Btf(map) => map.section_index,
        }
    }

    pub fn section_kind(&self) -> EbpfSectionKind
        ensures { result ≡ (map_view self.now).section_kind }
    {
        match self {
            Map::Legacy(map) => map.section_kind,
            Map::Btf(_) => EbpfSectionKind::BtfMaps,
        }
    }

    /// The index of the map's symbol. A section's variables have none.
    pub fn symbol_index(&self) -> Option<usize>
        ensures { result ≡ (map_view self.now).symbol_index }
    {
        match self {
            Map::Legacy(map) => map.symbol_index,
            Map::Btf(map) => Some(map.symbol_index),
        }
    }

    /// The map that each value of this one is, if any: its words, without a section.
    pub fn inner(&self) -> Option<Map>
        ensures { option_map map_view result ≡ inner_view (map_view self.now) }
    {
        match self {
            Map::Legacy(map) => Some(bare_legacy(*map.contents.allocator(), map.inner_def?)),
            Map::Btf(map) => Some(bare_btf(*map.contents.allocator(), map.inner_def?)),
        }
    }

    /// A copy.
    pub fn try_clone(&self) -> Result<Map, AllocError>
        ensures { IfOk result (λ map. map_view map ≡ map_view self.now) }
    {
        match self {
            Map::Legacy(map) => Ok(Map::Legacy(LegacyMap {
                def: map.def,
                inner_def: map.inner_def,
                section_index: map.section_index,
                section_kind: map.section_kind,
                symbol_index: map.symbol_index,
                contents: copied(&map.contents)?,
            })),
            Map::Btf(map) => Ok(Map::Btf(BtfMap {
                def: map.def,
                inner_def: map.inner_def,
                section_index: map.section_index,
                symbol_index: map.symbol_index,
                contents: copied(&map.contents)?,
            })),
        }
    }
}

impl Clone for Map {
    ghost is_clone = { λ map copy. map_view copy ≡ map_view map };

    fn clone(&self) -> Result<Map, AllocError> {
        self.try_clone()
    }
}

fn copied(bytes: &Vec<u8>) -> Result<Vec<u8>, AllocError>
    ensures { IfOk result (λ copy. copy.items ≡ bytes.now.items) }
{
    Vec::from_slice(*bytes.allocator(), bytes)
}

fn bare_legacy(alloc: Global, def: bpf_map_def) -> Map
    ensures { map_view result ≡ bare_view false (legacy_words def) }
{
    Map::Legacy(LegacyMap {
        def,
        inner_def: None,
        section_index: 0,
        section_kind: EbpfSectionKind::Undefined,
        symbol_index: None,
        contents: Vec::new(alloc),
    })
}

fn bare_btf(alloc: Global, def: BtfMapDef) -> Map
    ensures { map_view result ≡ bare_view true (btf_words def) }
{
    Map::Btf(BtfMap {
        def,
        inner_def: None,
        section_index: 0,
        symbol_index: 0,
        contents: Vec::new(alloc),
    })
}

/// The map of the kernel's description. It is one that is defined by types exactly if it has a type
/// of values.
pub fn parse_map_info(alloc: Global, info: bpf_map_info, pinning: PinningType) -> Map
    ensures { map_view result ≡ view_of_info info pinning }
{
    if info.btf_value_type_id != 0 {
        let def = BtfMapDef {
            map_type: info.type_,
            key_size: info.key_size,
            value_size: info.value_size,
            max_entries: info.max_entries,
            map_flags: info.map_flags,
            map_extra: info.map_extra,
            pinning,
            btf_key_type_id: info.btf_key_type_id,
            btf_value_type_id: info.btf_value_type_id,
        };
        bare_btf(alloc, def)
    } else {
        let def = bpf_map_def {
            map_type: info.type_,
            key_size: info.key_size,
            value_size: info.value_size,
            max_entries: info.max_entries,
            map_flags: info.map_flags,
            id: info.id,
            pinning,
        };
        bare_legacy(alloc, def)
    }
}
