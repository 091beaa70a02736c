//! The words that define a map.

ghost use Rattle.std.specs.Prelude.{◌≡◌};
ghost use Rattle.plan_lines.specs.Lines.{numbers_of, pinning_number};

use ebpf_items::PinningType;

/// The words that define a map, sizes in bytes.
#[derive(Clone, Copy, Debug, PartialEq, Eq)]
pub struct MapWords {
    /// The kernel's number of the map's type.
    pub map_type: u32,
    pub key_size: u32,
    pub value_size: u32,
    pub max_entries: u32,
    pub map_flags: u32,
    /// The per-type extra word: 0 for a map that types don't define.
    pub map_extra: u64,
    pub pinning: PinningType,
    /// The id in the map's definition: 0 for a map that types define.
    pub id: u32,
    /// The type of keys, by its id in the plan's types: 0 for none.
    pub btf_key_type_id: u32,
    /// The type of values, by its id in the plan's types: 0 for none.
    pub btf_value_type_id: u32,
}

fn pinning_number(pinning: PinningType) -> u64
    ensures { result ≡ pinning_number pinning }
{
    pinning as u64
}

/// The numbers that define a map, in the order of a line.
pub fn numbers_of(words: MapWords) -> [u64; 10]
    ensures { result ≡ numbers_of words }
{
    [
        u64::from(words.map_type),
        u64::from(words.key_size),
        u64::from(words.value_size),
        u64::from(words.max_entries),
        u64::from(words.map_flags),
        words.map_extra,
        pinning_number(words.pinning),
        u64::from(words.id),
        u64::from(words.btf_key_type_id),
        u64::from(words.btf_value_type_id),
    ]
}
