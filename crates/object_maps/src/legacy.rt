//! Maps of a section `maps`.

ghost use Rattle.std.specs.Prelude.{◌≡◌, ◌+◌, ◌<◌, ◌≤◌, ◌^◌, get_or};
ghost use Rattle.std.specs.Option.{option_map};
ghost use Rattle.ebpf_items.specs.Maps.{legacy_words};
ghost use Rattle.object_maps.specs.LegacyWords.{legacy_map_words, word_in};

use ebpf_items::{PinningType, bpf_map_def};

/// The least size of a definition in bytes.
const LEAST_SIZE: usize = 20;

fn byte(bytes: &[u8], at: usize) -> u8
    ensures { result ≡ get_or bytes.now at 0 }
{
    bytes.get(at).copied().unwrap_or(0)
}

/// The little-endian word at an index; missing bytes are 0.
fn word(bytes: &[u8], index: usize) -> u32
    requires { index < 2 ^ 16 }
    ensures { result ≡ word_in bytes.now index }
{
    let at = 4 * index;
    let four = [
        byte(bytes, at),
        byte(bytes, at + 1),
        byte(bytes, at + 2),
        byte(bytes, at + 3),
    ];
    u32::from_le_bytes(four)
}

/// The words of a map, in a symbol's bytes in a section `maps`; none where there are fewer than 20
/// bytes.
pub fn legacy_map_def(bytes: &[u8]) -> Option<bpf_map_def>
    ensures { option_map legacy_words result ≡ legacy_map_words bytes.now }
{
    if bytes.len() < LEAST_SIZE {
        return None;
    }
    Some(bpf_map_def {
        map_type: word(bytes, 0),
        key_size: word(bytes, 1),
        value_size: word(bytes, 2),
        max_entries: word(bytes, 3),
        map_flags: word(bytes, 4),
        id: word(bytes, 5),
        pinning: PinningType::of_number(word(bytes, 6)),
    })
}
