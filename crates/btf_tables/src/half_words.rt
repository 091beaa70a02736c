//! Words of 16 bits in a byte order.

ghost use Rattle.std.specs.Prelude.{◌≡◌, ◌++◌, ◌+◌, ◌≤◌, length, OnOk, OnErr};
ghost use Rattle.btf_tables.specs.HalfWords.{half_at, half_bytes};

use btf_records::Endianness;
use std::alloc::AllocError;

/// The half word in the two bytes at an offset.
#[tactic(auto, unfolding(crate::specs::HalfWords::half_at))]
pub(crate) fn half_word(order: Endianness, bytes: &[u8], offset: usize) -> u16
    requires { offset + 2 ≤ length bytes.now }
    ensures { result ≡ half_at order bytes.now offset }
{
    let rest = &bytes[offset..];
    let two = [rest[0], rest[1]];
    match order {
        Endianness::Little => u16::from_le_bytes(two),
        Endianness::Big => u16::from_be_bytes(two),
    }
}

/// Appends a half word.
#[tactic(auto, unfolding(crate::specs::HalfWords::half_bytes))]
pub(crate) fn push_half_word(
    out: &mut Vec<u8>,
    order: Endianness,
    half: u16,
) -> Result<(), AllocError>
    ensures ok { OnOk result (out.new.items ≡ out.old.items ++ half_bytes order half) }
    ensures err { OnErr result (out.new.items ≡ out.old.items) }
{
    match order {
        Endianness::Little => out.extend_from_slice(&half.to_le_bytes()),
        Endianness::Big => out.extend_from_slice(&half.to_be_bytes()),
    }
}
