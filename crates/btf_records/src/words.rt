//! Words of 32 bits in a byte order.

ghost use Rattle.std.specs.Prelude.{◌≡◌, ◌++◌, ◌+◌, ◌≤◌, length, OnOk, OnErr};
ghost use Rattle.btf_records.specs.Words.{word_at, word_bytes};

use std::alloc::AllocError;

/// The order of the bytes of a number.
#[derive(Clone, Copy, Debug, Default, PartialEq, Eq)]
pub enum Endianness {
    /// The least significant byte first.
    #[default]
    Little,
    /// The most significant byte first.
    Big,
}

/// The word in the four bytes at an offset.
#[tactic(auto, unfolding(crate::specs::Words::word_at))]
pub fn word(order: Endianness, bytes: &[u8], offset: usize) -> u32
    requires { offset + 4 ≤ length bytes.now }
    ensures { result ≡ word_at order bytes.now offset }
{
    let rest = &bytes[offset..];
    let four = [rest[0], rest[1], rest[2], rest[3]];
    match order {
        Endianness::Little => u32::from_le_bytes(four),
        Endianness::Big => u32::from_be_bytes(four),
    }
}

/// Appends a word.
#[tactic(auto, unfolding(crate::specs::Words::word_bytes))]
pub fn push_word(out: &mut Vec<u8>, order: Endianness, word: u32) -> Result<(), AllocError>
    ensures ok { OnOk result (out.new.items ≡ out.old.items ++ word_bytes order word) }
    ensures err { OnErr result (out.new.items ≡ out.old.items) }
{
    match order {
        Endianness::Little => out.extend_from_slice(&word.to_le_bytes()),
        Endianness::Big => out.extend_from_slice(&word.to_be_bytes()),
    }
}
