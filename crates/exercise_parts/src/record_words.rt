//! Words of records in a byte order.

use btf_records::Endianness;
use std::alloc::AllocError;

/// The byte orders.
pub const ORDERS: [Endianness; 2] = [Endianness::Little, Endianness::Big];

/// Writes a word.
fn push_word(out: &mut Vec<u8>, order: Endianness, word: u32) -> Result<(), AllocError> {
    match order {
        Endianness::Little => out.extend_from_slice(&word.to_le_bytes()),
        Endianness::Big => out.extend_from_slice(&word.to_be_bytes()),
    }
}

/// Appends words.
pub fn push_words(out: &mut Vec<u8>, order: Endianness, words: &[u32]) -> Result<(), AllocError> {
    for word in words {
        push_word(out, order, *word)?;
    }
    Ok(())
}
