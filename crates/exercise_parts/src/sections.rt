//! Sections from the words of their records.

use crate::record_words::push_words;
use btf_records::Endianness;
use std::alloc::{AllocError, Global};

/// The bytes of a section's header.
const HEADER: u32 = 24;

/// A length as a word; the greatest word where the length is too long.
fn length_word(len: usize) -> u32 {
    u32::try_from(len).unwrap_or(u32::MAX)
}

/// The section with records of these words, and with `strings` followed by more strings. It holds
/// no table where it is too long for the words of its header.
pub fn section(
    alloc: Global,
    order: Endianness,
    words: &[u32],
    strings: &[u8],
    added: &[u8],
) -> Result<Vec<u8>, AllocError> {
    let mut out = Vec::new(alloc);
    match order {
        Endianness::Little => out.extend_from_slice(&[0x9f, 0xeb, 1, 0])?,
        Endianness::Big => out.extend_from_slice(&[0xeb, 0x9f, 1, 0])?,
    }
    let types_len = length_word(words.len().saturating_mul(4));
    let strings_len = length_word(strings.len().saturating_add(added.len()));
    let header = [HEADER, 0, types_len, types_len, strings_len];
    push_words(&mut out, order, &header)?;
    push_words(&mut out, order, words)?;
    out.extend_from_slice(strings)?;
    out.extend_from_slice(added)?;
    Ok(out)
}
