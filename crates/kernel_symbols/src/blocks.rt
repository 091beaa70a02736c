//! Blocks of bytes that are ASCII and no white space.

ghost use Rattle.std.specs.Prelude.{◌≡◌, ◌+◌, ◌≤◌, length};
ghost use Rattle.kernel_symbols.specs.Words.{ArePlain, first_set};

use std::simd::prelude::*;

/// The number of bytes that are compared in one step.
pub(crate) const BLOCK: usize = 16;

/// The index of the lowest bit that is set; 16 where none is.
#[inline(always)]
fn first_set(mask: u64) -> usize
    ensures { result ≡ first_set mask }
{
    if mask == 0 {
        BLOCK
    } else {
        mask.trailing_zeros() as usize
    }
}

/// The number of bytes in a block before the first that isn't ASCII or isn't above SPACE.
#[inline(always)]
pub(crate) fn plain_in_block(bytes: &[u8], at: usize) -> usize
    requires { at + BLOCK ≤ length bytes.now }
    ensures within { result ≤ BLOCK }
    ensures plain { ArePlain bytes.now at (at + result) }
{
    let above_space = u8x16::from_slice(&bytes[at..]) - u8x16::splat(b' ' + 1);
    let stops = above_space.simd_ge(u8x16::splat(0x80 - b' ' - 1));
    first_set(stops.to_bitmask())
}

/// The number of plain bytes at the front, by the last 16 bytes. The first `len` bytes, which reach
/// into these, are plain. For fewer than 16 bytes, `len`.
#[tactic(auto, using(crate::proofs::WordLemmas::plain_last))]
fn plain_to_last_block(bytes: &[u8], len: usize) -> usize
    requires within { len ≤ length bytes.now }
    requires near { length bytes.now ≤ len + BLOCK }
    requires plain { ArePlain bytes.now 0 len }
    ensures within { result ≤ length bytes.now }
    ensures plain { ArePlain bytes.now 0 result }
{
    if bytes.len() < BLOCK {
        return len;
    }
    let last = bytes.len() - BLOCK;
    last + plain_in_block(bytes, last)
}

/// The number of plain bytes at the front, found block by block. The last block may overlap the one
/// before it. For fewer than 16 bytes, 0.
pub(crate) fn plain_blocks(bytes: &[u8]) -> usize
    ensures within { result ≤ length bytes.now }
    ensures plain { ArePlain bytes.now 0 result }
{
    let mut len = 0;
    while bytes.len() - len >= BLOCK {
        let run = plain_in_block(bytes, len);
        len += run;
        if run < BLOCK {
            return len;
        }
    }
    plain_to_last_block(bytes, len)
}
