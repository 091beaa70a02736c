//! Words between white space.

ghost use Rattle.std.specs.Prelude.{◌≡◌, ◌==◌, ◌∷◌, ◌≤◌, ◌<◌, [], false, true, length, drop, take, slice_index, IfSome, MatchOption};
ghost use Rattle.kernel_symbols.specs.Words.{ArePlain, EndsWord, IsPlain, ends_general_space, first_and_third, is_ascii_space, is_general_space, is_latin_space, is_plain, is_wide_space, space_len, word_bytes, words_of};

use crate::blocks::{BLOCK, plain_blocks, plain_in_block};

/// Whether a byte is ASCII and greater than SPACE.
fn is_plain(a: u8) -> bool
    ensures { result ≡ is_plain a }
{
    b' ' < a && a < 0x80
}

/// The length in bytes of the white space character that the bytes begin with; 0 where they begin
/// with none.
#[tactic(auto, unfolding(crate::specs::Words::space_len))]
#[inline(always)]
fn space_len(bytes: &[u8]) -> usize
    ensures { result ≡ space_len bytes.now }
{
    match bytes {
        [9..=13 | b' ', ..] => 1,
        [0xc2, 0x85 | 0xa0, ..] => 2,
        [0xe1, 0x9a, 0x80, ..] => 3,
        [0xe2, 0x80, 0x80..=0x8a | 0xa8 | 0xa9 | 0xaf, ..] => 3,
        [0xe2, 0x81, 0x9f, ..] => 3,
        [0xe3, 0x80, 0x80, ..] => 3,
        _ => 0,
    }
}

/// The bytes after the first `count`.
pub(crate) fn after(bytes: &[u8], count: usize) -> &[u8]
    ensures { result.now ≡ drop count bytes.now }
{
    if count < bytes.len() {
        &bytes[count..]
    } else {
        &[]
    }
}

/// The bytes after the white space at the front.
#[tactic(auto, using(crate::proofs::WordLemmas::words_past))]
fn skip_spaces(bytes: &[u8]) -> &[u8]
    ensures words { words_of result.now ≡ words_of bytes.now }
    ensures front { 0 < length result.now → space_len result.now ≡ 0 }
{
    let mut rest = bytes;
    while !rest.is_empty() {
        let len = space_len(rest);
        if len == 0 {
            return rest;
        }
        rest = after(rest, len);
    }
    rest
}

/// The number of plain bytes at the front.
fn plain_len(bytes: &[u8]) -> usize
    ensures within { result ≤ length bytes.now }
    ensures plain { ArePlain bytes.now 0 result }
{
    let mut len = plain_blocks(bytes);
    while len < bytes.len() && is_plain(bytes[len]) {
        len += 1;
    }
    len
}

/// The number of bytes before the first white space.
fn word_len(bytes: &[u8]) -> usize
    ensures within { result ≤ length bytes.now }
    ensures plain { IsPlain result bytes.now }
    ensures ends { EndsWord (drop result bytes.now) }
{
    let mut len = plain_len(bytes);
    while len < bytes.len() && space_len(&bytes[len..]) == 0 {
        len += 1;
    }
    len
}

/// The first word, and the bytes after it.
#[tactic(auto, using(crate::proofs::WordLemmas::no_words, crate::proofs::WordLemmas::words_split))]
fn next_word(bytes: &[u8]) -> Option<(&[u8], &[u8])>
    ensures { MatchOption result (words_of bytes.now ≡ []) (λ split.
        words_of bytes.now ≡ split.0.now ∷ words_of split.1.now) }
{
    let bytes = skip_spaces(bytes);
    if bytes.is_empty() {
        return None;
    }
    Some(bytes.split_at(word_len(bytes)))
}

/// The number of bytes before the name in a line of /proc/kallsyms: an address of 16 digits, a
/// blank, a letter and a blank.
const COLUMNS: usize = 19;

/// The first word of a line whose first three words begin as in /proc/kallsyms, and the bytes from
/// the third word on.
#[tactic(auto, using(crate::proofs::WordLemmas::column_words))]
fn columns(line: &[u8]) -> Option<(&[u8], &[u8])>
    ensures { IfSome result (λ split.
        words_of line.now ≡ split.0.now ∷ take 1 (drop 17 line.now) ∷ words_of split.1.now) }
{
    if line.len() < COLUMNS || plain_in_block(line, 0) < BLOCK {
        return None;
    }
    if line[16] != b' ' || !is_plain(line[17]) || line[18] != b' ' {
        return None;
    }
    Some((&line[..16], after(line, COLUMNS)))
}

/// The first and the third word, if there are three.
pub(crate) fn first_and_third(line: &[u8]) -> Option<(&[u8], &[u8])>
    ensures { word_bytes result ≡ first_and_third (words_of line.now) }
{
    if let Some((first, rest)) = columns(line) {
        let (third, _rest) = next_word(rest)?;
        return Some((first, third));
    }
    let (first, rest) = next_word(line)?;
    let (_second, rest) = next_word(rest)?;
    let (third, _rest) = next_word(rest)?;
    Some((first, third))
}
