//! A text at an offset.

ghost use Rattle.std.specs.Prelude.{◌≡◌, ◌<◌, ◌==◌, ◌↔◌, [], drop, length, position, IfNone, IfSome, IsTrue, Some};
ghost use Rattle.std.specs.List.{list_any};
ghost use Rattle.std.specs.Option.{option_copied};
ghost use Rattle.string_table.specs.Texts.{before_nul, text_at, text_of};

use std::str;

/// The index of the first NUL.
fn nul_position(bytes: &[u8]) -> Option<usize>
    ensures value { result ≡ position (λ b. b == 0) bytes.now }
    ensures within { IfSome result (λ n. n < length bytes.now) }
{
    bytes.iter().position(|byte| *byte == 0)
}

/// The bytes before the first NUL.
fn before_nul(bytes: &[u8]) -> Option<&[u8]>
    ensures { option_copied result ≡ before_nul bytes.now }
{
    let len = nul_position(bytes)?;
    Some(&bytes[..len])
}

/// The bytes as text, where they are UTF-8.
fn text_of(bytes: &[u8]) -> Option<&str>
    ensures { option_copied result ≡ text_of bytes.now }
{
    match str::from_utf8(bytes) {
        Ok(text) => Some(text),
        Err(_) => None,
    }
}

/// The text at an offset of a string table: the bytes up to the next NUL, where there is one and
/// they are UTF-8. Reads each of them.
#[tactic(auto, unfolding(crate::specs::Texts::text_at))]
pub fn text_at(strings: &[u8], offset: u32) -> Option<&str>
    ensures { option_copied result ≡ text_at strings.now offset }
{
    text_of(before_nul(from_offset(strings, offset)?)?)
}

fn has_nul(bytes: &[u8]) -> bool
    ensures { result ≡ list_any (λ b. b == 0) bytes.now }
{
    bytes.contains(&0)
}

/// The bytes from an offset on.
fn from_offset(strings: &[u8], offset: u32) -> Option<&[u8]>
    ensures found { IfSome result (λ bytes. bytes.now ≡ drop offset strings.now) }
    ensures past { IfNone result (drop offset strings.now ≡ []) }
{
    strings.get(offset as usize..)
}

/// Whether the bytes begin with `text` and a NUL.
fn begins_with(bytes: &[u8], text: &[u8]) -> bool
    ensures { IsTrue result ↔ (before_nul bytes.now ≡ Some text.now) }
{
    let Some(after) = bytes.strip_prefix(text) else {
        return false;
    };
    let Some(next) = after.first() else {
        return false;
    };
    if *next != 0 {
        return false;
    }
    !has_nul(text)
}

/// Whether the text at an offset of a string table is `text`. Reads at most one byte more than
/// `text` has.
#[tactic(auto, using(crate::proofs::Texts::text_from, crate::proofs::Texts::text_here))]
pub fn is_text_at(strings: &[u8], offset: u32, text: &str) -> bool
    ensures { IsTrue result ↔ (text_at strings.now offset ≡ Some text.now) }
{
    match from_offset(strings, offset) {
        Some(bytes) => begins_with(bytes, text.as_bytes()),
        None => false,
    }
}
