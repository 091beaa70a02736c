//! The strings of a table.

ghost use Rattle.std.specs.Prelude.{◌≡◌, ◌∷◌, ◌++◌, [], IfOk, OnErr, OnOk, length, true};
ghost use Rattle.std.specs.Option.{option_copied};
ghost use Rattle.string_table.specs.FirstBytes.{AreTexts};
ghost use Rattle.string_table.specs.Texts.{text_at};

use crate::byte_list::ByteList;
use std::alloc::{AllocError, Global};
use std::marker::Model;
use string_table::{are_texts, text_at};

/// The strings of a table: its texts by offset, each ended by a NUL. The bytes are borrowed from
/// the section until some are added.
#[derive(Debug)]
pub struct Strings<'a> {
    bytes: ByteList<'a>,
    /// Whether a text is known to begin at each byte.
    are_texts: bool,
}

impl<'a> Drop for Strings<'a> {
    // A single call where a value is dropped, instead of one call per field.
    fn drop(self) {
        let Strings {
            bytes: _bytes,
            are_texts: _,
        } = self;
    }
}

impl<'a> Model for Strings<'a> {
    ghost use Rattle.std.specs.Prelude.{◌≡◌, ℕ, List, true};
    ghost use Rattle.string_table.specs.FirstBytes.{AreTexts};

    ghost Value = { List ℕ };

    ghost view = { λ s. s.bytes };

    ghost invariant = { λ s. s.are_texts ≡ true → AreTexts s.bytes };
}

impl<'a> Strings<'a> {
    fn of_bytes(bytes: ByteList<'a>) -> Strings<'a>
        ensures { result ≡ bytes.entry }
    {
        let are_texts = are_texts(bytes.as_slice());
        Strings { bytes, are_texts }
    }

    pub fn borrowed(bytes: &'a [u8]) -> Strings<'a>
        ensures { result ≡ bytes.now }
    {
        Strings::of_bytes(ByteList::borrowed(bytes))
    }

    pub fn owned(bytes: Vec<u8>) -> Strings<'a>
        ensures { result ≡ bytes.items }
    {
        Strings::of_bytes(ByteList::owned(bytes))
    }

    pub fn as_slice(&self) -> &[u8]
        ensures { result.now ≡ self.now }
    {
        self.bytes.as_slice()
    }

    pub fn len(&self) -> usize
        ensures { result ≡ length self.now }
    {
        self.bytes.len()
    }

    /// Whether a text is known to begin at each byte; false after texts were added.
    pub fn are_texts(&self) -> bool
        ensures { result ≡ true → AreTexts self.now }
    {
        self.are_texts
    }

    /// The text at an offset; none where the offset is past the end, no NUL ends the text, or it
    /// isn't UTF-8.
    pub fn text_at(&self, offset: u32) -> Option<&str>
        ensures { option_copied result ≡ text_at self.now offset }
    {
        text_at(self.bytes.as_slice(), offset)
    }

    /// Appends a text and a NUL.
    pub fn push(&mut self, alloc: Global, text: &str) -> Result<(), AllocError>
        ensures ok { OnOk result (self.new ≡ self.old ++ text.now ++ 0 ∷ []) }
        ensures err { OnErr result (self.new ≡ self.old) }
    {
        self.bytes.push_text(alloc, text)?;
        self.are_texts = false;
        Ok(())
    }

    /// These strings with `texts` after them. If `texts` is empty, borrowed bytes stay borrowed.
    pub fn with_texts(&self, alloc: Global, texts: &[u8]) -> Result<Strings<'a>, AllocError>
        ensures { IfOk result (λ strings. strings ≡ self.now ++ texts.now) }
    {
        if texts.is_empty() {
            return self.try_clone();
        }
        let len = self.bytes.len();
        let mut bytes = Vec::with_capacity(alloc, len.saturating_add(texts.len()))?;
        bytes.extend_from_slice(self.bytes.as_slice())?;
        bytes.extend_from_slice(texts)?;
        Ok(Strings {
            bytes: ByteList::owned(bytes),
            are_texts: false,
        })
    }

    /// A copy; borrowed bytes stay borrowed.
    pub fn try_clone(&self) -> Result<Strings<'a>, AllocError>
        ensures { IfOk result (λ strings. strings ≡ self.now) }
    {
        Ok(Strings {
            bytes: self.bytes.try_clone()?,
            are_texts: self.are_texts,
        })
    }
}
