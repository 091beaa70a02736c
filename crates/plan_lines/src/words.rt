//! The words of a line, and what they say.

ghost use Rattle.std.specs.Prelude.{◌≡◌, ◌<◌, ◌≤◌, ◌^◌, ◌↔◌, ◌++◌, ℕ, if◌then◌else◌, [], ◌∷◌, Some, None, IfOk, IsTrue, MatchOption, MatchResult};
ghost use Rattle.std.specs.Fmt.{decimal};
ghost use Rattle.std.specs.Option.{option_map};
ghost use Rattle.plan_lines.specs.LineReading.{only_word, Reads, Says};
ghost use Rattle.plan_lines.specs.Lines.{max_32};
ghost use Rattle.plan_lines.specs.WordReading.{first_by, hex_of, is_hex_of, is_number_upto, Lacks, number_upto, pieces_left, pieces_of};

use crate::error::LineError;
use hex::{FromHexError, decode, encode};
use itoa::Buffer;
use memchr::memchr;
use std::alloc::Global;
use std::marker::Model;
use std::str;

/// The number that a word writes, also with a sign or leading zeros.
fn parsed(word: &[u8]) -> Option<u64>
    ensures { (n : ℕ) → n < 2 ^ 64 → word.now ≡ decimal n → result ≡ Some n }
{
    match str::from_utf8(word) {
        Ok(text) => text.parse::<u64>().ok(),
        Err(_error) => None,
    }
}

fn is_number_upto(max: u64, word: &[u8], number: u64) -> bool
    ensures { result ≡ is_number_upto max word.now number }
{
    let mut buffer = Buffer::new();
    number <= max && buffer.format(number).as_bytes() == word
}

/// The number, at most `max`, that a word writes in decimal digits without leading zeros.
pub(crate) fn number_upto(word: &[u8], max: u64) -> Result<u64, LineError>
    ensures value { Says (λ n. n) (number_upto max word.now) result }
    ensures within { IfOk result (λ n. n ≤ max) }
{
    let Some(number) = parsed(word) else {
        return Err(LineError::Invalid);
    };
    if is_number_upto(max, word, number) {
        Ok(number)
    } else {
        Err(LineError::Invalid)
    }
}

/// The bytes that a word was decoded to, if the word writes them in lower case.
fn in_lower_case(alloc: Global, word: &[u8], bytes: Vec<u8>) -> Result<Vec<u8>, LineError>
    ensures { Says (λ v. v.items)
        (if is_hex_of word.now bytes.items then Some bytes.items else None) result }
{
    let digits = encode(alloc, bytes.as_slice())?;
    if !bytes.is_empty() && digits.as_bytes() == word {
        Ok(bytes)
    } else {
        Err(LineError::Invalid)
    }
}

/// The bytes that a word writes in lower case hexadecimal digits; a dash writes none.
pub(crate) fn hex(alloc: Global, word: &[u8]) -> Result<Vec<u8>, LineError>
    ensures { Says (λ v. v.items) (hex_of word.now) result }
{
    if word == b"-".as_slice() {
        return Ok(Vec::new(alloc));
    }
    match decode(alloc, word) {
        Ok(bytes) => in_lower_case(alloc, word, bytes),
        Err(FromHexError::OutOfMemory) => Err(LineError::OutOfMemory),
        Err(_) => Err(LineError::Invalid),
    }
}

/// The bytes before and after the first occurrence of `byte`.
pub fn cut_at(bytes: &[u8], byte: u8) -> Option<(&[u8], &[u8])>
    ensures { MatchOption result (Lacks byte bytes.now) (λ p.
        (bytes.now ≡ p.0.now ++ byte ∷ p.1.now) × Lacks byte p.0.now) }
{
    match memchr(byte, bytes) {
        Some(len) => Some((&bytes[..len], &bytes[len + 1..])),
        None => None,
    }
}

/// The bytes before the first space, and those after it.
fn cut(line: &[u8]) -> (&[u8], Option<&[u8]>)
    ensures { pieces_of line.now ≡ result.0.now ∷ pieces_left result.1 }
{
    match cut_at(line, b' ') {
        Some((word, rest)) => (word, Some(rest)),
        None => (line, None),
    }
}

/// The words that are left of a line.
#[derive(Drop)]
pub(crate) struct Words<'a> {
    rest: Option<&'a [u8]>,
}

impl<'a> Model for Words<'a> {
    ghost use Rattle.std.specs.Prelude.{List, ℕ};
    ghost use Rattle.plan_lines.specs.WordReading.{pieces_left};

    ghost Value = { List (List ℕ) };

    ghost view = { λ w. pieces_left w.rest };
}

impl<'a> Words<'a> {
    pub(crate) fn of_line(line: &'a [u8]) -> Words<'a>
        ensures { result ≡ pieces_of line.now }
    {
        Words { rest: Some(line) }
    }

    pub(crate) fn next(&mut self) -> Option<&'a [u8]>
        ensures { MatchOption result ((self.old ≡ []) × (self.new ≡ [])) (λ word.
            self.old ≡ word.now ∷ self.new) }
    {
        let (word, rest) = cut(self.rest?);
        self.rest = rest;
        Some(word)
    }

    #[tactic(auto, using(crate::proofs::Cut::pieces_none))]
    pub(crate) fn is_done(&self) -> bool
        ensures { IsTrue result ↔ (self.now ≡ []) }
    {
        match self.rest {
            None => true,
            Some(_rest) => false,
        }
    }

    /// Drops the words that are left.
    pub(crate) fn finish(&mut self)
        ensures { self.new ≡ [] }
    {
        self.rest = None;
    }

    /// The next word.
    pub(crate) fn word(&mut self) -> Result<&'a [u8], LineError>
        ensures { MatchResult result (λ word. self.old ≡ word.now ∷ self.new) (λ _. self.old ≡ []) }
    {
        match self.next() {
            Some(word) => Ok(word),
            None => Err(LineError::Invalid),
        }
    }

    /// The word that is left, if there is only one.
    #[tactic(auto, using(crate::proofs::Cut::no_only_word))]
    pub(crate) fn only(&self) -> Option<&'a [u8]>
        ensures { option_map (λ word. word.now) result ≡ only_word self.now }
    {
        match cut(self.rest?) {
            (word, None) => Some(word),
            (_word, Some(_rest)) => None,
        }
    }

    /// The number, at most `max`, that the next word writes.
    pub(crate) fn number(&mut self, max: u64) -> Result<u64, LineError>
        ensures value { Reads (λ n. n) (first_by (number_upto max) self.old) result self.new }
        ensures within { IfOk result (λ n. n ≤ max) }
    {
        let word = self.word()?;
        number_upto(word, max)
    }

    pub(crate) fn number_32(&mut self) -> Result<u32, LineError>
        ensures { Reads (λ n. n) (first_by (number_upto max_32) self.old) result self.new }
    {
        let number = self.number(0xffff_ffff)?;
        Ok(number as u32)
    }

    pub(crate) fn number_8(&mut self) -> Result<u8, LineError>
        ensures { Reads (λ n. n) (first_by (number_upto 255) self.old) result self.new }
    {
        let number = self.number(255)?;
        Ok(number as u8)
    }

    /// The bytes that the next word writes.
    pub(crate) fn bytes(&mut self, alloc: Global) -> Result<Vec<u8>, LineError>
        ensures { Reads (λ v. v.items) (first_by hex_of self.old) result self.new }
    {
        let word = self.word()?;
        hex(alloc, word)
    }
}
