//! What words of a line stand for.

ghost use Rattle.std.specs.Prelude.{◌≡◌, [], None, OnOk, option_and_then};
ghost use Rattle.std.specs.Option.{option_map};
ghost use Rattle.std.specs.String.{string_bytes};
ghost use Rattle.plan_lines.specs.LineReading.{answer_by, are_words_of, feature_by, form_by, keyword_by, map_words_by, name_by, pinning_of, place_by, places_by, Reads, Says, section_words_by, some_tables, tables_by, text_in, is_above};
ghost use Rattle.plan_lines.specs.Lines.{answer_word, feature_word, keyword_word};
ghost use Rattle.plan_lines.specs.WordReading.{first_by};

use crate::error::LineError;
use crate::kind_reading::section_of;
use crate::line::Keyword;
use crate::map_words::MapWords;
use crate::program_kind::KindNumbers;
use crate::words::{Words, number_upto};
use btf_records::BtfFeature;
use ebpf_items::PinningType;
use program_kinds::ProgramSection;
use std::alloc::Global;

const KEYWORDS: [Keyword; 13] = [
    Keyword::Header,
    Keyword::License,
    Keyword::Version,
    Keyword::Feature,
    Keyword::Types,
    Keyword::Map,
    Keyword::Inner,
    Keyword::Program,
    Keyword::Slots,
    Keyword::Tables,
    Keyword::Func,
    Keyword::Source,
    Keyword::End,
];

fn keyword_word(keyword: Keyword) -> &'static [u8]
    ensures { result.now ≡ keyword_word keyword }
{
    match keyword {
        Keyword::Header => b"bpf-plan",
        Keyword::License => b"license",
        Keyword::Version => b"version",
        Keyword::Feature => b"feature",
        Keyword::Types => b"types",
        Keyword::Map => b"map",
        Keyword::Inner => b"inner",
        Keyword::Program => b"program",
        Keyword::Slots => b"slots",
        Keyword::Tables => b"tables",
        Keyword::Func => b"func",
        Keyword::Source => b"line",
        Keyword::End => b"end",
    }
}

fn keyword_named(word: &[u8]) -> Option<Keyword>
    ensures { result ≡ keyword_by word.now }
{
    KEYWORDS
        .iter()
        .copied()
        .find(|keyword| keyword_word(*keyword) == word)
}

/// The keyword that a word is.
pub(crate) fn keyword(word: &[u8]) -> Result<Keyword, LineError>
    ensures { Says (λ k. k) (keyword_by word.now) result }
{
    match keyword_named(word) {
        Some(keyword) => Ok(keyword),
        None => Err(LineError::Invalid),
    }
}

const FEATURES: [BtfFeature; 8] = [
    BtfFeature::Func,
    BtfFeature::FuncGlobal,
    BtfFeature::DataSec,
    BtfFeature::DataSecZero,
    BtfFeature::Float,
    BtfFeature::DeclTag,
    BtfFeature::TypeTag,
    BtfFeature::Enum64,
];

/// The name of a feature.
pub fn feature_word(feature: BtfFeature) -> &'static [u8]
    ensures { result.now ≡ feature_word feature }
{
    match feature {
        BtfFeature::Func => b"Func",
        BtfFeature::FuncGlobal => b"FuncGlobal",
        BtfFeature::DataSec => b"DataSec",
        BtfFeature::DataSecZero => b"DataSecZero",
        BtfFeature::Float => b"Float",
        BtfFeature::DeclTag => b"DeclTag",
        BtfFeature::TypeTag => b"TypeTag",
        BtfFeature::Enum64 => b"Enum64",
    }
}

fn feature_named(word: &[u8]) -> Option<BtfFeature>
    ensures { result ≡ feature_by word.now }
{
    FEATURES
        .iter()
        .copied()
        .find(|feature| feature_word(*feature) == word)
}

/// The feature that a word names.
pub(crate) fn feature(word: &[u8]) -> Result<BtfFeature, LineError>
    ensures { Says (λ f. f) (feature_by word.now) result }
{
    match feature_named(word) {
        Some(feature) => Ok(feature),
        None => Err(LineError::Invalid),
    }
}

/// The word for an answer about a feature.
pub fn answer_word(answer: bool) -> &'static [u8]
    ensures { result.now ≡ answer_word answer }
{
    if answer { b"yes" } else { b"no" }
}

pub(crate) fn answer(word: &[u8]) -> Result<bool, LineError>
    ensures { Says (λ b. b) (answer_by word.now) result }
{
    if word == b"yes".as_slice() {
        return Ok(true);
    }
    if word == b"no".as_slice() {
        return Ok(false);
    }
    Err(LineError::Invalid)
}

/// Whether a word says that types define a map.
pub(crate) fn form(word: &[u8]) -> Result<bool, LineError>
    ensures { Says (λ b. b) (form_by word.now) result }
{
    if word == b"btf".as_slice() {
        return Ok(true);
    }
    if word == b"legacy".as_slice() {
        return Ok(false);
    }
    Err(LineError::Invalid)
}

fn text_of(bytes: Vec<u8>) -> Result<String, LineError>
    ensures { Says (λ text. string_bytes text) (text_in bytes.items) result }
{
    match String::from_utf8(bytes) {
        Ok(text) => Ok(text),
        Err(_error) => Err(LineError::Invalid),
    }
}

/// A name, in hexadecimal digits of its UTF-8.
pub(crate) fn name(alloc: Global, words: &mut Words<'_>) -> Result<String, LineError>
    ensures { Reads (λ text. string_bytes text) (first_by name_by words.old) result words.new }
{
    let bytes = words.bytes(alloc)?;
    text_of(bytes)
}

fn pinning_of(number: u64) -> PinningType
    ensures { result ≡ pinning_of number }
{
    if number == 1 {
        PinningType::ByName
    } else {
        PinningType::None
    }
}

/// The ten numbers that define a map.
pub(crate) fn map_words(words: &mut Words<'_>) -> Result<MapWords, LineError>
    ensures { Reads (λ w. w) (map_words_by words.old) result words.new }
{
    let map_type = words.number_32()?;
    let key_size = words.number_32()?;
    let value_size = words.number_32()?;
    let max_entries = words.number_32()?;
    let map_flags = words.number_32()?;
    let map_extra = words.number(0xffff_ffff_ffff_ffff)?;
    let pinning = words.number(1)?;
    let id = words.number_32()?;
    let btf_key_type_id = words.number_32()?;
    let btf_value_type_id = words.number_32()?;
    Ok(MapWords {
        map_type,
        key_size,
        value_size,
        max_entries,
        map_flags,
        map_extra,
        pinning: pinning_of(pinning),
        id,
        btf_key_type_id,
        btf_value_type_id,
    })
}

/// Whether these are the words of a map that types define, or of another map where `is_btf` is
/// `false`.
pub fn are_words_of(is_btf: bool, words: MapWords) -> bool
    ensures { result ≡ are_words_of is_btf words }
{
    if is_btf {
        return words.id == 0;
    }
    words.map_extra == 0 && words.btf_key_type_id == 0 && words.btf_value_type_id == 0
}

/// A kind of program, from its three numbers.
pub(crate) fn section(words: &mut Words<'_>) -> Result<ProgramSection, LineError>
    ensures { Reads (λ s. s) (section_words_by words.old) result words.new }
{
    let kind = words.number_8()?;
    let first = words.number_8()?;
    let second = words.number_8()?;
    section_of(KindNumbers {
        kind,
        first,
        second,
    })
}

fn is_above(last: Option<u32>, place: u64) -> bool
    ensures { result ≡ is_above last place }
{
    match last {
        None => true,
        Some(last) => u64::from(last) < place,
    }
}

/// An index above the last one.
fn place_after(last: Option<u32>, word: &[u8]) -> Result<u32, LineError>
    ensures { Says (λ n. n) (place_by last word.now) result }
{
    let place = number_upto(word, 0xffff_ffff)?;
    if is_above(last, place) {
        Ok(place as u32)
    } else {
        Err(LineError::Invalid)
    }
}

fn places(alloc: Global, words: &mut Words<'_>) -> Result<Vec<u32>, LineError>
    ensures value { Says (λ v. v.items) (places_by None words.old) result }
    ensures all { OnOk result (words.new ≡ []) }
{
    let mut places = Vec::new(alloc);
    let mut last = None;
    while let Some(word) = words.next() {
        let place = place_after(last, word)?;
        places.push(place)?;
        last = Some(place);
    }
    Ok(places)
}

fn some_places(alloc: Global, words: &mut Words<'_>) -> Result<Option<Vec<u32>>, LineError>
    ensures value { Says (λ t. option_map (λ v. v.items) t)
        (option_and_then some_tables (places_by None words.old)) result }
    ensures all { OnOk result (words.new ≡ []) }
{
    let places = places(alloc, words)?;
    if places.is_empty() {
        return Err(LineError::Invalid);
    }
    Ok(Some(places))
}

/// The indexes of kernel tables, if they are known, from all words that are left.
pub(crate) fn tables(alloc: Global, words: &mut Words<'_>) -> Result<Option<Vec<u32>>, LineError>
    ensures value { Says (λ t. option_map (λ v. v.items) t) (tables_by words.old) result }
    ensures all { OnOk result (words.new ≡ []) }
{
    let Some(word) = words.only() else {
        return some_places(alloc, words);
    };
    if word == b"?".as_slice() {
        words.finish();
        return Ok(None);
    }
    if word == b"-".as_slice() {
        words.finish();
        return Ok(Some(Vec::new(alloc)));
    }
    some_places(alloc, words)
}
