//! Reading a line of a plan's text.

ghost use Rattle.plan_lines.specs.LineReading.{arguments_by, header_by, license_by, line_in, Reads, Says, slots_by, types_by, version_by};
ghost use Rattle.plan_lines.specs.LineReads.{IsReadLine, LinesAreToldApart, LinesAreUnbroken};
ghost use Rattle.plan_lines.specs.LineViews.{line_view};
ghost use Rattle.plan_lines.specs.declared.line.Keyword.TheVariants as keyword;

use crate::error::LineError;
use crate::line::{Keyword, MapLine, PlanLine, TextVersion};
use crate::values::{
    answer, are_words_of, feature, form, keyword, map_words, name, section, tables,
};
use crate::words::{Words, hex, number_upto};
use std::alloc::Global;

/// The number that stands for any version. A text has the word `any` instead.
const ANY_VERSION: u64 = 0xffff_fffe;

fn header(word: &[u8]) -> Result<PlanLine, LineError>
    ensures { Says line_view (header_by word.now) result }
{
    if word == b"1".as_slice() {
        return Ok(PlanLine::Header(TextVersion::First));
    }
    if word == b"2".as_slice() {
        return Ok(PlanLine::Header(TextVersion::Second));
    }
    Err(LineError::Invalid)
}

fn license(alloc: Global, word: &[u8]) -> Result<PlanLine, LineError>
    ensures { Says line_view (license_by word.now) result }
{
    let bytes = hex(alloc, word)?;
    if bytes.contains(&0) {
        return Err(LineError::Invalid);
    }
    Ok(PlanLine::License(bytes))
}

fn version(word: &[u8]) -> Result<PlanLine, LineError>
    ensures { Says line_view (version_by word.now) result }
{
    if word == b"any".as_slice() {
        return Ok(PlanLine::Version(None));
    }
    let version = number_upto(word, 0xffff_ffff)?;
    if version == ANY_VERSION {
        return Err(LineError::Invalid);
    }
    Ok(PlanLine::Version(Some(version as u32)))
}

fn types(alloc: Global, word: &[u8]) -> Result<PlanLine, LineError>
    ensures { Says line_view (types_by word.now) result }
{
    if word == b"none".as_slice() {
        return Ok(PlanLine::Types(None));
    }
    let bytes = hex(alloc, word)?;
    if bytes.is_empty() {
        return Err(LineError::Invalid);
    }
    Ok(PlanLine::Types(Some(bytes)))
}

fn slots(alloc: Global, word: &[u8]) -> Result<PlanLine, LineError>
    ensures { Says line_view (slots_by word.now) result }
{
    let bytes = hex(alloc, word)?;
    if bytes.len() % 8 == 0 {
        Ok(PlanLine::Slots(bytes))
    } else {
        Err(LineError::Invalid)
    }
}

fn feature_line(words: &mut Words<'_>) -> Result<PlanLine, LineError>
    ensures { Reads line_view (arguments_by keyword.Feature words.old) result words.new }
{
    let asked = feature(words.word()?)?;
    let answer = answer(words.word()?)?;
    Ok(PlanLine::Feature(asked, answer))
}

fn map_line(alloc: Global, words: &mut Words<'_>) -> Result<PlanLine, LineError>
    ensures { Reads line_view (arguments_by keyword.Map words.old) result words.new }
{
    let name = name(alloc, words)?;
    let number = words.number(0x7fff_ffff)?;
    let is_btf = form(words.word()?)?;
    let map_words = map_words(words)?;
    if !are_words_of(is_btf, map_words) {
        return Err(LineError::Invalid);
    }
    let contents = words.bytes(alloc)?;
    Ok(PlanLine::Map(MapLine {
        name,
        number: number as u32,
        is_btf,
        words: map_words,
        contents,
    }))
}

fn inner_line(words: &mut Words<'_>) -> Result<PlanLine, LineError>
    ensures { Reads line_view (arguments_by keyword.Inner words.old) result words.new }
{
    let map_words = map_words(words)?;
    Ok(PlanLine::Inner(map_words))
}

fn program_line(alloc: Global, words: &mut Words<'_>) -> Result<PlanLine, LineError>
    ensures { Reads line_view (arguments_by keyword.Program words.old) result words.new }
{
    let name = name(alloc, words)?;
    let section = section(words)?;
    Ok(PlanLine::Program(name, section))
}

fn func_line(words: &mut Words<'_>) -> Result<PlanLine, LineError>
    ensures { Reads line_view (arguments_by keyword.Func words.old) result words.new }
{
    let slot = words.number_32()?;
    let id = words.number_32()?;
    Ok(PlanLine::Func(slot, id))
}

fn source_line(words: &mut Words<'_>) -> Result<PlanLine, LineError>
    ensures { Reads line_view (arguments_by keyword.Source words.old) result words.new }
{
    let slot = words.number_32()?;
    let file = words.number_32()?;
    let line = words.number_32()?;
    let column = words.number_32()?;
    Ok(PlanLine::Source(slot, file, line, column))
}

fn tables_line(alloc: Global, words: &mut Words<'_>) -> Result<PlanLine, LineError>
    ensures { Reads line_view (arguments_by keyword.Tables words.old) result words.new }
{
    let tables = tables(alloc, words)?;
    Ok(PlanLine::Tables(tables))
}

/// What the words after a keyword say.
fn arguments(alloc: Global, keyword: Keyword, words: &mut Words<'_>) -> Result<PlanLine, LineError>
    ensures { Reads line_view (arguments_by keyword words.old) result words.new }
{
    match keyword {
        Keyword::Header => header(words.word()?),
        Keyword::License => license(alloc, words.word()?),
        Keyword::Version => version(words.word()?),
        Keyword::Feature => feature_line(words),
        Keyword::Types => types(alloc, words.word()?),
        Keyword::Map => map_line(alloc, words),
        Keyword::Inner => inner_line(words),
        Keyword::Program => program_line(alloc, words),
        Keyword::Slots => slots(alloc, words.word()?),
        Keyword::Tables => tables_line(alloc, words),
        Keyword::Func => func_line(words),
        Keyword::Source => source_line(words),
        Keyword::End => Ok(PlanLine::End),
    }
}

fn line(alloc: Global, bytes: &[u8]) -> Result<PlanLine, LineError>
    ensures { Says line_view (line_in bytes.now) result }
{
    let mut words = Words::of_line(bytes);
    let keyword = keyword(words.word()?)?;
    let read = arguments(alloc, keyword, &mut words)?;
    if words.is_done() {
        Ok(read)
    } else {
        Err(LineError::Invalid)
    }
}

/// What a line says; `bytes` is the line without its line feed.
pub fn read_line(alloc: Global, bytes: &[u8]) -> Result<PlanLine, LineError>
    ensures { IsReadLine bytes.now result }
{
    line(alloc, bytes)
}

/// The text of a line contains no line feed.
pub fn lines_are_unbroken()
    ensures { LinesAreUnbroken }
{}

/// No two lines have the same text.
pub fn lines_are_told_apart()
    ensures { LinesAreToldApart }
{}
