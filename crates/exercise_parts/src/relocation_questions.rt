//! Questions about type relocations.

use crate::error::ExerciseError;
use crate::question_words::{number, push_text, relocation_kind};
use crate::questions::Asked;
use crate::type_answers::{agreed, outcome_text};
use btf::{Btf, BtfError, BtfFeature, Endianness, fixup_and_sanitize};
use core_resolve::{TypeMatcher, TypeRelocation, relocation_outcome};
use std::alloc::Global;
use std::collections::BTreeMap;

/// The sections of the kernel's tables.
fn sections_of(asked: Asked<'_>, names: &[&str]) -> Result<Vec<Vec<u8>>, ExerciseError> {
    let mut sections = Vec::new(asked.alloc);
    for name in names {
        sections.push(asked.tables.section_of(asked.other_order, name, b"")?)?;
    }
    Ok(sections)
}

/// The tables of sections.
fn parsed(
    alloc: Global,
    order: Endianness,
    sections: &[Vec<u8>],
) -> Result<Vec<Btf<'_>>, ExerciseError> {
    let mut tables = Vec::new(alloc);
    for section in sections {
        tables.push(Btf::parse(alloc, section.as_slice(), order)?)?;
    }
    Ok(tables)
}

/// Replaces 64-bit enums for a kernel that lacks them.
fn deny_enum64(table: &mut Btf<'_>, alloc: Global) -> Result<(), BtfError> {
    let numbers = BTreeMap::new(alloc);
    let is_granted = |feature| feature != BtfFeature::Enum64;
    let _answers = fixup_and_sanitize(table, &numbers, &numbers, None, is_granted)?;
    Ok(())
}

/// The object's table of a section.
fn object_table<'s>(asked: Asked<'_>, section: &'s [u8]) -> Result<Btf<'s>, ExerciseError> {
    let mut table = Btf::parse(asked.alloc, section, asked.order)?;
    if asked.lacks_enum64 {
        deny_enum64(&mut table, asked.alloc)?;
    }
    Ok(table)
}

/// The outcome of a relocation: searched alone, and with the candidates collected before.
fn outcome_in<'m>(
    alloc: Global,
    local: &'m Btf<'m>,
    relocation: TypeRelocation,
    kernel: &'m [Btf<'m>],
) -> Result<String, ExerciseError> {
    let alone = outcome_text(alloc, &relocation_outcome(local, relocation, kernel))?;
    let mut matcher = TypeMatcher::collect(local, &[relocation], kernel)?;
    let collected = outcome_text(alloc, &matcher.relocation_outcome(relocation))?;
    Ok(agreed(alloc, alone, collected)?)
}

/// The outcome of a relocation in the tables of sections.
fn outcome_of(
    asked: Asked<'_>,
    local: &[u8],
    relocation: TypeRelocation,
    kernel: &[Vec<u8>],
) -> Result<String, ExerciseError> {
    let local = object_table(asked, local)?;
    let kernel = parsed(asked.alloc, asked.other_order, kernel)?;
    outcome_in(asked.alloc, &local, relocation, kernel.as_slice())
}

/// Appends the access string that a word gives, and returns its offset.
fn push_access(asked: Asked<'_>, added: &mut Vec<u8>, word: &str) -> Result<u32, ExerciseError> {
    if let Some(offset) = word.strip_prefix('@') {
        return number(offset);
    }
    push_text(added, word)?;
    added.push(0)?;
    asked.tables.strings_len()
}

/// The outcome of the relocation that words give.
pub(crate) fn relocation_answer(asked: Asked<'_>, words: &[&str]) -> Result<String, ExerciseError> {
    let [kind, name, type_id, access, "in", kernel @ ..] = words else {
        return Err(ExerciseError::Usage);
    };
    let mut added = Vec::new(asked.alloc);
    let relocation = TypeRelocation {
        kind: relocation_kind(kind)?,
        type_id: number(type_id)?,
        access_str_off: push_access(asked, &mut added, access)?,
    };
    let local = asked
        .tables
        .section_of(asked.order, name, added.as_slice())?;
    let kernel = sections_of(asked, kernel)?;
    outcome_of(asked, local.as_slice(), relocation, kernel.as_slice())
}
