//! Questions.

use crate::error::ExerciseError;
use crate::question_tables::Tables;
use crate::question_words::{number, plain_text, type_kind};
use crate::relocation_questions::relocation_answer;
use crate::type_answers::{agreed, answer_text};
use btf::{Btf, BtfError, Endianness, fields_are_compatible, types_are_compatible};
use std::alloc::Global;

/// The tables that are asked.
#[derive(Clone, Copy)]
pub(crate) struct Asked<'a> {
    pub(crate) alloc: Global,
    pub(crate) tables: &'a Tables<'a>,
    /// The byte order of the first table, and that of other tables.
    pub(crate) order: Endianness,
    pub(crate) other_order: Endianness,
    /// Whether 64-bit enums of the first table are replaced.
    pub(crate) lacks_enum64: bool,
}

/// The answer to a question about one table.
fn answer_of_one(asked: Asked<'_>, words: &[&str]) -> Result<String, ExerciseError> {
    let [question, name, word, kind @ ..] = words else {
        return Err(ExerciseError::Usage);
    };
    let alloc = asked.alloc;
    let section = asked.tables.section_of(asked.order, name, b"")?;
    let table = Btf::parse(alloc, section.as_slice(), asked.order)?;
    match (*question, kind) {
        ("resolve", []) => answer_text(alloc, "id ", table.resolve_type(number(word)?), ""),
        ("size", []) => answer_text(alloc, "", table.type_size(number(word)?), " bytes"),
        ("size32", []) => answer_text(alloc, "", table.type_size_u32(number(word)?), " bytes"),
        ("text", []) => answer_text(alloc, "\"", table.string_at(number(word)?), "\""),
        ("find", [kind]) => {
            let id = table.id_by_type_name_kind(plain_text(word), type_kind(kind)?);
            answer_text(alloc, "id ", id, "")
        }
        _ => Err(ExerciseError::Usage),
    }
}

/// Compares two types, or members of them.
fn are_compatible<'t>(
    compares_members: bool,
    (one, id): (&Btf<'t>, u32),
    (other, other_id): (&Btf<'t>, u32),
) -> Result<bool, BtfError> {
    if compares_members {
        fields_are_compatible(one, id, other, other_id)
    } else {
        types_are_compatible(one, id, other, other_id)
    }
}

/// The answer to a question about two types.
fn answer_of_two(
    asked: Asked<'_>,
    compares_members: bool,
    words: &[&str],
) -> Result<String, ExerciseError> {
    let [name, id, other_name, other_id] = words else {
        return Err(ExerciseError::Usage);
    };
    let (id, other_id) = (number(id)?, number(other_id)?);
    let section = asked.tables.section_of(asked.order, name, b"")?;
    let other = asked.tables.section_of(asked.other_order, other_name, b"")?;
    let table = Btf::parse(asked.alloc, section.as_slice(), asked.order)?;
    let other = Btf::parse(asked.alloc, other.as_slice(), asked.other_order)?;
    let answer = are_compatible(compares_members, (&table, id), (&other, other_id));
    let word = answer.map(|is| if is { "yes" } else { "no" });
    answer_text(asked.alloc, "", word, "")
}

/// The answer to a question.
fn answer_in(asked: Asked<'_>, words: &[&str]) -> Result<String, ExerciseError> {
    match words {
        ["types", words @ ..] => answer_of_two(asked, false, words),
        ["fields", words @ ..] => answer_of_two(asked, true, words),
        ["match", words @ ..] => relocation_answer(asked, words),
        ["match-without-enum64", words @ ..] => {
            let lacking = Asked {
                lacks_enum64: true,
                ..asked
            };
            relocation_answer(lacking, words)
        }
        _ => answer_of_one(asked, words),
    }
}

/// The answer to a question: with all tables in little-endian order, with all in big-endian order,
/// and with the first one in little-endian order and others in big-endian order.
pub(crate) fn answer_to(
    alloc: Global,
    tables: &Tables<'_>,
    words: &[&str],
) -> Result<String, ExerciseError> {
    let asked = Asked {
        alloc,
        tables,
        order: Endianness::Little,
        other_order: Endianness::Little,
        lacks_enum64: false,
    };
    let mut answer = answer_in(asked, words)?;
    for order in [Endianness::Big, Endianness::Little] {
        let turned = Asked {
            order,
            other_order: Endianness::Big,
            ..asked
        };
        answer = agreed(alloc, answer, answer_in(turned, words)?)?;
    }
    Ok(answer)
}
