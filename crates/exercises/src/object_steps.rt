//! Steps on an object, and their results.

use btf::Btf;
use ebpf_object::{
    BtfRelocationCause, BtfRelocationError, Function, GlobalValues, KsymsError, Maps, NumberedMap,
    Object, ParseError, Watched,
};
use exercise_parts::ExerciseError;
use relocation_errors::{EbpfRelocationError, RelocationError};
use std::alloc::{AllocError, Global};
use std::collections::BTreeSet;

/// A kernel's types and the text of its symbols.
#[derive(Drop)]
pub(crate) struct Kernel<'k> {
    pub types: Vec<Btf<'k>>,
    pub symbols: &'k [u8],
}

/// The answer of a step; a refusal in a few words.
#[derive(Clone, Copy)]
enum Answer {
    Made,
    Refused(&'static str),
    OutOfMemory,
}

/// The object is unchanged by a step for which memory was refused.
pub(crate) const AS_BEFORE: &str = "as before";

/// Appends what is known about an object's externs.
fn push_externs(object: &Object<'_>, bytes: &mut Vec<u8>) -> Result<(), AllocError> {
    for (_name, known) in object.externs().iter() {
        bytes.push(u8::from(known.is_resolved))?;
        bytes.extend_from_slice(&known.kernel_btf_id.unwrap_or(0).to_le_bytes())?;
        bytes.extend_from_slice(&known.ksym_addr.unwrap_or(u64::MAX).to_le_bytes())?;
    }
    Ok(())
}

/// Appends the kernel tables in which a function's type relocations have matches.
fn push_tables(function: &Function<'_>, bytes: &mut Vec<u8>) -> Result<(), AllocError> {
    for table in function.matched_tables().iter() {
        bytes.extend_from_slice(&table.to_le_bytes())?;
    }
    Ok(())
}

/// The bytes of an object's maps and of its functions' slots, with the kernel tables that the
/// functions matched, and what is known about its externs.
fn bytes_of(alloc: Global, object: &Object<'_>) -> Result<Vec<u8>, AllocError> {
    let mut bytes = Vec::new(alloc);
    for (_name, map) in object.maps().iter() {
        bytes.extend_from_slice(map.data())?;
    }
    for (_key, function) in object.functions().iter() {
        for slot in function.instructions.iter() {
            bytes.extend_from_slice(&slot.to_bytes())?;
        }
        push_tables(function, &mut bytes)?;
    }
    push_externs(object, &mut bytes)?;
    Ok(bytes)
}

/// The object's state after a step for which memory may have been refused.
fn outcome(
    alloc: Global,
    object: &Object<'_>,
    before: &[u8],
    answer: Answer,
) -> Result<&'static str, AllocError> {
    let bytes = bytes_of(alloc, object)?;
    Ok(match (answer, bytes.as_slice() == before) {
        (Answer::Made, false) => "done",
        (Answer::Made, true) => "nothing to do",
        (Answer::Refused(why), true) => why,
        (Answer::OutOfMemory, true) => AS_BEFORE,
        (Answer::Refused(_) | Answer::OutOfMemory, false) => "changed",
    })
}

/// The answer to writing values into an object's maps.
fn put(object: &mut Object<'_>, values: &GlobalValues) -> Result<Answer, ParseError> {
    match object.put_values(values) {
        Ok(()) => Ok(Answer::Made),
        Err(ParseError::OutOfMemory) => Ok(Answer::OutOfMemory),
        Err(error) => Err(error),
    }
}

/// Writes values into an object's maps.
fn put_values(
    alloc: Global,
    object: &mut Object<'_>,
    values: &GlobalValues,
) -> Result<&'static str, ExerciseError> {
    let before = bytes_of(alloc, object)?;
    let answer = put(object, values)?;
    Ok(outcome(alloc, object, &before, answer)?)
}

/// Writes the value of the global variable `limit` into an object's maps, if it has this variable.
pub(crate) fn put_value(
    alloc: Global,
    object: &mut Object<'_>,
) -> Result<&'static str, ExerciseError> {
    let mut values = GlobalValues::new(alloc);
    values.set("limit", &[10, 0, 0, 0], false)?;
    put_values(alloc, object, &values)
}

/// The maps, each with the number 7.
fn numbered<'m>(alloc: Global, maps: &'m Maps<'_>) -> Result<Vec<NumberedMap<'m>>, AllocError> {
    let mut list = Vec::with_capacity(alloc, maps.len())?;
    for (name, map) in maps.iter() {
        list.push(NumberedMap {
            name,
            number: 7,
            map,
        })?;
    }
    Ok(list)
}

/// Whether an error is out of memory.
fn is_out_of_memory(error: &EbpfRelocationError) -> bool {
    matches!(error.error(), RelocationError::OutOfMemory)
}

/// The answer to writing the numbers of maps into an object's slots, with functions in these
/// sections.
fn write(
    object: &mut Object<'_>,
    maps: &[NumberedMap<'_>],
    text_sections: &BTreeSet<usize>,
) -> Result<Answer, EbpfRelocationError> {
    match object.write_map_numbers(maps, text_sections) {
        Ok(()) => Ok(Answer::Made),
        Err(error) => {
            if is_out_of_memory(&error) {
                return Ok(Answer::OutOfMemory);
            }
            Err(error)
        }
    }
}

/// Writes the numbers of maps into an object's slots, with functions in these sections.
fn write_in(
    alloc: Global,
    object: &mut Object<'_>,
    maps: &[NumberedMap<'_>],
    text_sections: &BTreeSet<usize>,
) -> Result<&'static str, ExerciseError> {
    let before = bytes_of(alloc, object)?;
    let answer = write(object, maps, text_sections)?;
    Ok(outcome(alloc, object, &before, answer)?)
}

/// Writes the numbers of maps into an object's slots.
fn write_numbered(
    alloc: Global,
    object: &mut Object<'_>,
    maps: &[NumberedMap<'_>],
) -> Result<&'static str, ExerciseError> {
    let text_sections = object.text_sections()?;
    write_in(alloc, object, maps, &text_sections)
}

/// Writes the number of each of these maps into an object's slots.
fn write_numbers_of(
    alloc: Global,
    object: &mut Object<'_>,
    maps: &Maps<'_>,
) -> Result<&'static str, ExerciseError> {
    let numbered = numbered(alloc, maps)?;
    write_numbered(alloc, object, &numbered)
}

/// Writes the numbers of an object's maps into its slots.
pub(crate) fn write_numbers(
    alloc: Global,
    object: &mut Object<'_>,
) -> Result<&'static str, ExerciseError> {
    let maps = object.maps().try_clone()?;
    write_numbers_of(alloc, object, &maps)
}

/// Why externs can't be resolved, in a few words.
fn refusal(error: &KsymsError) -> Answer {
    match error {
        KsymsError::OutOfMemory => Answer::OutOfMemory,
        KsymsError::VariableNotFound { name: _ } => Answer::Refused("no such variable"),
        KsymsError::KallsymsParseError(_) => Answer::Refused("an address can't be read"),
        KsymsError::AmbiguousResolution {
            name: _,
            first_addr: _,
            second_addr: _,
        } => Answer::Refused("two addresses"),
        _ => Answer::Refused("refused"),
    }
}

/// The answer to resolving an object's externs in a kernel's types and symbols.
fn resolved(object: &mut Object<'_>, kernel: &Kernel<'_>) -> Answer {
    let mut symbols = Watched::new(kernel.symbols);
    match object.resolve_externs(kernel.types.first(), &mut symbols) {
        Ok(()) => Answer::Made,
        Err(error) => refusal(&error),
    }
}

/// Resolves an object's externs.
pub(crate) fn resolve_externs(
    alloc: Global,
    object: &mut Object<'_>,
    kernel: &Kernel<'_>,
) -> Result<&'static str, ExerciseError> {
    let before = bytes_of(alloc, object)?;
    let answer = resolved(object, kernel);
    Ok(outcome(alloc, object, &before, answer)?)
}

/// The maximum number of tables of types.
const MAX_TABLES: usize = 0x1_0000_0000;

/// Why type relocations can't be made, in a few words.
fn type_refusal(error: &BtfRelocationError) -> Answer {
    match error.error() {
        BtfRelocationCause::OutOfMemory => Answer::OutOfMemory,
        BtfRelocationCause::ConflictingCandidates { .. } => {
            Answer::Refused("conflicting candidates")
        }
        _ => Answer::Refused("refused"),
    }
}

/// The answer to an object's type relocations in tables of a kernel.
fn relocated(object: &mut Object<'_>, types: &[Btf<'_>]) -> Answer {
    if types.len() > MAX_TABLES {
        return Answer::Refused("too many tables");
    }
    match object.relocate_btf(types) {
        Ok(()) => Answer::Made,
        Err(error) => type_refusal(&error),
    }
}

/// Resolves an object's type relocations, and writes the results into its slots.
pub(crate) fn relocate_types(
    alloc: Global,
    object: &mut Object<'_>,
    kernel: &Kernel<'_>,
) -> Result<&'static str, ExerciseError> {
    let before = bytes_of(alloc, object)?;
    let answer = relocated(object, &kernel.types);
    Ok(outcome(alloc, object, &before, answer)?)
}

/// Why what is known about externs can't be written, in a few words.
fn extern_refusal(error: &EbpfRelocationError) -> Answer {
    match error.error() {
        RelocationError::OutOfMemory => Answer::OutOfMemory,
        RelocationError::UnresolvableSymbol { name: _ } => Answer::Refused("not resolved"),
        _ => Answer::Refused("refused"),
    }
}

/// The answer to writing what is known about an object's externs.
fn written(object: &mut Object<'_>) -> Answer {
    match object.relocate_externs() {
        Ok(()) => Answer::Made,
        Err(error) => extern_refusal(&error),
    }
}

/// Writes what is known about an object's externs into its slots.
pub(crate) fn write_externs(
    alloc: Global,
    object: &mut Object<'_>,
) -> Result<&'static str, ExerciseError> {
    let before = bytes_of(alloc, object)?;
    let answer = written(object);
    Ok(outcome(alloc, object, &before, answer)?)
}
