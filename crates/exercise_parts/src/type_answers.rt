//! Answers in words.

use crate::error::ExerciseError;
use btf::BtfError;
use core_resolve::{RelocationOutcome, Resolved, TypeRelocationError};
use core_spec::{AccessError, RelocationValue, WholeField};
use std::alloc::{AllocError, Global};
use std::fmt::Display;

/// The text of a table's answer, with words before it and after it, or of the reason for none.
pub(crate) fn answer_text<T: Display + Drop>(
    alloc: Global,
    before: &str,
    answer: Result<T, BtfError>,
    after: &str,
) -> Result<String, ExerciseError> {
    match answer {
        Ok(answer) => Ok(format!(in alloc; "{before}{answer}{after}")?),
        Err(BtfError::OutOfMemory) => Err(ExerciseError::OutOfMemory),
        Err(error) => Ok(format!(in alloc; "{error}")?),
    }
}

/// The text of the result of a type relocation.
fn resolved_text(alloc: Global, resolved: Resolved) -> Result<String, AllocError> {
    match resolved {
        Resolved::Poison => String::from_str(alloc, "poison"),
        Resolved::Value(RelocationValue { value, field: None }) => {
            format!(in alloc; "value {value}")
        }
        Resolved::Value(
            RelocationValue {
                value,
                field: Some(WholeField { type_id, size }),
            },
        ) => format!(in alloc; "field at {value} of type {type_id}, {size} bytes"),
    }
}

/// The same, with the index of the kernel's table of the match.
fn found_text(alloc: Global, found: RelocationOutcome) -> Result<String, AllocError> {
    let text = resolved_text(alloc, found.outcome)?;
    match found.table {
        Some(table) => format!(in alloc; "{text}, in table {table}"),
        None => Ok(text),
    }
}

/// The text of a fault in a table.
fn fault_text(alloc: Global, fault: &AccessError) -> Result<String, AllocError> {
    match fault {
        AccessError::InvalidAccessIndex { place, len } => {
            let (type_id, index) = (place.type_id, place.index);
            format!(in alloc; "type {type_id} has {len} items, and none at {index}")
        }
        fault => format!(in alloc; "{fault}"),
    }
}

/// The text of the reason for no result, with the type where that is one of the kernel.
fn refusal_text(alloc: Global, error: &TypeRelocationError) -> Result<String, AllocError> {
    match error {
        TypeRelocationError::Local(fault) => fault_text(alloc, fault),
        TypeRelocationError::UnreadableName { place, offset } => {
            let (table, type_id) = (place.table, place.type_id);
            format!(in alloc; "type {type_id} in table {table}: invalid BTF string offset {offset}")
        }
        TypeRelocationError::Kernel { place, error } => {
            let (table, type_id) = (place.table, place.type_id);
            let fault = fault_text(alloc, error)?;
            format!(in alloc; "type {type_id} in table {table}: {fault}")
        }
        error => format!(in alloc; "{error}"),
    }
}

/// The text of the outcome of a type relocation.
pub(crate) fn outcome_text(
    alloc: Global,
    outcome: &Result<RelocationOutcome, TypeRelocationError>,
) -> Result<String, ExerciseError> {
    match outcome {
        Ok(found) => Ok(found_text(alloc, *found)?),
        Err(TypeRelocationError::OutOfMemory) => Err(ExerciseError::OutOfMemory),
        Err(error) => Ok(refusal_text(alloc, error)?),
    }
}

/// An answer that was found in two ways; both where they differ.
pub(crate) fn agreed(alloc: Global, one: String, other: String) -> Result<String, AllocError> {
    if one == other {
        return Ok(one);
    }
    format!(in alloc; "differs: {one}; {other}")
}
