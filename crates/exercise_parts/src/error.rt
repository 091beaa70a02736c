//! Why an exercise ends early.

use btf_records::BtfError;
use ebpf_items::ParseError;
use relocation_errors::{EbpfRelocationError, RelocationError};
use std::alloc::{AllocError, AllocFailed};
use std::io;
use std::io::ErrorKind;
use thiserror::Error;

/// Why an exercise ends early. `bin/inspect_object` says what is wrong with an object.
#[derive(Clone, Copy, Debug, Error)]
pub enum ExerciseError {
    #[error("call it with an exercise and its words")]
    Usage,
    /// A line of the text of an exercise, by its number from 1, has no meaning there.
    #[error("line {0} can't be read")]
    Line(usize),
    #[error("{0}")]
    Io(ErrorKind),
    #[error("the object can't be parsed")]
    Parse,
    #[error("the types can't be parsed or rewritten")]
    Btf,
    #[error("a slot can't be relocated, or a program can't be linked")]
    Relocation,
    #[error("out of memory")]
    OutOfMemory,
}

impl From<io::Error> for ExerciseError {
    fn from(error: io::Error) -> ExerciseError {
        match error.kind() {
            ErrorKind::OutOfMemory => ExerciseError::OutOfMemory,
            kind => ExerciseError::Io(kind),
        }
    }
}

impl From<ParseError> for ExerciseError {
    fn from(error: ParseError) -> ExerciseError {
        match error {
            ParseError::OutOfMemory => ExerciseError::OutOfMemory,
            _ => ExerciseError::Parse,
        }
    }
}

impl From<BtfError> for ExerciseError {
    fn from(error: BtfError) -> ExerciseError {
        match error {
            BtfError::OutOfMemory => ExerciseError::OutOfMemory,
            _ => ExerciseError::Btf,
        }
    }
}

impl From<EbpfRelocationError> for ExerciseError {
    fn from(error: EbpfRelocationError) -> ExerciseError {
        match error.error() {
            RelocationError::OutOfMemory => ExerciseError::OutOfMemory,
            _ => ExerciseError::Relocation,
        }
    }
}

impl From<AllocError> for ExerciseError {
    fn from(_error: AllocError) -> ExerciseError {
        ExerciseError::OutOfMemory
    }
}

impl<T: Drop> From<AllocFailed<T>> for ExerciseError {
    fn from(_error: AllocFailed<T>) -> ExerciseError {
        ExerciseError::OutOfMemory
    }
}

impl ExerciseError {
    /// The status that the program ends with: 3 where memory runs out, 2 where its arguments or a
    /// line of its text are invalid, else 1.
    pub fn status(self) -> u8 {
        match self {
            ExerciseError::OutOfMemory => 3,
            ExerciseError::Usage | ExerciseError::Line(_) => 2,
            _ => 1,
        }
    }
}
