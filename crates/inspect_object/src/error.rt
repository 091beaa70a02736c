//! Why the program doesn't print what it is asked for.

ghost use Rattle.std.specs.Prelude.{◌≡◌};
ghost use Rattle.inspect_object.specs.Program.{status_of};

use diagnostics::RefusalMessage;
use ebpf_object::ParseError;
use program_io::{ExtractError, InputError, Unwritten};
use quoting::{FirstNames, ShortName};
use std::alloc::{AllocError, Global};
use thiserror::Error;

/// Why the program ends without its answer.
#[derive(Debug, Drop, Error)]
pub enum ProgramError {
    /// Its arguments are invalid.
    #[error("{text}; usage: inspect_object OBJECT [--types FILE..].. (--help says more)")]
    Usage { text: String },
    /// The arguments have no meaning without kernel types.
    #[error("--symbols, --summary, --check, --strict, --optional and --format go with --types")]
    NoTypes,
    /// There is no program of the name that is wanted.
    #[error("{text}")]
    NoProgram { text: String },
    /// An argument or a file can't be read.
    #[error("{0}")]
    Input(#[from] InputError),
    /// Memory runs out for the reports, or for writing.
    #[error("out of memory")]
    OutOfMemory(#[from(alloc)] AllocError),
    /// The object is refused.
    #[error("refused: {0}")]
    Refused(RefusalMessage<ParseError>),
    /// The file isn't an object, and holds this number of them.
    #[error("refused: it isn't an object, but holds {count}: --check with --types judges them")]
    HoldsObjects { count: usize },
    /// No file holds objects.
    #[error("refused: no object is in these files")]
    NoObjects,
    /// Objects can't be taken out of the files.
    #[error("{0}")]
    Extract(#[from] ExtractError),
    /// The text can't be written.
    #[error("the text {0}")]
    Unwritten(#[from] Unwritten),
}

impl ProgramError {
    /// The status that the program ends with: 1 where the object is refused, else 2.
    pub(crate) fn status(&self) -> u8
        ensures { result ≡ status_of self.now }
    {
        match self {
            ProgramError::Refused(_)
            | ProgramError::HoldsObjects { .. }
            | ProgramError::NoObjects => 1,
            _ => 2,
        }
    }
}

/// The error where an object or a plan has no program of the name that the line wants.
pub(crate) fn no_program(alloc: Global, wanted: &str, names: &FirstNames<'_>) -> ProgramError {
    let wanted = ShortName { name: wanted };
    match format!(in alloc; "no program is called {wanted}; there are {names}") {
        Ok(text) => ProgramError::NoProgram { text },
        Err(error) => ProgramError::OutOfMemory(error),
    }
}
