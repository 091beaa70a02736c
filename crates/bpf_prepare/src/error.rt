//! Why the program prints no plan.

ghost use Rattle.std.specs.Prelude.{◌≡◌};
ghost use Rattle.bpf_prepare.specs.Program.{status_of};

use command_line::WordError;
use diagnostics::RefusalMessage;
use load_plan::PrepareError;
use program_io::{InputError, Unwritten};
use std::alloc::AllocError;
use thiserror::Error;

/// Why the program ends without a plan.
#[derive(Debug, Drop, Error)]
pub enum ProgramError {
    /// Its arguments are invalid.
    #[error("{text}")]
    Line { text: String },
    /// An argument or a file can't be read.
    #[error("{0}")]
    Input(#[from] InputError),
    /// An argument sets nothing.
    #[error("{0}")]
    Word(#[from] WordError),
    /// A file's text holds no settings.
    #[error("settings in {name:?}: {fault}")]
    Settings { name: String, fault: String },
    /// Memory runs out for the settings, or for writing.
    #[error("out of memory")]
    OutOfMemory(#[from(alloc)] AllocError),
    /// The object gets no plan.
    #[error("refused: {0}")]
    Refused(RefusalMessage<PrepareError>),
    /// The plan can't be written.
    #[error("the plan {0}")]
    PlanUnwritten(Unwritten),
    /// The help or the version can't be written.
    #[error("the text {0}")]
    TextUnwritten(Unwritten),
}

impl ProgramError {
    /// The status that the program ends with: 1 where the object is refused, else 2.
    pub fn status(&self) -> u8
        ensures { result ≡ status_of self.now }
    {
        match self {
            ProgramError::Refused(_) => 1,
            _ => 2,
        }
    }
}
