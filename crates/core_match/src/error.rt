//! The errors of candidates.

ghost use Rattle.std.specs.Prelude.{◌≡◌};
ghost use Rattle.core_match.specs.declared.error.CandidateError.TheVariants.{OutOfMemory};

use crate::kernel_type::KernelType;
use std::alloc::{AllocError, AllocFailed};
use thiserror::Error;

/// Why the candidates for a local type can't be found.
#[derive(Debug, Drop, Error)]
pub enum CandidateError {
    /// The name of a kernel type of the wanted kind can't be read, at an offset of the strings of
    /// its table.
    #[error("the name of type id {} of table {} can't be read", .place.type_id, .place.table)]
    UnreadableName { place: KernelType, offset: u32 },
    /// Memory ran out.
    #[error("out of memory")]
    OutOfMemory,
}

impl From<AllocError> for CandidateError {
    ghost from_gives = { λ _ e. e ≡ OutOfMemory };

    fn from(_error: AllocError) -> CandidateError {
        CandidateError::OutOfMemory
    }
}

impl<T: Drop> From<AllocFailed<T>> for CandidateError {
    ghost from_gives = { λ _ e. e ≡ OutOfMemory };

    fn from(_error: AllocFailed<T>) -> CandidateError {
        CandidateError::OutOfMemory
    }
}
