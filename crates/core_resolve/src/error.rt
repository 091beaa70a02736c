//! Why a type relocation can't be resolved.

ghost use Rattle.std.specs.Prelude.{◌≡◌, ◌≢◌};
ghost use Rattle.core_spec.specs.declared.error.AccessError.TheVariants.{BtfError as TypeError};
ghost use Rattle.btf_records.specs.declared.error.BtfError.TheVariants.{OutOfMemory as NoMemory};
ghost use Rattle.core_resolve.specs.Matches.{of_candidates};
ghost use Rattle.core_resolve.specs.declared.error.TypeRelocationError.TheVariants.{Kernel, Local, OutOfMemory};

use btf_records::BtfError;
use core_match::{CandidateError, KernelType};
use core_spec::AccessError;
use std::alloc::{AllocError, AllocFailed};
use thiserror::Error;

/// Why a type relocation can't be resolved.
#[derive(Debug, Drop, Error)]
pub enum TypeRelocationError {
    /// Its access has no path, or no value, in the object's own types.
    #[error("{0}")]
    Local(AccessError),
    /// The name of a kernel type of the wanted kind can't be read, at an offset of the strings of
    /// its table.
    #[error("the name of type id {} of kernel table {} can't be read", .place.type_id, .place.table)]
    UnreadableName {
        place: KernelType,
        offset: u32,
    },
    /// A kernel type of the wanted kind and name can't be compared with the object's type, or its
    /// size can't be computed where the relocation is for the size.
    #[error("type id {} of kernel table {}: {error}", .place.type_id, .place.table)]
    Kernel {
        place: KernelType,
        error: AccessError,
    },
    /// A match has another offset, or another value, than the first match.
    #[error("conflicting candidates")]
    ConflictingCandidates,
    /// The relocation is for the id or the size of a type that the kernel doesn't have.
    #[error("missing target definition")]
    MissingTargetDefinition,
    /// Memory ran out.
    #[error("out of memory")]
    OutOfMemory,
}

impl From<AccessError> for TypeRelocationError {
    ghost from_gives = { λ error e.
        e ≢ OutOfMemory → (e ≡ Local error) × (error ≢ TypeError NoMemory) };

    fn from(error: AccessError) -> TypeRelocationError {
        match error {
            AccessError::BtfError(BtfError::OutOfMemory) => TypeRelocationError::OutOfMemory,
            error => TypeRelocationError::Local(error),
        }
    }
}

impl From<CandidateError> for TypeRelocationError {
    ghost from_gives = { λ error e. e ≡ of_candidates error };

    fn from(error: CandidateError) -> TypeRelocationError {
        match error {
            CandidateError::UnreadableName { place, offset } => {
                TypeRelocationError::UnreadableName { place, offset }
            }
            CandidateError::OutOfMemory => TypeRelocationError::OutOfMemory,
        }
    }
}

impl From<AllocError> for TypeRelocationError {
    ghost from_gives = { λ _ e. e ≡ OutOfMemory };

    fn from(_error: AllocError) -> TypeRelocationError {
        TypeRelocationError::OutOfMemory
    }
}

impl<T: Drop> From<AllocFailed<T>> for TypeRelocationError {
    ghost from_gives = { λ _ e. e ≡ OutOfMemory };

    fn from(_error: AllocFailed<T>) -> TypeRelocationError {
        TypeRelocationError::OutOfMemory
    }
}

/// The error of a type relocation, for an error at a kernel type.
pub(crate) fn at_kernel_type(place: KernelType, error: AccessError) -> TypeRelocationError
    ensures { result ≢ OutOfMemory → (result ≡ Kernel place error) × (error ≢ TypeError NoMemory) }
{
    match error {
        AccessError::BtfError(BtfError::OutOfMemory) => TypeRelocationError::OutOfMemory,
        error => TypeRelocationError::Kernel { place, error },
    }
}
