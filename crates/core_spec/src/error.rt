//! The errors of accesses.

ghost use Rattle.std.specs.Prelude.{◌≡◌};
ghost use Rattle.core_spec.specs.declared.error.AccessError.TheVariants.{BtfError as TypeError};
ghost use Rattle.btf_records.specs.declared.error.BtfError.TheVariants.{OutOfMemory};

use crate::path::Place;
use btf_records::BtfError;
use std::alloc::{AllocError, AllocFailed};
use thiserror::Error;

/// Why an access of a type relocation has no path in a type, or no value.
#[derive(Debug, Drop, Error)]
pub enum AccessError {
    /// The access string isn't one or more numbers of 64 bits joined by `:`, or has other numbers
    /// than the kind of the relocation requires.
    #[error("invalid access string")]
    InvalidAccessString,
    /// An index in the access string is past the members, elements or variants of a type, of which
    /// there are `len`.
    #[error("index {} is out of bounds, length {len}", .place.index)]
    InvalidAccessIndex { place: Place, len: usize },
    /// The access, or the kind of the relocation, isn't allowed for this type.
    #[error("no access of this kind to BTF type id {type_id}")]
    InvalidRelocationKindForType { type_id: u32 },
    /// A path has too many parts, or a struct or union contains itself.
    #[error("maximum nesting level reached")]
    MaximumNestingLevelReached,
    /// The types can't be read, or memory ran out.
    #[error("{0}")]
    BtfError(BtfError),
}

impl From<BtfError> for AccessError {
    ghost from_gives = { λ error e. e ≡ TypeError error };

    fn from(error: BtfError) -> AccessError {
        AccessError::BtfError(error)
    }
}

impl From<AllocError> for AccessError {
    ghost from_gives = { λ _ e. e ≡ TypeError OutOfMemory };

    fn from(_error: AllocError) -> AccessError {
        AccessError::BtfError(BtfError::OutOfMemory)
    }
}

impl<T: Drop> From<AllocFailed<T>> for AccessError {
    ghost from_gives = { λ _ e. e ≡ TypeError OutOfMemory };

    fn from(_error: AllocFailed<T>) -> AccessError {
        AccessError::BtfError(BtfError::OutOfMemory)
    }
}
