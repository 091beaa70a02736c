//! Why an object gets no plan.

ghost use Rattle.std.specs.Prelude.{◌≡◌};
ghost use Rattle.plan_errors.specs.Errors.{of_ksyms, of_parse, of_relocation, of_type_relocation, of_types};
ghost use Rattle.plan_errors.specs.declared.error.PrepareError.TheVariants.{OutOfMemory};

use btf_records::BtfError;
use ebpf_items::ParseError;
use extern_resolution::KsymsError;
use relocation_errors::{
    BtfRelocationCause, BtfRelocationError, EbpfRelocationError, RelocationError,
};
use std::alloc::{AllocError, AllocFailed};
use thiserror::Error;

/// Why an object gets no plan.
#[derive(Debug, Drop, Error)]
pub enum PrepareError {
    /// The object can't be parsed, or a value of a global variable can't be put into its maps.
    #[error("{0}")]
    Parse(ParseError),
    /// A function record names a type that isn't a function with a name.
    #[error("function {function:?} has a record of type {type_id}, which is no function with a name")]
    FunctionRecordType {
        /// The function's own name.
        function: String,
        /// The record's type.
        type_id: u32,
    },
    /// No number is set for a map.
    #[error("map {name:?} has no number")]
    MapNumberMissing {
        /// The map's name.
        name: String,
    },
    /// The object has type relocations, and no kernel types are given.
    #[error("type relocations need kernel types")]
    KernelTypesRequired,
    /// An extern can't be resolved by the kernel's types and symbols.
    #[error("{0}")]
    Ksyms(KsymsError),
    /// A type relocation can't be made.
    #[error("{0}")]
    BtfRelocation(BtfRelocationError),
    /// The object's types can't be rewritten to the kernel's features.
    #[error("{0}")]
    Types(BtfError),
    /// A slot can't get a map's number or what is known about an extern, or a program can't be
    /// linked to the functions that it reaches.
    #[error("{0}")]
    Relocation(EbpfRelocationError),
    /// Memory ran out.
    #[error("out of memory")]
    OutOfMemory,
}

/// Out of memory stays out of memory.
impl From<ParseError> for PrepareError {
    ghost from_gives = { λ error e. e ≡ of_parse error };

    fn from(error: ParseError) -> PrepareError {
        match error {
            ParseError::OutOfMemory => PrepareError::OutOfMemory,
            error => PrepareError::Parse(error),
        }
    }
}

/// Out of memory stays out of memory.
impl From<KsymsError> for PrepareError {
    ghost from_gives = { λ error e. e ≡ of_ksyms error };

    fn from(error: KsymsError) -> PrepareError {
        match error {
            KsymsError::OutOfMemory => PrepareError::OutOfMemory,
            error => PrepareError::Ksyms(error),
        }
    }
}

/// Out of memory stays out of memory.
impl From<BtfError> for PrepareError {
    ghost from_gives = { λ error e. e ≡ of_types error };

    fn from(error: BtfError) -> PrepareError {
        match error {
            BtfError::OutOfMemory => PrepareError::OutOfMemory,
            error => PrepareError::Types(error),
        }
    }
}

/// Out of memory stays out of memory.
impl From<BtfRelocationError> for PrepareError {
    ghost from_gives = { λ error e. e ≡ of_type_relocation error };

    fn from(error: BtfRelocationError) -> PrepareError {
        if let BtfRelocationCause::OutOfMemory = error.error() {
            return PrepareError::OutOfMemory;
        }
        PrepareError::BtfRelocation(error)
    }
}

/// Out of memory stays out of memory.
impl From<EbpfRelocationError> for PrepareError {
    ghost from_gives = { λ error e. e ≡ of_relocation error };

    fn from(error: EbpfRelocationError) -> PrepareError {
        if let RelocationError::OutOfMemory = error.error() {
            return PrepareError::OutOfMemory;
        }
        PrepareError::Relocation(error)
    }
}

impl From<AllocError> for PrepareError {
    ghost from_gives = { λ _ e. e ≡ OutOfMemory };

    fn from(_error: AllocError) -> PrepareError {
        PrepareError::OutOfMemory
    }
}

impl<T: Drop> From<AllocFailed<T>> for PrepareError {
    ghost from_gives = { λ _ e. e ≡ OutOfMemory };

    fn from(_error: AllocFailed<T>) -> PrepareError {
        PrepareError::OutOfMemory
    }
}
