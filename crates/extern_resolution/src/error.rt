//! Why externs can't be resolved.

ghost use Rattle.std.specs.Prelude.{◌≡◌};
ghost use Rattle.extern_resolution.specs.Errors.{ksyms_error_of};
ghost use Rattle.extern_resolution.specs.declared.error.KsymsError.TheVariants.{OutOfMemory};

use btf_records::BtfError;
use std::alloc::{AllocError, AllocFailed};
use std::io;
use thiserror::Error;

/// Why an extern can't be resolved.
#[derive(Debug, Drop, Error)]
pub enum KsymsError {
    /// An extern that isn't weak has a type, and no kernel types are given.
    #[error("externs with a type need kernel types")]
    TypedKsymRequiresKernelBtf,
    /// The kernel has no variable of this name.
    #[error("no kernel variable named {name:?}")]
    VariableNotFound {
        name: String,
    },
    /// The kernel has no function of this name.
    #[error("no kernel function named {name:?}")]
    FunctionNotFound {
        name: String,
    },
    /// The kernel's function of this name has another prototype.
    #[error("the signature of kernel function {name:?} isn't compatible")]
    IncompatibleFunctionSignature {
        name: String,
    },
    /// The kernel's variable of this name has another type.
    #[error("the type of kernel variable {name:?} isn't compatible")]
    IncompatibleVariableType {
        name: String,
    },
    /// The type that declares the extern is neither a function nor a variable.
    #[error("extern {name:?} is neither a function nor a variable")]
    InvalidExternType {
        name: String,
    },
    /// A fault of the types.
    #[error("error in BTF: {0}")]
    BtfError(BtfError),
    /// The kernel's symbols give a name two addresses.
    #[error("kernel symbol {name:?} has two addresses: {first_addr:#x} or {second_addr:#x}")]
    AmbiguousResolution {
        name: String,
        first_addr: u64,
        second_addr: u64,
    },
    /// The kernel's symbols can't be read, or aren't UTF-8.
    #[error("kernel symbols can't be read: {0}")]
    KallsymsAccessError(io::Error),
    /// The address of the kernel symbol of this name isn't a hexadecimal number of 64 bits.
    #[error("the address of kernel symbol {0:?} can't be read")]
    KallsymsParseError(String),
    /// Memory ran out.
    #[error("out of memory")]
    OutOfMemory,
}

/// `OutOfMemory` stays `OutOfMemory`.
impl From<BtfError> for KsymsError {
    ghost from_gives = { λ error e. e ≡ ksyms_error_of error };

    fn from(error: BtfError) -> KsymsError {
        match error {
            BtfError::OutOfMemory => KsymsError::OutOfMemory,
            error => KsymsError::BtfError(error),
        }
    }
}

impl From<AllocError> for KsymsError {
    ghost from_gives = { λ _ e. e ≡ OutOfMemory };

    fn from(_error: AllocError) -> KsymsError {
        KsymsError::OutOfMemory
    }
}

impl<T: Drop> From<AllocFailed<T>> for KsymsError {
    ghost from_gives = { λ _ e. e ≡ OutOfMemory };

    fn from(_error: AllocFailed<T>) -> KsymsError {
        KsymsError::OutOfMemory
    }
}
