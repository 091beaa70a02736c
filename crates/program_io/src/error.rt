//! Why a program can't get its arguments or files.

ghost use Rattle.std.specs.Prelude.{◌≡◌};
ghost use Rattle.program_io.specs.declared.error.InputError.TheVariants.{OutOfMemory};

use crate::folders::Wanted;
use btf_records::BtfError;
use std::alloc::{AllocError, AllocFailed};
use std::io;
use thiserror::Error;
use type_files::TypesFault;

/// Why arguments or files can't be read.
#[derive(Debug, Drop, Error)]
pub enum InputError {
    /// A word isn't UTF-8.
    #[error("a word isn't UTF-8")]
    WordNotText,
    /// A file can't be read.
    #[error("can't read {name:?}: {error}")]
    Read { name: String, error: io::Error },
    /// The kernel types of a file can't be parsed.
    #[error("kernel types in {name:?}: {error}")]
    Types { name: String, error: BtfError },
    /// They can't be parsed, and begin like types of the other byte order.
    #[error("kernel types in {name:?}: {error}; they begin as types of the other byte order (--types-order)")]
    TypesOrder { name: String, error: BtfError },
    /// The file holds no types of a kernel.
    #[error("kernel types in {name:?}: {fault}")]
    NoTypes { name: String, fault: TypesFault },
    /// The first bytes of the file say nothing.
    #[error("kernel types in {name:?}: the file begins neither as types nor as an ELF file")]
    Unmarked { name: String },
    /// The file begins like types of the other byte order.
    #[error("kernel types in {name:?}: they begin as types of the other byte order (--types-order)")]
    OtherOrder { name: String },
    /// A folder has no files of the kind that is wanted.
    #[error("no {wanted} is in the folder {name:?}")]
    EmptyFolder { name: String, wanted: Wanted },
    /// There are more files with kernel types than the maximum number of tables.
    #[error("more than 4294967296 files of kernel types")]
    TooManyTypes,
    /// Memory ran out.
    #[error("out of memory")]
    OutOfMemory,
}

impl From<AllocError> for InputError {
    ghost from_gives = { λ _ e. e ≡ OutOfMemory };

    fn from(_error: AllocError) -> InputError {
        InputError::OutOfMemory
    }
}

impl<T: Drop> From<AllocFailed<T>> for InputError {
    ghost from_gives = { λ _ e. e ≡ OutOfMemory };

    fn from(_error: AllocFailed<T>) -> InputError {
        InputError::OutOfMemory
    }
}
