//! The errors of reading kernel symbols.

ghost use Rattle.std.specs.Prelude.{◌≡◌};

use std::alloc::{AllocError, AllocFailed};
use std::io;
use thiserror::Error;

/// Why the addresses of wanted symbols can't be read from a text.
#[derive(Debug, Drop, Error)]
pub enum SymbolsError<'a> {
    /// The reader failed, or a line isn't UTF-8.
    #[error("failed to access kernel symbols: {0}")]
    Access(io::Error),
    /// The address of a wanted symbol isn't a hexadecimal number of 64 bits.
    #[error("the address of kernel symbol {0} can't be read")]
    UnreadableAddress(&'a str),
    /// A wanted symbol has two addresses.
    #[error("kernel symbol {name} has two addresses: {first_addr} or {second_addr}")]
    Ambiguous {
        name: &'a str,
        first_addr: u64,
        second_addr: u64,
    },
    /// Memory ran out.
    #[error("out of memory")]
    OutOfMemory,
}

impl<'a> From<AllocError> for SymbolsError<'a> {
    ghost use Rattle.kernel_symbols.specs.declared.error.SymbolsError.TheVariants.{OutOfMemory};

    ghost from_gives = { λ _ error. error ≡ OutOfMemory };

    fn from(_error: AllocError) -> SymbolsError<'a> {
        SymbolsError::OutOfMemory
    }
}

impl<'a, T: Drop> From<AllocFailed<T>> for SymbolsError<'a> {
    ghost use Rattle.kernel_symbols.specs.declared.error.SymbolsError.TheVariants.{OutOfMemory};

    ghost from_gives = { λ _ error. error ≡ OutOfMemory };

    fn from(_error: AllocFailed<T>) -> SymbolsError<'a> {
        SymbolsError::OutOfMemory
    }
}
