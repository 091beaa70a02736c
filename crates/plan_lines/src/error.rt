//! Why a line can't be read.

ghost use Rattle.std.specs.Prelude.{◌≡◌};
ghost use Rattle.plan_lines.specs.declared.error.LineError.TheVariants.{OutOfMemory};

use std::alloc::{AllocError, AllocFailed};

/// Why a line can't be read.
#[derive(Clone, Copy, Debug, PartialEq, Eq)]
pub enum LineError {
    /// It isn't a line of a plan's text.
    Invalid,
    /// Memory ran out.
    OutOfMemory,
}

impl From<AllocError> for LineError {
    ghost from_gives = { λ _ e. e ≡ OutOfMemory };

    fn from(_error: AllocError) -> LineError {
        LineError::OutOfMemory
    }
}

impl<T: Drop> From<AllocFailed<T>> for LineError {
    ghost from_gives = { λ _ e. e ≡ OutOfMemory };

    fn from(_error: AllocFailed<T>) -> LineError {
        LineError::OutOfMemory
    }
}
