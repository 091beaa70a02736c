//! Why a call doesn't give what it is asked for.

ghost use Rattle.std.specs.Prelude.{◌≡◌, pos};
ghost use Rattle.morvezin.specs.Kinds.{kind_of};
ghost use Rattle.morvezin.specs.declared.failure.Failure.TheVariants.{OutOfMemory};

use plan_errors::PrepareError;
use std::alloc::AllocError;

/// Why a call doesn't give what it is asked for, with a message.
#[derive(Debug, Drop)]
pub(crate) enum Failure {
    /// The object is refused. The number of the refusal's kind comes first.
    Refused(i32, String),
    /// The settings are invalid.
    Settings(String),
    /// A table of types is invalid.
    Types(String),
    /// Memory runs out.
    OutOfMemory,
}

impl From<AllocError> for Failure {
    ghost from_gives = { λ _ e. e ≡ OutOfMemory };

    fn from(_error: AllocError) -> Failure {
        Failure::OutOfMemory
    }
}

/// The kind of a refusal by the parser.
pub(crate) const OBJECT: i32 = 1;

/// The number of a refusal's kind in `include/morvezin.h`, 0 where memory ran out.
pub(crate) fn kind_of(error: &PrepareError) -> i32
    ensures { result ≡ pos (kind_of error.now) }
{
    match error {
        PrepareError::Parse(_) => OBJECT,
        PrepareError::FunctionRecordType { .. } => 2,
        PrepareError::MapNumberMissing { .. } => 3,
        PrepareError::KernelTypesRequired => 4,
        PrepareError::Ksyms(_) => 5,
        PrepareError::BtfRelocation(_) => 6,
        PrepareError::Types(_) => 7,
        PrepareError::Relocation(_) => 8,
        PrepareError::OutOfMemory => 0,
    }
}
