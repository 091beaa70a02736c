//! Why a run writes no plan.

ghost use Rattle.std.specs.Prelude.{◌≡◌};
ghost use Rattle.load_plan.specs.declared.run_error.RunError.TheVariants.{Refused};

use plan_errors::PrepareError;
use thiserror::Error;

/// Why [`run`](crate::run) writes no plan.
#[derive(Debug, Drop, Error)]
pub enum RunError {
    /// The object gets no plan.
    #[error("refused: {0}")]
    Refused(PrepareError),
    /// The writer failed, or accepted no bytes.
    #[error("the plan can't be written")]
    Output,
}

impl From<PrepareError> for RunError {
    ghost from_gives = { λ error e. e ≡ Refused error };

    fn from(error: PrepareError) -> RunError {
        RunError::Refused(error)
    }
}
