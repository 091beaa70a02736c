//! Why an object isn't printed whole.

ghost use Rattle.std.specs.Prelude.{◌≡◌};
ghost use Rattle.object_text.specs.declared.error.InspectError.TheVariants.{Refused};

use ebpf_object::ParseError;
use thiserror::Error;

/// Why [`inspect`](crate::inspecting::inspect) doesn't print an object whole.
#[derive(Debug, Drop, Error)]
pub enum InspectError {
    /// The object can't be parsed.
    #[error("refused: {0}")]
    Refused(ParseError),
    /// The writer failed.
    #[error("the text can't be written")]
    Output,
}

impl From<ParseError> for InspectError {
    ghost from_gives = { λ error e. e ≡ Refused error };

    fn from(error: ParseError) -> InspectError {
        InspectError::Refused(error)
    }
}
