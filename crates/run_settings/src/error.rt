//! Why a document has no settings.

ghost use Rattle.std.specs.Prelude.{◌≡◌};
ghost use Rattle.run_settings.specs.declared.error.SettingsError.TheVariants.{OutOfMemory};

use std::alloc::AllocError;
use thiserror::Error;

/// Why a text has no settings.
#[derive(Clone, Copy, Debug, PartialEq, Eq, Error)]
pub enum SettingsError {
    /// It isn't a TOML document, or its table has another key, or a value of another form.
    #[error("the settings are invalid")]
    Invalid,
    #[error("out of memory")]
    OutOfMemory,
}

impl From<AllocError> for SettingsError {
    ghost from_gives = { λ _ e. e ≡ OutOfMemory };

    fn from(_error: AllocError) -> SettingsError {
        SettingsError::OutOfMemory
    }
}
