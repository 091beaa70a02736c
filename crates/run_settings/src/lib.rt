//! What a user sets for a run: numbers of maps, values of global variables, and what the kernel
//! has, also from a TOML document.
#![tactic(auto)]

mod document;
mod error;
mod features;
mod globals;
mod invalid;
mod run_settings;

pub use error::SettingsError;
pub use features::{GrantedFeatures, feature_named, feature_names};
pub use invalid::invalid_key;
pub use run_settings::RunSettings;
