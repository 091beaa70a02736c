//! What a loader sets for an object: numbers of its maps, values of its global variables.
#![tactic(auto)]

mod global_values;
mod settings;

pub use global_values::{GlobalValue, GlobalValues};
pub use settings::Settings;
