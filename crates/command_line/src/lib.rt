//! The command lines of both programs: which arguments they take, and what given arguments ask for.
#![tactic(auto)]

mod common_options;
mod format;
mod found;
mod inspect_command;
mod inspect_faults;
mod inspect_line;
mod line_text;
mod options;
mod prepare_command;
mod prepare_line;
mod prepare_reading;
mod setting_words;
mod several_types;

pub use clap::Error;
pub use format::Format;
pub use inspect_line::{InspectArguments, inspect_arguments};
pub use line_text::{LineMessage, first_paragraph, line_message};
pub use prepare_line::Arguments;
pub use prepare_reading::arguments;
pub use setting_words::WordError;
pub use several_types::spread_words;
