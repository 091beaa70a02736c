//! Messages for refusals: the error's text with names next to indexes, the place of the fault, and
//! what helps. An error holds neither names nor places; both are found again in the object's bytes.
#![tactic(auto)]

mod definitions;
mod functions;
mod instructions;
mod kernel_files;
mod kernel_texts;
mod members;
mod names;
mod numbers;
mod parsing;
mod places;
mod preparing;
mod quoted;
mod refusal;
mod relocation_texts;
mod tables;
mod unmapped;
mod unsupported;

pub use kernel_files::KernelFiles;
pub use parsing::parse_text;
pub use places::{FaultPlace, place_of_error};
pub use preparing::prepare_text;
pub use refusal::RefusalMessage;
