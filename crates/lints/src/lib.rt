//! Notes on an object: what its plan keeps by rule and may yet surprise a person. Hints where an
//! object can't be parsed, or a document has no settings.
#![tactic(auto)]

mod contents;
mod file;
mod keys;
mod known_sections;
mod lines;
mod machine;
mod note;
mod numbers;

pub use contents::contents_hint;
pub use file::{header_notes, object_notes};
pub use keys::invalid_text;
pub use known_sections::section_hint;
pub use machine::other_machine;
pub use note::Note;
pub use numbers::number_notes;
