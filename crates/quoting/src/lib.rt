//! The words of the lines that programs print: texts, bytes, numbers, ids and names.
#![tactic(auto)]

mod names;
mod words;

pub use names::{FirstNames, ShortName};
pub use words::{Hex, Id, Number, QuotedText, Text};
