//! Reports about an object on kernels: a table for a person, lines for tools, and a JSON document.
#![tactic(auto)]

mod cells;
mod json;
mod lines;
mod table;
mod values;

pub use json::json_text;
pub use lines::lines_text;
pub use table::summary_text;
