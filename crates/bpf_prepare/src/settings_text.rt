//! Messages about a text of settings, in one line.

use command_line::first_paragraph;
use lints::invalid_text;
use std::alloc::{AllocError, Global};

/// What is wrong with a text of settings.
pub(crate) fn fault_text(alloc: Global, text: &str) -> Result<String, AllocError> {
    match toml::table_from_str(alloc, text) {
        Ok(table) => match invalid_text(alloc, text, &table)? {
            Some(fault) => Ok(fault),
            None => String::from_str(alloc, "they can't be read"),
        },
        Err(error) => {
            let text = format!(in alloc; "{error}")?;
            first_paragraph(alloc, &text)
        }
    }
}
