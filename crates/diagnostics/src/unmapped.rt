//! Global variables of sections without a map.

use crate::names::Named;
use object_file::{OpenedFile, ReadSymbol, last_named};
use settings::Settings;
use std::alloc::{AllocError, Global};

/// The name of the first variable with a value whose symbol lies in the section with an index; 0
/// stands for no section.
fn variable_in<'s>(
    symbols: &[ReadSymbol<'_>],
    index: usize,
    settings: &'s Settings,
) -> Option<&'s str> {
    for (name, _value) in settings.globals().iter() {
        let Some(symbol) = last_named(symbols, name.as_str()) else {
            continue;
        };
        if symbol.view().section_index().unwrap_or(0) == index {
            return Some(name.as_str());
        }
    }
    None
}

/// The same for an object, where it can be read.
fn variable_of<'s>(
    alloc: Global,
    object: &[u8],
    index: usize,
    settings: &'s Settings,
) -> Option<&'s str> {
    let file = OpenedFile::parse(alloc, object).ok()?;
    variable_in(file.symbols(), index, settings)
}

/// The message where no map is made of the section with an index (0 for none) that holds a variable
/// with a value.
pub(crate) fn unmapped_text(
    alloc: Global,
    object: &[u8],
    index: usize,
    settings: &Settings,
) -> Result<String, AllocError> {
    let section = Named::section(object, index);
    match variable_of(alloc, object, index, settings) {
        Some(name) if index == 0 => {
            format!(in alloc;
                "no map for {section}: the object declares global {name:?}, and doesn't define it"
            )
        }
        Some(name) => format!(in alloc; "no map for {section}, in which global {name:?} lies"),
        None => format!(in alloc; "no map for {section}"),
    }
}
