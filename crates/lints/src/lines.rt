//! Lines of a document, by keys.

use std::alloc::{AllocError, Global};

/// The key of a line, as it is written.
enum LineKey<'t> {
    /// Of a table, whose entries follow.
    Table(&'t str),
    /// Of an entry of the last table.
    Entry(&'t str),
}

/// The key of a line, if it has one.
fn key_in(line: &str) -> Option<LineKey<'_>> {
    let line = line.trim();
    match line.strip_prefix('[') {
        Some(table) => table.split_once(']').map(|(key, _)| LineKey::Table(key)),
        None => line.split_once('=').map(|(key, _)| LineKey::Entry(key)),
    }
}

/// Adds the names of a key, without white space and quotes, each with a dot before it.
fn push_names(path: &mut String, key: &str) -> Result<(), AllocError> {
    for name in key.split('.') {
        path.push_str(".")?;
        path.push_str(
            name.trim()
                .trim_matches(|letter| letter == '"' || letter == '\''),
        )?;
    }
    Ok(())
}

/// Whether a key is that of a table or an entry, or lies in it.
fn has_key(path: &str, key: &str) -> bool {
    match key.strip_prefix(path) {
        Some(rest) => rest.is_empty() || rest.starts_with('.'),
        None => false,
    }
}

/// The path of the key of a line. `table` is that of the last table.
fn path_of(alloc: Global, line: &str, table: &mut String) -> Result<Option<String>, AllocError> {
    let mut path = String::new(alloc);
    match key_in(line) {
        Some(LineKey::Table(names)) => {
            push_names(&mut path, names)?;
            *table = path.clone()?;
        }
        Some(LineKey::Entry(names)) => {
            path.push_str(table)?;
            push_names(&mut path, names)?;
        }
        None => return Ok(None),
    }
    Ok(Some(path))
}

/// The number, from 1, of the line with a key, as far as a search line by line finds it: the last
/// line whose table or entry has the key, else the first one that lies in it.
pub(crate) fn line_of(alloc: Global, text: &str, key: &str) -> Result<Option<usize>, AllocError> {
    let mut wanted = String::new(alloc);
    push_names(&mut wanted, key)?;
    let mut table = String::new(alloc);
    let mut found = None;
    let mut below = None;
    for (index, line) in text.lines().enumerate() {
        let Some(path) = path_of(alloc, line, &mut table)? else {
            continue;
        };
        if has_key(&path, &wanted) {
            found = index.checked_add(1);
        } else if below.is_none() && has_key(&wanted, &path) {
            below = index.checked_add(1);
        }
    }
    Ok(found.or(below))
}
