//! The answers on kernels, as lines.

use crate::causes::answer_lines;
use quoting::Text;
use report_texts::{Column, Rows};
use std::alloc::{AllocError, Global};

/// Kernels with one answer.
#[derive(Drop)]
struct Group<'f> {
    answer: Vec<String>,
    /// Whether the kernels take the object, so that two names of them are enough.
    is_taken: bool,
    names: Vec<&'f str>,
    /// How many there are besides these.
    more: usize,
}

impl<'f> Group<'f> {
    /// One more kernel.
    fn add(&mut self, file: &'f str) -> Result<(), AllocError> {
        if self.is_taken && self.names.len() > 1 {
            self.more = self.more.saturating_add(1);
            return Ok(());
        }
        self.names.push(file)?;
        Ok(())
    }
}

/// Adds a kernel to the group of its answer.
fn add_to<'f>(
    alloc: Global,
    groups: &mut Vec<Group<'f>>,
    rows: &Rows<'_, '_>,
    column: &Column<'f>,
) -> Result<(), AllocError> {
    let answer = answer_lines(alloc, rows, column)?;
    for group in groups.iter_mut() {
        if group.answer == answer {
            return group.add(column.file);
        }
    }
    let mut names = Vec::new(alloc);
    names.push(column.file)?;
    groups.push(Group {
        answer,
        is_taken: !column.is_unread() && !column.fails(rows),
        names,
        more: 0,
    })?;
    Ok(())
}

/// The kernels by their answers, in the order of the first kernel of each.
fn groups_of<'f>(
    alloc: Global,
    rows: &Rows<'_, '_>,
    columns: &[Column<'f>],
    only_failures: bool,
) -> Result<Vec<Group<'f>>, AllocError> {
    let mut groups = Vec::new(alloc);
    for column in columns {
        if !only_failures || column.fails(rows) {
            add_to(alloc, &mut groups, rows, column)?;
        }
    }
    Ok(groups)
}

/// Appends the names of a group's kernels.
fn push_names(text: &mut String, group: &Group<'_>) -> Result<(), AllocError> {
    let mut separator = "";
    for name in &group.names {
        write!(text, "{separator}{}", Text::of(name))?;
        separator = ", ";
    }
    if group.more > 0 {
        write!(text, " and {} more", group.more)?;
    }
    Ok(())
}

/// Appends the lines of a group: each has the names of its kernels, and before them the object's
/// name where there is one.
fn push_group(
    text: &mut String,
    object: Option<&str>,
    group: &Group<'_>,
) -> Result<(), AllocError> {
    for line in &group.answer {
        if let Some(object) = object {
            write!(text, "{}: ", Text::of(object))?;
        }
        push_names(text, group)?;
        writeln!(text, ": {line}")?;
    }
    Ok(())
}

/// Appends the answers on kernels, as [`check_text`] does, or only those of kernels that don't take
/// the object. Each line begins with the object's name where one is given.
///
/// # Errors
///
/// `AllocError` where memory runs out.
pub fn push_answers(
    alloc: Global,
    text: &mut String,
    object: Option<&str>,
    rows: &Rows<'_, '_>,
    columns: &[Column<'_>],
    only_failures: bool,
) -> Result<(), AllocError> {
    for group in &groups_of(alloc, rows, columns, only_failures)? {
        push_group(text, object, group)?;
    }
    Ok(())
}

/// The answers on kernels: for each answer a line, or a line for each cause, with the names of the
/// kernels that have the answer; of those that take the object, the first two and how many more.
///
/// # Errors
///
/// `AllocError` where memory runs out.
pub fn check_text(
    alloc: Global,
    rows: &Rows<'_, '_>,
    columns: &[Column<'_>],
) -> Result<String, AllocError> {
    let mut text = String::new(alloc);
    push_answers(alloc, &mut text, None, rows, columns, false)?;
    Ok(text)
}
