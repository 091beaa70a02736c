//! Listings.

use crate::column::{CodeColumn, CodeRow, ProgramCode};
use crate::sources::pad_to;
use quoting::QuotedText;
use std::alloc::{AllocError, Global};

/// The column at which notes stand, counted from 0.
const NOTE_COLUMN: usize = 48;

/// The width of the indexes of slots.
const INDEX_WIDTH: usize = 6;

/// The code of one program for a kernel that has a plan.
#[derive(Clone, Copy)]
struct Planned<'c> {
    /// The kernel's number, from 1.
    number: usize,
    code: &'c ProgramCode,
}

/// Appends the beginning of the line of an instruction: the index of its slot.
fn push_index(alloc: Global, text: &mut String, slot: usize) -> Result<(), AllocError> {
    let index = format!(in alloc; "{slot}")?;
    for _ in index.len()..INDEX_WIDTH {
        text.push(' ')?;
    }
    write!(text, "{index}: ")
}

/// Appends a line with what its instruction is.
fn push_row(
    alloc: Global,
    text: &mut String,
    beginning: &str,
    row: &CodeRow,
) -> Result<(), AllocError> {
    let mut line = format!(in alloc; "{beginning}{}", row.text)?;
    if !row.note.is_empty() {
        pad_to(&mut line, NOTE_COLUMN)?;
        line.push_str(&row.note)?;
    }
    text.push_str(&line)?;
    text.push('\n')
}

/// The instruction of a program that begins at a slot.
fn row_at(rows: &[CodeRow], slot: usize) -> Option<&CodeRow> {
    let place = rows.partition_point(|row| row.slot < slot);
    let row = rows.get(place)?;
    if row.slot == slot { Some(row) } else { None }
}

/// Whether the instructions at a slot are the same for all kernels.
fn are_same(planned: &[Planned<'_>], slot: usize) -> bool {
    let Some(first) = planned.first() else {
        return true;
    };
    let wanted = row_at(&first.code.rows, slot);
    planned
        .iter()
        .all(|other| same_rows(wanted, row_at(&other.code.rows, slot)))
}

fn same_rows(one: Option<&CodeRow>, other: Option<&CodeRow>) -> bool {
    match (one, other) {
        (Some(one), Some(other)) => one == other,
        (None, None) => true,
        _ => false,
    }
}

/// Appends the instructions at a slot, a line a kernel.
fn push_differing(
    alloc: Global,
    text: &mut String,
    planned: &[Planned<'_>],
    slot: usize,
) -> Result<(), AllocError> {
    let mut beginning = String::new(alloc);
    push_index(alloc, &mut beginning, slot)?;
    for kernel in planned {
        let Some(row) = row_at(&kernel.code.rows, slot) else {
            continue;
        };
        let number = kernel.number;
        write!(beginning, "[{number}] ")?;
        push_row(alloc, text, &beginning, row)?;
        beginning.clear();
        beginning.push_str("        ")?;
    }
    Ok(())
}

/// Appends what begins at a slot.
fn push_slot(
    alloc: Global,
    text: &mut String,
    planned: &[Planned<'_>],
    first: &ProgramCode,
    slot: usize,
) -> Result<(), AllocError> {
    if let Some(marks) = first.marks.get(&slot) {
        text.push_str(marks)?;
    }
    if !are_same(planned, slot) {
        return push_differing(alloc, text, planned, slot);
    }
    match row_at(&first.rows, slot) {
        Some(row) => {
            let mut beginning = String::new(alloc);
            push_index(alloc, &mut beginning, slot)?;
            push_row(alloc, text, &beginning, row)
        }
        None => Ok(()),
    }
}

/// The code of the program with an index, for each kernel that has a plan.
fn planned_of<'c>(
    alloc: Global,
    columns: &'c [CodeColumn<'_>],
    index: usize,
) -> Result<Vec<Planned<'c>>, AllocError> {
    let mut planned = Vec::new(alloc);
    for (number, column) in columns.iter().enumerate() {
        if let Some(code) = column.programs.get(index) {
            let number = number.saturating_add(1);
            planned.push(Planned { number, code })?;
        }
    }
    Ok(planned)
}

/// Appends the code of a program. Its heading, its functions and its source lines are those for the
/// first of the kernels.
fn push_program(
    alloc: Global,
    text: &mut String,
    planned: &[Planned<'_>],
) -> Result<(), AllocError> {
    let Some(first) = planned.first() else {
        return Ok(());
    };
    if !text.is_empty() {
        text.push('\n')?;
    }
    text.push_str(&first.code.heading)?;
    for slot in 0..first.code.slot_count {
        push_slot(alloc, text, planned, first.code, slot)?;
    }
    Ok(())
}

/// Appends the kernels by number, with the reasons for which the object gets no plan.
fn push_kernels(text: &mut String, columns: &[CodeColumn<'_>]) -> Result<(), AllocError> {
    let are_several = columns.len() > 1;
    for (number, column) in columns.iter().enumerate() {
        if are_several {
            let number = number.saturating_add(1);
            writeln!(text, "kernel {number}: {}", QuotedText(column.file))?;
        }
        if let Some(refusal) = &column.refusal {
            writeln!(text, "no plan: {refusal}")?;
        }
    }
    Ok(())
}

/// The largest number of programs.
fn program_count(columns: &[CodeColumn<'_>]) -> usize {
    let mut count = 0;
    for column in columns {
        count = count.max(column.programs.len());
    }
    count
}

/// The code of an object's programs for some kernels, as text: one listing, in which an instruction
/// that isn't the same for all kernels has a line for each.
///
/// The programs of all columns must be those of one object, in one order.
///
/// # Errors
///
/// `AllocError` where memory runs out.
pub fn code_text(alloc: Global, columns: &[CodeColumn<'_>]) -> Result<String, AllocError> {
    let mut text = String::new(alloc);
    push_kernels(&mut text, columns)?;
    for index in 0..program_count(columns) {
        let planned = planned_of(alloc, columns, index)?;
        push_program(alloc, &mut text, &planned)?;
    }
    Ok(text)
}
