//! The functions and the source lines that begin at a program's slots.

use crate::object_notes::ProgramNotes;
use crate::plan_names::PlanNames;
use crate::printable::Printable;
use plan_text::{PlanProgram, bpf_line_info};
use std::alloc::{AllocError, Global};
use std::collections::BTreeMap;

/// The column at which the place of a source line stands, counted from 0.
const PLACE_COLUMN: usize = 56;

/// The names of a program's functions, by the slots at which they begin: those of the plan's
/// records, and of the object where there is no record.
pub(crate) fn function_names<'c>(
    alloc: Global,
    program: &PlanProgram<'_>,
    names: &'c PlanNames<'_>,
    notes: Option<&'c ProgramNotes<'_>>,
) -> Result<BTreeMap<usize, &'c str>, AllocError> {
    let mut functions = BTreeMap::new(alloc);
    if let Some(notes) = notes {
        for (slot, name) in notes.functions.iter() {
            functions.insert(*slot, *name)?;
        }
    }
    let records = program.func_records();
    for index in 0..records.num_info() {
        if let Some(record) = records.get(index as usize)
            && let Some(name) = names.type_name(record.type_id)
        {
            functions.insert(record.insn_off as usize, name)?;
        }
    }
    Ok(functions)
}

/// Lines of a listing, by the slot that they stand before.
pub(crate) type Marks = BTreeMap<usize, String>;

/// Adds a line before a slot, behind those that stand there.
fn add_mark(marks: &mut Marks, slot: usize, line: String) -> Result<(), AllocError> {
    match marks.get_mut(&slot) {
        Some(lines) => lines.push_str(&line),
        None => {
            marks.insert(slot, line)?;
            Ok(())
        }
    }
}

/// The source line of a record.
fn source_line(
    alloc: Global,
    names: &PlanNames<'_>,
    record: bpf_line_info,
) -> Result<String, AllocError> {
    let source = names.source(record);
    let text = source.text.unwrap_or("").trim();
    let file = source.file.unwrap_or("-");
    let mut line = format!(in alloc; "        ; {}", Printable(text))?;
    pad_to(&mut line, PLACE_COLUMN)?;
    writeln!(line, "{}:{}", Printable(file), source.line)?;
    Ok(line)
}

/// Appends spaces up to a column, at least two.
pub(crate) fn pad_to(line: &mut String, column: usize) -> Result<(), AllocError> {
    line.push_str("  ")?;
    for _ in line.len()..column {
        line.push(' ')?;
    }
    Ok(())
}

/// Whether two records are of one line.
fn are_of_one_line(one: bpf_line_info, other: bpf_line_info) -> bool {
    one.file_name_off == other.file_name_off && one.line_col >> 10 == other.line_col >> 10
}

/// Adds the source lines. Of records of one line that follow each other only the first counts,
/// unless a function begins between them. Line 0 stands for no line.
fn add_source_lines(
    alloc: Global,
    program: &PlanProgram<'_>,
    names: &PlanNames<'_>,
    functions: &BTreeMap<usize, &str>,
    marks: &mut Marks,
) -> Result<(), AllocError> {
    let records = program.line_records();
    let mut last: Option<bpf_line_info> = None;
    for index in 0..records.num_info() {
        let Some(record) = records.get(index as usize) else {
            return Ok(());
        };
        let slot = record.insn_off as usize;
        let is_same = match last {
            Some(last) => are_of_one_line(last, record) && !functions.contains_key(&slot),
            None => false,
        };
        if !is_same && record.line_col >> 10 != 0 {
            add_mark(marks, slot, source_line(alloc, names, record)?)?;
        }
        last = Some(record);
    }
    Ok(())
}

/// The lines on a program's functions and source lines, by the slots that they stand before.
pub(crate) fn marks_of(
    alloc: Global,
    program: &PlanProgram<'_>,
    names: &PlanNames<'_>,
    functions: &BTreeMap<usize, &str>,
) -> Result<Marks, AllocError> {
    let mut marks = BTreeMap::new(alloc);
    for (slot, name) in functions.iter() {
        let line = format!(in alloc; "function {}\n", Printable(name))?;
        add_mark(&mut marks, *slot, line)?;
    }
    add_source_lines(alloc, program, names, functions, &mut marks)?;
    Ok(marks)
}
