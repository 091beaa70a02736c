//! Reports on several kernels as a table.

use crate::cells::{
    push_kind_cells, push_kind_labels, push_map_cells, push_map_labels, push_program_cells,
    push_program_labels,
};
use quoting::{QuotedText, Text};
use report_objects::cause_texts;
use report_texts::{
    AnswerCell, Column, ColumnAnswer, ColumnPlan, ColumnReport, Rows, poison_cell_suffix,
    presence_word,
};
use std::alloc::{AllocError, Global};

/// The content of a table: the beginnings of its lines, and its cells, column by column.
#[derive(Drop)]
struct Table {
    labels: Vec<String>,
    columns: Vec<Vec<String>>,
}

fn labels_of(alloc: Global, rows: &Rows<'_, '_>) -> Result<Vec<String>, AllocError> {
    let mut labels = Vec::new(alloc);
    labels.push(String::from_str(alloc, "plan")?)?;
    labels.push(String::from_str(alloc, "check")?)?;
    push_program_labels(alloc, rows, &mut labels)?;
    push_map_labels(alloc, rows, &mut labels)?;
    push_kind_labels(alloc, rows, &mut labels)?;
    push_relocation_labels(alloc, rows, &mut labels)?;
    push_extern_labels(alloc, rows, &mut labels)?;
    Ok(labels)
}

fn push_relocation_labels(
    alloc: Global,
    rows: &Rows<'_, '_>,
    labels: &mut Vec<String>,
) -> Result<(), AllocError> {
    for row in &rows.relocations {
        let section = Text::of(row.section.unwrap_or("-"));
        let function = Text::of(row.function.unwrap_or("-"));
        let instruction = row.instruction;
        let asked = Text::of(&row.asked);
        labels.push(format!(in alloc; "{section} {function} {instruction} {asked}")?)?;
    }
    Ok(())
}

fn push_extern_labels(
    alloc: Global,
    rows: &Rows<'_, '_>,
    labels: &mut Vec<String>,
) -> Result<(), AllocError> {
    for row in &rows.externs {
        let name = Text::of(row.name);
        labels.push(format!(in alloc; "extern {name}")?)?;
    }
    Ok(())
}

fn plan_cell(column: &Column<'_>) -> &'static str {
    match &column.answer {
        ColumnAnswer::Unread(_) => "unread",
        ColumnAnswer::Report(report) => match report.plan {
            ColumnPlan::Refused(_) => "no",
            ColumnPlan::Planned(_) => "yes",
        },
    }
}

fn check_cell(rows: &Rows<'_, '_>, column: &Column<'_>) -> &'static str {
    if column.is_unread() {
        "-"
    } else if column.fails(rows) {
        "fails"
    } else {
        "ok"
    }
}

fn push_relocation_cells(
    alloc: Global,
    report: &ColumnReport,
    cells: &mut Vec<String>,
) -> Result<(), AllocError> {
    for (answer, reach) in report.relocations.iter().zip(&report.reaches) {
        let cell = AnswerCell(answer);
        let suffix = poison_cell_suffix(answer, *reach);
        cells.push(format!(in alloc; "{cell}{suffix}")?)?;
    }
    Ok(())
}

fn push_extern_cells(
    alloc: Global,
    report: &ColumnReport,
    cells: &mut Vec<String>,
) -> Result<(), AllocError> {
    for presence in &report.externs {
        cells.push(String::from_str(alloc, presence_word(*presence))?)?;
    }
    Ok(())
}

fn cells_of(
    alloc: Global,
    rows: &Rows<'_, '_>,
    column: &Column<'_>,
) -> Result<Vec<String>, AllocError> {
    let mut cells = Vec::new(alloc);
    cells.push(String::from_str(alloc, plan_cell(column))?)?;
    cells.push(String::from_str(alloc, check_cell(rows, column))?)?;
    push_program_cells(alloc, rows, column.plan_report(), &mut cells)?;
    push_map_cells(alloc, rows, column.plan_report(), &mut cells)?;
    if let Some(report) = column.report() {
        push_kind_cells(alloc, &report.kinds, &mut cells)?;
        push_relocation_cells(alloc, report, &mut cells)?;
        push_extern_cells(alloc, report, &mut cells)?;
    }
    Ok(cells)
}

fn table_of(
    alloc: Global,
    rows: &Rows<'_, '_>,
    columns: &[Column<'_>],
) -> Result<Table, AllocError> {
    let mut table = Table {
        labels: labels_of(alloc, rows)?,
        columns: Vec::new(alloc),
    };
    for column in columns {
        table.columns.push(cells_of(alloc, rows, column)?)?;
    }
    Ok(table)
}

/// The length of the longest text in bytes, but at least `least`.
fn width_of(texts: &[String], least: usize) -> usize {
    let mut width = least;
    for text in texts {
        width = width.max(text.len());
    }
    width
}

/// The widths of columns.
fn widths_of(alloc: Global, columns: &[Vec<String>]) -> Result<Vec<usize>, AllocError> {
    let mut widths = Vec::new(alloc);
    for (number, cells) in columns.iter().enumerate() {
        let head = format!(in alloc; "{}", number.saturating_add(1))?;
        widths.push(width_of(cells, head.len()))?;
    }
    Ok(widths)
}

/// Appends a text, and spaces up to a width.
fn push_padded(text: &mut String, cell: &str, width: usize) -> Result<(), AllocError> {
    text.push_str(cell)?;
    for _ in cell.len()..width {
        text.push(' ')?;
    }
    Ok(())
}

/// The cell in a line, empty where there is none.
fn cell_at(cells: &[String], line: usize) -> &str {
    match cells.get(line) {
        Some(cell) => cell.as_str(),
        None => "",
    }
}

/// Whether the cells in a line differ.
fn differs(columns: &[Vec<String>], line: usize) -> bool {
    let Some(first) = columns.first() else {
        return false;
    };
    let wanted = cell_at(first, line);
    for cells in columns {
        if cell_at(cells, line) != wanted {
            return true;
        }
    }
    false
}

/// Ends a line that may end with spaces.
fn end_line(text: &mut String, line: &str) -> Result<(), AllocError> {
    text.push_str(line.trim_end())?;
    text.push('\n')
}

/// Appends the line of the columns' numbers.
fn push_head(
    alloc: Global,
    text: &mut String,
    label_width: usize,
    widths: &[usize],
) -> Result<(), AllocError> {
    let mut line = String::from_str(alloc, "  ")?;
    push_padded(&mut line, "", label_width)?;
    for (number, width) in widths.iter().enumerate() {
        line.push_str("  ")?;
        let head = format!(in alloc; "{}", number.saturating_add(1))?;
        push_padded(&mut line, &head, *width)?;
    }
    end_line(text, &line)
}

/// Appends a line of the table; it begins with a star where its cells differ.
fn push_line(
    alloc: Global,
    text: &mut String,
    table: &Table,
    label_width: usize,
    widths: &[usize],
    number: usize,
) -> Result<(), AllocError> {
    let mark = if differs(&table.columns, number) {
        "* "
    } else {
        "  "
    };
    let mut line = String::from_str(alloc, mark)?;
    push_padded(&mut line, cell_at(&table.labels, number), label_width)?;
    for (cells, width) in table.columns.iter().zip(widths) {
        line.push_str("  ")?;
        push_padded(&mut line, cell_at(cells, number), *width)?;
    }
    end_line(text, &line)
}

/// Appends the names of the columns' kernels.
fn push_legend(text: &mut String, columns: &[Column<'_>]) -> Result<(), AllocError> {
    for (number, column) in columns.iter().enumerate() {
        let number = number.saturating_add(1);
        writeln!(text, "kernel {number}: {}", QuotedText(column.file))?;
    }
    Ok(())
}

/// Appends the causes for which a kernel doesn't take the object, or some of its programs.
fn push_causes(
    alloc: Global,
    text: &mut String,
    rows: &Rows<'_, '_>,
    number: usize,
    report: &ColumnReport,
) -> Result<(), AllocError> {
    for cause in &cause_texts(alloc, rows, report)? {
        let word = if cause.is_optional {
            "optional"
        } else {
            "fails"
        };
        writeln!(text, "kernel {number}: {word}: {}", cause.text)?;
    }
    Ok(())
}

/// Appends why a kernel has no report, no plan, or doesn't take the object.
fn push_reason(
    alloc: Global,
    text: &mut String,
    rows: &Rows<'_, '_>,
    number: usize,
    column: &Column<'_>,
) -> Result<(), AllocError> {
    match &column.answer {
        ColumnAnswer::Unread(why) => writeln!(text, "kernel {number}: no report: {why}"),
        ColumnAnswer::Report(report) => match &report.plan {
            ColumnPlan::Refused(refusal) => writeln!(text, "kernel {number}: no plan: {refusal}"),
            ColumnPlan::Planned(_) => push_causes(alloc, text, rows, number, report),
        },
    }
}

/// Appends why kernels have no report, no plan, or don't take the object.
fn push_reasons(
    alloc: Global,
    text: &mut String,
    rows: &Rows<'_, '_>,
    columns: &[Column<'_>],
) -> Result<(), AllocError> {
    for (number, column) in columns.iter().enumerate() {
        push_reason(alloc, text, rows, number.saturating_add(1), column)?;
    }
    Ok(())
}

/// The reports on several kernels as a table for a person, with a column for each kernel, and why
/// kernels have no report, no plan, or don't take the object.
pub fn summary_text(
    alloc: Global,
    rows: &Rows<'_, '_>,
    columns: &[Column<'_>],
) -> Result<String, AllocError> {
    let table = table_of(alloc, rows, columns)?;
    let widths = widths_of(alloc, &table.columns)?;
    let label_width = width_of(&table.labels, 0);
    let mut text = String::new(alloc);
    push_legend(&mut text, columns)?;
    push_head(alloc, &mut text, label_width, &widths)?;
    for number in 0..table.labels.len() {
        push_line(alloc, &mut text, &table, label_width, &widths, number)?;
    }
    push_reasons(alloc, &mut text, rows, columns)?;
    Ok(text)
}
