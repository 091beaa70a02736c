//! What is known of an object on kernels.

ghost use Rattle.std.specs.Prelude.{◌≡◌};
ghost use Rattle.report_objects.specs.Answers.{fail_count, has_failing, has_unknown, has_unread, is_unknown, lacks_knowledge, unknown_count};

use quoting::FirstNames;
use report_checks::ProgramReport;
use report_texts::{Column, ProgramRow, Rows, has_unknown_symbol};
use std::alloc::{AllocError, Global};

/// What is known of an object on kernels.
#[derive(Debug)]
pub struct ObjectReport<'o, 't, 'w> {
    /// The name of its file.
    pub file: String,
    pub rows: Rows<'o, 't>,
    /// The kernels, in order.
    pub columns: Vec<Column<'w>>,
}

impl<'o, 't, 'w> Drop for ObjectReport<'o, 't, 'w> {
    // One call wherever it is dropped, in place of one for each part.
    fn drop(self) {
        let ObjectReport {
            file: _file,
            rows: _rows,
            columns: _columns,
        } = self;
    }
}

/// Whether something isn't known of what a program needs, which isn't optional.
fn lacks_knowledge(program: &ProgramRow<'_>, report: &ProgramReport) -> bool
    ensures { result ≡ lacks_knowledge (program.now, report.now) }
{
    !program.is_optional && !report.unknowns.is_empty()
}

/// Whether something isn't known of what one of the programs needs.
fn has_unknown(programs: &[ProgramRow<'_>], reports: &[ProgramReport]) -> bool
    ensures { result ≡ has_unknown programs.now reports.now }
{
    programs
        .iter()
        .zip(reports)
        .any(|(program, report)| lacks_knowledge(program, report))
}

/// Whether the answer on a kernel isn't known: its file can't be read, or it takes the object as far
/// as is known, and something isn't.
fn is_unknown(rows: &Rows<'_, '_>, column: &Column<'_>) -> bool
    ensures { result ≡ is_unknown rows.now column.now }
{
    if column.is_unread() {
        return true;
    }
    if column.fails(rows) {
        return false;
    }
    match (column.report(), column.plan_report()) {
        (Some(report), Some(plan)) => {
            has_unknown(&rows.programs, &plan.programs)
                || has_unknown_symbol(report.has_symbols, &rows.externs)
        }
        _ => false,
    }
}

impl<'o, 't, 'w> ObjectReport<'o, 't, 'w> {
    /// Whether one of the kernels doesn't take the object.
    pub fn has_failing(&self) -> bool
        ensures { result ≡ has_failing self.now }
    {
        let rows = &self.rows;
        self.columns.iter().any(|column| column.fails(rows))
    }

    /// Whether one of the files of kernels can't be read.
    pub fn has_unread(&self) -> bool
        ensures { result ≡ has_unread self.now }
    {
        self.columns.iter().any(|column| column.is_unread())
    }

    /// How many of the kernels don't take the object.
    pub fn fail_count(&self) -> usize
        ensures { result ≡ fail_count self.now }
    {
        let rows = &self.rows;
        self.columns
            .iter()
            .filter(|column| column.fails(rows))
            .count()
    }

    /// For how many of the kernels the answer isn't known.
    pub fn unknown_count(&self) -> usize
        ensures { result ≡ unknown_count self.now }
    {
        let rows = &self.rows;
        self.columns
            .iter()
            .filter(|column| is_unknown(rows, column))
            .count()
    }
}

/// The first names of programs.
///
/// # Errors
///
/// `AllocError` where memory runs out.
pub fn program_names<'r>(
    alloc: Global,
    reports: &[ObjectReport<'r, '_, '_>],
) -> Result<FirstNames<'r>, AllocError> {
    let mut names = FirstNames::new(alloc);
    for report in reports {
        for program in &report.rows.programs {
            names.push(program.name)?;
        }
    }
    Ok(names)
}

/// Makes the program of a name optional in each object that has it. Returns whether one has it.
pub fn make_optional(name: &str, reports: &mut [ObjectReport<'_, '_, '_>]) -> bool {
    let mut is_found = false;
    for report in reports {
        if report.rows.make_optional(name) {
            is_found = true;
        }
    }
    is_found
}
