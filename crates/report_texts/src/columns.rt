//! Reports on the kernels of files.

ghost use Rattle.std.specs.Prelude.{◌≡◌};
ghost use Rattle.std.specs.Option.{option_copied};
ghost use Rattle.report_texts.specs.Columns.{fails, has_strict_cause, has_unattached, has_unknown_symbol, is_needed, is_unattached, is_unknown_symbol, is_taken, is_unread, lacks_program, plan_report_of, report_of};

use crate::rows::{ExternKind, ExternRow, ProgramRow, Rows};
use kernel_reports::{
    Attachment, KindNeed, PlanReport, Presence, ProgramReport, Reach, RelocationAnswer, SlotPlace,
};

/// Whether the object gets a plan for a kernel.
#[derive(Debug, Drop)]
pub enum ColumnPlan {
    /// The message where it gets none.
    Refused(String),
    /// What the kernel makes of the plan, where the kernel's types are given.
    Planned(Option<PlanReport>),
}

/// What becomes of the object on a kernel. A check alone leaves the lists behind `has_symbols` empty.
#[derive(Debug)]
pub struct ColumnReport {
    pub plan: ColumnPlan,
    /// For each program of the plan, and each of its calls that the kernel doesn't take, the slot
    /// of a function of the object that the call's slot is a copy of.
    pub call_places: Vec<Vec<Option<SlotPlace>>>,
    /// For each program of the plan whether the kernel has what it is attached to once it is loaded.
    pub attachments: Vec<Attachment>,
    /// Whether the kernel's symbols are given.
    pub has_symbols: bool,
    /// Whether the kernel has the kinds of records of the object's own types.
    pub kinds: Vec<KindNeed>,
    /// The results of the object's type relocations, one by one.
    pub relocations: Vec<RelocationAnswer>,
    /// Whether a run can reach their poison, one by one.
    pub reaches: Vec<Option<Reach>>,
    /// Whether the kernel has its externs, by name.
    pub externs: Vec<Presence>,
}

impl Drop for ColumnReport {
    // One call wherever it is dropped, in place of one for each part.
    fn drop(self) {
        let ColumnReport {
            plan: _plan,
            call_places: _call_places,
            attachments: _attachments,
            has_symbols: _,
            kinds: _kinds,
            relocations: _relocations,
            reaches: _reaches,
            externs: _externs,
        } = self;
    }
}

/// What is known of the kernel of a file.
#[derive(Debug, Drop)]
pub enum ColumnAnswer {
    /// Why the file can't be read as a kernel's types.
    Unread(String),
    Report(ColumnReport),
}

/// Whether a program isn't taken that the object needs.
fn is_needed(is_strict: bool, program: &ProgramRow<'_>, report: &ProgramReport) -> bool
    ensures { result ≡ is_needed is_strict (program.now, report.now) }
{
    !program.is_optional
        && (!report.causes.is_empty() || (is_strict && !report.unknowns.is_empty()))
}

/// Whether one of the programs isn't taken that the object needs.
fn lacks_program(is_strict: bool, programs: &[ProgramRow<'_>], reports: &[ProgramReport]) -> bool
    ensures { result ≡ lacks_program is_strict programs.now reports.now }
{
    programs
        .iter()
        .zip(reports)
        .any(|(program, report)| is_needed(is_strict, program, report))
}

/// Whether an extern is a symbol that the kernel must have and that isn't known, since no symbols are
/// given.
pub fn is_unknown_symbol(has_symbols: bool, row: &ExternRow<'_>) -> bool
    ensures { result ≡ is_unknown_symbol has_symbols row.now }
{
    !has_symbols && !row.is_weak && row.kind == ExternKind::Symbol
}

/// Whether one of the externs is such a symbol.
pub fn has_unknown_symbol(has_symbols: bool, externs: &[ExternRow<'_>]) -> bool
    ensures { result ≡ has_unknown_symbol has_symbols externs.now }
{
    externs
        .iter()
        .any(|row| is_unknown_symbol(has_symbols, row))
}

/// Whether the object needs a program, and what it is attached to is missing.
fn is_unattached(program: &ProgramRow<'_>, attachment: &Attachment) -> bool
    ensures { result ≡ is_unattached (program.now, attachment.now) }
{
    !program.is_optional && *attachment == Attachment::Missing
}

/// Whether one of the programs is such.
fn has_unattached(programs: &[ProgramRow<'_>], attachments: &[Attachment]) -> bool
    ensures { result ≡ has_unattached programs.now attachments.now }
{
    programs
        .iter()
        .zip(attachments)
        .any(|(program, attachment)| is_unattached(program, attachment))
}

/// Whether something is a cause in a strict check alone: a symbol that isn't known, or what a program
/// is attached to that is missing.
fn has_strict_cause(rows: &Rows<'_, '_>, report: &ColumnReport) -> bool
    ensures { result ≡ has_strict_cause rows.now report.now }
{
    has_unknown_symbol(report.has_symbols, &rows.externs)
        || has_unattached(&rows.programs, &report.attachments)
}

/// Whether the kernel takes the object, as far as its types say.
fn is_taken(rows: &Rows<'_, '_>, report: &ColumnReport) -> bool
    ensures { result ≡ is_taken rows.now report.now }
{
    if rows.object_cause.is_some() {
        return false;
    }
    match &report.plan {
        ColumnPlan::Refused(_) => false,
        ColumnPlan::Planned(None) => true,
        ColumnPlan::Planned(Some(plan)) => {
            !lacks_program(rows.is_strict, &rows.programs, &plan.programs)
                && !(rows.is_strict && has_strict_cause(rows, report))
        }
    }
}

/// The kernel of a file: a column of the table.
#[derive(Debug)]
pub struct Column<'f> {
    pub file: &'f str,
    pub answer: ColumnAnswer,
}

impl<'f> Drop for Column<'f> {
    // One call wherever it is dropped, in place of one for each part.
    fn drop(self) {
        let Column {
            file: _,
            answer: _answer,
        } = self;
    }
}

impl<'f> Column<'f> {
    /// The report, where the file can be read.
    pub fn report(&self) -> Option<&ColumnReport>
        ensures { option_copied result ≡ report_of self.now.answer }
    {
        match &self.answer {
            ColumnAnswer::Report(report) => Some(report),
            ColumnAnswer::Unread(_) => None,
        }
    }

    /// What the kernel makes of the plan, where there is one and the kernel's types are given.
    pub fn plan_report(&self) -> Option<&PlanReport>
        ensures { option_copied result ≡ plan_report_of self.now.answer }
    {
        match &self.report()?.plan {
            ColumnPlan::Planned(Some(report)) => Some(report),
            ColumnPlan::Planned(None) | ColumnPlan::Refused(_) => None,
        }
    }

    /// Whether the file can't be read as a kernel's types.
    pub fn is_unread(&self) -> bool
        ensures { result ≡ is_unread self.now.answer }
    {
        matches!(&self.answer, ColumnAnswer::Unread(_))
    }

    /// Whether the kernel doesn't take the object of these rows, as far as its types say: no kernel
    /// does, the object gets no plan, or there is a cause against a program that isn't optional.
    pub fn fails(&self, rows: &Rows<'_, '_>) -> bool
        ensures { result ≡ fails rows.now self.now.answer }
    {
        match &self.answer {
            ColumnAnswer::Unread(_) => false,
            ColumnAnswer::Report(report) => !is_taken(rows, report),
        }
    }
}
