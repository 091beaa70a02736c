//! The texts of reports about an object on kernels.

ghost use Rattle.std.specs.Prelude.{◌≡◌};
ghost use Rattle.std.specs.List.{list_any};
ghost use Rattle.report_objects.specs.Answers.{has_failing, has_unread};
ghost use Rattle.inspect_object.specs.Program.{end_of, end_status};

use crate::checks::print_on_files;
use crate::error::ProgramError;
use crate::kernels::{Kernels, add_column};
use crate::objects::{Inspected, ParsedObject, make_named_optional};
use crate::printing::refused;
use command_line::{Format, InspectArguments};
use ebpf_object::Object;
use program_io::{
    FileBytes, KernelSymbols, NamedFiles, Wanted, held_objects, named_files, print_text, read,
};
use report_formats::{json_text, lines_text, summary_text};
use report_objects::{ObjectReport, check_text};
use report_texts::{Column, Rows};
use std::alloc::{AllocError, Global};
use std::io::IsTerminal;

/// How a run ends that printed its answer.
#[derive(Clone, Copy, PartialEq, Eq)]
pub(crate) enum Ended {
    /// The answer stands on standard output.
    Answered,
    /// Files of kernels can't be read, or some of several objects are refused. What is known of the
    /// others is printed.
    Unread,
    /// A kernel doesn't take an object, and the command line asks for a check.
    Fails,
}

impl Ended {
    /// The status that the program ends with.
    pub(crate) fn status(self) -> u8
        ensures { result ≡ end_status self }
    {
        match self {
            Ended::Answered => 0,
            Ended::Unread => 2,
            Ended::Fails => 3,
        }
    }
}

/// Says which kernel is being reported on, where a person may wait for it.
fn say_progress(rt: &HostRuntime, count: usize, number: usize, name: &str) {
    if count > 1 && rt.stderr().is_terminal() {
        let number = number.saturating_add(1);
        let _ = eprintln!(rt; "inspect_object: kernel {number} of {count}: {name:?}");
    }
}

/// Adds the kernels of all files to the reports on some objects.
fn add_columns<'w>(
    rt: &HostRuntime,
    kernels: &Kernels<'_>,
    files: &'w [String],
    objects: &[Inspected<'_, '_>],
    reports: &mut [ObjectReport<'_, '_, 'w>],
) -> Result<(), AllocError> {
    for (number, name) in files.iter().enumerate() {
        say_progress(rt, files.len(), number, name);
        add_column(rt, kernels, name, objects, reports)?;
    }
    Ok(())
}

/// The reports on some objects, without kernels.
fn reports_of<'g, 'f, 'w>(
    alloc: Global,
    line: &InspectArguments<'_>,
    objects: &[Inspected<'g, 'f>],
) -> Result<Vec<ObjectReport<'g, 'f, 'w>>, ProgramError> {
    let mut reports = Vec::new(alloc);
    for object in objects {
        reports.push(object.report(alloc, line.strict)?)?;
    }
    make_named_optional(alloc, line, &mut reports)?;
    Ok(reports)
}

/// The names of records that are looked for in kernels.
fn all_targets(alloc: Global, objects: &[Inspected<'_, '_>]) -> Result<Vec<String>, AllocError> {
    let mut targets = Vec::new(alloc);
    for object in objects {
        for target in &object.targets {
            targets.push(target.clone()?)?;
        }
    }
    Ok(targets)
}

/// The reports on some objects and on the kernels of all files. `is_of_plan` says that the text says
/// only what becomes of the plan.
pub(crate) fn reports_on<'g, 'f, 'w>(
    rt: &HostRuntime,
    line: &InspectArguments<'_>,
    files: &'w [String],
    objects: &[Inspected<'g, 'f>],
    is_of_plan: bool,
) -> Result<Vec<ObjectReport<'g, 'f, 'w>>, ProgramError> {
    let symbols = KernelSymbols::named(rt, line.symbols)?;
    let targets = all_targets(rt.alloc(), objects)?;
    let mut reports = reports_of(rt.alloc(), line, objects)?;
    let kernels = Kernels {
        types_order: line.types_order,
        symbols: &symbols,
        targets: &targets,
        is_of_plan,
    };
    add_columns(rt, &kernels, files, objects, &mut reports)?;
    Ok(reports)
}

/// The reports in the form that the command line asks for.
fn text_of(
    rt: &HostRuntime,
    line: &InspectArguments<'_>,
    rows: &Rows<'_, '_>,
    columns: &[Column<'_>],
) -> Result<String, AllocError> {
    let alloc = rt.alloc();
    match line.format {
        Some(Format::Lines) => lines_text(alloc, rows, columns),
        Some(Format::Table) => summary_text(alloc, rows, columns),
        Some(Format::Json) => json_text(alloc, line.object, rows, columns),
        None if line.check => check_text(alloc, rows, columns),
        None => lines_text(alloc, rows, columns),
    }
}

/// How a run ends that printed its answer. A kernel that doesn't take an object counts before a file
/// that can't be read, or an object that is refused.
pub(crate) fn end_of(check: bool, has_refused: bool, reports: &[ObjectReport<'_, '_, '_>]) -> Ended
    ensures { result ≡ end_of check has_refused reports.now }
{
    if check && are_failing(reports) {
        return Ended::Fails;
    }
    if has_refused || are_unread(reports) {
        return Ended::Unread;
    }
    Ended::Answered
}

/// Whether a kernel doesn't take one of the objects.
fn are_failing(reports: &[ObjectReport<'_, '_, '_>]) -> bool
    ensures { result ≡ list_any has_failing reports.now }
{
    reports.iter().any(|report| report.has_failing())
}

/// Whether a file of a kernel can't be read.
fn are_unread(reports: &[ObjectReport<'_, '_, '_>]) -> bool
    ensures { result ≡ list_any has_unread reports.now }
{
    reports.iter().any(|report| report.has_unread())
}

/// Says how many files can't be read, if there are some.
pub(crate) fn say_unread(rt: &HostRuntime, columns: &[Column<'_>]) {
    let unread = columns.iter().filter(|column| column.is_unread()).count();
    if unread > 0 {
        let count = columns.len();
        let _ = eprintln!(rt;
            "inspect_object: no report on {unread} of {count} kernels, whose files can't be read"
        );
    }
}

/// Prints the reports about an object.
fn print_report(
    rt: &HostRuntime,
    line: &InspectArguments<'_>,
    report: &ObjectReport<'_, '_, '_>,
) -> Result<(), ProgramError> {
    let text = text_of(rt, line, &report.rows, &report.columns)?;
    print_text(rt, &text)?;
    say_unread(rt, &report.columns);
    Ok(())
}

/// Prints the reports about a parsed object.
fn print_on_object(
    rt: &HostRuntime,
    line: &InspectArguments<'_>,
    object: &ParsedObject<'_>,
    files: &[String],
) -> Result<Ended, ProgramError> {
    let objects = [Inspected::of(rt.alloc(), object)?];
    let is_of_plan = line.check && line.format.is_none();
    let reports = reports_on(rt, line, files, &objects, is_of_plan)?;
    if let Some(report) = reports.first() {
        print_report(rt, line, report)?;
    }
    Ok(end_of(line.check, false, &reports))
}

/// Prints the reports about the object of a file.
fn print_on_file(
    rt: &HostRuntime,
    line: &InspectArguments<'_>,
    file: &[u8],
    files: &[String],
) -> Result<Ended, ProgramError> {
    match Object::parse(rt.alloc(), file) {
        Ok(object) => {
            let object = ParsedObject {
                name: line.object,
                file,
                object,
            };
            print_on_object(rt, line, &object, files)
        }
        Err(error) => Err(refused(rt.alloc(), file, error)),
    }
}

/// The files of the kernels that the command line names.
pub(crate) fn kernel_files(
    rt: &HostRuntime,
    line: &InspectArguments<'_>,
) -> Result<Vec<String>, ProgramError> {
    let files = named_files(rt, &line.types, Wanted::Types)?;
    say_left_out(rt, &files)?;
    Ok(files.names)
}

/// Says what was left out of folders, if there is something.
pub(crate) fn say_left_out(rt: &HostRuntime, files: &NamedFiles) -> Result<(), AllocError> {
    if let Some(text) = files.left_out(rt.alloc())? {
        let _ = eprintln!(rt; "inspect_object: left out of folders: {text}");
    }
    Ok(())
}

/// Prints the reports about the objects in a file that isn't one, if the command line asks for a
/// check.
fn print_on_program(
    rt: &HostRuntime,
    line: &InspectArguments<'_>,
    bytes: Vec<u8>,
    kernels: &[String],
    count: usize,
) -> Result<Ended, ProgramError> {
    if !line.check || line.format.is_some() {
        return Err(ProgramError::HoldsObjects { count });
    }
    let name = line.object;
    let files = [FileBytes { name, bytes }];
    print_on_files(rt, line, kernels, &files, 0)
}

/// Prints the reports about an object on each of the kernels that the command line names.
pub(crate) fn print_reports(
    rt: &HostRuntime,
    line: &InspectArguments<'_>,
) -> Result<Ended, ProgramError> {
    let file = read(rt, line.object)?;
    let kernels = kernel_files(rt, line)?;
    match held_objects(rt.alloc(), &file)?.len() {
        0 => print_on_file(rt, line, &file, &kernels),
        count => print_on_program(rt, line, file, &kernels, count),
    }
}
