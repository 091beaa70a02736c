//! Reports about objects on kernels.

ghost use Rattle.std.specs.Prelude.{◌≤◌, ◌^◌, length};

use crate::objects::Inspected;
use btf::Endianness;
use diagnostics::{KernelFiles, prepare_text};
use kernel_reports::{
    KernelReport, KernelTypes, PlanAnswer, Reported, SearchedKernel, plan_answer, report_on,
};
use load_plan::PrepareError;
use program_io::{InputError, KernelSymbols, NamedSymbols, marked_table, read};
use report_objects::ObjectReport;
use report_texts::{Column, ColumnAnswer, ColumnPlan, ColumnReport, HelperNames};
use std::alloc::{AllocError, Global};

/// The message where the object gets no plan for the kernel of a file.
fn refusal_of(
    alloc: Global,
    reported: &Reported<'_, '_>,
    files: &KernelFiles<'_>,
    error: &PrepareError,
) -> Result<ColumnPlan, AllocError> {
    let text = prepare_text(alloc, reported.file, reported.settings, files, error)?;
    Ok(ColumnPlan::Refused(text))
}

/// Whether the object gets a plan for the kernel of a file, with the message where it gets none.
fn plan_of(
    alloc: Global,
    reported: &Reported<'_, '_>,
    files: &KernelFiles<'_>,
    plan: PlanAnswer,
) -> Result<ColumnPlan, AllocError> {
    match plan {
        PlanAnswer::Planned(report) => Ok(ColumnPlan::Planned(report)),
        PlanAnswer::Refused(error) => refusal_of(alloc, reported, files, &error),
    }
}

/// A report on the kernel of a file, for the text.
fn column_report(
    alloc: Global,
    reported: &Reported<'_, '_>,
    files: &KernelFiles<'_>,
    report: KernelReport,
) -> Result<ColumnReport, AllocError> {
    let plan = plan_of(alloc, reported, files, report.plan)?;
    Ok(ColumnReport {
        plan,
        call_places: report.call_places,
        attachments: report.attachments,
        has_symbols: reported.has_symbols,
        kinds: report.kinds,
        relocations: report.relocations,
        reaches: report.reaches,
        externs: report.externs,
    })
}

/// Adds the kernel's names of the helpers that a plan's programs call, where a helper lacks its
/// name and the kernel's types are given.
fn name_helpers(
    alloc: Global,
    kernel: Option<&SearchedKernel<'_, '_>>,
    report: &KernelReport,
    helpers: &mut HelperNames,
) -> Result<(), AllocError> {
    match (kernel, &report.plan) {
        (Some(kernel), PlanAnswer::Planned(Some(plan))) if !helpers.name_all(plan) => {
            helpers.add(alloc, kernel, plan)
        }
        _ => Ok(()),
    }
}

/// The report on a kernel with these types, without what only other texts say.
fn plan_report_on(
    alloc: Global,
    reported: &Reported<'_, '_>,
    kernel: &KernelTypes<'_, '_>,
) -> Result<KernelReport, AllocError>
    requires { length kernel.now ≤ 2 ^ 32 }
{
    let answer = plan_answer(alloc, reported, kernel)?;
    Ok(KernelReport {
        plan: answer.plan,
        call_places: answer.call_places,
        attachments: answer.attachments,
        kinds: Vec::new(alloc),
        relocations: Vec::new(alloc),
        reaches: Vec::new(alloc),
        externs: Vec::new(alloc),
    })
}

/// The report on a kernel with these types, as far as the text asks for it.
fn asked_report(
    alloc: Global,
    is_of_plan: bool,
    reported: &Reported<'_, '_>,
    kernel: &KernelTypes<'_, '_>,
) -> Result<KernelReport, AllocError>
    requires { length kernel.now ≤ 2 ^ 32 }
{
    if is_of_plan {
        plan_report_on(alloc, reported, kernel)
    } else {
        report_on(alloc, reported, kernel)
    }
}

/// The same. Names of helpers that the kernel has are added.
fn reported_on(
    alloc: Global,
    is_of_plan: bool,
    reported: &Reported<'_, '_>,
    kernel: &KernelTypes<'_, '_>,
    helpers: &mut HelperNames,
) -> Result<KernelReport, AllocError>
    requires { length kernel.now ≤ 2 ^ 32 }
{
    let report = asked_report(alloc, is_of_plan, reported, kernel)?;
    name_helpers(alloc, kernel.first(), &report, helpers)?;
    Ok(report)
}

/// A kernel, as the command line names it.
#[derive(Clone, Copy)]
pub(crate) struct Kernels<'g> {
    pub(crate) types_order: Endianness,
    pub(crate) symbols: &'g KernelSymbols,
    /// The names of records that are looked for.
    pub(crate) targets: &'g [String],
    /// Whether the text says only what becomes of the plan, so that nothing else is looked up.
    pub(crate) is_of_plan: bool,
}

/// The bytes of a kernel's files.
struct KernelBytes<'g> {
    types: Vec<u8>,
    /// The file with its own symbols, and its text.
    symbols: Option<(&'g str, Vec<u8>)>,
}

impl<'g> Drop for KernelBytes<'g> {
    // One call wherever it is dropped, in place of one for each part.
    fn drop(self) {
        let KernelBytes {
            types: _types,
            symbols: _symbols,
        } = self;
    }
}

impl<'g> KernelBytes<'g> {
    /// The kernel's own symbols, if they are given.
    fn own_symbols(&self) -> Option<NamedSymbols<'_>> {
        match &self.symbols {
            Some((file, text)) => Some(NamedSymbols {
                file: Some(file),
                bytes: text.as_slice(),
            }),
            None => None,
        }
    }
}

/// The bytes of the files of a kernel.
fn kernel_bytes<'g>(
    rt: &HostRuntime,
    kernels: &Kernels<'g>,
    name: &str,
) -> Result<KernelBytes<'g>, InputError> {
    let types = read(rt, name)?;
    let symbols = match kernels.symbols.file_for(name) {
        Some(file) => Some((file, read(rt, file)?)),
        None => None,
    };
    Ok(KernelBytes { types, symbols })
}

/// The report about an object on the kernel of a file.
fn report_in(
    alloc: Global,
    is_of_plan: bool,
    object: &Inspected<'_, '_>,
    name: &str,
    kernel: &KernelTypes<'_, '_>,
    symbols: &NamedSymbols<'_>,
    helpers: &mut HelperNames,
) -> Result<ColumnReport, AllocError>
    requires { length kernel.now ≤ 2 ^ 32 }
{
    let reported = Reported {
        file: object.parsed.file,
        object: &object.parsed.object,
        relocations: &object.relocations,
        settings: &object.settings,
        symbols: symbols.bytes,
        has_symbols: symbols.file.is_some(),
        sections: &object.sections,
    };
    let report = reported_on(alloc, is_of_plan, &reported, kernel, helpers)?;
    let types = [name];
    let files = KernelFiles {
        types: &types,
        symbols: symbols.file,
        are_named: !is_of_plan,
        has_options: true,
    };
    column_report(alloc, &reported, &files, report)
}

/// Adds the report about an object on the kernel of a file.
fn add_report<'w>(
    alloc: Global,
    is_of_plan: bool,
    object: &Inspected<'_, '_>,
    name: &'w str,
    kernel: &KernelTypes<'_, '_>,
    symbols: &NamedSymbols<'_>,
    report: &mut ObjectReport<'_, '_, 'w>,
) -> Result<(), AllocError>
    requires { length kernel.now ≤ 2 ^ 32 }
{
    let on_kernel = report_in(
        alloc,
        is_of_plan,
        object,
        name,
        kernel,
        symbols,
        &mut report.rows.helpers,
    )?;
    report.columns.push(Column {
        file: name,
        answer: ColumnAnswer::Report(on_kernel),
    })?;
    Ok(())
}

/// Adds the report about an object on the kernel whose files have these bytes. All symbols that the
/// object needs are assumed to be there where none are given.
fn add_named<'w>(
    alloc: Global,
    kernels: &Kernels<'_>,
    object: &Inspected<'_, '_>,
    name: &'w str,
    bytes: &KernelBytes<'_>,
    kernel: &KernelTypes<'_, '_>,
    report: &mut ObjectReport<'_, '_, 'w>,
) -> Result<(), AllocError>
    requires { length kernel.now ≤ 2 ^ 32 }
{
    let is_of_plan = kernels.is_of_plan;
    if let Some(symbols) = bytes.own_symbols() {
        return add_report(alloc, is_of_plan, object, name, kernel, &symbols, report);
    }
    if let Some(symbols) = kernels.symbols.shared() {
        return add_report(alloc, is_of_plan, object, name, kernel, &symbols, report);
    }
    let assumed = NamedSymbols {
        file: None,
        bytes: object.assumed.as_bytes(),
    };
    add_report(alloc, is_of_plan, object, name, kernel, &assumed, report)
}

/// Adds the reports about some objects on the kernel whose files have these bytes.
fn add_reports<'w>(
    alloc: Global,
    kernels: &Kernels<'_>,
    name: &'w str,
    bytes: &KernelBytes<'_>,
    objects: &[Inspected<'_, '_>],
    reports: &mut [ObjectReport<'_, '_, 'w>],
) -> Result<(), InputError> {
    let tables = [marked_table(alloc, name, &bytes.types, kernels.types_order)?];
    let kernel = KernelTypes::new(alloc, &tables, kernels.targets)?;
    for (object, report) in objects.iter().zip(reports.iter_mut()) {
        add_named(alloc, kernels, object, name, bytes, &kernel, report)?;
    }
    Ok(())
}

/// Adds the reports about some objects on the kernel of a file, which is read once.
fn add_read<'w>(
    rt: &HostRuntime,
    kernels: &Kernels<'_>,
    name: &'w str,
    objects: &[Inspected<'_, '_>],
    reports: &mut [ObjectReport<'_, '_, 'w>],
) -> Result<(), InputError> {
    let bytes = kernel_bytes(rt, kernels, name)?;
    add_reports(rt.alloc(), kernels, name, &bytes, objects, reports)
}

/// Why there is no report on the kernel of a file.
fn unread_text(alloc: Global, error: InputError) -> Result<String, AllocError> {
    match error {
        InputError::OutOfMemory => Err(AllocError),
        error => format!(in alloc; "{error}"),
    }
}

/// Adds to an object's columns why there is no report on the kernel of a file.
fn add_unread<'w>(
    alloc: Global,
    name: &'w str,
    why: &str,
    report: &mut ObjectReport<'_, '_, 'w>,
) -> Result<(), AllocError> {
    let why = String::from_str(alloc, why)?;
    report.columns.push(Column {
        file: name,
        answer: ColumnAnswer::Unread(why),
    })?;
    Ok(())
}

/// Adds the kernel of a file to the reports on some objects.
pub(crate) fn add_column<'w>(
    rt: &HostRuntime,
    kernels: &Kernels<'_>,
    name: &'w str,
    objects: &[Inspected<'_, '_>],
    reports: &mut [ObjectReport<'_, '_, 'w>],
) -> Result<(), AllocError> {
    let Err(error) = add_read(rt, kernels, name, objects, reports) else {
        return Ok(());
    };
    let why = unread_text(rt.alloc(), error)?;
    for report in reports {
        add_unread(rt.alloc(), name, &why, report)?;
    }
    Ok(())
}
