//! Whether an object gets a plan for a kernel, and what the kernel makes of it.

ghost use Rattle.std.specs.Prelude.{◌≡◌, ◌≢◌, ◌≤◌, ◌^◌, length, IfOk};
ghost use Rattle.std.specs.Option.{option_copied};
ghost use Rattle.plan_errors.specs.declared.error.PrepareError.TheVariants.{OutOfMemory};
ghost use Rattle.kernel_reports.specs.Plans.{IsKernelAnswer, IsPlanAnswer, IsPrepared, IsReportOf};

use crate::grants::{grants, has_newer_helpers};
use crate::kernel_types::KernelTypes;
use crate::poison::{SlotPlace, call_places};
use crate::reach::{Reach, no_reaches, reaches_in};
use crate::relocations::RelocationAt;
use crate::report::Reported;
use btf_tables::Btf;
use load_plan::{Order, Plan, PrepareError, Settings, Watched, prepare};
use report_checks::{Attachment, PlanReport, attachments_of, plan_report};
use report_needs::SearchedKernel;
use std::alloc::{AllocError, Global};

/// The plan of an object, if it gets one.
#[derive(Debug, Drop)]
pub enum Prepared<'a> {
    Planned(Plan<'a>),
    /// It is refused, with an error other than out of memory.
    Refused(PrepareError),
}

/// Whether an object gets a plan.
#[derive(Debug, Drop)]
pub enum PlanAnswer {
    /// It gets one. What the kernel makes of it, where the kernel's types are given.
    Planned(Option<PlanReport>),
    /// It is refused, with an error other than out of memory.
    Refused(PrepareError),
}

/// An error that isn't out of memory.
fn fault_of(error: PrepareError) -> Result<PrepareError, AllocError>
    ensures { IfOk result (λ fault. (fault ≡ error) × (error ≢ OutOfMemory)) }
{
    match error {
        PrepareError::OutOfMemory => Err(AllocError),
        error => Ok(error),
    }
}

/// The plan of an object for a kernel with these types and symbols, or why it gets none. The kernel
/// grants the features of types whose kinds of records its first table doesn't lack. It has the
/// newer helpers that read memory unless that table's enum of helpers lacks one of them.
///
/// # Errors
///
/// `AllocError` where memory runs out.
pub fn prepared_for<'a>(
    alloc: Global,
    object: &'a [u8],
    kernel: &KernelTypes<'_, '_>,
    symbols: &[u8],
    settings: &Settings,
) -> Result<Prepared<'a>, AllocError>
    requires { length kernel.now ≤ 2 ^ 32 }
    ensures { IfOk result (IsPrepared object.now kernel.now symbols.now settings.now) }
{
    let first = kernel.first();
    let has_newer = has_newer_helpers(first);
    let mut symbols = Watched::new(symbols);
    let prepared = prepare(
        alloc,
        object,
        kernel.tables(),
        &mut symbols,
        settings,
        Order::RelocateFirst,
        move |feature| grants(first, feature),
        move || has_newer,
    );
    // a reader of bytes doesn't fail
    if symbols.failed() {
        return Err(AllocError);
    }
    match prepared {
        Ok(plan) => Ok(Prepared::Planned(plan)),
        Err(error) => {
            let refusal = fault_of(error)?;
            Ok(Prepared::Refused(refusal))
        }
    }
}

/// What a kernel makes of a plan, if its types are given.
fn report_of(
    alloc: Global,
    kernel: Option<&SearchedKernel<'_, '_>>,
    plan: &Plan<'_>,
    types: Option<&Btf<'_>>,
    sections: &[&str],
) -> Result<Option<PlanReport>, AllocError>
    ensures { IfOk result
        (IsReportOf (option_copied kernel.entry) (option_copied types.entry) sections.now plan.now) }
{
    let Some(kernel) = kernel else {
        return Ok(None);
    };
    let report = plan_report(alloc, kernel, plan, types, sections)?;
    Ok(Some(report))
}

/// What a kernel makes of an object.
#[derive(Debug, Drop)]
pub struct KernelAnswer {
    pub plan: PlanAnswer,
    /// For each program of the plan, and each of its calls that the kernel doesn't take, the slot
    /// of a function of the object that the call's slot is a copy of.
    pub call_places: Vec<Vec<Option<SlotPlace>>>,
    /// For each program of the plan whether the kernel has what it is attached to once it is loaded:
    /// a probe by the kernel's symbols where they are given, and all else by its types.
    pub attachments: Vec<Attachment>,
    /// Whether a run can reach the poison of each of some type relocations.
    pub reaches: Vec<Option<Reach>>,
}

/// Whether a kernel, if its types are given, has what the programs of a plan are attached to.
fn attachments_in(
    alloc: Global,
    reported: &Reported<'_, '_>,
    plan: &Plan<'_>,
    report: Option<&PlanReport>,
) -> Result<Vec<Attachment>, AllocError> {
    let Some(report) = report else {
        return Ok(Vec::new(alloc));
    };
    let symbols = match str::from_utf8(reported.symbols) {
        Ok(symbols) if reported.has_symbols => Some(symbols),
        _ => None,
    };
    attachments_of(alloc, plan, reported.sections, symbols, report)
}

/// Whether an object gets a plan for a kernel with these types, what the kernel makes of the plan
/// by its first table, and whether runs can reach the poison of these relocations.
pub(crate) fn answer_on(
    alloc: Global,
    reported: &Reported<'_, '_>,
    relocations: &[RelocationAt],
    kernel: &KernelTypes<'_, '_>,
) -> Result<KernelAnswer, AllocError>
    requires { length kernel.now ≤ 2 ^ 32 }
    ensures { IfOk result (λ answer.
        IsKernelAnswer reported.now.file.now kernel.now reported.now.symbols.now
        reported.now.settings.now reported.now.sections.now reported.now.object.now
        relocations.now answer.plan answer.reaches.items) }
{
    let prepared = prepared_for(
        alloc,
        reported.file,
        kernel,
        reported.symbols,
        reported.settings,
    )?;
    let object = reported.object;
    match prepared {
        Prepared::Planned(plan) => {
            let report = report_of(
                alloc,
                kernel.first(),
                &plan,
                object.btf(),
                reported.sections,
            )?;
            let reaches = reaches_in(alloc, object, &plan, report.as_ref(), relocations)?;
            let call_places = call_places(alloc, object, &plan, report.as_ref())?;
            let attachments = attachments_in(alloc, reported, &plan, report.as_ref())?;
            Ok(KernelAnswer {
                plan: PlanAnswer::Planned(report),
                call_places,
                attachments,
                reaches,
            })
        }
        Prepared::Refused(error) => {
            let reaches = no_reaches(alloc, relocations)?;
            Ok(KernelAnswer {
                plan: PlanAnswer::Refused(error),
                call_places: Vec::new(alloc),
                attachments: Vec::new(alloc),
                reaches,
            })
        }
    }
}

/// Whether an object gets a plan for a kernel with these types, in at most 2^32 tables, and what
/// the kernel makes of the plan by its first table: the parts `plan`, `call_places` and `attachments`
/// of `report_on`.
///
/// # Errors
///
/// `AllocError` where memory runs out.
pub fn plan_answer(
    alloc: Global,
    reported: &Reported<'_, '_>,
    kernel: &KernelTypes<'_, '_>,
) -> Result<KernelAnswer, AllocError>
    requires { length kernel.now ≤ 2 ^ 32 }
    ensures { IfOk result (λ answer.
        IsPlanAnswer reported.now.file.now reported.now.object.now.types kernel.now
        reported.now.symbols.now reported.now.settings.now reported.now.sections.now answer.plan) }
{
    answer_on(alloc, reported, &[], kernel)
}
