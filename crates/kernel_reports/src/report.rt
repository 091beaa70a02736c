//! The report about an object on a kernel.

ghost use Rattle.std.specs.Prelude.{◌≡◌, ◌≤◌, ◌^◌, length, IfOk};
ghost use Rattle.kernel_reports.specs.Reports.{IsReport};

use crate::answers::{RelocationAnswer, relocation_answers};
use crate::kernel_types::KernelTypes;
use crate::planned::{PlanAnswer, answer_on};
use crate::poison::SlotPlace;
use crate::presences::presences_of;
use crate::reach::Reach;
use crate::relocations::RelocationAt;
use ebpf_object::Object;
use load_plan::Settings;
use report_checks::Attachment;
use report_needs::{KindNeed, Presence, kind_needs};
use std::alloc::{AllocError, Global};

/// An object that reports are about.
#[derive(Clone, Copy)]
pub struct Reported<'r, 'o> {
    /// The bytes of its file.
    pub file: &'r [u8],
    /// The object of these bytes.
    pub object: &'r Object<'o>,
    /// Its type relocations.
    pub relocations: &'r [RelocationAt],
    /// The numbers of its maps.
    pub settings: &'r Settings,
    /// The symbols of the kernels, as /proc/kallsyms lists them.
    pub symbols: &'r [u8],
    /// Whether these are the symbols of a kernel, and not assumed.
    pub has_symbols: bool,
    /// The names of the sections of its programs, in the order of the programs.
    pub sections: &'r [&'r str],
}

/// The report about an object on a kernel.
#[derive(Debug, Drop)]
pub struct KernelReport {
    pub plan: PlanAnswer,
    /// For each program of the plan, and each of its calls that the kernel doesn't take, the slot
    /// of a function of the object that the call's slot is a copy of.
    pub call_places: Vec<Vec<Option<SlotPlace>>>,
    /// For each program of the plan whether the kernel has what it is attached to once it is loaded.
    pub attachments: Vec<Attachment>,
    /// Whether the kernel has the kinds of records of the object's own types, in the order of the
    /// kinds' numbers. A plan does without the kinds that are missing.
    pub kinds: Vec<KindNeed>,
    /// The results of its type relocations, one by one.
    pub relocations: Vec<RelocationAnswer>,
    /// For each of these relocations, whether a run can reach the poison that the plan's programs
    /// have in copies of its instruction. None where no program has poison there, where there is no
    /// plan, and where the kernel's types aren't given.
    pub reaches: Vec<Option<Reach>>,
    /// Whether the kernel has its externs, by name.
    pub externs: Vec<Presence>,
}

/// The report about an object on a kernel with these types, in at most 2^32 tables: whether it gets
/// a plan, what the kernel makes of it by its first table, and whether runs can reach its poison;
/// whether the kernel has the kinds of the object's records; and the result of each relocation and
/// each extern alone.
///
/// # Errors
///
/// `AllocError` where memory runs out.
pub fn report_on(
    alloc: Global,
    reported: &Reported<'_, '_>,
    kernel: &KernelTypes<'_, '_>,
) -> Result<KernelReport, AllocError>
    requires { length kernel.now ≤ 2 ^ 32 }
    ensures { IfOk result
        (IsReport reported.now.file.now reported.now.object.now reported.now.relocations.now
        kernel.now reported.now.symbols.now reported.now.has_symbols
        reported.now.settings.now reported.now.sections.now) }
{
    let object = reported.object;
    let tables = kernel.tables();
    let answer = answer_on(alloc, reported, reported.relocations, kernel)?;
    let kinds = kind_needs(alloc, kernel.first(), object.btf())?;
    let relocations = relocation_answers(alloc, object.btf(), tables, reported.relocations)?;
    let externs = presences_of(
        alloc,
        object.externs(),
        object.btf(),
        tables.first(),
        reported.symbols,
        reported.has_symbols,
    )?;
    Ok(KernelReport {
        plan: answer.plan,
        call_places: answer.call_places,
        attachments: answer.attachments,
        kinds,
        relocations,
        reaches: answer.reaches,
        externs,
    })
}
