//! What a kernel makes of a plan.

ghost use Rattle.std.specs.Prelude.{◌≡◌, map, IfOk};
ghost use Rattle.std.specs.Option.{option_copied};
ghost use Rattle.report_needs.specs.Enums.{map_presence};
ghost use Rattle.report_checks.specs.Codes.{plan_code};
ghost use Rattle.report_checks.specs.Reports.{AreProgramReports, IsPlanReport, IsProgramReport, map_presences, section_at};

use crate::arguments::missing_arguments;
use crate::attachments::{Attachment, attachment_of};
use crate::causes::{ProgramCause, SharedNeeds, causes_of, unknowns_of};
use crate::codes::PlanCode;
use crate::reported_calls::{HarmfulCall, harmful_calls};
use btf_records::BtfError;
use btf_tables::Btf;
use plan_text::{Plan, PlanMap, PlanProgram};
use report_needs::{Presence, ProgramNeeds, SearchedKernel, program_needs};
use report_types::{RefusedType, context_words, refused_type};
use std::alloc::{AllocError, Global};

/// What a kernel makes of a program.
#[derive(Debug)]
pub struct ProgramReport {
    /// The calls that it doesn't take, in the order of the slots.
    pub calls: Vec<HarmfulCall>,
    /// What it must have for the program.
    pub needs: ProgramNeeds,
    /// All causes for which it doesn't take the program. What isn't known is no cause.
    pub causes: Vec<ProgramCause>,
    /// What isn't known of what the program needs.
    pub unknowns: Vec<ProgramCause>,
    /// Whether it has what the program is attached to once it is loaded, by its types.
    pub attachment: Attachment,
}

impl Drop for ProgramReport {
    // One call wherever it is dropped, in place of one for each part.
    fn drop(self) {
        let ProgramReport {
            calls: _calls,
            needs: _needs,
            causes: _causes,
            unknowns: _unknowns,
            attachment: _,
        } = self;
    }
}

/// What a kernel makes of a plan, as far as the kernel's own types say.
#[derive(Debug)]
pub struct PlanReport {
    /// The reports on the programs, in the order of the plan.
    pub programs: Vec<ProgramReport>,
    /// Whether it has the type of each map, in the order of the plan.
    pub maps: Vec<Presence>,
    /// The first record of the plan's types that each kernel refuses, and with it the types.
    pub refused_type: Option<RefusedType>,
}

impl Drop for PlanReport {
    // One call wherever it is dropped, in place of one for each part.
    fn drop(self) {
        let PlanReport {
            programs: _programs,
            maps: _maps,
            refused_type: _,
        } = self;
    }
}

/// The first record of a plan's types that each kernel refuses. The types have the byte order of the
/// object's own.
fn refused_in(
    alloc: Global,
    plan: &Plan<'_>,
    types: Option<&Btf<'_>>,
) -> Result<Option<RefusedType>, AllocError> {
    let (Some(bytes), Some(types)) = (plan.type_bytes(), types) else {
        return Ok(None);
    };
    match Btf::parse(alloc, bytes, types.records().order()) {
        Ok(plan_types) => Ok(refused_type(&plan_types)),
        Err(BtfError::OutOfMemory) => Err(AllocError),
        Err(_error) => Ok(None),
    }
}

/// The name at an index; empty past the end.
fn section_at<'s>(sections: &[&'s str], index: usize) -> &'s str
    ensures { result.now ≡ section_at sections.now index }
{
    match sections.get(index) {
        Some(section) => section,
        None => "",
    }
}

/// What a kernel makes of a program in a section.
fn program_report(
    alloc: Global,
    kernel: &SearchedKernel<'_, '_>,
    code: &PlanCode<'_>,
    shared: SharedNeeds<'_>,
    program: &PlanProgram<'_>,
    section: &str,
) -> Result<ProgramReport, AllocError>
    ensures { IfOk result
        (IsProgramReport kernel.now code.now shared.entry.maps.now shared.entry.presences.now
        shared.entry.are_types_refused section.now program.now) }
{
    let slots = program.slots();
    let reach = code.reach(alloc, program)?;
    let calls = harmful_calls(alloc, kernel, code, &reach, program)?;
    let needs = program_needs(alloc, kernel, program.section(), section, slots)?;
    let words = context_words(kernel.kernel(), program.section(), needs.target);
    let missing = missing_arguments(alloc, words, slots, &reach)?;
    let causes = causes_of(alloc, program, &calls, &missing, &needs, shared)?;
    let unknowns = unknowns_of(alloc, program, &needs, shared)?;
    let attachment = attachment_of(alloc, kernel, program.section(), section)?;
    Ok(ProgramReport {
        calls,
        needs,
        causes,
        unknowns,
        attachment,
    })
}

/// What a kernel makes of each of some programs, given what they need together.
fn program_reports(
    alloc: Global,
    kernel: &SearchedKernel<'_, '_>,
    code: &PlanCode<'_>,
    shared: SharedNeeds<'_>,
    programs: &[PlanProgram<'_>],
    sections: &[&str],
) -> Result<Vec<ProgramReport>, AllocError>
    ensures { IfOk result (λ reports.
        AreProgramReports kernel.now code.now shared.entry.maps.now shared.entry.presences.now
        shared.entry.are_types_refused sections.now programs.now reports.items) }
{
    let mut reports = Vec::new(alloc);
    for index in 0..programs.len() {
        let section = section_at(sections, index);
        let program = &programs[index];
        let report = program_report(alloc, kernel, code, shared, program, section)?;
        reports.push(report)?;
    }
    Ok(reports)
}

/// Whether a kernel has the type of each map.
fn map_types(
    alloc: Global,
    kernel: &SearchedKernel<'_, '_>,
    maps: &[PlanMap<'_>],
) -> Result<Vec<Presence>, AllocError>
    ensures { IfOk result (λ types. types.items ≡ map_presences kernel.now maps.now) }
{
    let mut types = Vec::new(alloc);
    for map in maps {
        types.push(kernel.map_type(map.words().map_type))?;
    }
    Ok(types)
}

/// What a kernel makes of a plan, as far as the kernel's own types say. `types` are the types of the
/// object, and `sections` are the names of the programs' sections, in the order of the programs.
///
/// A target is looked up in the kernel's types alone: a function of a module isn't found, unless
/// the section names the module, and then nothing is known.
///
/// # Errors
///
/// `AllocError` where memory runs out.
pub fn plan_report<'p>(
    alloc: Global,
    kernel: &SearchedKernel<'_, '_>,
    plan: &'p Plan<'_>,
    types: Option<&'p Btf<'p>>,
    sections: &[&str],
) -> Result<PlanReport, AllocError>
    ensures { IfOk result
        (IsPlanReport kernel.now (option_copied types.entry) sections.now plan.now) }
{
    let code = PlanCode::new(alloc, Some(kernel), plan.maps(), types)?;
    let maps = map_types(alloc, kernel, plan.maps())?;
    let refused = refused_in(alloc, plan, types)?;
    let shared = SharedNeeds {
        maps: plan.maps(),
        presences: maps.as_slice(),
        are_types_refused: refused.is_some(),
    };
    let programs = program_reports(alloc, kernel, &code, shared, plan.programs(), sections)?;
    Ok(PlanReport {
        programs,
        maps,
        refused_type: refused,
    })
}
