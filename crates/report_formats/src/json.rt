//! Reports on several kernels as a JSON document.

use crate::values::{
    CallValue, Document, ExternValue, HelperValue, KernelValue, KindValue, MapValue, ProgramValue,
    SourceValue, TypeRelocationValue,
};
use kernel_reports::{
    Attachment, HarmfulCall, KindNeed, PlanReport, Presence, ProgramReport, Reach, TargetNeed,
};
use report_objects::{
    CauseText, ReportedProgram, cause_texts, program_cause_texts, reported_programs,
    source_of_call, unknown_count, warning_texts,
};
use report_texts::{
    AnswerWords, Column, ColumnAnswer, ColumnPlan, ColumnReport, Rows, attach_word, cause_word,
    extern_kind_word, is_helper, is_later_kind, kind_word, need_word, presence_word, reach_word,
};
use std::alloc::{AllocError, Global};

fn call_value<'r>(rows: &'r Rows<'_, '_>, call: &HarmfulCall) -> CallValue<'r> {
    let source = match source_of_call(rows, call) {
        Some(source) => Some(SourceValue {
            file: source.file,
            line: source.line,
            text: source.text,
        }),
        None => None,
    };
    CallValue {
        instruction: call.slot as u64,
        cause: cause_word(call.cause),
        reached: call.is_reached,
        source,
    }
}

fn calls_of<'r>(
    alloc: Global,
    rows: &'r Rows<'_, '_>,
    calls: &[HarmfulCall],
) -> Result<Vec<CallValue<'r>>, AllocError> {
    let mut values = Vec::new(alloc);
    for call in calls {
        values.push(call_value(rows, call))?;
    }
    Ok(values)
}

fn helpers_of<'r>(
    alloc: Global,
    rows: &'r Rows<'_, '_>,
    report: &ProgramReport,
) -> Result<Vec<HelperValue<'r>>, AllocError> {
    let mut values = Vec::new(alloc);
    for need in &report.needs.helpers {
        if is_helper(need.number) {
            values.push(HelperValue {
                number: need.number,
                name: rows.helpers.get(need.number),
                presence: need_word(need.presence),
            })?;
        }
    }
    Ok(values)
}

/// Whether the kernel has what a program is attached to, and its id.
fn target_of(target: TargetNeed) -> (Option<&'static str>, Option<u32>) {
    match target {
        TargetNeed::NotNamed => (None, None),
        TargetNeed::Found(id) => (Some("yes"), Some(id)),
        TargetNeed::Missing => (Some("missing"), None),
        TargetNeed::Unknown => (Some("unknown"), None),
    }
}

fn optional_word(presence: Option<Presence>) -> Option<&'static str> {
    match presence {
        Some(presence) => Some(need_word(presence)),
        None => None,
    }
}

/// Whether the kernel has what a program is attached to once it is loaded, if it is attached by name.
fn attach_of(attachment: Attachment) -> Option<&'static str> {
    match attachment {
        Attachment::NotNamed => None,
        named => Some(attach_word(named)),
    }
}

fn program_value<'r>(
    alloc: Global,
    rows: &'r Rows<'_, '_>,
    program: &ReportedProgram<'_, 'r>,
) -> Result<ProgramValue<'r>, AllocError> {
    let report = program.report;
    let (target, target_id) = target_of(report.needs.target);
    Ok(ProgramValue {
        name: program.row.name,
        section: program.row.section,
        target,
        target_id,
        program_type: need_word(report.needs.prog_type),
        attach_type: optional_word(report.needs.attach_type),
        flags: optional_word(report.needs.flags),
        attach: attach_of(program.attachment),
        helpers: helpers_of(alloc, rows, report)?,
        calls: calls_of(alloc, rows, &report.calls)?,
        optional: program.row.is_optional,
        causes: program_cause_texts(alloc, rows, program)?,
    })
}

fn programs_of<'r>(
    alloc: Global,
    rows: &'r Rows<'r, '_>,
    report: &ColumnReport,
    plan: &PlanReport,
) -> Result<Vec<ProgramValue<'r>>, AllocError> {
    let mut values = Vec::new(alloc);
    for program in &reported_programs(alloc, rows, report, plan)? {
        values.push(program_value(alloc, rows, program)?)?;
    }
    Ok(values)
}

fn maps_of<'r>(
    alloc: Global,
    rows: &'r Rows<'r, '_>,
    presences: &[Presence],
) -> Result<Vec<MapValue<'r>>, AllocError> {
    let mut values = Vec::new(alloc);
    for (map, presence) in rows.maps.iter().zip(presences) {
        values.push(MapValue {
            name: map.name,
            map_type: map.map_type,
            presence: need_word(*presence),
        })?;
    }
    Ok(values)
}

fn kinds_of(alloc: Global, kinds: &[KindNeed]) -> Result<Vec<KindValue>, AllocError> {
    let mut values = Vec::new(alloc);
    for need in kinds {
        if is_later_kind(need.kind) {
            values.push(KindValue {
                kind: kind_word(need.kind),
                presence: need_word(need.presence),
            })?;
        }
    }
    Ok(values)
}

fn reach_of(reach: Option<Reach>) -> Option<&'static str> {
    match reach {
        Some(reach) => Some(reach_word(reach)),
        None => None,
    }
}

fn relocations_of<'r>(
    alloc: Global,
    rows: &'r Rows<'r, '_>,
    report: &ColumnReport,
) -> Result<Vec<TypeRelocationValue<'r>>, AllocError> {
    let mut values = Vec::new(alloc);
    let answers = report.relocations.iter().zip(&report.reaches);
    for (row, (answer, reach)) in rows.relocations.iter().zip(answers) {
        values.push(TypeRelocationValue {
            section: row.section,
            function: row.function,
            instruction: row.instruction,
            asks: row.asked.as_str(),
            answer: format!(in alloc; "{}", AnswerWords(answer))?,
            reach: reach_of(*reach),
        })?;
    }
    Ok(values)
}

fn externs_of<'r>(
    alloc: Global,
    rows: &'r Rows<'r, '_>,
    report: &ColumnReport,
) -> Result<Vec<ExternValue<'r>>, AllocError> {
    let mut values = Vec::new(alloc);
    for (row, presence) in rows.externs.iter().zip(&report.externs) {
        values.push(ExternValue {
            name: row.name,
            kind: extern_kind_word(row.kind),
            weak: row.is_weak,
            presence: presence_word(*presence),
        })?;
    }
    Ok(values)
}

/// A kernel of which nothing is known yet.
fn bare<'r>(alloc: Global, file: &'r str) -> KernelValue<'r> {
    KernelValue {
        file,
        unread: None,
        plan: None,
        refused: None,
        fails: None,
        unknown: 0,
        warnings: Vec::new(alloc),
        programs: Vec::new(alloc),
        maps: Vec::new(alloc),
        record_kinds: Vec::new(alloc),
        relocations: Vec::new(alloc),
        externs: Vec::new(alloc),
    }
}

/// Sets what is known of the plan.
fn set_plan<'r>(
    alloc: Global,
    rows: &'r Rows<'r, '_>,
    report: &'r ColumnReport,
    value: &mut KernelValue<'r>,
) -> Result<(), AllocError> {
    match &report.plan {
        ColumnPlan::Refused(refusal) => {
            value.plan = Some(false);
            value.refused = Some(refusal.as_str());
        }
        ColumnPlan::Planned(None) => value.plan = Some(true),
        ColumnPlan::Planned(Some(plan)) => {
            value.plan = Some(true);
            value.programs = programs_of(alloc, rows, report, plan)?;
            value.maps = maps_of(alloc, rows, &plan.maps)?;
        }
    }
    Ok(())
}

/// The first cause that isn't of an optional program.
fn first_cause(causes: Vec<CauseText>) -> Option<String> {
    for cause in causes {
        if !cause.is_optional {
            return Some(cause.text);
        }
    }
    None
}

fn kernel_value<'r>(
    alloc: Global,
    rows: &'r Rows<'r, '_>,
    column: &'r Column<'r>,
) -> Result<KernelValue<'r>, AllocError> {
    let mut value = bare(alloc, column.file);
    match &column.answer {
        ColumnAnswer::Unread(why) => value.unread = Some(why.as_str()),
        ColumnAnswer::Report(report) => {
            set_plan(alloc, rows, report, &mut value)?;
            value.fails = first_cause(cause_texts(alloc, rows, report)?);
            value.unknown = unknown_count(rows, report) as u64;
            value.warnings = warning_texts(alloc, rows, report)?;
            value.record_kinds = kinds_of(alloc, &report.kinds)?;
            value.relocations = relocations_of(alloc, rows, report)?;
            value.externs = externs_of(alloc, rows, report)?;
        }
    }
    Ok(value)
}

/// The reports on several kernels about the object of a file as one JSON document.
pub fn json_text<'r>(
    alloc: Global,
    object: &'r str,
    rows: &'r Rows<'r, '_>,
    columns: &'r [Column<'r>],
) -> Result<String, AllocError> {
    let mut kernels = Vec::new(alloc);
    for column in columns {
        kernels.push(kernel_value(alloc, rows, column)?)?;
    }
    let document = Document { object, kernels };
    match serde_json::to_string(alloc, &document) {
        Ok(mut text) => {
            text.push('\n')?;
            Ok(text)
        }
        // texts and numbers have no other error
        Err(_error) => Err(AllocError),
    }
}
