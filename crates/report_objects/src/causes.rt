//! Why a kernel doesn't take the object.

ghost use Rattle.std.specs.Option.{option_copied};
ghost use Rattle.report_objects.specs.Calls.{IsSourceOf};

use kernel_reports::{
    Attachment, CallCause, HarmfulCall, PlanReport, ProgramCause, ProgramReport, RefusedType,
    SlotPlace, SourceLine, source_of,
};
use quoting::{QuotedText, Text};
use report_texts::{
    Column, ColumnAnswer, ColumnPlan, ColumnReport, MapRow, ProgramRow, Rows, SourceText,
    is_unknown_symbol, kind_word,
};
use std::alloc::{AllocError, Global};

/// A program, and what a kernel makes of it.
#[derive(Clone, Copy)]
pub struct ReportedProgram<'r, 'o> {
    pub row: &'r ProgramRow<'o>,
    pub report: &'r ProgramReport,
    /// The places of its calls (`ColumnReport::call_places`).
    pub places: &'r [Option<SlotPlace>],
    /// The first record of the plan's types that each kernel refuses.
    pub refused_type: Option<RefusedType>,
    /// Whether the kernel has what the program is attached to once it is loaded.
    pub attachment: Attachment,
}

/// The programs of a plan, and what a kernel makes of them.
///
/// # Errors
///
/// `AllocError` where memory runs out.
pub fn reported_programs<'r, 'o>(
    alloc: Global,
    rows: &'r Rows<'o, '_>,
    report: &'r ColumnReport,
    plan: &'r PlanReport,
) -> Result<Vec<ReportedProgram<'r, 'o>>, AllocError> {
    let mut programs = Vec::new(alloc);
    let parts = report.call_places.iter().zip(&report.attachments);
    let reports = plan.programs.iter().zip(parts);
    for (row, (report, (places, attachment))) in rows.programs.iter().zip(reports) {
        programs.push(ReportedProgram {
            row,
            report,
            places: places.as_slice(),
            refused_type: plan.refused_type,
            attachment: *attachment,
        })?;
    }
    Ok(programs)
}

/// The text of a cause.
#[derive(Debug, PartialEq, Eq, Drop)]
pub struct CauseText {
    /// Whether the object counts as taken despite the cause, which is of an optional program.
    pub is_optional: bool,
    pub text: String,
}

/// The source line of a call.
pub fn source_of_call<'r>(rows: &'r Rows<'_, '_>, call: &HarmfulCall) -> Option<SourceLine<'r>>
    ensures { IsSourceOf (option_copied rows.now.types) call.now.line result }
{
    match (rows.types, call.line) {
        (Some(types), Some(line)) => Some(source_of(types, line)),
        _ => None,
    }
}

/// What a kernel lacks for a call, or what stands in its place.
fn push_cause(
    alloc: Global,
    rows: &Rows<'_, '_>,
    text: &mut String,
    cause: CallCause,
) -> Result<(), AllocError> {
    match cause {
        CallCause::Poison => text.push_str("poison reached"),
        CallCause::MissingFunction => text.push_str("missing function reached"),
        CallCause::MissingHelper { number } => {
            let name = rows.helpers.get(number).unwrap_or("-");
            text.push_str(&format!(in alloc; "helper {number} {name} missing")?)
        }
    }
}

/// The slot of a function that a program's call is a copy of.
fn place_of(program: &ReportedProgram<'_, '_>, slot: usize) -> Option<SlotPlace> {
    let calls = &program.report.calls;
    let index = calls.iter().position(|call| call.slot == slot)?;
    *program.places.get(index)?
}

/// What the type relocation asks for that left poison in a call.
fn asked_by<'r>(
    rows: &'r Rows<'_, '_>,
    program: &ReportedProgram<'_, '_>,
    call: &HarmfulCall,
) -> Option<&'r str> {
    if call.cause != CallCause::Poison {
        return None;
    }
    rows.asked_at(place_of(program, call.slot)?)
}

/// The cause for a call, where it stands, and what the kernel lacks for it.
fn call_text(
    alloc: Global,
    rows: &Rows<'_, '_>,
    program: &ProgramRow<'_>,
    call: &HarmfulCall,
    asked: Option<&str>,
) -> Result<String, AllocError> {
    let mut text = String::new(alloc);
    push_cause(alloc, rows, &mut text, call.cause)?;
    let name = Text::of(program.name);
    let slot = call.slot;
    text.push_str(&format!(in alloc; ": program {name}, instruction {slot}")?)?;
    if let Some(asked) = asked {
        text.push_str(&format!(in alloc; ", no {}", Text::of(asked))?)?;
    }
    if let Some(source) = source_of_call(rows, call) {
        text.push_str(&format!(in alloc; ", {}", SourceText(source))?)?;
    }
    Ok(text)
}

/// The cause for a load of an argument that there isn't.
fn argument_text(
    alloc: Global,
    program: &ProgramRow<'_>,
    slot: usize,
) -> Result<String, AllocError> {
    let name = Text::of(program.name);
    let section = Text::of(program.section);
    format!(in alloc; "argument missing: program {name}, instruction {slot}, section {section}")
}

/// The cause for a map that a program uses.
fn map_text(
    alloc: Global,
    program: &ProgramRow<'_>,
    map: Option<&MapRow<'_>>,
) -> Result<String, AllocError> {
    let name = Text::of(program.name);
    match map {
        Some(map) => {
            let map_name = Text::of(map.name);
            let map_type = map.map_type;
            format!(in alloc; "map type missing: program {name}, map {map_name}, type {map_type}")
        }
        None => format!(in alloc; "map type missing: program {name}"),
    }
}

/// A record of types that each kernel refuses, as the kernel's log names records, and why.
fn refused_type_text(
    alloc: Global,
    rows: &Rows<'_, '_>,
    refused: Option<RefusedType>,
) -> Result<String, AllocError> {
    let Some(refused) = refused else {
        return Ok(String::new(alloc));
    };
    let kind = kind_word(refused.kind);
    let name = QuotedText(rows.type_name(refused.id));
    let fault = refused.fault;
    format!(in alloc; "[{}] {kind} {name}: {fault}", refused.id)
}

/// A cause for which a kernel doesn't take a program.
fn program_cause_text(
    alloc: Global,
    rows: &Rows<'_, '_>,
    program: &ReportedProgram<'_, '_>,
    cause: &ProgramCause,
) -> Result<String, AllocError> {
    let name = Text::of(program.row.name);
    let section = Text::of(program.row.section);
    match cause {
        ProgramCause::Call(call) => {
            let asked = asked_by(rows, program, call);
            call_text(alloc, rows, program.row, call, asked)
        }
        ProgramCause::Argument { slot } => argument_text(alloc, program.row, *slot),
        ProgramCause::Target => {
            format!(in alloc; "target missing: program {name}, section {section}")
        }
        ProgramCause::ProgramType => format!(in alloc; "program type missing: program {name}"),
        ProgramCause::AttachType => {
            format!(in alloc; "attach type missing: program {name}, section {section}")
        }
        ProgramCause::Flags => {
            format!(in alloc; "program flags missing: program {name}, section {section}")
        }
        ProgramCause::Types => {
            let refused = refused_type_text(alloc, rows, program.refused_type)?;
            format!(in alloc; "types refused: program {name}, {refused}")
        }
        ProgramCause::Map { index } => map_text(alloc, program.row, rows.maps.get(*index)),
        ProgramCause::Helpers => format!(in alloc; "helpers missing: program {name}"),
    }
}

/// What isn't known of a program.
fn unknown_text(
    alloc: Global,
    rows: &Rows<'_, '_>,
    program: &ProgramRow<'_>,
    unknown: &ProgramCause,
) -> Result<String, AllocError> {
    let name = Text::of(program.name);
    let section = Text::of(program.section);
    match unknown {
        ProgramCause::Target => {
            format!(in alloc; "target unknown: program {name}, section {section}")
        }
        ProgramCause::ProgramType => format!(in alloc; "program type unknown: program {name}"),
        ProgramCause::AttachType => {
            format!(in alloc; "attach type unknown: program {name}, section {section}")
        }
        ProgramCause::Map { index } => {
            let map = match rows.maps.get(*index) {
                Some(map) => Text::of(map.name),
                None => Text(None),
            };
            format!(in alloc; "map type unknown: program {name}, map {map}")
        }
        ProgramCause::Flags => {
            format!(in alloc; "program flags unknown: program {name}, section {section}")
        }
        ProgramCause::Helpers
        | ProgramCause::Call(_)
        | ProgramCause::Argument { .. }
        | ProgramCause::Types => { format!(in alloc; "helpers unknown: program {name}") }
    }
}

/// The causes for which a kernel doesn't take a program, among them in a strict check what isn't
/// known.
///
/// # Errors
///
/// `AllocError` where memory runs out.
pub fn program_cause_texts(
    alloc: Global,
    rows: &Rows<'_, '_>,
    program: &ReportedProgram<'_, '_>,
) -> Result<Vec<String>, AllocError> {
    let mut texts = Vec::new(alloc);
    for cause in &program.report.causes {
        texts.push(program_cause_text(alloc, rows, program, cause)?)?;
    }
    if rows.is_strict {
        for unknown in &program.report.unknowns {
            texts.push(unknown_text(alloc, rows, program.row, unknown)?)?;
        }
    }
    Ok(texts)
}

/// The causes for which a kernel doesn't take the programs of a plan.
fn plan_texts(
    alloc: Global,
    rows: &Rows<'_, '_>,
    report: &ColumnReport,
    plan: &PlanReport,
) -> Result<Vec<CauseText>, AllocError> {
    let mut texts = Vec::new(alloc);
    for program in &reported_programs(alloc, rows, report, plan)? {
        for text in program_cause_texts(alloc, rows, program)? {
            let is_optional = program.row.is_optional;
            texts.push(CauseText { is_optional, text })?;
        }
    }
    if rows.is_strict {
        add_attachments(alloc, rows, &report.attachments, &mut texts)?;
        add_symbols(alloc, rows, report.has_symbols, &mut texts)?;
    }
    Ok(texts)
}

/// Whether types that are refused are no cause against any program.
fn is_only_warned(report: &PlanReport) -> bool {
    report.refused_type.is_some()
        && !report
            .programs
            .iter()
            .any(|program| program.causes.contains(&ProgramCause::Types))
}

/// Warnings on a plan that a kernel takes: types that are refused and that no program needs, and, in
/// a check that isn't strict, attach targets that are missing or that have another name.
///
/// # Errors
///
/// `AllocError` where memory runs out.
pub fn warning_texts(
    alloc: Global,
    rows: &Rows<'_, '_>,
    report: &ColumnReport,
) -> Result<Vec<String>, AllocError> {
    let mut texts = Vec::new(alloc);
    let ColumnPlan::Planned(Some(plan)) = &report.plan else {
        return Ok(texts);
    };
    if is_only_warned(plan) {
        let refused = refused_type_text(alloc, rows, plan.refused_type)?;
        texts.push(format!(in alloc; "types refused: {refused}")?)?;
    }
    for (program, attachment) in rows.programs.iter().zip(&report.attachments) {
        if rows.is_strict && *attachment == Attachment::Missing {
            continue;
        }
        if let Some(text) = attachment_text(alloc, program, *attachment)? {
            texts.push(text)?;
        }
    }
    Ok(texts)
}

/// One cause against the object.
fn one_text(alloc: Global, text: String) -> Result<Vec<CauseText>, AllocError> {
    let mut texts = Vec::new(alloc);
    let is_optional = false;
    texts.push(CauseText { is_optional, text })?;
    Ok(texts)
}

/// How many symbols aren't known that the kernel must have.
fn unknown_symbols(rows: &Rows<'_, '_>, has_symbols: bool) -> usize {
    rows.externs
        .iter()
        .filter(|row| is_unknown_symbol(has_symbols, row))
        .count()
}

/// How many things aren't known of what the programs need that aren't optional, and of the symbols
/// that the object needs.
pub fn unknown_count(rows: &Rows<'_, '_>, report: &ColumnReport) -> usize {
    let ColumnPlan::Planned(Some(plan)) = &report.plan else {
        return 0;
    };
    let mut count = unknown_symbols(rows, report.has_symbols);
    for (program, report) in rows.programs.iter().zip(&plan.programs) {
        if !program.is_optional {
            count = count.saturating_add(report.unknowns.len());
        }
    }
    count
}

/// Adds a cause for each symbol that isn't known and that the kernel must have.
fn add_symbols(
    alloc: Global,
    rows: &Rows<'_, '_>,
    has_symbols: bool,
    texts: &mut Vec<CauseText>,
) -> Result<(), AllocError> {
    for row in &rows.externs {
        if is_unknown_symbol(has_symbols, row) {
            let name = Text::of(row.name);
            let is_optional = false;
            let text = format!(in alloc; "symbol unknown: {name}")?;
            texts.push(CauseText { is_optional, text })?;
        }
    }
    Ok(())
}

/// What a program is attached to once it is loaded, if it is missing or stands there under another
/// name.
fn attachment_text(
    alloc: Global,
    program: &ProgramRow<'_>,
    attachment: Attachment,
) -> Result<Option<String>, AllocError> {
    let name = Text::of(program.name);
    let section = Text::of(program.section);
    match attachment {
        Attachment::Missing => Ok(Some(format!(in alloc;
            "attach target missing: program {name}, section {section}"
        )?)),
        Attachment::Variant => Ok(Some(format!(in alloc;
            "attach target under another name: program {name}, section {section}"
        )?)),
        Attachment::NotNamed | Attachment::Found | Attachment::Unknown => Ok(None),
    }
}

/// Adds a cause for each program whose attach target is missing.
fn add_attachments(
    alloc: Global,
    rows: &Rows<'_, '_>,
    attachments: &[Attachment],
    texts: &mut Vec<CauseText>,
) -> Result<(), AllocError> {
    for (program, attachment) in rows.programs.iter().zip(attachments) {
        if *attachment != Attachment::Missing {
            continue;
        }
        if let Some(text) = attachment_text(alloc, program, *attachment)? {
            let is_optional = program.is_optional;
            texts.push(CauseText { is_optional, text })?;
        }
    }
    Ok(())
}

/// `ok`, and how many things aren't known.
///
/// # Errors
///
/// `AllocError` where memory runs out.
pub fn ok_text(
    alloc: Global,
    rows: &Rows<'_, '_>,
    report: &ColumnReport,
) -> Result<String, AllocError> {
    match unknown_count(rows, report) {
        0 => String::from_str(alloc, "ok"),
        count => format!(in alloc; "ok, {count} unknown"),
    }
}

/// All causes for which a kernel doesn't take the object, or some of its programs.
///
/// # Errors
///
/// `AllocError` where memory runs out.
pub fn cause_texts(
    alloc: Global,
    rows: &Rows<'_, '_>,
    report: &ColumnReport,
) -> Result<Vec<CauseText>, AllocError> {
    if let Some(cause) = &rows.object_cause {
        return one_text(alloc, String::from_str(alloc, cause.as_str())?);
    }
    match &report.plan {
        ColumnPlan::Refused(refusal) => {
            one_text(alloc, format!(in alloc; "refused: {refusal}")?)
        }
        ColumnPlan::Planned(Some(plan)) => plan_texts(alloc, rows, report, plan),
        ColumnPlan::Planned(None) => Ok(Vec::new(alloc)),
    }
}

/// Adds the lines of a report: each cause, `ok` before those of optional programs alone, and a
/// warning.
fn push_lines(
    alloc: Global,
    rows: &Rows<'_, '_>,
    report: &ColumnReport,
    lines: &mut Vec<String>,
) -> Result<(), AllocError> {
    let causes = cause_texts(alloc, rows, report)?;
    if causes.iter().all(|cause| cause.is_optional) {
        lines.push(ok_text(alloc, rows, report)?)?;
    }
    for cause in &causes {
        let word = if cause.is_optional {
            "optional"
        } else {
            "fails"
        };
        lines.push(format!(in alloc; "{word}: {}", cause.text)?)?;
    }
    for warning in &warning_texts(alloc, rows, report)? {
        lines.push(format!(in alloc; "warning: {warning}")?)?;
    }
    Ok(())
}

/// The lines of the answer on a kernel: `ok`, or why it isn't.
///
/// # Errors
///
/// `AllocError` where memory runs out.
pub fn answer_lines(
    alloc: Global,
    rows: &Rows<'_, '_>,
    column: &Column<'_>,
) -> Result<Vec<String>, AllocError> {
    let mut lines = Vec::new(alloc);
    match &column.answer {
        ColumnAnswer::Unread(why) => lines.push(format!(in alloc; "no report: {why}")?)?,
        ColumnAnswer::Report(report) => push_lines(alloc, rows, report, &mut lines)?,
    }
    Ok(lines)
}
