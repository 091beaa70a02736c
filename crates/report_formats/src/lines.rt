//! Reports on several kernels as lines.

use kernel_reports::{HarmfulCall, HelperNeed, KindNeed, PlanReport, Presence, ProgramReport};
use quoting::{QuotedText, Text};
use report_objects::{
    ReportedProgram, cause_texts, ok_text, reported_programs, source_of_call, warning_texts,
};
use report_texts::{
    AnswerWords, Column, ColumnAnswer, ColumnPlan, ColumnReport, ExternRow, ProgramRow,
    RelocationRow, Rows, SourceText, TargetWord, attach_word, cause_word, extern_kind_word,
    is_helper, is_later_kind, kind_word, need_word, optional_word, poison_suffix, presence_word,
    reached_word,
};
use std::alloc::{AllocError, Global};

/// A name as a word, or a dash where there is none.
fn name_word(name: Option<&str>) -> Text<'_> {
    match name {
        Some(name) => Text::of(name),
        None => Text(None),
    }
}

/// The beginnings of the lines on type relocations.
fn relocation_beginnings(
    alloc: Global,
    rows: &[RelocationRow<'_>],
) -> Result<Vec<String>, AllocError> {
    let mut beginnings = Vec::new(alloc);
    for row in rows {
        let section = name_word(row.section);
        let function = name_word(row.function);
        let instruction = row.instruction;
        let asked = Text::of(&row.asked);
        beginnings.push(format!(in alloc;
            "relocation {section} function {function} instruction {instruction} asks {asked} "
        )?)?;
    }
    Ok(beginnings)
}

/// The beginnings of the lines on externs.
fn extern_beginnings(alloc: Global, rows: &[ExternRow<'_>]) -> Result<Vec<String>, AllocError> {
    let mut beginnings = Vec::new(alloc);
    for row in rows {
        let name = Text::of(row.name);
        let kind = extern_kind_word(row.kind);
        let is_weak = row.is_weak;
        beginnings.push(format!(in alloc; "extern {name} kind {kind} weak {is_weak} ")?)?;
    }
    Ok(beginnings)
}

/// The beginnings of lines, which are the same for each kernel.
#[derive(Drop)]
struct Beginnings {
    relocations: Vec<String>,
    externs: Vec<String>,
}

impl Beginnings {
    fn of(alloc: Global, rows: &Rows<'_, '_>) -> Result<Beginnings, AllocError> {
        Ok(Beginnings {
            relocations: relocation_beginnings(alloc, &rows.relocations)?,
            externs: extern_beginnings(alloc, &rows.externs)?,
        })
    }
}

/// Appends the lines on whether the kernel takes the object: `ok`, or each cause.
fn push_check(
    alloc: Global,
    text: &mut String,
    rows: &Rows<'_, '_>,
    report: &ColumnReport,
) -> Result<(), AllocError> {
    let causes = cause_texts(alloc, rows, report)?;
    if causes.iter().all(|cause| cause.is_optional) {
        writeln!(text, "check {}", ok_text(alloc, rows, report)?)?;
    }
    for cause in &causes {
        let word = if cause.is_optional {
            "optional"
        } else {
            "fails"
        };
        writeln!(text, "check {word} {}", cause.text)?;
    }
    for warning in &warning_texts(alloc, rows, report)? {
        writeln!(text, "check warning {warning}")?;
    }
    Ok(())
}

/// Appends the line on a call that the kernel doesn't take.
fn push_call(
    text: &mut String,
    rows: &Rows<'_, '_>,
    program: &ProgramRow<'_>,
    call: &HarmfulCall,
) -> Result<(), AllocError> {
    let name = Text::of(program.name);
    let slot = call.slot;
    let cause = cause_word(call.cause);
    write!(
        text,
        "call {name} instruction {slot} {cause} {}",
        reached_word(call.is_reached)
    )?;
    match source_of_call(rows, call) {
        Some(source) => writeln!(text, " {}", SourceText(source)),
        None => writeln!(text, " -"),
    }
}

/// Appends the line on a helper that a program calls.
fn push_helper(
    text: &mut String,
    rows: &Rows<'_, '_>,
    program: &ProgramRow<'_>,
    need: &HelperNeed,
) -> Result<(), AllocError> {
    let name = Text::of(program.name);
    let number = need.number;
    let helper = rows.helpers.get(number).unwrap_or("-");
    writeln!(
        text,
        "helper {name} {number} {helper} {}",
        need_word(need.presence)
    )
}

/// Appends the lines on the helpers and the calls of a program.
fn push_calls(
    text: &mut String,
    rows: &Rows<'_, '_>,
    program: &ProgramRow<'_>,
    report: &ProgramReport,
) -> Result<(), AllocError> {
    for need in &report.needs.helpers {
        if is_helper(need.number) {
            push_helper(text, rows, program, need)?;
        }
    }
    for call in &report.calls {
        push_call(text, rows, program, call)?;
    }
    Ok(())
}

/// Appends the line on what a program needs besides helpers.
fn push_program(text: &mut String, program: &ReportedProgram<'_, '_>) -> Result<(), AllocError> {
    let name = Text::of(program.row.name);
    let section = Text::of(program.row.section);
    let needs = &program.report.needs;
    write!(
        text,
        "needs {name} section {section} target {}",
        TargetWord(needs.target)
    )?;
    let attach_type = optional_word(needs.attach_type);
    let flags = optional_word(needs.flags);
    write!(text, " type {}", need_word(needs.prog_type))?;
    writeln!(
        text,
        " attach-type {attach_type} flags {flags} attach {}",
        attach_word(program.attachment)
    )
}

/// Appends the lines on programs.
fn push_programs(
    alloc: Global,
    text: &mut String,
    rows: &Rows<'_, '_>,
    report: &ColumnReport,
    plan: &PlanReport,
) -> Result<(), AllocError> {
    for program in &reported_programs(alloc, rows, report, plan)? {
        push_program(text, program)?;
        push_calls(text, rows, program.row, program.report)?;
    }
    Ok(())
}

/// Appends the lines on maps.
fn push_maps(
    text: &mut String,
    rows: &Rows<'_, '_>,
    presences: &[Presence],
) -> Result<(), AllocError> {
    for (map, presence) in rows.maps.iter().zip(presences) {
        let name = Text::of(map.name);
        writeln!(
            text,
            "map-type {name} {} {}",
            map.map_type,
            need_word(*presence)
        )?;
    }
    Ok(())
}

/// Appends the lines on kinds of records.
fn push_kinds(text: &mut String, kinds: &[KindNeed]) -> Result<(), AllocError> {
    for need in kinds {
        if is_later_kind(need.kind) {
            let kind = kind_word(need.kind);
            writeln!(text, "record-kind {kind} {}", need_word(need.presence))?;
        }
    }
    Ok(())
}

/// Appends the lines on whether there is a plan, and on what the kernel makes of it.
fn push_plan(
    alloc: Global,
    text: &mut String,
    rows: &Rows<'_, '_>,
    report: &ColumnReport,
) -> Result<(), AllocError> {
    match &report.plan {
        ColumnPlan::Refused(refusal) => writeln!(text, "plan no {refusal}"),
        ColumnPlan::Planned(None) => writeln!(text, "plan yes"),
        ColumnPlan::Planned(Some(plan)) => {
            writeln!(text, "plan yes")?;
            push_check(alloc, text, rows, report)?;
            push_programs(alloc, text, rows, report, plan)?;
            push_maps(text, rows, &plan.maps)
        }
    }
}

/// Appends the lines on type relocations.
fn push_relocations(
    text: &mut String,
    beginnings: &[String],
    report: &ColumnReport,
) -> Result<(), AllocError> {
    let answers = report.relocations.iter().zip(&report.reaches);
    for (beginning, (answer, reach)) in beginnings.iter().zip(answers) {
        let suffix = poison_suffix(answer, *reach);
        writeln!(text, "{beginning}{}{suffix}", AnswerWords(answer))?;
    }
    Ok(())
}

/// Appends the lines on externs.
fn push_externs(
    text: &mut String,
    beginnings: &[String],
    presences: &[Presence],
) -> Result<(), AllocError> {
    for (beginning, presence) in beginnings.iter().zip(presences) {
        text.push_str(beginning)?;
        writeln!(text, "{}", presence_word(*presence))?;
    }
    Ok(())
}

/// Appends the lines of a report.
fn push_report(
    alloc: Global,
    text: &mut String,
    rows: &Rows<'_, '_>,
    beginnings: &Beginnings,
    report: &ColumnReport,
) -> Result<(), AllocError> {
    push_plan(alloc, text, rows, report)?;
    push_kinds(text, &report.kinds)?;
    push_relocations(text, &beginnings.relocations, report)?;
    push_externs(text, &beginnings.externs, &report.externs)
}

/// Appends the lines on a kernel.
fn push_column(
    alloc: Global,
    text: &mut String,
    rows: &Rows<'_, '_>,
    beginnings: &Beginnings,
    column: &Column<'_>,
) -> Result<(), AllocError> {
    writeln!(text, "kernel {}", QuotedText(column.file))?;
    match &column.answer {
        ColumnAnswer::Unread(why) => writeln!(text, "unread {why}"),
        ColumnAnswer::Report(report) => push_report(alloc, text, rows, beginnings, report),
    }
}

/// The reports on several kernels as lines for tools, kernel by kernel.
///
/// # Errors
///
/// `AllocError` where memory runs out.
pub fn lines_text(
    alloc: Global,
    rows: &Rows<'_, '_>,
    columns: &[Column<'_>],
) -> Result<String, AllocError> {
    let beginnings = Beginnings::of(alloc, rows)?;
    let mut text = String::new(alloc);
    for column in columns {
        push_column(alloc, &mut text, rows, &beginnings, column)?;
    }
    Ok(text)
}
