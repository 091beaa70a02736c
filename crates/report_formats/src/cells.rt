//! Rows of the table on programs, maps and kinds of records.

use kernel_reports::{
    CallCause, HarmfulCall, KindNeed, PlanReport, Presence, ProgramCause, ProgramReport,
};
use quoting::Text;
use report_texts::{Rows, is_later_kind, kind_word, need_word, optional_word};
use std::alloc::{AllocError, Global};

/// Adds the beginnings of the lines on programs.
pub(crate) fn push_program_labels(
    alloc: Global,
    rows: &Rows<'_, '_>,
    labels: &mut Vec<String>,
) -> Result<(), AllocError> {
    for program in &rows.programs {
        let name = Text::of(program.name);
        labels.push(format!(in alloc; "program {name}")?)?;
    }
    Ok(())
}

/// Adds the beginnings of the lines on maps.
pub(crate) fn push_map_labels(
    alloc: Global,
    rows: &Rows<'_, '_>,
    labels: &mut Vec<String>,
) -> Result<(), AllocError> {
    for map in &rows.maps {
        let name = Text::of(map.name);
        labels.push(format!(in alloc; "map {name}")?)?;
    }
    Ok(())
}

/// Adds the beginnings of the lines on kinds of records.
pub(crate) fn push_kind_labels(
    alloc: Global,
    rows: &Rows<'_, '_>,
    labels: &mut Vec<String>,
) -> Result<(), AllocError> {
    for need in &rows.kinds {
        if is_later_kind(need.kind) {
            let kind = kind_word(need.kind);
            labels.push(format!(in alloc; "record kind {kind}")?)?;
        }
    }
    Ok(())
}

/// Adds the cells of kinds of records: whether the kernel has them.
pub(crate) fn push_kind_cells(
    alloc: Global,
    kinds: &[KindNeed],
    cells: &mut Vec<String>,
) -> Result<(), AllocError> {
    for need in kinds {
        if is_later_kind(need.kind) {
            cells.push(String::from_str(alloc, need_word(need.presence))?)?;
        }
    }
    Ok(())
}

/// What a run comes to that the kernel doesn't take.
fn call_cell(alloc: Global, call: &HarmfulCall) -> Result<String, AllocError> {
    let slot = call.slot;
    match call.cause {
        CallCause::Poison => format!(in alloc; "poison at {slot}"),
        CallCause::MissingFunction => format!(in alloc; "function at {slot}"),
        CallCause::MissingHelper { number } => format!(in alloc; "helper {number} at {slot}"),
    }
}

/// How many calls are cut off that the kernel doesn't take.
fn cut_off_cell(alloc: Global, calls: &[HarmfulCall]) -> Result<String, AllocError> {
    if calls.is_empty() {
        String::from_str(alloc, "ok")
    } else {
        format!(in alloc; "ok, {} cut off", calls.len())
    }
}

/// The first cause for which the kernel doesn't take a program, or that it does.
fn program_cell(alloc: Global, report: &ProgramReport) -> Result<String, AllocError> {
    match report.causes.first() {
        Some(ProgramCause::Call(call)) => call_cell(alloc, call),
        Some(ProgramCause::Argument { slot }) => format!(in alloc; "argument at {slot}"),
        Some(ProgramCause::Target) => String::from_str(alloc, "no target"),
        Some(ProgramCause::ProgramType) => String::from_str(alloc, "no type"),
        Some(ProgramCause::AttachType) => String::from_str(alloc, "no attach type"),
        Some(ProgramCause::Flags) => String::from_str(alloc, "no flags"),
        Some(ProgramCause::Types) => String::from_str(alloc, "types refused"),
        Some(ProgramCause::Map { .. }) => String::from_str(alloc, "no map type"),
        Some(ProgramCause::Helpers) => String::from_str(alloc, "no helpers"),
        None => cut_off_cell(alloc, &report.calls),
    }
}

fn program_at(report: Option<&PlanReport>, index: usize) -> Option<&ProgramReport> {
    report?.programs.get(index)
}

/// Adds the cells of programs.
pub(crate) fn push_program_cells(
    alloc: Global,
    rows: &Rows<'_, '_>,
    report: Option<&PlanReport>,
    cells: &mut Vec<String>,
) -> Result<(), AllocError> {
    for index in 0..rows.programs.len() {
        let cell = match program_at(report, index) {
            Some(program) => program_cell(alloc, program)?,
            None => String::from_str(alloc, "-")?,
        };
        cells.push(cell)?;
    }
    Ok(())
}

fn map_at(report: Option<&PlanReport>, index: usize) -> Option<Presence> {
    Some(*report?.maps.get(index)?)
}

/// Adds the cells of maps: whether the kernel has their types.
pub(crate) fn push_map_cells(
    alloc: Global,
    rows: &Rows<'_, '_>,
    report: Option<&PlanReport>,
    cells: &mut Vec<String>,
) -> Result<(), AllocError> {
    for index in 0..rows.maps.len() {
        cells.push(String::from_str(alloc, optional_word(map_at(report, index)))?)?;
    }
    Ok(())
}
