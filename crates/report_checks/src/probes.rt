//! Functions that probes name, among the symbols of a kernel.

use crate::attachments::{Attachment, probe_name};
use crate::reports::PlanReport;
use plan_text::{Plan, PlanProgram};
use program_kinds::ProgramSection;
use std::alloc::{AllocError, Global};

/// The function that a probe's section names.
fn function_of<'s>(program: &PlanProgram<'_>, section: &'s str) -> Option<&'s str> {
    match program.section() {
        ProgramSection::KProbe | ProgramSection::KRetProbe => probe_name(section),
        _ => None,
    }
}

/// The functions that programs in these sections are probes of.
fn functions_of<'s>(
    alloc: Global,
    programs: &[PlanProgram<'_>],
    sections: &[&'s str],
) -> Result<Vec<Option<&'s str>>, AllocError> {
    let mut functions = Vec::new(alloc);
    for (program, section) in programs.iter().zip(sections) {
        functions.push(function_of(program, *section))?;
    }
    Ok(functions)
}

/// The name in a line of symbols, if it is that of a function (`t`, `T`, `w` or `W`).
fn function_in(line: &str) -> Option<&str> {
    let mut words = line.split_whitespace();
    let _address = words.next()?;
    let kind = words.next()?;
    let name = words.next()?;
    if matches!(kind, "t" | "T" | "w" | "W") {
        Some(name)
    } else {
        None
    }
}

/// Whether a compiler made one function of another, by its name.
fn is_variant(name: &str, function: &str) -> bool {
    match name.strip_prefix(function) {
        Some(suffix) => {
            suffix.starts_with(".isra.")
                || suffix.starts_with(".part.")
                || suffix.starts_with(".constprop.")
                || suffix.starts_with(".cold")
        }
        None => false,
    }
}

/// What is known of a function after a symbol of this name.
fn known_after(known: Attachment, name: &str, function: &str) -> Attachment {
    if name == function {
        return Attachment::Found;
    }
    if known == Attachment::Missing && is_variant(name, function) {
        return Attachment::Variant;
    }
    known
}

/// Notes a symbol's name with each function.
fn note_symbol(found: &mut [Attachment], functions: &[Option<&str>], name: &str) {
    for (known, function) in found.iter_mut().zip(functions) {
        if let Some(function) = function {
            *known = known_after(*known, name, *function);
        }
    }
}

/// Sets what is known of the functions by symbols, as /proc/kallsyms lists them.
fn find_functions(attachments: &mut [Attachment], functions: &[Option<&str>], symbols: &str) {
    for (known, function) in attachments.iter_mut().zip(functions) {
        if function.is_some() {
            *known = Attachment::Missing;
        }
    }
    for line in symbols.split('\n') {
        if let Some(name) = function_in(line) {
            note_symbol(attachments, functions, name);
        }
    }
}

/// Whether a kernel has what each program of a plan is attached to once it is loaded, given the names
/// of the programs' sections and what the kernel makes of the plan: a probe's function by the
/// kernel's symbols, where they are given, and all else by its types.
///
/// # Errors
///
/// `AllocError` where memory runs out.
pub fn attachments_of(
    alloc: Global,
    plan: &Plan<'_>,
    sections: &[&str],
    symbols: Option<&str>,
    report: &PlanReport,
) -> Result<Vec<Attachment>, AllocError> {
    let mut attachments = Vec::new(alloc);
    for program in &report.programs {
        attachments.push(program.attachment)?;
    }
    let functions = functions_of(alloc, plan.programs(), sections)?;
    if let Some(symbols) = symbols {
        if functions.iter().any(|function| function.is_some()) {
            find_functions(&mut attachments, &functions, symbols);
        }
    }
    Ok(attachments)
}
