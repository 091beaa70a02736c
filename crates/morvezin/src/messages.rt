//! What failures say.

ghost use Rattle.std.specs.Prelude.{◌≡◌, ◌≢◌, pos};
ghost use Rattle.plan_errors.specs.declared.error.PrepareError.TheVariants as prepare;
ghost use Rattle.morvezin.specs.Calls.{NoKind, Says};
ghost use Rattle.morvezin.specs.Kinds.{kind_of};

use crate::failure::{Failure, OBJECT, kind_of};
use diagnostics::{KernelFiles, RefusalMessage, parse_text, prepare_text};
use ebpf_object::ParseError;
use lints::invalid_text;
use load_plan::PrepareError;
use settings::Settings;
use std::alloc::{AllocError, Global};

/// What messages call the kernel's symbols.
const SYMBOLS: &str = "the kernel's symbols";

/// What is known of a kernel, for messages that name no files.
pub(crate) fn kernel_files<'k>(types: &'k [&'k str], has_symbols: bool) -> KernelFiles<'k> {
    KernelFiles {
        types,
        symbols: if has_symbols { Some(SYMBOLS) } else { None },
        are_named: false,
        has_options: false,
    }
}

/// The names of the kernel's types in messages, none where there are no tables.
pub(crate) fn type_names(has_types: bool) -> &'static [&'static str] {
    if has_types {
        &["the kernel's types"]
    } else {
        &[]
    }
}

/// The failure for a refusal of an object with these settings.
pub(crate) fn refused(
    alloc: Global,
    object: &[u8],
    settings: &Settings,
    files: &KernelFiles<'_>,
    error: PrepareError,
) -> Failure
    ensures { Says (λ kind. (error ≢ prepare.OutOfMemory) × (kind ≡ pos (kind_of error))) ⊥ ⊥ result }
{
    let kind = kind_of(&error);
    if let PrepareError::OutOfMemory = error {
        return Failure::OutOfMemory;
    }
    let text = prepare_text(alloc, object, settings, files, &error);
    let message = RefusalMessage::new(text, error);
    match format!(in alloc; "{message}") {
        Ok(text) => Failure::Refused(kind, text),
        Err(_) => Failure::OutOfMemory,
    }
}

/// The failure for an object that can't be parsed.
pub(crate) fn unparsed(alloc: Global, object: &[u8], error: ParseError) -> Failure {
    if let ParseError::OutOfMemory = error {
        return Failure::OutOfMemory;
    }
    match parse_text(alloc, object, &error) {
        Ok(text) => Failure::Refused(OBJECT, text),
        Err(_) => Failure::OutOfMemory,
    }
}

/// The lines of a text as one.
fn one_line(alloc: Global, text: &str) -> Result<String, AllocError> {
    let mut line = String::new(alloc);
    for part in text.lines() {
        if !line.is_empty() {
            line.push_str(": ")?;
        }
        line.push_str(part)?;
    }
    Ok(line)
}

/// What is wrong with a text of settings.
fn settings_text(alloc: Global, text: &str) -> Result<String, AllocError> {
    match toml::table_from_str(alloc, text) {
        Ok(table) => match invalid_text(alloc, text, &table)? {
            Some(fault) => format!(in alloc; "settings: {fault}"),
            None => String::from_str(alloc, "settings: they can't be read"),
        },
        Err(error) if error.is_memory() => Err(AllocError),
        Err(error) => {
            let text = format!(in alloc; "settings: {error}")?;
            one_line(alloc, &text)
        }
    }
}

/// The failure for settings whose text is invalid.
pub(crate) fn invalid_settings(alloc: Global, text: &str) -> Failure
    ensures { Says NoKind (Unit {0}) ⊥ result }
{
    match settings_text(alloc, text) {
        Ok(text) => Failure::Settings(text),
        Err(_) => Failure::OutOfMemory,
    }
}

/// The failure for settings that are no text.
pub(crate) fn settings_without_text(alloc: Global) -> Failure
    ensures { Says NoKind (Unit {0}) ⊥ result }
{
    match String::from_str(alloc, "settings: the text isn't UTF-8") {
        Ok(text) => Failure::Settings(text),
        Err(_) => Failure::OutOfMemory,
    }
}
