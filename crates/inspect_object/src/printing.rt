//! What the program prints: an object, reports on it, code, its help or its version.

use crate::checks::{is_of_several, print_checks};
use crate::error::ProgramError;
use crate::extraction::print_extracted;
use crate::listings::print_listing;
use crate::reports::{Ended, print_reports};
use command_line::{InspectArguments, LineMessage, inspect_arguments, line_message, spread_words};
use diagnostics::{RefusalMessage, parse_text};
use ebpf_object::ParseError;
use object_text::{InspectError, inspect};
use program_io::{Kept, Unwritten, held_objects, print_text, read, words_of};
use std::alloc::{AllocError, Global};
use std::io;
use std::io::{BufWriter, Write};

/// The error for a refusal.
pub(crate) fn refused(alloc: Global, object: &[u8], error: ParseError) -> ProgramError {
    let text = parse_text(alloc, object, &error);
    ProgramError::Refused(RefusalMessage::new(text, error))
}

/// Prints an object.
fn print_bytes(rt: &HostRuntime, object: &[u8]) -> Result<(), ProgramError> {
    let Ok(mut out) = BufWriter::new(rt.alloc(), Kept::new(io::writer(rt))) else {
        return Err(ProgramError::OutOfMemory(AllocError));
    };
    match inspect(rt.alloc(), object, &mut out) {
        Ok(()) => match out.flush() {
            Ok(()) => Ok(()),
            Err(error) => Err(ProgramError::Unwritten(Unwritten::because(error))),
        },
        Err(InspectError::Output) => Err(ProgramError::Unwritten(out.get_ref().unwritten())),
        Err(InspectError::Refused(error)) => Err(refused(rt.alloc(), object, error)),
    }
}

/// Prints the reports about the objects on the kernels that the command line names.
fn print_on_kernels(rt: &HostRuntime, line: &InspectArguments<'_>) -> Result<Ended, ProgramError> {
    if is_of_several(rt, line) {
        print_checks(rt, line)
    } else {
        print_reports(rt, line)
    }
}

/// Prints the reports about an object on the kernels that the command line names, or what it holds
/// where the command line names none.
fn print_named(rt: &HostRuntime, line: &InspectArguments<'_>) -> Result<Ended, ProgramError> {
    if let Some(folder) = line.extract {
        return print_extracted(rt, line, folder);
    }
    if print_listing(rt, line)? {
        return Ok(Ended::Answered);
    }
    if let Some(fault) = line.check_fault() {
        let text = String::from_str(rt.alloc(), fault)?;
        return Err(ProgramError::Usage { text });
    }
    if !line.types.is_empty() {
        return print_on_kernels(rt, line);
    }
    if line.check
        || line.format.is_some()
        || line.symbols.is_some()
        || line.strict
        || !line.optional.is_empty()
    {
        return Err(ProgramError::NoTypes);
    }
    let object = read(rt, line.object)?;
    let count = held_objects(rt.alloc(), &object)?.len();
    if count > 0 {
        return Err(ProgramError::HoldsObjects { count });
    }
    print_bytes(rt, &object)?;
    Ok(Ended::Answered)
}

/// Prints the program's help or its version where clap's error is a request for one of them.
fn print_message(rt: &HostRuntime, error: &command_line::Error) -> Result<Ended, ProgramError> {
    match line_message(rt.alloc(), error)? {
        LineMessage::Fault { text } => Err(ProgramError::Usage { text }),
        LineMessage::Asked { text } => {
            print_text(rt, &text)?;
            Ok(Ended::Answered)
        }
    }
}

/// Prints what the command line asks for: an object, reports on it, the program's help or its
/// version.
pub(crate) fn print_asked(rt: &HostRuntime) -> Result<Ended, ProgramError> {
    let given = words_of(rt)?;
    let words = spread_words(rt.alloc(), &given)?;
    match inspect_arguments(rt.alloc(), &words) {
        Ok(line) => print_named(rt, &line),
        Err(error) => print_message(rt, &error),
    }
}
