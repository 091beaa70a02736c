//! What the program prints: a plan, its help or its version.

use crate::error::ProgramError;
use crate::settings_text::fault_text;
use command_line::{Arguments, LineMessage, arguments, line_message};
use diagnostics::{KernelFiles, RefusalMessage, prepare_text};
use ebpf_object::{Object, ObjectFile, ParseError};
use lints::{Note, header_notes, number_notes, object_notes};
use load_plan::{Order, PrepareError, RunError, Watched, number_maps, run};
use program_io::{
    Kept, Unwritten, check_types_count, kernel_tables, lacks_magic, open, print_text, read,
    read_all, words_of,
};
use run_settings::{RunSettings, SettingsError};
use std::alloc::{AllocError, Global};
use std::io;
use std::io::{BufRead, BufWriter, IsTerminal, Write};

/// The settings of a file's text, or the default ones without a file, changed by those of the
/// command line.
fn settings_of(
    alloc: Global,
    line: &Arguments<'_>,
    file: Option<&[u8]>,
) -> Result<RunSettings, ProgramError> {
    let mut settings = match (line.settings, file) {
        (Some(name), Some(bytes)) => file_settings(alloc, name, bytes)?,
        _ => RunSettings::new(alloc),
    };
    line.set_over(alloc, &mut settings)?;
    Ok(settings)
}

/// The settings of a file's text.
fn file_settings(alloc: Global, name: &str, bytes: &[u8]) -> Result<RunSettings, ProgramError> {
    let Ok(text) = std::str::from_utf8(bytes) else {
        return Err(ProgramError::Settings {
            name: String::from_str(alloc, name)?,
            fault: String::from_str(alloc, "the text isn't UTF-8")?,
        });
    };
    match RunSettings::from_toml(alloc, text) {
        Ok(settings) => Ok(settings),
        Err(SettingsError::OutOfMemory) => Err(ProgramError::OutOfMemory(AllocError)),
        Err(SettingsError::Invalid) => Err(ProgramError::Settings {
            name: String::from_str(alloc, name)?,
            fault: fault_text(alloc, text)?,
        }),
    }
}

/// The object of a file. An object that can't be parsed is left to the run, which refuses it.
fn parsed(alloc: Global, object: &[u8]) -> Result<Option<Object<'_>>, AllocError> {
    match Object::parse(alloc, object) {
        Ok(object) => Ok(Some(object)),
        Err(ParseError::OutOfMemory) => Err(AllocError),
        Err(_) => Ok(None),
    }
}

/// What a run needs, besides its symbols and its output.
#[derive(Drop)]
struct Given<'g, 'w> {
    line: &'g Arguments<'w>,
    object: &'g [u8],
    settings: &'g RunSettings,
    types: &'g [Vec<u8>],
}

/// The order of the passes over types.
fn order_of(line: &Arguments<'_>) -> Order {
    if line.rewrite_first {
        Order::RewriteFirst
    } else {
        Order::RelocateFirst
    }
}

/// The error for a refusal.
fn refused(alloc: Global, given: &Given<'_, '_>, error: PrepareError) -> ProgramError {
    let settings = given.settings;
    let files = KernelFiles {
        types: given.line.types.as_slice(),
        symbols: given.line.symbols,
        are_named: true,
        has_options: true,
    };
    let text = prepare_text(alloc, given.object, &settings.settings, &files, &error);
    ProgramError::Refused(RefusalMessage::new(text, error))
}

/// Names the files of types that don't begin with their magic, since nothing shows that they are
/// types.
fn print_type_notes(rt: &HostRuntime, line: &Arguments<'_>, files: &[Vec<u8>]) {
    for (name, bytes) in line.types.iter().zip(files) {
        if lacks_magic(bytes, line.types_order) {
            let _ = eprintln!(rt;
                "bpf_prepare: note: {name:?} doesn't begin with the magic of types, and is read as types all the same"
            );
        }
    }
}

/// Prints the plan of an object.
fn print_plan<R: BufRead>(
    rt: &HostRuntime,
    given: &Given<'_, '_>,
    symbols: &mut Watched<R>,
) -> Result<(), ProgramError> {
    let line = given.line;
    let types = kernel_tables(rt.alloc(), &line.types, given.types, line.types_order)?;
    print_type_notes(rt, line, given.types);
    let Ok(writer) = BufWriter::new(rt.alloc(), Kept::new(io::writer(rt))) else {
        return Err(ProgramError::OutOfMemory(AllocError));
    };
    let mut out = Watched::new(writer);
    let written = run(
        rt.alloc(),
        given.object,
        &types,
        symbols,
        given.settings,
        order_of(line),
        &mut out,
    );
    let mut writer = out.into_inner();
    match written {
        Ok(()) => match writer.flush() {
            Ok(()) => Ok(()),
            Err(error) => Err(ProgramError::PlanUnwritten(Unwritten::because(error))),
        },
        Err(RunError::Output) => Err(ProgramError::PlanUnwritten(writer.get_ref().unwritten())),
        Err(RunError::Refused(error)) => Err(refused(rt.alloc(), given, error)),
    }
}

/// Prints notes.
fn print_each(rt: &HostRuntime, notes: &[Note<'_>]) {
    for note in notes {
        let _ = eprintln!(rt; "bpf_prepare: note: {note}");
    }
}

/// Prints the notes on a file that can't be parsed as an object, as far as memory and standard error
/// allow.
fn print_file_notes(rt: &HostRuntime, file: &[u8]) {
    let Ok(file) = ObjectFile::parse(rt.alloc(), file) else {
        return;
    };
    if let Ok(notes) = object_notes(rt.alloc(), &file) {
        print_each(rt, &notes);
    }
}

/// Prints the notes on an object and on the numbers of its maps, as far as memory and standard error
/// allow.
fn print_object_notes(rt: &HostRuntime, object: &Object<'_>, settings: &RunSettings) {
    if let Ok(notes) = object_notes(rt.alloc(), object.file()) {
        print_each(rt, &notes);
    }
    if let Ok(notes) = number_notes(rt.alloc(), object.maps(), &settings.settings) {
        print_each(rt, &notes);
    }
}

/// Numbers the maps of an object, and prints the notes on it, where the command line asks for them.
/// The object is parsed once for both. Notes don't end the program where memory runs out.
fn number_and_note(
    rt: &HostRuntime,
    line: &Arguments<'_>,
    file: &[u8],
    settings: &mut RunSettings,
) -> Result<(), ProgramError> {
    let has_notes = line.notes || rt.stderr().is_terminal();
    if !line.number_maps && !has_notes {
        return Ok(());
    }
    let object = match parsed(rt.alloc(), file) {
        Ok(object) => object,
        Err(error) if line.number_maps => return Err(ProgramError::OutOfMemory(error)),
        Err(_) => None,
    };
    if let (Some(object), true) = (&object, line.number_maps) {
        number_maps(rt.alloc(), object.maps(), &mut settings.settings)?;
    }
    if !has_notes {
        return Ok(());
    }
    if let Ok(notes) = header_notes(rt.alloc(), file) {
        print_each(rt, &notes);
    }
    match &object {
        Some(object) => print_object_notes(rt, object, settings),
        None => print_file_notes(rt, file),
    }
    Ok(())
}

/// Prints the plan of an object for a kernel with these symbols, with the settings of a file's text
/// and of the command line.
fn print_with_symbols<R: BufRead>(
    rt: &HostRuntime,
    line: &Arguments<'_>,
    object: &[u8],
    file: Option<&[u8]>,
    types: &[Vec<u8>],
    symbols: &mut Watched<R>,
) -> Result<(), ProgramError> {
    let mut settings = settings_of(rt.alloc(), line, file)?;
    number_and_note(rt, line, object, &mut settings)?;
    let given = Given {
        line,
        object,
        settings: &settings,
        types,
    };
    print_plan(rt, &given, symbols)
}

/// The same, with the symbols of the file that the command line names, if it names one.
fn print_with_types(
    rt: &HostRuntime,
    line: &Arguments<'_>,
    object: &[u8],
    file: Option<&[u8]>,
    types: &[Vec<u8>],
) -> Result<(), ProgramError> {
    match line.symbols {
        Some(name) => {
            let mut symbols = Watched::new(open(rt, name)?);
            print_with_symbols(rt, line, object, file, types, &mut symbols)
        }
        None => {
            let mut symbols = Watched::new(io::empty());
            print_with_symbols(rt, line, object, file, types, &mut symbols)
        }
    }
}

/// Reads the other files that a command line names, and prints the plan of its object.
fn print_object(rt: &HostRuntime, line: &Arguments<'_>, object: &[u8]) -> Result<(), ProgramError> {
    let file = match line.settings {
        Some(name) => Some(read(rt, name)?),
        None => None,
    };
    let types = read_all(rt, &line.types)?;
    print_with_types(rt, line, object, file.as_deref(), &types)
}

/// Reads the files that a command line names, and prints the plan of its object.
fn print_named(rt: &HostRuntime, line: &Arguments<'_>) -> Result<(), ProgramError> {
    // Faults of the command line come first.
    settings_of(rt.alloc(), line, None)?;
    check_types_count(&line.types)?;
    let object = read(rt, line.object)?;
    print_object(rt, line, &object)
}

/// Prints the program's help or its version where clap's error is a request for one of them.
///
/// # Errors
///
/// What is wrong with the command line otherwise; or standard output can't be written.
fn print_message(rt: &HostRuntime, error: &command_line::Error) -> Result<(), ProgramError> {
    match line_message(rt.alloc(), error)? {
        LineMessage::Fault { text } => Err(ProgramError::Line { text }),
        LineMessage::Asked { text } => match print_text(rt, &text) {
            Ok(()) => Ok(()),
            Err(error) => Err(ProgramError::TextUnwritten(error)),
        },
    }
}

/// Prints what the program's arguments ask for: a plan, the program's help or its version.
///
/// # Errors
///
/// [`ProgramError`], where nothing is printed, or standard output can't be written.
pub fn print_asked(rt: &HostRuntime) -> Result<(), ProgramError> {
    let words = words_of(rt)?;
    match arguments(rt.alloc(), &words) {
        Ok(line) => print_named(rt, &line),
        Err(error) => print_message(rt, &error),
    }
}
