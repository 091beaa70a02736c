//! Checks of several objects.

use crate::error::ProgramError;
use crate::objects::{Inspected, ParsedObject};
use crate::printing::refused;
use crate::reports::{Ended, end_of, kernel_files, reports_on, say_left_out, say_unread};
use command_line::InspectArguments;
use ebpf_object::Object;
use program_io::{
    FileBytes, InputError, ObjectBytes, Wanted, is_folder, named_files, objects_of, print_text,
    read,
};
use report_objects::{Counts, ObjectReport, answers_text};
use std::alloc::{AllocError, Global};

/// The bytes of the files that can be read. The others are named on standard error.
pub(crate) fn read_files<'n>(
    rt: &HostRuntime,
    names: &'n [String],
) -> Result<Vec<FileBytes<'n>>, AllocError> {
    let mut files = Vec::new(rt.alloc());
    for name in names {
        match read(rt, name) {
            Ok(bytes) => files.push(FileBytes { name, bytes })?,
            Err(InputError::OutOfMemory) => return Err(AllocError),
            Err(error) => {
                let _ = eprintln!(rt; "inspect_object: {error}");
            }
        }
    }
    Ok(files)
}

/// The objects that can be parsed. The others are named on standard error.
fn parse_objects<'f>(
    rt: &HostRuntime,
    objects: &'f [ObjectBytes<'f>],
) -> Result<Vec<ParsedObject<'f>>, AllocError> {
    let mut parsed = Vec::new(rt.alloc());
    for object in objects {
        let name = object.name.as_str();
        let file = object.bytes;
        match Object::parse(rt.alloc(), file) {
            Ok(object) => parsed.push(ParsedObject { name, file, object })?,
            Err(error) => {
                let error = refused(rt.alloc(), file, error);
                let _ = eprintln!(rt; "inspect_object: {name:?}: {error}");
            }
        }
    }
    Ok(parsed)
}

/// The objects, each with what the reports on it share.
fn inspected_objects<'g, 'f>(
    alloc: Global,
    objects: &'g [ParsedObject<'f>],
) -> Result<Vec<Inspected<'g, 'f>>, AllocError> {
    let mut inspected = Vec::new(alloc);
    for object in objects {
        inspected.push(Inspected::of(alloc, object)?)?;
    }
    Ok(inspected)
}

/// Prints the answers.
fn print_answers(
    rt: &HostRuntime,
    line: &InspectArguments<'_>,
    reports: &[ObjectReport<'_, '_, '_>],
    kernels: usize,
    refused: usize,
) -> Result<(), ProgramError> {
    let counts = Counts::of(reports, kernels, refused);
    let text = answers_text(rt.alloc(), reports, counts, line.failures)?;
    print_text(rt, &text)?;
    if let Some(report) = reports.first() {
        say_unread(rt, &report.columns);
    }
    Ok(())
}

/// The files of the objects that the command line names.
pub(crate) fn object_files(
    rt: &HostRuntime,
    line: &InspectArguments<'_>,
) -> Result<Vec<String>, ProgramError> {
    let mut words = Vec::new(rt.alloc());
    words.push(line.object)?;
    for word in &line.more_objects {
        words.push(*word)?;
    }
    let files = named_files(rt, &words, Wanted::Objects)?;
    say_left_out(rt, &files)?;
    Ok(files.names)
}

/// Whether the command line asks for a check of several objects, or for failures alone.
pub(crate) fn is_of_several(rt: &HostRuntime, line: &InspectArguments<'_>) -> bool {
    !line.more_objects.is_empty()
        || line.failures
        || (line.check && line.format.is_none() && is_folder(rt, line.object))
}

/// Prints the answers on parsed objects and kernels, given the number of the objects that are
/// refused.
fn print_on_objects(
    rt: &HostRuntime,
    line: &InspectArguments<'_>,
    files: &[String],
    objects: &[ParsedObject<'_>],
    refused: usize,
) -> Result<Ended, ProgramError> {
    let objects = inspected_objects(rt.alloc(), objects)?;
    let reports = reports_on(rt, line, files, &objects, true)?;
    print_answers(rt, line, &reports, files.len(), refused)?;
    Ok(end_of(true, refused > 0, &reports))
}

/// Prints the answers on the objects of some files and on the kernels of others, given the number of
/// the files of objects that can't be read.
pub(crate) fn print_on_files(
    rt: &HostRuntime,
    line: &InspectArguments<'_>,
    kernels: &[String],
    files: &[FileBytes<'_>],
    unread: usize,
) -> Result<Ended, ProgramError> {
    let found = objects_of(rt.alloc(), files)?;
    let objects = parse_objects(rt, &found)?;
    let refused = found.len().saturating_sub(objects.len());
    print_on_objects(rt, line, kernels, &objects, unread.saturating_add(refused))
}

/// Prints the answers on several objects and on each of the kernels that the command line names.
pub(crate) fn print_checks(
    rt: &HostRuntime,
    line: &InspectArguments<'_>,
) -> Result<Ended, ProgramError> {
    let names = object_files(rt, line)?;
    let kernels = kernel_files(rt, line)?;
    let files = read_files(rt, &names)?;
    let unread = names.len().saturating_sub(files.len());
    print_on_files(rt, line, &kernels, &files, unread)
}
