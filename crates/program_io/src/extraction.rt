//! Files of the objects that programs hold.

use crate::embedded::EmbeddedObject;
use crate::objects::{FileBytes, held_objects};
use crate::output::{Unwritten, print_text, write_new};
use crate::symbol_files::file_name;
use std::alloc::AllocError;
use std::fs;
use thiserror::Error;

/// Why objects aren't taken out of files.
#[derive(Debug, Drop, Error)]
pub enum ExtractError {
    /// A file or the folder can't be made.
    #[error("{path:?} {error}")]
    NotWritten { path: String, error: Unwritten },
    /// The name of a file can't be printed.
    #[error("the text {0}")]
    Output(#[from] Unwritten),
    /// Memory runs out.
    #[error("out of memory")]
    OutOfMemory(#[from(alloc)] AllocError),
}

/// Writes an object of a file into a folder, and prints the name. Returns whether it is written: one
/// that is cut off isn't.
fn write_object(
    rt: &HostRuntime,
    folder: &str,
    file: &FileBytes<'_>,
    number: usize,
    object: EmbeddedObject,
) -> Result<bool, ExtractError> {
    let name = file.name;
    if object.is_cut(&file.bytes) {
        let _ = eprintln!(rt; "inspect_object: {name:?}: object {number} is cut off");
        return Ok(false);
    }
    let mut path = format!(in rt.alloc(); "{folder}/{}.{number}.o", file_name(name))?;
    if let Err(error) = write_new(rt, &path, object.bytes_in(&file.bytes)) {
        return Err(ExtractError::NotWritten { path, error });
    }
    path.push('\n')?;
    print_text(rt, &path)?;
    Ok(true)
}

/// How many objects there are, and how many of them are written.
#[derive(Clone, Copy, Debug, PartialEq, Eq)]
pub struct Extracted {
    pub found: usize,
    pub written: usize,
}

/// Writes the objects of a file into a folder.
fn extract_file(
    rt: &HostRuntime,
    folder: &str,
    file: &FileBytes<'_>,
    extracted: &mut Extracted,
) -> Result<(), ExtractError> {
    let objects = held_objects(rt.alloc(), &file.bytes)?;
    for (index, object) in objects.iter().enumerate() {
        extracted.found = extracted.found.saturating_add(1);
        if write_object(rt, folder, file, index.saturating_add(1), *object)? {
            extracted.written = extracted.written.saturating_add(1);
        }
    }
    Ok(())
}

/// Writes the objects that some files hold into a folder, which is made where it isn't there: object N
/// of NAME as `NAME.N.o`. The names are printed. An object that is cut off is named on standard error,
/// and not written.
///
/// # Errors
///
/// `NotWritten` where the folder can't be made, or a file is there already or can't be written,
/// `Output` where a name can't be printed, and `OutOfMemory`.
pub fn extract_objects(
    rt: &HostRuntime,
    folder: &str,
    files: &[FileBytes<'_>],
) -> Result<Extracted, ExtractError> {
    if let Err(error) = fs::create_dir_all(rt, folder) {
        let path = String::from_str(rt.alloc(), folder)?;
        let error = Unwritten::because(error);
        return Err(ExtractError::NotWritten { path, error });
    }
    let mut extracted = Extracted {
        found: 0,
        written: 0,
    };
    for file in files {
        extract_file(rt, folder, file, &mut extracted)?;
    }
    Ok(extracted)
}
