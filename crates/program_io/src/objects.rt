//! Objects in files: the files, or those that programs hold.

use crate::embedded::{EmbeddedObject, embedded_objects};
use crate::object_headers::begins_object;
use std::alloc::{AllocError, Global};

/// The bytes of a file.
#[derive(Debug, Drop)]
pub struct FileBytes<'n> {
    pub name: &'n str,
    pub bytes: Vec<u8>,
}

/// The bytes of an object: of all of a file, or of a part of it.
#[derive(Debug, Drop)]
pub struct ObjectBytes<'b> {
    /// The name of the file; for a part of it also `#` and the number of the part.
    pub name: String,
    pub bytes: &'b [u8],
}

/// The objects that a file holds which isn't one.
///
/// # Errors
///
/// `AllocError` where memory runs out.
pub fn held_objects(alloc: Global, bytes: &[u8]) -> Result<Vec<EmbeddedObject>, AllocError> {
    if begins_object(bytes) {
        return Ok(Vec::new(alloc));
    }
    embedded_objects(alloc, bytes)
}

/// Adds the objects of a file: the file, or each that it holds, with its number.
fn add_objects<'b>(
    alloc: Global,
    file: &'b FileBytes<'_>,
    objects: &mut Vec<ObjectBytes<'b>>,
) -> Result<(), AllocError> {
    let held = held_objects(alloc, &file.bytes)?;
    if held.is_empty() {
        let name = String::from_str(alloc, file.name)?;
        let bytes = file.bytes.as_slice();
        objects.push(ObjectBytes { name, bytes })?;
    }
    for (index, object) in held.iter().enumerate() {
        let name = format!(in alloc; "{}#{}", file.name, index.saturating_add(1))?;
        let bytes = object.bytes_in(&file.bytes);
        objects.push(ObjectBytes { name, bytes })?;
    }
    Ok(())
}

/// The objects of all files: each file, or those that it holds where it isn't one.
///
/// # Errors
///
/// `AllocError` where memory runs out.
pub fn objects_of<'b>(
    alloc: Global,
    files: &'b [FileBytes<'_>],
) -> Result<Vec<ObjectBytes<'b>>, AllocError> {
    let mut objects = Vec::new(alloc);
    for file in files {
        add_objects(alloc, file, &mut objects)?;
    }
    Ok(objects)
}
