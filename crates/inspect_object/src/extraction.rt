//! Files of the objects that programs hold.

use crate::checks::{object_files, read_files};
use crate::error::ProgramError;
use crate::reports::Ended;
use command_line::InspectArguments;
use program_io::extract_objects;

/// Writes the objects that the named files hold into a folder, which is made where it isn't there.
pub(crate) fn print_extracted(
    rt: &HostRuntime,
    line: &InspectArguments<'_>,
    folder: &str,
) -> Result<Ended, ProgramError> {
    if let Some(fault) = line.extraction_fault() {
        let text = String::from_str(rt.alloc(), fault)?;
        return Err(ProgramError::Usage { text });
    }
    let names = object_files(rt, line)?;
    let files = read_files(rt, &names)?;
    let extracted = extract_objects(rt, folder, &files)?;
    if extracted.found == 0 && files.len() == names.len() {
        return Err(ProgramError::NoObjects);
    }
    if files.len() < names.len() || extracted.written < extracted.found {
        return Ok(Ended::Unread);
    }
    Ok(Ended::Answered)
}
