//! The command-line arguments of exercises, and the files that they name.

use crate::error::ExerciseError;
use btf_records::Endianness;
use std::env::Args;
use std::fs;

/// The next argument.
///
/// # Errors
///
/// `Usage` where there is none.
pub fn next_word(words: &mut Args) -> Result<String, ExerciseError> {
    words.next().ok_or(ExerciseError::Usage)
}

/// The byte order that the next argument names: `little` or `big`.
///
/// # Errors
///
/// `Usage` where there is no argument, or it is another word.
pub fn next_order(words: &mut Args) -> Result<Endianness, ExerciseError> {
    match next_word(words)?.as_str() {
        "little" => Ok(Endianness::Little),
        "big" => Ok(Endianness::Big),
        _ => Err(ExerciseError::Usage),
    }
}

/// The bytes of the file that the next argument names.
///
/// # Errors
///
/// `Usage` where there is none, `Io` or `OutOfMemory` where the file can't be read.
pub fn read_next(rt: &HostRuntime, words: &mut Args) -> Result<Vec<u8>, ExerciseError> {
    let name = next_word(words)?;
    Ok(fs::read(rt, name.as_str())?)
}
