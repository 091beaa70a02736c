//! The command-line arguments.

ghost use Rattle.std.specs.Prelude.{IfErr};
ghost use Rattle.program_io.specs.Errors.{IsWordError};

use crate::error::InputError;
use std::{env, io};

/// Why the arguments can't be read.
fn words_error(error: io::Error) -> InputError
    ensures { IsWordError result }
{
    match error.kind() {
        io::ErrorKind::OutOfMemory => InputError::OutOfMemory,
        _ => InputError::WordNotText,
    }
}

/// The command-line arguments of the program, its name first.
///
/// # Errors
///
/// `WordNotText` where an argument isn't UTF-8, and `OutOfMemory`.
pub fn words_of(rt: &HostRuntime) -> Result<Vec<String>, InputError>
    ensures { IfErr result IsWordError }
{
    let given = match env::args(rt) {
        Ok(given) => given,
        Err(error) => return Err(words_error(error)),
    };
    let mut words = Vec::new(rt.alloc());
    for word in given {
        words.push(word)?;
    }
    Ok(words)
}
