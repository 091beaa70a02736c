//! Types of kernels, read from files and parsed.

use btf::Endianness;
use exercise_parts::{ExerciseError, next_order};
use program_io::{InputError, kernel_table, read};
use std::env::Args;

/// Why the types of a file aren't parsed.
fn failure_of(error: InputError) -> ExerciseError {
    match error {
        InputError::Read { error, .. } => ExerciseError::from(error),
        InputError::OutOfMemory => ExerciseError::OutOfMemory,
        _ => ExerciseError::Btf,
    }
}

/// Prints the number of a file's types.
fn print_count(rt: &HostRuntime, name: &str, order: Endianness) -> Result<(), ExerciseError> {
    let bytes = read(rt, name).map_err(failure_of)?;
    let table = kernel_table(rt.alloc(), name, &bytes, order).map_err(failure_of)?;
    println!(rt; "{name}: {}", table.len())?;
    Ok(())
}

/// Prints the numbers of types of the files that the arguments name, after a byte order.
pub(crate) fn run(rt: &HostRuntime, words: &mut Args) -> Result<(), ExerciseError> {
    let order = next_order(words)?;
    for name in words {
        print_count(rt, name.as_str(), order)?;
    }
    Ok(())
}
