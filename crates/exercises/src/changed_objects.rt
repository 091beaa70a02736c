//! Each prefix of an object, and the object with each byte set to 0 and to 255 in turn: the number
//! of expected answers.

use ebpf_object::{Object, ParseError};
use elf64::ElfError;
use exercise_parts::{ExerciseError, read_next};
use std::alloc::Global;
use std::env::Args;

/// The size of an ELF64 header.
const HEADER: usize = 64;

/// Why an object is refused, if it is.
fn refusal(alloc: Global, object: &[u8]) -> Option<ParseError> {
    Object::parse(alloc, object).err()
}

/// Whether a proper prefix of an object with its section headers at the end is refused as expected:
/// for its header, or for the section headers.
fn is_front_refused(alloc: Global, front: &[u8]) -> bool {
    match refusal(alloc, front) {
        Some(ParseError::ElfError(ElfError::NotElf)) => front.len() < HEADER,
        Some(ParseError::ElfError(ElfError::BadSectionTable)) => front.len() >= HEADER,
        _ => false,
    }
}

/// How many of the proper prefixes are refused as expected.
fn count_fronts(alloc: Global, object: &[u8]) -> usize {
    let mut count: usize = 0;
    for len in 0..object.len() {
        if is_front_refused(alloc, &object[..len]) {
            count = count.saturating_add(1);
        }
    }
    count
}

/// Whether the answer to an object is an expected one: without a change it is parsed, and memory
/// doesn't run out.
fn is_answered(alloc: Global, object: &[u8], is_changed: bool) -> bool {
    match refusal(alloc, object) {
        None => true,
        Some(ParseError::OutOfMemory) => false,
        Some(_error) => is_changed,
    }
}

/// How many of the objects with one byte set to this value have an expected answer.
fn count_changes(alloc: Global, object: &mut Vec<u8>, byte: u8) -> usize {
    let mut count: usize = 0;
    for at in 0..object.len() {
        let before = object[at];
        object[at] = byte;
        if is_answered(alloc, object.as_slice(), before != byte) {
            count = count.saturating_add(1);
        }
        object[at] = before;
    }
    count
}

/// Counts the answers over an object, and prints the counts.
fn print_counts(rt: &HostRuntime, object: &mut Vec<u8>) -> Result<(), ExerciseError> {
    let len = object.len();
    let fronts = count_fronts(rt.alloc(), object.as_slice());
    println!(rt; "{fronts} of {len} fronts are refused by their length")?;
    for byte in [0, 0xff] {
        let answered = count_changes(rt.alloc(), object, byte);
        println!(rt; "{answered} of {len} objects with a byte {byte} are parsed or refused")?;
    }
    Ok(())
}

/// Counts the answers over the file that the arguments name, and prints the counts.
pub(crate) fn run(rt: &HostRuntime, words: &mut Args) -> Result<(), ExerciseError> {
    let mut object = read_next(rt, words)?;
    print_counts(rt, &mut object)
}
