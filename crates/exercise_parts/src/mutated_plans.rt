//! Plans of an object that is cut off or changed in one byte, and plans of an object for kernel
//! types that are. Counts the runs of `prepare` that end with a plan whose text is read as a plan
//! with the same text, or with a refusal.

use crate::changed_inputs::{changed_object_counts, changed_types_counts};
use crate::counts::Counts;
use crate::error::ExerciseError;
use crate::plan_answers::print_answer;
use crate::plan_texts::{changed_text_counts, count_refused_texts};
use crate::refused_lines::print_refused_lines;
use crate::words::{next_order, next_word, read_next};
use std::env::Args;
use std::fs;

/// Prints the counts of runs, and the number of plans where that is asked for.
fn print_counts(
    rt: &HostRuntime,
    what: &str,
    counts: Counts,
    shows_plans: bool,
) -> Result<(), ExerciseError> {
    println!(rt;
        "{} of {} runs on {what} end with a plan or a refusal",
        counts.answered(),
        counts.all()
    )?;
    if counts.left_out > 0 {
        println!(rt;
            "{} runs are left out, for zeros of more than 16 MiB",
            counts.left_out
        )?;
    }
    if shows_plans {
        println!(rt; "{} plans, {} refusals", counts.plans, counts.refusals)?;
    }
    Ok(())
}

/// The bytes of the files that the arguments name.
fn read_files(rt: &HostRuntime, words: &mut Args) -> Result<Vec<Vec<u8>>, ExerciseError> {
    let mut files = Vec::new(rt.alloc());
    for name in words {
        files.push(fs::read(rt, name.as_str())?)?;
    }
    Ok(files)
}

/// Counts over an object and over each of its files of kernel types. `maps` are the names of maps;
/// the arguments name the object, the byte order of the types, and the files of types.
fn count_all(
    rt: &HostRuntime,
    maps: &str,
    words: &mut Args,
    shows_plans: bool,
) -> Result<(), ExerciseError> {
    let mut object = read_next(rt, words)?;
    let order = next_order(words)?;
    let mut types = read_files(rt, words)?;
    let counts = changed_object_counts(rt.alloc(), maps, &mut object, &types, order)?;
    print_counts(rt, "changed objects", counts, shows_plans)?;
    for bytes in types.iter_mut() {
        let counts = changed_types_counts(rt.alloc(), maps, &object, bytes, order)?;
        print_counts(rt, "changed kernel types", counts, shows_plans)?;
    }
    Ok(())
}

/// Counts over the text of a plan, whose file an argument names.
fn count_texts(rt: &HostRuntime, words: &mut Args) -> Result<(), ExerciseError> {
    let mut text = read_next(rt, words)?;
    let fronts = count_refused_texts(rt.alloc(), text.as_slice());
    println!(rt;
        "{fronts} of {} fronts are refused at the line after their last whole one",
        text.len()
    )?;
    let counts = changed_text_counts(rt.alloc(), text.as_mut_slice());
    println!(rt;
        "{} of {} texts with another byte are read and written alike, or refused at the line of the byte or after it",
        counts.read.saturating_add(counts.refused),
        counts.all
    )?;
    Ok(())
}

/// Counts over what the arguments name, and prints the counts: `[--plans] MAP[,MAP].. OBJECT
/// little|big [TYPES..]`, maps that get a number, the object's file, the byte order of the kernel's
/// types and their files. With `--plans` the number of plans is printed too.
pub fn print_changed_plans(rt: &HostRuntime, words: &mut Args) -> Result<(), ExerciseError> {
    let first = next_word(words)?;
    if first.as_str() == "--plans" {
        let maps = next_word(words)?;
        return count_all(rt, maps.as_str(), words, true);
    }
    count_all(rt, first.as_str(), words, false)
}

/// Reads the text of a plan, whose file an argument names, cut off and changed in one byte, and
/// prints the counts.
pub fn print_changed_texts(rt: &HostRuntime, words: &mut Args) -> Result<(), ExerciseError> {
    count_texts(rt, words)
}

/// Prints for each byte of the text of a plan, whose file an argument names, the lines at which it
/// is refused with each other value of the byte.
pub fn print_changed_lines(rt: &HostRuntime, words: &mut Args) -> Result<(), ExerciseError> {
    let mut text = read_next(rt, words)?;
    print_refused_lines(rt, text.as_mut_slice())
}

/// Prints the answers to the texts whose files the arguments name.
pub fn print_read_plans(rt: &HostRuntime, words: &mut Args) -> Result<(), ExerciseError> {
    for name in words {
        let text = fs::read(rt, name.as_str())?;
        print_answer(rt, name.as_str(), text.as_slice())?;
    }
    Ok(())
}
