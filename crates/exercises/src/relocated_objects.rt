//! Steps on objects while memory is refused. The program reads a kernel's types and symbols from
//! the files that the first two arguments name, parses the objects of the files that the others
//! name, and prints how much each holds. It writes a value and numbers into the object, resolves
//! its externs, makes its type relocations, writes what is known about its externs, and prints the
//! object's state after each step. Where memory is refused to one of these steps, the object must
//! be unchanged, and the step is made again. Where memory is refused elsewhere, the status is 3.

use crate::object_steps::{
    AS_BEFORE, Kernel, put_value, relocate_types, resolve_externs, write_externs, write_numbers,
};
use btf::{Btf, Endianness};
use ebpf_object::Object;
use exercise_parts::{ExerciseError, read_next};
use std::alloc::Global;
use std::env::Args;
use std::fs;

/// Prints how much an object holds.
fn print_object(rt: &HostRuntime, object: &Object<'_>) -> Result<(), ExerciseError> {
    println!(rt;
        "{} programs, {} functions, {} maps, {} externs",
        object.programs().len(),
        object.functions().len(),
        object.maps().len(),
        object.externs().len()
    )?;
    Ok(())
}

#[derive(Clone, Copy)]
enum Step {
    Value,
    Numbers,
    Externs,
    Types,
    Slots,
}

/// The steps, with their names in the output.
const STEPS: [(&str, Step); 5] = [
    ("value", Step::Value),
    ("numbers", Step::Numbers),
    ("externs", Step::Externs),
    ("slots of types", Step::Types),
    ("slots of externs", Step::Slots),
];

/// Makes a step on an object.
fn make(
    alloc: Global,
    step: Step,
    object: &mut Object<'_>,
    kernel: &Kernel<'_>,
) -> Result<&'static str, ExerciseError> {
    match step {
        Step::Value => put_value(alloc, object),
        Step::Numbers => write_numbers(alloc, object),
        Step::Externs => resolve_externs(alloc, object, kernel),
        Step::Types => relocate_types(alloc, object, kernel),
        Step::Slots => write_externs(alloc, object),
    }
}

/// Makes the steps on an object, and prints its state after each. A step to which memory was
/// refused is made again.
fn relocate(
    rt: &HostRuntime,
    object: &mut Object<'_>,
    kernel: &Kernel<'_>,
) -> Result<(), ExerciseError> {
    for (name, step) in STEPS {
        let outcome = make(rt.alloc(), step, object, kernel)?;
        println!(rt; "{name}: {outcome}")?;
        if outcome == AS_BEFORE {
            let outcome = make(rt.alloc(), step, object, kernel)?;
            println!(rt; "{name} again: {outcome}")?;
        }
    }
    Ok(())
}

/// Prints how much an object holds, and makes the steps on it.
fn print_and_relocate(
    rt: &HostRuntime,
    object: &mut Object<'_>,
    kernel: &Kernel<'_>,
) -> Result<(), ExerciseError> {
    print_object(rt, object)?;
    relocate(rt, object, kernel)
}

/// Parses an object, and makes the steps on it.
fn parse_and_relocate(
    rt: &HostRuntime,
    bytes: &[u8],
    kernel: &Kernel<'_>,
) -> Result<(), ExerciseError> {
    let mut object = Object::parse(rt.alloc(), bytes)?;
    print_and_relocate(rt, &mut object, kernel)
}

/// Parses the object of a file, and makes the steps on it.
fn relocate_file(rt: &HostRuntime, name: &str, kernel: &Kernel<'_>) -> Result<(), ExerciseError> {
    let bytes = fs::read(rt, name)?;
    parse_and_relocate(rt, bytes.as_slice(), kernel)
}

/// Parses the objects that the arguments name, and makes the steps on them, for a kernel.
fn relocate_files(
    rt: &HostRuntime,
    words: &mut Args,
    kernel: &Kernel<'_>,
) -> Result<(), ExerciseError> {
    for name in words {
        relocate_file(rt, name.as_str(), kernel)?;
    }
    Ok(())
}

/// The single table of a kernel's types.
fn tables_of(alloc: Global, types: &[u8]) -> Result<Vec<Btf<'_>>, ExerciseError> {
    let mut tables = Vec::with_capacity(alloc, 1)?;
    tables.push(Btf::parse(alloc, types, Endianness::Little)?)?;
    Ok(tables)
}

/// Parses the objects that the arguments name, and makes the steps on them, for a kernel with these
/// types and symbols.
fn relocate_for(
    rt: &HostRuntime,
    words: &mut Args,
    types: &[u8],
    symbols: &[u8],
) -> Result<(), ExerciseError> {
    let kernel = Kernel {
        types: tables_of(rt.alloc(), types)?,
        symbols,
    };
    relocate_files(rt, words, &kernel)
}

/// Parses the objects that the arguments name, and makes the steps on them.
pub(crate) fn run(rt: &HostRuntime, words: &mut Args) -> Result<(), ExerciseError> {
    let types = read_next(rt, words)?;
    let symbols = read_next(rt, words)?;
    relocate_for(rt, words, types.as_slice(), symbols.as_slice())
}
