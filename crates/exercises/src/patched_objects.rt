//! Programs of objects, and the bytes of their maps before and after variables are set by name.

use ebpf_object::{Maps, Object, ParseError};
use exercise_parts::ExerciseError;
use std::alloc::{AllocError, Global};
use std::collections::HashMap;
use std::env::Args;
use std::{fs, str};

/// The value of each variable.
static VALUE: [u8; 3] = [1, 2, 3];

/// The values of two variables; the second is optional.
fn values(alloc: Global) -> Result<HashMap<&'static str, (&'static [u8], bool)>, AllocError> {
    let mut values = HashMap::new(alloc);
    values.insert("my_config", (VALUE.as_slice(), true))?;
    values.insert("optional_variable", (VALUE.as_slice(), false))?;
    Ok(values)
}

/// Writes the values into an object's maps.
fn write_values(alloc: Global, object: &mut Object<'_>) -> Result<(), ParseError> {
    let values = values(alloc)?;
    object.patch_map_data(values)
}

/// Prints an object's programs.
fn print_programs(rt: &HostRuntime, object: &Object<'_>) -> Result<(), ExerciseError> {
    for (name, program) in object.programs().iter() {
        let (section, address) = program.function_key();
        println!(rt;
            "program {name}: license {:?}, version {:?}, {:?}, function {address} of section {section}",
            str::from_utf8(program.license).ok(),
            program.kernel_version,
            program.section
        )?;
    }
    Ok(())
}

/// Prints the bytes of maps.
fn print_maps(rt: &HostRuntime, what: &str, maps: &Maps<'_>) -> Result<(), ExerciseError> {
    for (name, map) in maps.iter() {
        println!(rt; "{what} {name}: {:?}", map.data())?;
    }
    Ok(())
}

/// Writes the values into an object's maps, and prints these, or why they can't be written.
fn print_written(rt: &HostRuntime, object: &mut Object<'_>) -> Result<(), ExerciseError> {
    match write_values(rt.alloc(), object) {
        Ok(()) => print_maps(rt, "written map", object.maps()),
        Err(ParseError::OutOfMemory) => Err(ExerciseError::OutOfMemory),
        Err(error) => Ok(println!(rt; "not written: {error}")?),
    }
}

/// Prints an object, sets the variables, and prints its maps.
fn print_object(rt: &HostRuntime, object: &mut Object<'_>) -> Result<(), ExerciseError> {
    print_programs(rt, object)?;
    print_maps(rt, "map", object.maps())?;
    print_written(rt, object)
}

/// Parses and prints an object.
fn print_parsed(rt: &HostRuntime, bytes: &[u8]) -> Result<(), ExerciseError> {
    let mut object = Object::parse(rt.alloc(), bytes)?;
    print_object(rt, &mut object)
}

/// The same for the object of a file.
fn print_file(rt: &HostRuntime, name: &str) -> Result<(), ExerciseError> {
    let bytes = fs::read(rt, name)?;
    print_parsed(rt, bytes.as_slice())
}

/// The same for the files that the arguments name.
pub(crate) fn run(rt: &HostRuntime, words: &mut Args) -> Result<(), ExerciseError> {
    for name in words {
        print_file(rt, name.as_str())?;
    }
    Ok(())
}
