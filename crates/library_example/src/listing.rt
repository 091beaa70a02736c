//! Listing a file and its object.

use crate::error::ExampleError;
use ebpf_object::{Maps, Object};
use elf64::ElfFile;

/// Prints the numbers of sections and symbols of the file.
fn list_counts(rt: &HostRuntime, file: &ElfFile<'_>) -> Result<(), ExampleError> {
    println!(rt;
        "{} sections, {} symbols",
        file.sections().count(),
        file.symbols().count()
    )?;
    Ok(())
}

/// Lists an ELF file.
pub(crate) fn list_file(rt: &HostRuntime, bytes: &[u8]) -> Result<(), ExampleError> {
    list_counts(rt, &ElfFile::parse(bytes)?)
}

/// Prints the number of types of the object, and the functions and variables that it expects of the
/// kernel.
fn list_types(rt: &HostRuntime, object: &Object<'_>) -> Result<(), ExampleError> {
    if let Some(types) = object.btf() {
        println!(rt; "{} types", types.len())?;
    }
    for (_name, desc) in object.externs().iter() {
        println!(rt; "extern {}", desc.essential_name)?;
    }
    Ok(())
}

/// Prints the maps.
fn list_maps(rt: &HostRuntime, maps: &Maps<'_>) -> Result<(), ExampleError> {
    for (name, map) in maps.iter() {
        println!(rt;
            "map {name}: type {}, keys of {} bytes, {} entries of {} bytes",
            map.map_type(),
            map.key_size(),
            map.max_entries(),
            map.value_size()
        )?;
    }
    Ok(())
}

/// Prints the programs.
fn list_programs(rt: &HostRuntime, object: &Object<'_>) -> Result<(), ExampleError> {
    for (name, program) in object.programs().iter() {
        if let Some(function) = object.function(program.function_key()) {
            println!(rt;
                "program {name}: {} instructions",
                function.instructions.len()
            )?;
        }
    }
    Ok(())
}

/// Lists an object.
pub(crate) fn list_object(rt: &HostRuntime, object: &Object<'_>) -> Result<(), ExampleError> {
    list_types(rt, object)?;
    list_maps(rt, object.maps())?;
    list_programs(rt, object)
}
