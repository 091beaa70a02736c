//! A loader's own passes over an object, by the names of aya-obj.

use crate::error::ExampleError;
use ebpf_object::{Map, Object};
use std::alloc::{AllocError, Global};
use std::collections::{HashMap, HashSet};

/// The number of the first map, which stands for a file descriptor.
const FIRST_NUMBER: i32 = 3;

/// Sets the global variable `longest`, if the object has it.
fn put_value(alloc: Global, object: &mut Object<'_>) -> Result<(), ExampleError> {
    let mut values = HashMap::new(alloc);
    values.insert("longest", (&[0xe8u8, 3, 0, 0][..], false))?;
    object.patch_map_data(values)?;
    Ok(())
}

/// The indices of the sections with functions.
fn text_sections(alloc: Global, object: &Object<'_>) -> Result<HashSet<usize>, AllocError> {
    let mut sections = HashSet::new(alloc);
    for (key, _function) in object.functions().iter() {
        sections.insert(key.0)?;
    }
    Ok(sections)
}

/// The maps, numbered in order of name.
fn numbered<'m>(
    alloc: Global,
    object: &'m Object<'_>,
) -> Result<Vec<(&'m str, i32, &'m Map)>, AllocError> {
    let mut numbered = Vec::new(alloc);
    for (number, (name, map)) in (FIRST_NUMBER..).zip(object.maps().iter()) {
        numbered.push((*name, number, map))?;
    }
    Ok(numbered)
}

/// Writes the numbers of an object's maps into a copy of the object.
fn write_numbers(
    alloc: Global,
    object: &Object<'_>,
    relocated: &mut Object<'_>,
    sections: &HashSet<usize>,
) -> Result<(), ExampleError> {
    let maps = numbered(alloc, object)?;
    Ok(relocated.relocate_maps(maps.into_iter(), sections)?)
}

/// Writes the numbers of an object's maps into a copy of the object, and links the copy's programs.
fn relocate(
    alloc: Global,
    object: &Object<'_>,
    relocated: &mut Object<'_>,
) -> Result<(), ExampleError> {
    let sections = text_sections(alloc, object)?;
    write_numbers(alloc, object, relocated, &sections)?;
    relocated.relocate_calls(&sections)?;
    Ok(())
}

/// Prints the lengths of an object's programs.
fn list_lengths(rt: &HostRuntime, object: &Object<'_>) -> Result<(), ExampleError> {
    for (name, program) in object.programs().iter() {
        if let Some(function) = object.function(program.function_key()) {
            println!(rt;
                "linked {name}: {} instructions",
                function.instructions.len()
            )?;
        }
    }
    Ok(())
}

/// Sets a variable in a copy of an object, relocates the copy, and prints the lengths of its
/// programs.
fn list_copy(
    rt: &HostRuntime,
    object: &Object<'_>,
    relocated: &mut Object<'_>,
) -> Result<(), ExampleError> {
    put_value(rt.alloc(), relocated)?;
    relocate(rt.alloc(), object, relocated)?;
    list_lengths(rt, relocated)
}

/// Relocates a copy of an object as a loader does, with one variable set, and prints the lengths of
/// its programs.
pub(crate) fn list_relocated(rt: &HostRuntime, object: &Object<'_>) -> Result<(), ExampleError> {
    let mut relocated = object.try_clone()?;
    list_copy(rt, object, &mut relocated)
}
