//! An example of the library. It uses four crates: `elf64` reads the file, `ebpf_object` the object
//! in it, `btf` the kernel's types, and `load_plan` makes the plan.
//!
//! Read it from [`print_object_and_plan`], at the end of this file, on. It lists the file
//! (`listing`), parses and lists the object, relocates a copy of it as a loader does
//! (`relocating`), writes the object's plan (`planning`), and reads the plan's text back
//! (`reading`).
#![tactic(auto)]

mod error;
mod listing;
mod planning;
mod reading;
mod relocating;

use ebpf_object::Object;
pub use error::ExampleError;
use listing::{list_file, list_object};
use planning::plan_text;
use reading::list_plan;
use relocating::list_relocated;
use std::env::Args;
use std::fs;

/// Reads the file that the next argument names, if there is another argument.
fn next_file(rt: &HostRuntime, words: &mut Args) -> Result<Option<Vec<u8>>, ExampleError> {
    match words.next() {
        Some(name) => Ok(Some(fs::read(rt, name.as_str())?)),
        None => Ok(None),
    }
}

/// Lists a parsed object, relocates a copy, writes the plan, and reads the plan back.
fn show_object(
    rt: &HostRuntime,
    bytes: &[u8],
    object: &Object<'_>,
    types: Option<&[u8]>,
) -> Result<(), ExampleError> {
    list_object(rt, object)?;
    list_relocated(rt, object)?;
    let text = plan_text(rt.alloc(), bytes, object, types)?;
    list_plan(rt, &text)
}

/// Lists a file, parses its object, and shows the object.
fn show_file(rt: &HostRuntime, bytes: &[u8], types: Option<&[u8]>) -> Result<(), ExampleError> {
    list_file(rt, bytes)?;
    let object = Object::parse(rt.alloc(), bytes)?;
    show_object(rt, bytes, &object, types)
}

/// Prints a summary of an object's file, its maps and programs, the lengths of the linked programs,
/// and the plan for a kernel. The arguments name the object's file and, optionally, a file with the
/// kernel's types.
pub fn print_object_and_plan(rt: &HostRuntime, words: &mut Args) -> Result<(), ExampleError> {
    let Some(bytes) = next_file(rt, words)? else {
        return Err(ExampleError::Usage);
    };
    let types = next_file(rt, words)?;
    show_file(rt, &bytes, types.as_deref())
}
