//! The names of an object's programs' sections, and of what the programs are attached to.

ghost use Rattle.std.specs.Prelude.{◌≡◌, ◌++◌, map, IfOk, OnOk};
ghost use Rattle.std.specs.Option.{option_map, option_to_list};
ghost use Rattle.std.specs.String.{string_bytes};
ghost use Rattle.kernel_reports.specs.Reports.{record_name, section_names, target_name, target_names};

use ebpf_object::{Object, name_at};
use object_parts::Program;
use program_kinds::ProgramSection;
use report_checks::attached_record;
use report_needs::attach_target;
use std::alloc::{AllocError, Global};

/// The names of the sections of an object's programs, in the order of the programs.
///
/// # Errors
///
/// `AllocError` where memory runs out.
pub fn section_names<'o>(alloc: Global, object: &'o Object<'_>) -> Result<Vec<&'o str>, AllocError>
    ensures { IfOk result (λ names. map (λ name. name.now) names.items ≡ section_names object.now) }
{
    let mut names = Vec::new(alloc);
    for (_, program) in object.programs().iter() {
        names.push(name_at(object.file(), program.section_index))?;
    }
    Ok(names)
}

/// The full name of the record that tells of what programs of a kind are attached to by the name of
/// their section, if it is one of the kernel's own.
fn record_name(
    alloc: Global,
    kind: &ProgramSection,
    section: &str,
) -> Result<Option<String>, AllocError>
    ensures { IfOk result (λ name.
        option_map string_bytes name ≡ record_name kind.now section.now) }
{
    match attach_target(kind, section) {
        Some(target) => {
            let name = target.record_name(alloc)?;
            Ok(Some(name))
        }
        None => attached_record(alloc, kind, section),
    }
}

/// The name of the record that a program of an object is attached to.
fn target_name(
    alloc: Global,
    object: &Object<'_>,
    program: &Program<'_>,
) -> Result<Option<String>, AllocError>
    ensures { IfOk result (λ name.
        option_map string_bytes name ≡ target_name object.now program.now) }
{
    let section = name_at(object.file(), program.section_index);
    record_name(alloc, &program.section, section)
}

/// Adds a name, if there is one.
fn push_name(names: &mut Vec<String>, name: Option<String>) -> Result<(), AllocError>
    ensures { OnOk result
        (map string_bytes names.new.items
        ≡ map string_bytes names.old.items
        ++ option_to_list (option_map string_bytes name)) }
{
    if let Some(name) = name {
        names.push(name)?;
    }
    Ok(())
}

/// The full names of the records that tell of what an object's programs are attached to, in the order
/// of the programs. Records of modules aren't among them.
///
/// # Errors
///
/// `AllocError` where memory runs out.
pub fn target_names(alloc: Global, object: &Object<'_>) -> Result<Vec<String>, AllocError>
    ensures { IfOk result (λ names. map string_bytes names.items ≡ target_names object.now) }
{
    let mut names = Vec::new(alloc);
    for (_, program) in object.programs().iter() {
        let name = target_name(alloc, object, program)?;
        push_name(&mut names, name)?;
    }
    Ok(names)
}
