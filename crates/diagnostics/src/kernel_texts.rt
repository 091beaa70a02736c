//! Messages about what a kernel lacks.

use crate::kernel_files::KernelFiles;
use crate::tables::table_of;
use btf_encoding::TypeRef;
use btf_records::BtfKind;
use btf_tables::Btf;
use ebpf_object::Object;
use extern_resolution::KsymsError;
use object_externs::Externs;
use quoting::FirstNames;
use relocation_errors::{BtfRelocationCause, BtfRelocationError};
use std::alloc::{AllocError, Global};

/// Whether a record is a variable of type void with this name.
fn is_void_variable(table: &Btf<'_>, t: &TypeRef<'_>, name: &str) -> bool {
    t.kind() == BtfKind::Var
        && table
            .string_at(t.name_offset())
            .is_ok_and(|text| text == name)
        && table
            .resolve_type(t.btf_type().unwrap_or(0))
            .is_ok_and(|id| id == 0)
}

/// Whether the types of an object have a variable of type void with this name: such an extern is
/// searched among the kernel's symbols. The externs aren't read again for it.
fn has_no_type(alloc: Global, object: &[u8], name: &str) -> bool {
    match table_of(alloc, object) {
        Some(table) => table.types().any(|t| is_void_variable(&table, &t, name)),
        None => false,
    }
}

/// The names of the externs that have a type and must be found.
fn typed_names<'a>(alloc: Global, externs: &Externs<'a>) -> Result<FirstNames<'a>, AllocError> {
    let mut names = FirstNames::new(alloc);
    for (name, found) in externs.iter() {
        if found.type_id.is_some() && !found.is_weak {
            names.push(*name)?;
        }
    }
    Ok(names)
}

/// The message that externs with a type need kernel types, and which externs these are.
fn typed_text(
    alloc: Global,
    object: &[u8],
    error: &KsymsError,
    files: &KernelFiles<'_>,
) -> Result<String, AllocError> {
    let no_types = files.no_types(alloc)?;
    let Ok(object) = Object::parse(alloc, object) else {
        return format!(in alloc; "{error}: {no_types}");
    };
    let names = typed_names(alloc, object.externs())?;
    format!(in alloc; "{error}, as here {names}: {no_types}")
}

/// Where the kernel's variable with a name was searched.
fn variable_hint(
    alloc: Global,
    object: &[u8],
    name: &str,
    files: &KernelFiles<'_>,
) -> Result<String, AllocError> {
    if has_no_type(alloc, object, name) {
        files.symbols(alloc)
    } else {
        files.first_types(alloc)
    }
}

/// The file that an error of the kernel's symbols is about.
fn symbols_hint(alloc: Global, files: &KernelFiles<'_>) -> Result<Option<String>, AllocError> {
    match files.symbols {
        Some(name) => Ok(Some(format!(in alloc; "in {name:?}")?)),
        None => Ok(None),
    }
}

/// Where an error of externs comes from.
fn hint(
    alloc: Global,
    object: &[u8],
    error: &KsymsError,
    files: &KernelFiles<'_>,
) -> Result<Option<String>, AllocError> {
    match error {
        KsymsError::VariableNotFound { name } => {
            Ok(Some(variable_hint(alloc, object, name, files)?))
        }
        KsymsError::FunctionNotFound { .. }
        | KsymsError::IncompatibleFunctionSignature { .. }
        | KsymsError::IncompatibleVariableType { .. } => Ok(Some(files.first_types(alloc)?)),
        KsymsError::AmbiguousResolution { .. }
        | KsymsError::KallsymsAccessError(_)
        | KsymsError::KallsymsParseError(_) => symbols_hint(alloc, files),
        _ => Ok(None),
    }
}

/// The message for an extern that can't be resolved: where it was searched.
pub(crate) fn ksyms_text(
    alloc: Global,
    object: &[u8],
    error: &KsymsError,
    files: &KernelFiles<'_>,
) -> Result<String, AllocError> {
    if let KsymsError::TypedKsymRequiresKernelBtf = error {
        return typed_text(alloc, object, error, files);
    }
    match hint(alloc, object, error, files)? {
        Some(hint) => format!(in alloc; "{error}: {hint}"),
        None => format!(in alloc; "{error}"),
    }
}

/// The message where an object has type relocations and no kernel types are given.
pub(crate) fn required_types_text(
    alloc: Global,
    files: &KernelFiles<'_>,
) -> Result<String, AllocError> {
    let no_types = files.no_types(alloc)?;
    format!(in alloc; "type relocations need kernel types: {no_types}")
}

/// The message for a type relocation that can't be made: the files in which its types were
/// searched.
pub(crate) fn type_relocation_text(
    alloc: Global,
    error: &BtfRelocationError,
    files: &KernelFiles<'_>,
) -> Result<String, AllocError> {
    match error.error() {
        BtfRelocationCause::MissingTargetDefinition { .. }
        | BtfRelocationCause::ConflictingCandidates { .. } => {
            let places = files.all_types(alloc)?;
            format!(in alloc; "{error}: {places}")
        }
        _ => format!(in alloc; "{error}"),
    }
}
