//! Externs with a type.

ghost use Rattle.std.specs.Prelude.{◌≡◌, ◌≢◌, Any, option_copied, IfErr, IfOk, OnOk};
ghost use Rattle.extern_resolution.specs.Faults.{EntryTypedFault, KindFault, RecordFault, TypedFault};
ghost use Rattle.extern_resolution.specs.Outcomes.{IsFound, IsFoundFor, IsFoundIn, kernel_name, with_kernel_id};
ghost use Rattle.extern_resolution.specs.Steps.{AreSteps, EntryTyped, NoFault, TypedBecomes};
ghost use Rattle.extern_resolution.specs.declared.error.KsymsError.TheVariants.{OutOfMemory};

use crate::error::KsymsError;
use crate::kernel_records::{KernelRecord, KernelRecords};
use btf_records::BtfKind;
use btf_tables::{Btf, essential_name};
use object_externs::{ExternDesc, Externs};
use std::alloc::Global;
use std::collections::BTreeMap;

/// The id of the kernel's function for a function of the program.
fn find_function(
    alloc: Global,
    table: &Btf<'_>,
    kernel: &KernelRecords<'_, '_>,
    name: &str,
    desc: &ExternDesc<'_>,
    type_id: u32,
) -> Result<Option<u32>, KsymsError>
    ensures found { IfOk result
        (IsFound table.now kernel.now type_id BtfKind.Func (kernel_name BtfKind.Func name.now)) }
    ensures accepted { OnOk result
        (NoFault (KindFault table.now kernel.now type_id BtfKind.Func name.now desc.now)) }
    ensures refused { IfErr result (λ f.
        f ≢ OutOfMemory → KindFault table.now kernel.now type_id BtfKind.Func name.now desc.now f) }
{
    let name = essential_name(name);
    match kernel.record(table, type_id, name, BtfKind::Func)? {
        KernelRecord::Compatible(id) => Ok(Some(id)),
        KernelRecord::Incompatible if !desc.is_weak => {
            let name = String::from_str(alloc, name)?;
            Err(KsymsError::IncompatibleFunctionSignature { name })
        }
        KernelRecord::Missing if !desc.is_weak => {
            let name = String::from_str(alloc, name)?;
            Err(KsymsError::FunctionNotFound { name })
        }
        _ => Ok(None),
    }
}

/// The id of the kernel's variable for a variable of the program.
fn find_variable(
    alloc: Global,
    table: &Btf<'_>,
    kernel: &KernelRecords<'_, '_>,
    name: &str,
    desc: &ExternDesc<'_>,
    type_id: u32,
) -> Result<Option<u32>, KsymsError>
    ensures found { IfOk result
        (IsFound table.now kernel.now type_id BtfKind.Var (kernel_name BtfKind.Var name.now)) }
    ensures accepted { OnOk result
        (NoFault (KindFault table.now kernel.now type_id BtfKind.Var name.now desc.now)) }
    ensures refused { IfErr result (λ f.
        f ≢ OutOfMemory → KindFault table.now kernel.now type_id BtfKind.Var name.now desc.now f) }
{
    match kernel.record(table, type_id, name, BtfKind::Var)? {
        KernelRecord::Compatible(id) => Ok(Some(id)),
        KernelRecord::Incompatible if !desc.is_weak => {
            let name = String::from_str(alloc, name)?;
            Err(KsymsError::IncompatibleVariableType { name })
        }
        KernelRecord::Missing if !desc.is_weak => {
            let name = String::from_str(alloc, name)?;
            Err(KsymsError::VariableNotFound { name })
        }
        _ => Ok(None),
    }
}

/// The id of the kernel's record for what declares an extern.
fn find_declared(
    alloc: Global,
    table: &Btf<'_>,
    kernel: &KernelRecords<'_, '_>,
    name: &str,
    desc: &ExternDesc<'_>,
    type_id: u32,
) -> Result<Option<u32>, KsymsError>
    ensures found { IfOk result (IsFoundFor table.now kernel.now name.now desc.now type_id) }
    ensures accepted { OnOk result
        (NoFault (RecordFault table.now kernel.now type_id name.now desc.now)) }
    ensures refused { IfErr result (λ f.
        f ≢ OutOfMemory → RecordFault table.now kernel.now type_id name.now desc.now f) }
{
    let t = table.type_by_id(desc.btf_id)?;
    match t.kind() {
        BtfKind::Func => find_function(alloc, table, kernel, name, desc, type_id),
        BtfKind::Var => find_variable(alloc, table, kernel, name, desc, type_id),
        _ => Err(KsymsError::InvalidExternType {
            name: String::from_str(alloc, name)?,
        }),
    }
}

/// The id of the kernel's record for an extern of a type, where kernel types are given.
fn find_typed(
    alloc: Global,
    table: &Btf<'_>,
    kernel: Option<&KernelRecords<'_, '_>>,
    name: &str,
    desc: &ExternDesc<'_>,
    type_id: u32,
) -> Result<Option<u32>, KsymsError>
    ensures found { IfOk result
        (IsFoundIn table.now (option_copied kernel.entry) name.now desc.now type_id) }
    ensures accepted { OnOk result
        (NoFault (TypedFault table.now (option_copied kernel.entry) type_id name.now desc.now)) }
    ensures refused { IfErr result (λ f.
        f ≢ OutOfMemory
        → TypedFault table.now (option_copied kernel.entry) type_id name.now desc.now f) }
{
    match kernel {
        Some(kernel) => find_declared(alloc, table, kernel, name, desc, type_id),
        None if desc.is_weak => Ok(None),
        None => Err(KsymsError::TypedKsymRequiresKernelBtf),
    }
}

/// The extern, resolved where the kernel's record was found.
fn with_kernel_id<'a>(found: Option<u32>, desc: &ExternDesc<'a>) -> ExternDesc<'a>
    ensures { result ≡ with_kernel_id found desc.now }
{
    ExternDesc {
        is_resolved: desc.is_resolved || found.is_some(),
        kernel_btf_id: found.or(desc.kernel_btf_id),
        ..*desc
    }
}

/// An extern after the search by its type.
fn typed_extern<'a>(
    alloc: Global,
    table: &Btf<'_>,
    kernel: Option<&KernelRecords<'_, '_>>,
    name: &str,
    desc: &ExternDesc<'a>,
) -> Result<ExternDesc<'a>, KsymsError>
    ensures becomes { IfOk result
        (TypedBecomes table.now (option_copied kernel.entry) name.now desc.now) }
    ensures accepted { OnOk result
        (NoFault (λ f.
        EntryTypedFault table.now (option_copied kernel.entry) f (name.now, desc.now))) }
    ensures refused { IfErr result (λ f.
        f ≢ OutOfMemory
        → EntryTypedFault table.now (option_copied kernel.entry) f (name.now, desc.now)) }
{
    match desc.type_id {
        Some(type_id) => {
            let found = find_typed(alloc, table, kernel, name, desc, type_id)?;
            Ok(with_kernel_id(found, desc))
        }
        None => Ok(with_kernel_id(None, desc)),
    }
}

/// The externs after the search by their types in the kernel's records.
fn typed_by<'a>(
    alloc: Global,
    externs: &Externs<'a>,
    table: &Btf<'_>,
    kernel: Option<&KernelRecords<'_, '_>>,
) -> Result<Externs<'a>, KsymsError>
    ensures becomes { IfOk result
        (AreSteps (EntryTyped table.now (option_copied kernel.entry)) externs.now) }
    ensures accepted { OnOk result
        (NoFault (λ f.
        Any (EntryTypedFault table.now (option_copied kernel.entry) f) externs.now.by_name)) }
    ensures refused { IfErr result (λ f.
        f ≢ OutOfMemory
        → Any (EntryTypedFault table.now (option_copied kernel.entry) f) externs.now.by_name) }
{
    let mut by_name = BTreeMap::new(alloc);
    for (name, desc) in externs.iter() {
        let desc = typed_extern(alloc, table, kernel, name, desc)?;
        by_name.insert(*name, desc)?;
    }
    Ok(externs.replaced(by_name))
}

/// The externs after the search by their types.
pub(crate) fn typed_externs<'a>(
    alloc: Global,
    externs: &Externs<'a>,
    table: &Btf<'_>,
    kernel: Option<&Btf<'_>>,
) -> Result<Externs<'a>, KsymsError>
    ensures becomes { IfOk result
        (AreSteps (EntryTyped table.now (option_copied kernel.entry)) externs.now) }
    ensures accepted { OnOk result
        (NoFault (λ f.
        Any (EntryTypedFault table.now (option_copied kernel.entry) f) externs.now.by_name)) }
    ensures refused { IfErr result (λ f.
        f ≢ OutOfMemory
        → Any (EntryTypedFault table.now (option_copied kernel.entry) f) externs.now.by_name) }
{
    let Some(kernel) = kernel else {
        return typed_by(alloc, externs, table, None);
    };
    let records = KernelRecords::find(alloc, externs, kernel)?;
    typed_by(alloc, externs, table, Some(&records))
}
