//! Type relocations of an object.

ghost use Rattle.std.specs.Prelude.{◌≡◌, ◌≢◌, ◌≤◌, ◌^◌, length, map, IfErr, IfOk, OnErr, OnOk};
ghost use Rattle.std.specs.Map.{values_of};
ghost use Rattle.object_parts.specs.Content.{AreKeyed};
ghost use Rattle.core_relocation.specs.Faults.{CanBeRelocated, HasTypesFault};
ghost use Rattle.core_relocation.specs.Laws.{IsAnswer, RestsOnReach};
ghost use Rattle.core_relocation.specs.Relocations.{types_given};
ghost use Rattle.core_relocation.specs.Writes.{AreRelocated, with_types};
ghost use Rattle.relocation_errors.specs.declared.type_relocations.BtfRelocationCause.TheVariants.{OutOfMemory};

use crate::laws::relocations_rest;
use crate::lookup::Lookup;
use crate::section_infos::{RelocationSectionInfo, asked_by, section_infos_of};
use btf_ext::BtfExt;
use btf_tables::Btf;
use core_resolve::TypeMatcher;
use object_file::{ObjectFile, section_indexes};
use object_parts::{Function, Functions, changes_are_installed};
use relocation_errors::BtfRelocationError;
use std::alloc::{AllocError, Global};

/// A list of copies of functions, in order of key.
fn copies_of<'f>(alloc: Global, functions: &Functions<'f>) -> Result<Vec<Function<'f>>, AllocError>
    ensures value { IfOk result (λ list. list.items ≡ values_of functions.now) }
    ensures keyed { OnOk result (AreKeyed functions.now) }
{
    let mut list = Vec::new(alloc);
    for (_, function) in functions.iter() {
        list.push(function.try_clone()?)?;
    }
    Ok(list)
}

/// The functions after the relocations of section infos, in order of key. Each table is searched
/// once for all relocations.
#[tactic(auto, using(crate::proofs::Making::all_made, crate::proofs::Making::none_refused_of, crate::proofs::Making::one_fault))]
fn relocated<'f, 't>(
    alloc: Global,
    file: &ObjectFile<'_>,
    section_infos: &[RelocationSectionInfo],
    local: &'t Btf<'t>,
    targets: &'t [Btf<'t>],
    functions: &Functions<'f>,
) -> Result<Vec<Function<'f>>, BtfRelocationError>
    requires { length targets.now ≤ 2 ^ 32 }
    ensures value { IfOk result (λ list.
        list.items
        ≡ map
        (with_types (types_given file.now functions.now local.now targets.now) section_infos.now)
        (values_of functions.now)) }
    ensures keyed { OnOk result (AreKeyed functions.now) }
    ensures sound { OnOk result
        (CanBeRelocated (types_given file.now functions.now local.now targets.now)
        section_infos.now) }
    ensures fault { IfErr result (λ e.
        e.error ≢ OutOfMemory
        → HasTypesFault (types_given file.now functions.now local.now targets.now)
        section_infos.now e.error) }
{
    let mut list = copies_of(alloc, functions)?;
    let asked = asked_by(alloc, section_infos)?;
    let mut matcher = TypeMatcher::collect(local, asked.as_slice(), targets)?;
    let sections = section_indexes(alloc, file)?;
    let lookup = Lookup {
        alloc,
        file,
        sections: &sections,
        functions,
        local,
        targets,
    };
    lookup.relocate_section_infos(&mut matcher, section_infos, &mut list)?;
    Ok(list)
}

/// Makes the relocations of section infos. The functions stay as they are where one can't be made.
fn relocate_section_infos<'f>(
    alloc: Global,
    file: &ObjectFile<'_>,
    section_infos: &[RelocationSectionInfo],
    local: &Btf<'_>,
    targets: &[Btf<'_>],
    functions: &mut Functions<'f>,
) -> Result<(), BtfRelocationError>
    requires { length targets.now ≤ 2 ^ 32 }
    ensures relocated { OnOk result
        (AreRelocated (types_given file.now functions.old local.now targets.now) section_infos.now
        functions.new) }
    ensures sound { OnOk result
        (CanBeRelocated (types_given file.now functions.old local.now targets.now)
        section_infos.now) }
    ensures fault { IfErr result (λ e.
        e.error ≢ OutOfMemory
        → HasTypesFault (types_given file.now functions.old local.now targets.now)
        section_infos.now e.error) }
    ensures unchanged { OnErr result (functions.new ≡ functions.old) }
{
    changes_are_installed();
    let list = relocated(alloc, file, section_infos, local, targets, functions)?;
    functions.install(list);
    Ok(())
}

/// Resolves the type relocations of an object in a kernel's tables, and writes the results into the
/// instructions of its functions. The section infos, in order, name sections by the strings of
/// `local`, the object's types. A relocation is made in the first function of its section, by key,
/// whose bytes hold its offset: at the slot in which the offset lies, and on the slots after the
/// relocations before it. [`core_resolve::relocation_outcome`] says what it resolves to.
///
/// Arithmetic gets the value's low word as its immediate. A load or a store gets the value as its
/// offset, and the width of the kernel's field where that differs and both are pointers or unsigned
/// integers. A load of 64 bits gets the low word in its own slot and the high word in the next one.
/// Where the kernel has no value, the instruction becomes a call of a helper that doesn't exist,
/// and a load of 64 bits becomes two of these. The functions keep the tables of their relocations'
/// first matches. There are at most 2^32 tables.
///
/// # Errors
///
/// With the name of the section info's section: `BtfError` where that name can't be read, and
/// `SectionNotFound` where the section is missing; `FunctionNotFound` for a relocation that no
/// function holds; those of [`core_resolve::relocation_outcome`]; `InvalidInstruction` for
/// arithmetic with a register, an offset past 32,767, a load or a store of another width that it
/// can't get, and an instruction of another class; `InvalidInstructionIndex` for a load of 64 bits
/// without a second slot; and `OutOfMemory`. Of several faults the first by section info and
/// relocation is returned. The functions then stay as they are.
///
/// The result rests on what the relocations reach in the object's types: it is the definitions' too
/// for every other table that agrees there.
pub fn relocate_types<'f>(
    alloc: Global,
    file: &ObjectFile<'_>,
    extension: &BtfExt<'_>,
    local: &Btf<'_>,
    targets: &[Btf<'_>],
    functions: &mut Functions<'f>,
) -> Result<(), BtfRelocationError>
    requires { length targets.now ≤ 2 ^ 32 }
    ensures relocated { OnOk result
        (AreRelocated (types_given file.now functions.old local.now targets.now)
        extension.now.relocations functions.new) }
    ensures sound { OnOk result
        (CanBeRelocated (types_given file.now functions.old local.now targets.now)
        extension.now.relocations) }
    ensures fault { IfErr result (λ e.
        e.error ≢ OutOfMemory
        → HasTypesFault (types_given file.now functions.old local.now targets.now)
        extension.now.relocations e.error) }
    ensures unchanged { OnErr result (functions.new ≡ functions.old) }
    ensures rests { RestsOnReach (types_given file.now functions.old local.now targets.now)
        extension.now.relocations
        (IsAnswer extension.now.relocations functions.new result) }
{
    relocations_rest();
    let section_infos = section_infos_of(alloc, extension)?;
    relocate_section_infos(
        alloc,
        file,
        section_infos.as_slice(),
        local,
        targets,
        functions,
    )
}
