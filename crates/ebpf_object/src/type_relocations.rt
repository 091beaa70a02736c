//! The type relocations of an object.

ghost use Rattle.std.specs.Prelude.{◌≡◌, ◌≢◌, ◌≤◌, ◌^◌, length, unwrap_or, IfErr, OnErr, OnOk};
ghost use Rattle.std.specs.Option.{option_copied};
ghost use Rattle.btf_tables.specs.Tables.{new_table};
ghost use Rattle.core_relocation.specs.Faults.{CanBeRelocated, HasTypesFault};
ghost use Rattle.core_relocation.specs.Laws.{IsAnswer, RestsOnReach};
ghost use Rattle.core_relocation.specs.Relocations.{types_given};
ghost use Rattle.core_relocation.specs.Writes.{AreRelocated};
ghost use Rattle.ebpf_object.specs.TypeRelocations.{section_infos_beside, type_section_infos, types_of};
ghost use Rattle.relocation_errors.specs.declared.type_relocations.BtfRelocationCause.TheVariants.{OutOfMemory};

use crate::object::Object;
use btf_ext::BtfExt;
use btf_tables::Btf;
use core_relocation::{relocate_types, relocations_rest};
use object_file::ObjectFile;
use object_parts::Functions;
use relocation_errors::BtfRelocationError;

/// Relocates functions of an object that may have no types, or no records of type relocations.
#[tactic(auto, using(crate::proofs::NoTypeRelocations::typeless_written, crate::proofs::NoTypeRelocations::typeless_refused, crate::proofs::NoTypeRelocations::bare_written, crate::proofs::NoTypeRelocations::bare_refused))]
fn relocate_functions<'a>(
    file: &ObjectFile<'a>,
    types: Option<&Btf<'a>>,
    extension: Option<&BtfExt<'a>>,
    kernel_types: &[Btf<'_>],
    functions: &mut Functions<'a>,
) -> Result<(), BtfRelocationError>
    requires { length kernel_types.now ≤ 2 ^ 32 }
    ensures relocated { OnOk result
        (AreRelocated
        (types_given file.now functions.old (unwrap_or (option_copied types.entry) new_table)
        kernel_types.now)
        (section_infos_beside (option_copied types.entry) (option_copied extension.entry))
        functions.new) }
    ensures sound { OnOk result
        (CanBeRelocated
        (types_given file.now functions.old (unwrap_or (option_copied types.entry) new_table)
        kernel_types.now)
        (section_infos_beside (option_copied types.entry) (option_copied extension.entry))) }
    ensures fault { IfErr result (λ e.
        e.error ≢ OutOfMemory
        → HasTypesFault
        (types_given file.now functions.old (unwrap_or (option_copied types.entry) new_table)
        kernel_types.now)
        (section_infos_beside (option_copied types.entry) (option_copied extension.entry)) e.error) }
    ensures unchanged { OnErr result (functions.new ≡ functions.old) }
{
    let Some(local) = types else {
        return Ok(());
    };
    let Some(extension) = extension else {
        return Ok(());
    };
    relocate_types(
        local.allocator(),
        file,
        extension,
        local,
        kernel_types,
        functions,
    )
}

/// Relocates an object that may have no records of type relocations.
fn relocate_object<'a>(
    object: &mut Object<'a>,
    kernel_types: &[Btf<'_>],
) -> Result<(), BtfRelocationError>
    requires { length kernel_types.now ≤ 2 ^ 32 }
    ensures relocated { OnOk result
        (AreRelocated (types_of object.old kernel_types.now) (type_section_infos object.old)
        object.new.functions) }
    ensures sound { OnOk result
        (CanBeRelocated (types_of object.old kernel_types.now) (type_section_infos object.old)) }
    ensures others { object.new ≡ record object.old { functions = object.new.functions } }
    ensures fault { IfErr result (λ e.
        e.error ≢ OutOfMemory
        → HasTypesFault (types_of object.old kernel_types.now) (type_section_infos object.old)
        e.error) }
    ensures unchanged { OnErr result (object.new ≡ object.old) }
{
    if !object.has_btf_relocations() {
        return Ok(());
    }
    relocate_functions(
        &object.file,
        object.btf.as_ref(),
        object.btf_ext.as_ref(),
        kernel_types,
        &mut object.functions,
    )
}

impl<'a> Object<'a> {
    /// Resolves the type relocations in a kernel's tables, of which there are at most 2^32, and
    /// writes the results into their slots: [`relocate_types`].
    ///
    /// # Errors
    ///
    /// Those of [`relocate_types`], with the section's name; the object is as before then. The
    /// result rests on what the relocations reach in the object's types, as that of
    /// [`relocate_types`] does.
    pub fn relocate_btf(&mut self, kernel_types: &[Btf<'_>]) -> Result<(), BtfRelocationError>
        requires { length kernel_types.now ≤ 2 ^ 32 }
        ensures relocated { OnOk result
            (AreRelocated (types_of self.old kernel_types.now) (type_section_infos self.old)
            self.new.functions) }
        ensures sound { OnOk result
            (CanBeRelocated (types_of self.old kernel_types.now) (type_section_infos self.old)) }
        ensures others { self.new ≡ record self.old { functions = self.new.functions } }
        ensures fault { IfErr result (λ e.
            e.error ≢ OutOfMemory
            → HasTypesFault (types_of self.old kernel_types.now) (type_section_infos self.old) e.error) }
        ensures unchanged { OnErr result (self.new ≡ self.old) }
        ensures rests { RestsOnReach (types_of self.old kernel_types.now)
            (type_section_infos self.old)
            (IsAnswer (type_section_infos self.old) self.new.functions result) }
    {
        relocations_rest();
        relocate_object(self, kernel_types)
    }
}
