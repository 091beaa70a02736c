//! What passes write into the slots of an object's functions.

ghost use Rattle.std.specs.Prelude.{◌≡◌, ◌≢◌, true, IfErr, OnErr, OnOk};
ghost use Rattle.std.specs.Option.{option_map};
ghost use Rattle.std.specs.String.{string_bytes};
ghost use Rattle.ebpf_object.specs.Helpers.{IsSanitized};
ghost use Rattle.object_parts.specs.Content.{has_newer_helper};
ghost use Rattle.relocation_errors.specs.declared.error.RelocationError.TheVariants as RelocationError;
ghost use Rattle.slot_relocation.specs.Externs.{extern_rule};
ghost use Rattle.slot_relocation.specs.Maps.{given, map_rule};
ghost use Rattle.slot_relocation.specs.Writes.{AreRelocated, CanBeRelocated, HasErrorIn};

use crate::object::Object;
use relocation_errors::EbpfRelocationError;
use slot_relocation::{NumberedMap, relocate_externs, relocate_maps};
use std::collections::BTreeSet;

impl<'a> Object<'a> {
    /// Writes the numbers of maps into the slots of relocations by maps and variables:
    /// [`relocate_maps`]. `text_sections` are the indexes of the sections with functions.
    ///
    /// # Errors
    ///
    /// Those of [`relocate_maps`], with the function's name; the object is as before then.
    #[tactic(auto, using(crate::proofs::Linked::functions_stay_relocated))]
    pub fn write_map_numbers(
        &mut self,
        maps: &[NumberedMap<'_>],
        text_sections: &BTreeSet<usize>,
    ) -> Result<(), EbpfRelocationError>
        ensures relocated { OnOk result
            (AreRelocated (map_rule (given self.old.file text_sections.now.keys maps.now))
            self.old.file self.old.functions self.new.functions) }
        ensures sound { OnOk result
            (CanBeRelocated (map_rule (given self.old.file text_sections.now.keys maps.now))
            self.old.file self.old.functions) }
        ensures others { self.new ≡ record self.old { functions = self.new.functions } }
        ensures fault { IfErr result (λ e.
            e.error ≢ RelocationError.OutOfMemory
            → HasErrorIn (map_rule (given self.old.file text_sections.now.keys maps.now))
            self.old.file self.old.functions (option_map string_bytes e.function) e.error) }
        ensures unchanged { OnErr result (self.new ≡ self.old) }
    {
        relocate_maps(
            self.alloc,
            &self.file,
            &mut self.functions,
            maps,
            text_sections,
        )
    }

    /// Writes what is known about the kernel's functions and variables into the slots of
    /// relocations by externs: [`relocate_externs`].
    ///
    /// # Errors
    ///
    /// Those of [`relocate_externs`], with the function's name; the object is as before then.
    #[tactic(auto, using(crate::proofs::Linked::functions_stay_relocated))]
    pub fn relocate_externs(&mut self) -> Result<(), EbpfRelocationError>
        ensures relocated { OnOk result
            (AreRelocated (extern_rule self.old.file self.old.externs.by_name) self.old.file
            self.old.functions self.new.functions) }
        ensures sound { OnOk result
            (CanBeRelocated (extern_rule self.old.file self.old.externs.by_name) self.old.file
            self.old.functions) }
        ensures others { self.new ≡ record self.old { functions = self.new.functions } }
        ensures fault { IfErr result (λ e.
            e.error ≢ RelocationError.OutOfMemory
            → HasErrorIn (extern_rule self.old.file self.old.externs.by_name) self.old.file
            self.old.functions (option_map string_bytes e.function) e.error) }
        ensures unchanged { OnErr result (self.new ≡ self.old) }
    {
        relocate_externs(self.alloc, &self.file, &mut self.functions, &self.externs)
    }

    /// Replaces calls of newer helpers by calls of older ones where the kernel lacks the newer: 4
    /// replaces 112 and 113, 45 replaces 114 and 115. `probe` says whether the kernel has them; it
    /// is called only where a slot calls one. Takes no memory.
    #[tactic(auto, using(crate::proofs::Linked::functions_stay_renamed))]
    pub fn sanitize_functions<P: FnOnce() -> bool>(&mut self, probe: P)
        requires { has_newer_helper self.old.functions ≡ true → P.pre probe }
        ensures sanitized { IsSanitized (P.post probe) self.old.functions self.new.functions }
        ensures others { self.new ≡ record self.old { functions = self.new.functions } }
    {
        if self.functions.has_newer_helper() && !probe() {
            self.functions.rename_helpers();
        }
    }
}
