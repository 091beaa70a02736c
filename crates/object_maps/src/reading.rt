//! The maps of an object, read section by section.

ghost use Rattle.std.specs.Prelude.{◌≡◌, ◌≢◌, [], IfErr, OnOk};
ghost use Rattle.std.specs.Option.{option_copied};
ghost use Rattle.ebpf_items.specs.declared.error.ParseError.TheVariants.{OutOfMemory};
ghost use Rattle.object_maps.specs.Faults.{Says};
ghost use Rattle.object_maps.specs.Found.{entered};
ghost use Rattle.object_maps.specs.Maps.{section_faults, section_maps};

use crate::maps::Maps;
use btf_tables::Btf;
use ebpf_items::{EbpfSectionKind, ParseError};
use object_file::{ReadSection, ReadSymbol};
use std::alloc::Global;

impl<'a> Maps<'a> {
    /// Adds the maps of a section with these symbols, with the type table of the object, if it has
    /// one. A map replaces an earlier one of its name.
    ///
    /// # Errors
    ///
    /// - `NoSymbolsForSection`: a section of maps has no symbols for them.
    /// - `InvalidMapDefinition`: a symbol of a section `maps` lies outside the section or has fewer
    ///   than 20 bytes, or a data section has 2^32 bytes or more.
    /// - `NoBTF`: the object has a section `.maps` and no type table.
    /// - `SymbolNotFound`: no symbol names a map of a section `.maps`.
    /// - `BtfError`: the type table doesn't define the maps of a section `.maps`.
    /// - `OutOfMemory`.
    #[tactic(auto, using(crate::proofs::Entered::entered_none), unfolding(crate::specs::Maps::section_faults, crate::specs::Maps::section_maps))]
    pub fn read_section(
        &mut self,
        alloc: Global,
        symbols: &[ReadSymbol<'a>],
        table: Option<&Btf<'_>>,
        section: &ReadSection<'a>,
    ) -> Result<(), ParseError>
        ensures value { OnOk result
            (self.new
            ≡ entered self.old (section_maps (option_copied table.entry) symbols.now section.now)) }
        ensures accepted { OnOk result
            (section_faults (option_copied table.entry) symbols.now section.now ≡ []) }
        ensures refused { IfErr result (λ e.
            e ≢ OutOfMemory
            → Says (section_faults (option_copied table.entry) symbols.now section.now) e) }
    {
        match section.kind() {
            EbpfSectionKind::Maps => self.read_legacy_maps(alloc, symbols, section),
            EbpfSectionKind::BtfMaps => self.read_btf_maps(alloc, symbols, table, section),
            EbpfSectionKind::Data | EbpfSectionKind::Rodata | EbpfSectionKind::Bss => {
                self.read_data_map(alloc, section)
            }
            _ => Ok(()),
        }
    }
}
