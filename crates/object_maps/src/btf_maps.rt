//! Maps of sections `.maps`, defined by BTF types.

ghost use Rattle.std.specs.Prelude.{◌≡◌, ◌≢◌, [], ◌++◌, Some, IfErr, IfOk, OnOk};
ghost use Rattle.std.specs.Option.{option_copied};
ghost use Rattle.ebpf_items.specs.declared.error.ParseError.TheVariants.{OutOfMemory};
ghost use Rattle.object_maps.specs.BtfMaps.{any_symbol_faults, btf_maps, btf_maps_faults, entries_faults, entries_maps, entry_faults, entry_map, record_faults, record_maps};
ghost use Rattle.object_maps.specs.DataSections.{is_section_named, section_name_faults};
ghost use Rattle.object_maps.specs.Faults.{Says};
ghost use Rattle.object_maps.specs.Found.{entered};
ghost use Rattle.object_maps.specs.Maps.{typed_faults, typed_maps};

use crate::definition::map_variable;
use crate::definitions::Definitions;
use crate::entries::Entries;
use crate::last_symbols::LastSymbols;
use crate::maps::Maps;
use btf_encoding::TypeRef;
use btf_records::{BtfKind, DataSecEntry};
use btf_tables::Btf;
use ebpf_items::{BtfMap, Map, ParseError};
use object_file::{ReadSection, ReadSymbol};
use std::alloc::Global;

/// Whether a type is a `BTF_KIND_DATASEC` of this name; refuses one whose name can't be read.
fn is_section_named(table: &Btf<'_>, name: &str, t: &TypeRef<'_>) -> Result<bool, ParseError>
    ensures value { IfOk result (λ r. r ≡ is_section_named table.now name.now t.now) }
    ensures accepted { OnOk result (section_name_faults table.now t.now ≡ []) }
    ensures refused { IfErr result (Says (section_name_faults table.now t.now)) }
{
    if t.kind() != BtfKind::DataSec {
        return Ok(false);
    }
    match table.string_at(t.name_offset()) {
        Ok(text) => Ok(text == name),
        Err(error) => Err(ParseError::BtfError(error)),
    }
}

impl<'a> Maps<'a> {
    /// Adds the map of the variable of an entry, with the symbol of its name.
    #[tactic(auto, unfolding(crate::specs::Found::entered))]
    fn read_entry(
        &mut self,
        alloc: Global,
        definitions: &mut Definitions<'_, '_>,
        section: &ReadSection<'a>,
        symbols: &LastSymbols<'_, 'a>,
        entry: DataSecEntry,
    ) -> Result<(), ParseError>
        ensures table { definitions.new ≡ definitions.old }
        ensures value { OnOk result
            (self.new ≡ entered self.old (entry_map definitions.old section.now symbols.now entry)) }
        ensures accepted { OnOk result (entry_faults definitions.old symbols.now entry ≡ []) }
        ensures refused { IfErr result (λ e.
            e ≢ OutOfMemory → Says (entry_faults definitions.old symbols.now entry) e) }
    {
        let variable = map_variable(definitions.table(), entry.btf_type)?;
        let definition = definitions.definition(alloc, variable.name, variable.struct_id)?;
        let Some(symbol) = symbols.named(variable.name) else {
            return Err(ParseError::SymbolNotFound {
                name: String::from_str(alloc, variable.name)?,
            });
        };
        let map = BtfMap::new(
            alloc,
            definition.def,
            definition.inner,
            section.index(),
            symbol.view().index(),
        );
        self.insert(symbol.name(), Map::Btf(map))?;
        Ok(())
    }

    /// Adds the maps of the variables of a `BTF_KIND_DATASEC`.
    #[tactic(auto, using(crate::proofs::Entered::entered_append, crate::proofs::Entered::entered_none))]
    fn read_entries(
        &mut self,
        alloc: Global,
        definitions: &mut Definitions<'_, '_>,
        section: &ReadSection<'a>,
        symbols: &LastSymbols<'_, 'a>,
        t: &TypeRef<'_>,
    ) -> Result<(), ParseError>
        ensures table { definitions.new ≡ definitions.old }
        ensures value { OnOk result
            (self.new ≡ entered self.old (entries_maps definitions.old section.now symbols.now t.now)) }
        ensures accepted { OnOk result (entries_faults definitions.old symbols.now t.now ≡ []) }
        ensures refused { IfErr result (λ e.
            e ≢ OutOfMemory → Says (entries_faults definitions.old symbols.now t.now) e) }
    {
        for entry in Entries::new(t) {
            self.read_entry(alloc, definitions, section, symbols, entry)?;
        }
        Ok(())
    }

    /// Adds the maps of a record of the table, if it is a `BTF_KIND_DATASEC` of the section's name.
    #[tactic(auto, using(crate::proofs::Entered::entered_none))]
    fn read_record(
        &mut self,
        alloc: Global,
        definitions: &mut Definitions<'_, '_>,
        section: &ReadSection<'a>,
        symbols: &LastSymbols<'_, 'a>,
        t: &TypeRef<'_>,
    ) -> Result<(), ParseError>
        ensures table { definitions.new ≡ definitions.old }
        ensures value { OnOk result
            (self.new ≡ entered self.old (record_maps definitions.old section.now symbols.now t.now)) }
        ensures accepted { OnOk result
            (record_faults definitions.old section.now symbols.now t.now ≡ []) }
        ensures refused { IfErr result (λ e.
            e ≢ OutOfMemory → Says (record_faults definitions.old section.now symbols.now t.now) e) }
    {
        if is_section_named(definitions.table(), section.name(), t)? {
            self.read_entries(alloc, definitions, section, symbols, t)?;
        }
        Ok(())
    }

    /// Adds the maps that the table defines for a section, in the order of the table.
    #[tactic(auto, using(crate::proofs::Entered::entered_append, crate::proofs::Entered::entered_none))]
    fn read_records(
        &mut self,
        alloc: Global,
        definitions: &mut Definitions<'_, '_>,
        section: &ReadSection<'a>,
        symbols: &LastSymbols<'_, 'a>,
    ) -> Result<(), ParseError>
        ensures table { definitions.new ≡ definitions.old }
        ensures value { OnOk result
            (self.new ≡ entered self.old (btf_maps definitions.old symbols.now section.now)) }
        ensures accepted { OnOk result (btf_maps_faults definitions.old symbols.now section.now ≡ []) }
        ensures refused { IfErr result (λ e.
            e ≢ OutOfMemory → Says (btf_maps_faults definitions.old symbols.now section.now) e) }
    {
        for t in definitions.table().types() {
            self.read_record(alloc, definitions, section, symbols, &t)?;
        }
        Ok(())
    }

    /// Adds the maps of a section `.maps`.
    pub(crate) fn read_btf_maps(
        &mut self,
        alloc: Global,
        symbols: &[ReadSymbol<'a>],
        table: Option<&Btf<'_>>,
        section: &ReadSection<'a>,
    ) -> Result<(), ParseError>
        ensures value { OnOk result
            (self.new
            ≡ entered self.old (typed_maps (option_copied table.entry) symbols.now section.now)) }
        ensures accepted { OnOk result
            (any_symbol_faults symbols.now section.now
            ++ typed_faults (option_copied table.entry) symbols.now section.now
            ≡ []) }
        ensures refused { IfErr result (λ e.
            e ≢ OutOfMemory
            → Says
            (any_symbol_faults symbols.now section.now
            ++ typed_faults (option_copied table.entry) symbols.now section.now) e) }
    {
        let Some(table) = table else {
            return Err(ParseError::NoBTF);
        };
        if symbols.is_empty() {
            return Err(ParseError::NoSymbolsForSection {
                section_name: String::from_str(alloc, section.name())?,
            });
        }
        let mut definitions = Definitions::new(alloc, table);
        let symbols = LastSymbols::new(alloc, symbols)?;
        self.read_records(alloc, &mut definitions, section, &symbols)
    }
}
