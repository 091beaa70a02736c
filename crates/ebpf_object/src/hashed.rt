//! Passes that take std's hashed collections. The order of these is unspecified, so what they hold
//! is sorted first.

ghost use Rattle.std.specs.Prelude.{◌≡◌, ◌≢◌, None, map, IfErr, IfOk, OnErr, OnOk};
ghost use Rattle.std.specs.Iterator.{IsFinite};
ghost use Rattle.std.specs.Option.{option_map};
ghost use Rattle.std.specs.String.{string_bytes};
ghost use Rattle.ebpf_items.specs.declared.error.ParseError.TheVariants as ParseError;
ghost use Rattle.ebpf_object.specs.Hashed.{HandsOver, by_name, in_order, numbered};
ghost use Rattle.global_data.specs.GlobalData.{Says, first_fault, patched};
ghost use Rattle.global_data.specs.Kept.{KeepBytes};
ghost use Rattle.linker.specs.Linked.{AllCanBeLinked, AreLinked, HasFaultOf, program_keys, unlinked};
ghost use Rattle.relocation_errors.specs.declared.error.RelocationError.TheVariants as RelocationError;
ghost use Rattle.slot_relocation.specs.Maps.{given, map_rule};
ghost use Rattle.slot_relocation.specs.Writes.{AreRelocated, CanBeRelocated, HasErrorIn};

use crate::object::Object;
use ebpf_items::{Map, ParseError};
use relocation_errors::EbpfRelocationError;
use settings::GlobalValues;
use slot_relocation::NumberedMap;
use std::alloc::{AllocError, Global};
use std::collections::{BTreeSet, HashMap, HashSet};

/// The numbers of a set, in order.
fn in_order(alloc: Global, numbers: &HashSet<usize>) -> Result<BTreeSet<usize>, AllocError>
    ensures { IfOk result (λ ordered. ordered.keys ≡ in_order numbers.now.keys) }
{
    let mut ordered = BTreeSet::new(alloc);
    for number in numbers.iter() {
        ordered.insert(*number)?;
    }
    Ok(ordered)
}

/// These values of global variables, by name.
fn by_name(alloc: Global, values: &HashMap<&str, (&[u8], bool)>) -> Result<GlobalValues, AllocError>
    ensures { IfOk result (λ ordered. ordered ≡ by_name values.now.entries) }
{
    let mut ordered = GlobalValues::new(alloc);
    for (name, value) in values.iter() {
        ordered.set(name, value.0, value.1)?;
    }
    Ok(ordered)
}

/// Maps with their numbers.
fn numbered<'m>(
    alloc: Global,
    maps: &[(&'m str, i32, &'m Map)],
) -> Result<Vec<NumberedMap<'m>>, AllocError>
    ensures { IfOk result (λ all. all.items ≡ map numbered maps.now) }
{
    let mut all = Vec::with_capacity(alloc, maps.len())?;
    for named in maps {
        let (name, number, map) = *named;
        all.push(NumberedMap { name, number, map })?;
    }
    Ok(all)
}

impl<'a> Object<'a> {
    /// Writes the values of global variables into the maps: [`Object::put_values`] with a map from
    /// names to values, each with whether the object must have the variable. The values are sorted
    /// by name.
    ///
    /// # Errors
    ///
    /// Those of [`Object::put_values`]; the object is as before then.
    pub fn patch_map_data(
        &mut self,
        globals: HashMap<&str, (&[u8], bool)>,
    ) -> Result<(), ParseError>
        ensures patched { OnOk result
            (self.new.maps ≡ patched self.old.file self.old.maps (by_name globals.entry.entries)) }
        ensures sound { OnOk result
            (first_fault self.old.file self.old.maps (by_name globals.entry.entries) ≡ None) }
        ensures kept { OnOk result
            (KeepBytes self.old.file (by_name globals.entry.entries) self.old.maps self.new.maps) }
        ensures others { self.new ≡ record self.old { maps = self.new.maps } }
        ensures fault { IfErr result (λ e.
            e ≢ ParseError.OutOfMemory
            → Says (first_fault self.old.file self.old.maps (by_name globals.entry.entries)) e) }
        ensures unchanged { OnErr result (self.new ≡ self.old) }
    {
        let values = by_name(self.alloc, &globals)?;
        self.put_values(&values)
    }

    /// Writes the numbers of maps into the slots of relocations by maps and variables:
    /// [`Object::write_map_numbers`] with an iterator over maps with names and numbers, in its
    /// order. `text_sections` are the indexes of the sections with functions.
    ///
    /// # Errors
    ///
    /// Those of [`Object::write_map_numbers`]; the object is as before then.
    pub fn relocate_maps<'m, I: Iterator<Item = (&'m str, i32, &'m Map)>>(
        &mut self,
        maps: I,
        text_sections: &HashSet<usize>,
    ) -> Result<(), EbpfRelocationError>
        requires can { I.can_next maps }
        requires ends { IsFinite (I.remaining maps) }
        ensures relocated { OnOk result
            (HandsOver I.next_gives maps (λ handed.
            AreRelocated (map_rule (given self.old.file (in_order text_sections.now.keys) handed))
            self.old.file self.old.functions self.new.functions
            × CanBeRelocated
            (map_rule (given self.old.file (in_order text_sections.now.keys) handed)) self.old.file
            self.old.functions)) }
        ensures others { self.new ≡ record self.old { functions = self.new.functions } }
        ensures fault { IfErr result (λ e.
            e.error ≢ RelocationError.OutOfMemory
            → HandsOver I.next_gives maps (λ handed.
            HasErrorIn (map_rule (given self.old.file (in_order text_sections.now.keys) handed))
            self.old.file self.old.functions (option_map string_bytes e.function) e.error)) }
        ensures unchanged { OnErr result (self.new ≡ self.old) }
    {
        let maps: Vec<(&str, i32, &Map)> = maps.collect(self.alloc)?;
        let numbered = numbered(self.alloc, &maps)?;
        let sections = in_order(self.alloc, text_sections)?;
        self.write_map_numbers(&numbered, &sections)
    }

    /// Links to each program the functions that it reaches, taken from the current functions:
    /// [`Object::link_programs`] with a set. `text_sections` are the indexes of the sections with
    /// functions.
    ///
    /// # Errors
    ///
    /// Those of [`Object::link_programs`]; the object is as before then.
    pub fn relocate_calls(
        &mut self,
        text_sections: &HashSet<usize>,
    ) -> Result<(), EbpfRelocationError>
        ensures linked { OnOk result
            (AreLinked (unlinked self.old.file (in_order text_sections.now.keys) self.old.functions)
            (program_keys self.old.programs) self.new.functions) }
        ensures sound { OnOk result
            (AllCanBeLinked
            (unlinked self.old.file (in_order text_sections.now.keys) self.old.functions)
            (program_keys self.old.programs)) }
        ensures others { self.new ≡ record self.old { functions = self.new.functions } }
        ensures fault { IfErr result (λ e.
            e.error ≢ RelocationError.OutOfMemory
            → HasFaultOf
            (unlinked self.old.file (in_order text_sections.now.keys) self.old.functions)
            self.old.programs (option_map string_bytes e.function) e.error) }
        ensures unchanged { OnErr result (self.new ≡ self.old) }
    {
        let sections = in_order(self.alloc, text_sections)?;
        self.link_programs(&sections)
    }
}
