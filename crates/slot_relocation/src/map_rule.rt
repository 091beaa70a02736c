//! Relocations by maps and variables.

ghost use Rattle.std.specs.Prelude.{◌≡◌, ◌≢◌, IfErr, OnErr, OnOk};
ghost use Rattle.std.specs.Option.{option_map};
ghost use Rattle.std.specs.String.{string_bytes};
ghost use Rattle.relocation_errors.specs.declared.error.RelocationError.TheVariants.{OutOfMemory};
ghost use Rattle.slot_relocation.specs.Maps.{given, map_rule, outcome_by, outcome_for, variable_outcome};
ghost use Rattle.slot_relocation.specs.Writes.{AreRelocated, CanBeRelocated, HasErrorIn};

use crate::by_symbol::SymbolRule;
use crate::errors::relocate_by_symbol;
use crate::map_index::{MapIndex, NumberedMap};
use crate::outcome::{Fault, Outcome, Write, with_number};
use ebpf_items::bpf_insn;
use elf64::SymbolView;
use object_file::ObjectFile;
use object_parts::Functions;
use relocation_errors::EbpfRelocationError;
use std::alloc::Global;
use std::collections::BTreeSet;

/// The source register that marks a map's number.
const BPF_PSEUDO_MAP_FD: u8 = 1;

/// The source register that marks the number of a map with a variable.
const BPF_PSEUDO_MAP_VALUE: u8 = 2;

/// What relocations by maps and variables do to the slots of an object's functions.
#[derive(Drop)]
struct MapRule<'r, 'm> {
    /// The indexes of the sections with functions.
    text_sections: &'r BTreeSet<usize>,
    maps: MapIndex<'m>,
}

/// What a relocation by a variable at an address does.
fn variable_outcome(
    map: &NumberedMap<'_>,
    slot: bpf_insn,
    next: Option<bpf_insn>,
    address: u64,
) -> Outcome<Fault>
    ensures { result ≡ variable_outcome map.now slot next address }
{
    let Some(mut next) = next else {
        return Outcome::Refused(Fault::InvalidOffset);
    };
    let Ok(place) = i32::try_from(slot.imm as i128 + address as i128) else {
        return Outcome::Refused(Fault::InvalidOffset);
    };
    next.imm = place;
    Outcome::Written(Write {
        first: with_number(slot, BPF_PSEUDO_MAP_VALUE, map.number),
        next: Some(next),
    })
}

/// What a relocation by a map, or by a variable of it at an address, does.
fn outcome_for(
    map: &NumberedMap<'_>,
    slot: bpf_insn,
    next: Option<bpf_insn>,
    address: u64,
) -> Outcome<Fault>
    ensures { result ≡ outcome_for map.now map.now.map.contents slot next address }
{
    if map.map.data().is_empty() {
        return Outcome::Written(Write {
            first: with_number(slot, BPF_PSEUDO_MAP_FD, map.number),
            next: None,
        });
    }
    variable_outcome(map, slot, next, address)
}

impl<'r, 'm> SymbolRule for MapRule<'r, 'm> {
    ghost does = { λ r. outcome_by r.text_sections.now.keys r.maps };

    fn outcome_by(
        &self,
        slot: bpf_insn,
        next: Option<bpf_insn>,
        symbol_index: usize,
        symbol: &SymbolView<'_>,
    ) -> Outcome<Fault> {
        let Some(section_index) = symbol.section_index() else {
            return Outcome::Skipped;
        };
        if slot.is_pseudo_call() || self.text_sections.contains(&section_index) {
            return Outcome::Skipped;
        }
        match self.maps.get(symbol_index, section_index) {
            Some(map) => outcome_for(map, slot, next, symbol.address()),
            None => Outcome::Refused(Fault::NoMap {
                section_index,
                symbol_index,
            }),
        }
    }
}

/// Writes the numbers of maps into the slots of relocations by maps, or by variables of them. The
/// relocations inside a function are made in order of offset. The symbol gives the map: the last
/// one in `maps` of the symbol, or else the last one of the symbol's section. The slot gets the
/// map's number as its immediate and `BPF_PSEUDO_MAP_FD` as its source register. Where the map has
/// bytes the source register is `BPF_PSEUDO_MAP_VALUE`, and the next slot's immediate becomes the
/// sum of the slot's old immediate and the symbol's address. Calls of functions are skipped, and so
/// are symbols of no section or of one of `text_sections`, the indexes of the sections with
/// functions.
///
/// # Errors
///
/// With the function's name: `InvalidRelocationOffset` for a relocation that applies to no whole
/// slot, or by a variable without a next slot or with a sum past 32 signed bits; `UnknownSymbol`
/// for a symbol that the object lacks; `SectionNotFound` for a symbol without a map; and
/// `OutOfMemory`. Of several faults the first in order of section and offset is returned. The
/// functions then stay as they are.
pub fn relocate_maps<'f>(
    alloc: Global,
    file: &ObjectFile<'_>,
    functions: &mut Functions<'f>,
    maps: &[NumberedMap<'_>],
    text_sections: &BTreeSet<usize>,
) -> Result<(), EbpfRelocationError>
    ensures relocated { OnOk result
        (AreRelocated (map_rule (given file.now text_sections.now.keys maps.now)) file.now
        functions.old functions.new) }
    ensures sound { OnOk result
        (CanBeRelocated (map_rule (given file.now text_sections.now.keys maps.now)) file.now
        functions.old) }
    ensures fault { IfErr result (λ e.
        e.error ≢ OutOfMemory
        → HasErrorIn (map_rule (given file.now text_sections.now.keys maps.now)) file.now
        functions.old (option_map string_bytes e.function) e.error) }
    ensures unchanged { OnErr result (functions.new ≡ functions.old) }
{
    let rule = MapRule {
        text_sections,
        maps: MapIndex::new(alloc, maps)?,
    };
    relocate_by_symbol(alloc, file, rule, functions)
}
