//! References by relocations, and calls without a relocation.

ghost use Rattle.std.specs.Prelude.{◌≡◌, ◌+◌, ◌*◌, ◌<◌, ◌^◌, pos, ◌+ℤ◌, ◌*ℤ◌};
ghost use Rattle.std.specs.BTreeSet.{contains};
ghost use Rattle.std.specs.Ordering.{nat_cmp};
ghost use Rattle.linker.specs.Targets.{slot_offset, stands_for_function, reference_of, address_by, target_by, called_by, target_of};

use crate::target::Target;
use ebpf_items::bpf_insn;
use elf64::{SymbolKind, SymbolView};
use object_file::ObjectFile;
use object_parts::{Function, SLOT_SIZE};
use std::collections::BTreeSet;
use std::marker::Model;

/// A symbol that a relocation names, and the number of bits that the relocation fills.
#[derive(Drop)]
struct Reference<'f, 'a> {
    index: usize,
    width: u8,
    symbol: &'f SymbolView<'a>,
}

impl<'f, 'a> Model for Reference<'f, 'a> {
    ghost use Rattle.linker.specs.Targets as targets;

    ghost Value = { targets.Reference };

    ghost view = { λ r. record { index = r.index; width = r.width; symbol = r.symbol.now } };
}

/// The offset of a function's slot in its section, in bytes.
fn slot_offset(function: &Function<'_>, slot: usize) -> u128
    ensures value { result ≡ slot_offset function.now slot }
    ensures small { result < 2 ^ 68 }
{
    function.section_offset as u128 + SLOT_SIZE as u128 * slot as u128
}

/// Whether a symbol can stand for a function: it is code, or lies in a section with functions.
fn stands_for_function(symbol: &SymbolView<'_>, text_sections: &BTreeSet<usize>) -> bool
    ensures { result ≡ stands_for_function (contains nat_cmp text_sections.now) symbol.now }
{
    if matches!(symbol.kind(), SymbolKind::Text) {
        return true;
    }
    match symbol.section_index() {
        Some(index) => text_sections.contains(&index),
        None => false,
    }
}

/// The symbol that a slot's relocation names, if it can stand for a function.
fn reference_of<'f, 'a>(
    file: &'f ObjectFile<'a>,
    text_sections: &BTreeSet<usize>,
    function: &Function<'_>,
    slot: usize,
) -> Option<Reference<'f, 'a>>
    ensures { result
        ≡ reference_of file.now (contains nat_cmp text_sections.now) function.now slot }
{
    let offset = u64::try_from(slot_offset(function, slot)).ok()?;
    let relocation = file.relocation_at(function.section_index, offset)?;
    let index = relocation.symbol()?;
    let symbol = file.symbol_at(index)?.view();
    if !stands_for_function(symbol, text_sections) {
        return None;
    }
    Some(Reference {
        index,
        width: relocation.width(),
        symbol,
    })
}

impl<'f, 'a> Reference<'f, 'a> {
    /// The address that the reference leads to, given a slot's immediate.
    fn address(&self, imm: i32) -> Option<i128>
        ensures { result
            ≡ address_by self.now.symbol.kind self.now.symbol.address self.now.width imm }
    {
        let address = self.symbol.address() as i128;
        match self.symbol.kind() {
            SymbolKind::Text => Some(address),
            SymbolKind::Section => match self.width {
                32 => Some(address + 8 * (imm as i128 + 1)),
                64 => Some(address + imm as i128),
                _ => None,
            },
            _ => None,
        }
    }

    /// The function that the reference leads to, given a slot's immediate.
    fn target(&self, imm: i32) -> Target
        ensures { result ≡ target_by self.now imm }
    {
        let Some(section_index) = self.symbol.section_index() else {
            return Target::UnknownSymbol { index: self.index };
        };
        let Some(address) = self.address(imm) else {
            return Target::UnknownSymbol { index: self.index };
        };
        Target::Function {
            section_index,
            address,
        }
    }
}

/// An offset in bytes as a signed number.
fn signed(place: u128) -> i128
    requires { place < 2 ^ 68 }
    ensures { result ≡ pos place }
{
    place as i128
}

/// The address that a call leads to: its immediate counts slots from the next one on.
fn called_address(function: &Function<'_>, index: usize, imm: i32) -> i128
    ensures { result ≡ pos (slot_offset function.now index) +ℤ pos 8 *ℤ (imm +ℤ pos 1) }
{
    let place = signed(slot_offset(function, index));
    place + 8 * (imm as i128 + 1)
}

/// What a slot without a relocation refers to.
fn called_by(function: &Function<'_>, index: usize, slot: bpf_insn) -> Target
    ensures { result ≡ called_by function.now index slot }
{
    if !slot.is_pseudo_call() {
        return Target::Nothing;
    }
    Target::Function {
        section_index: function.section_index,
        address: called_address(function, index, slot.imm),
    }
}

/// What the slot with the index `index` in a function refers to: what its relocation names, if that
/// is a function or lies in a section with functions, or else what it calls.
pub fn target_of(
    file: &ObjectFile<'_>,
    text_sections: &BTreeSet<usize>,
    function: &Function<'_>,
    index: usize,
    slot: bpf_insn,
) -> Target
    ensures { result
        ≡ target_of file.now (contains nat_cmp text_sections.now) function.now index slot }
{
    match reference_of(file, text_sections, function, index) {
        Some(reference) => reference.target(slot.imm),
        None => called_by(function, index, slot),
    }
}
