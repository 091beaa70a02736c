//! Relocations that the file holds: each names a symbol.

ghost use Rattle.std.specs.Prelude.{◌≡◌, true, IfErr, IfOk, OnOk};
ghost use Rattle.slot_relocation.specs.BySymbol.{Does, outcome_of, symbol_rule};
ghost use Rattle.slot_relocation.specs.Walks.{IsRefusal, NextFits, is_before, is_sound};
ghost use Rattle.slot_relocation.specs.Writes.{after_all, relocations_inside};

use crate::driver::FaultAt;
use crate::outcome::{Fault, Outcome};
use crate::rule::{Pass, Refusal, Rule, relocate_at, relocate_each};
use ebpf_items::{Slots, bpf_insn};
use elf64::{RelocView, SymbolView};
use object_file::ObjectFile;
use object_parts::{Function, SLOT_SIZE};

/// What a relocation does, given its symbol.
pub trait SymbolRule {
    /// The rule's definition.
    ghost does: { Self → Does };

    /// What a relocation at `slot` does, given the slot after it and the symbol with the index
    /// `symbol_index`.
    fn outcome_by(
        &self,
        slot: bpf_insn,
        next: Option<bpf_insn>,
        symbol_index: usize,
        symbol: &SymbolView<'_>,
    ) -> Outcome<Fault>
        ensures value { result ≡ does self.now slot next symbol_index symbol.now }
        ensures within { NextFits next result };
}

/// The relocations that the file holds, made by a rule on their symbols.
#[derive(Drop)]
pub(crate) struct BySymbol<'r, 'o, S> {
    pub(crate) file: &'r ObjectFile<'o>,
    pub(crate) rule: S,
}

/// What a relocation does at a slot.
fn outcome_of<S: SymbolRule>(
    file: &ObjectFile<'_>,
    rule: &S,
    slot: bpf_insn,
    next: Option<bpf_insn>,
    relocation: &RelocView,
) -> Outcome<Fault>
    ensures value { result ≡ outcome_of file.now (S.does rule.now) slot next relocation.now }
    ensures within { NextFits next result }
{
    // No symbol has the index 0.
    let index = relocation.symbol().unwrap_or(0);
    match file.symbol_at(index) {
        Some(symbol) => rule.outcome_by(slot, next, index, symbol.view()),
        None => Outcome::Refused(Fault::UnknownSymbol { index }),
    }
}

impl<'r, 'o, S: SymbolRule> Rule<RelocView, Fault> for BySymbol<'r, 'o, S> {
    ghost rule = { λ r. symbol_rule r.file.now (S.does r.rule) };

    fn outcome(&self, slots: &Slots<'_>, distance: u64, relocation: &RelocView) -> Outcome<Fault> {
        if distance % SLOT_SIZE != 0 {
            return Outcome::Refused(Fault::InvalidOffset);
        }
        let place = (distance / SLOT_SIZE) as usize;
        match slots.get(place) {
            Some(slot) => {
                outcome_of(
                    self.file,
                    &self.rule,
                    slot,
                    slots.get(place + 1),
                    relocation,
                )
            },
            None => Outcome::Refused(Fault::InvalidOffset),
        }
    }
}

/// The slots, after the relocations inside it, of a function that ends past all offsets.
fn slots_to_last<'f, R: Rule<RelocView, Fault>>(
    rule: &R,
    file: &ObjectFile<'_>,
    function: &Function<'f>,
) -> Result<Slots<'f>, Refusal<Fault>>
    ensures value { IfOk result (λ s.
        s ≡ after_all (R.rule rule.now) function.now (relocations_inside file.now function.now)) }
    ensures sound { OnOk result
        (is_sound (R.rule rule.now) (relocations_inside file.now function.now) function.now
        ≡ true) }
    ensures refused { IfErr result
        (IsRefusal (R.rule rule.now) (relocations_inside file.now function.now) function.now) }
{
    let mut slots = function.instructions.try_clone()?;
    for (offset, relocation) in file.relocations_by_offset(function.section_index) {
        if function.is_inside(*offset) {
            relocate_at(rule, function, &mut slots, *offset, relocation)?;
        }
    }
    Ok(slots)
}

/// The slots of a function after the relocations inside it.
fn slots_after<'f, R: Rule<RelocView, Fault>>(
    rule: &R,
    file: &ObjectFile<'_>,
    function: &Function<'f>,
) -> Result<Slots<'f>, Refusal<Fault>>
    ensures value { IfOk result (λ s.
        s ≡ after_all (R.rule rule.now) function.now (relocations_inside file.now function.now)) }
    ensures sound { OnOk result
        (is_sound (R.rule rule.now) (relocations_inside file.now function.now) function.now
        ≡ true) }
    ensures refused { IfErr result
        (IsRefusal (R.rule rule.now) (relocations_inside file.now function.now) function.now) }
{
    // Offsets have 64 bits: where the end has more, no offset lies after it.
    let Ok(end) = u64::try_from(function.end()) else {
        return slots_to_last(rule, file, function);
    };
    let start = function.section_offset as u64;
    let relocations = file.relocations_in(function.section_index, start, end);
    relocate_each(rule, function, relocations)
}

impl<'r, 'o, S: SymbolRule> Pass<RelocView, Fault> for BySymbol<'r, 'o, S> {
    ghost before = { λ _. is_before };

    ghost inside = { λ r. relocations_inside r.file.now };

    fn is_before(&self, one: &FaultAt<'_, Fault>, other: &FaultAt<'_, Fault>) -> bool {
        (one.section_index, one.offset) < (other.section_index, other.offset)
    }

    fn slots_after<'f>(&self, function: &Function<'f>) -> Result<Slots<'f>, Refusal<Fault>> {
        slots_after(self, self.file, function)
    }
}
