//! The slots that a run can reach.

ghost use Rattle.std.specs.Prelude.{◌≡◌, ◌≤◌, IfOk, false, length, map, slice_get, unwrap_or, is_some};
ghost use Rattle.plan_registers.specs.Reach.{AreReached, flat_option, offset_at, offsets_in};

use crate::work::least_facts;
use ebpf_items::bpf_insn;
use plan_values::{Known, Program, ProgramCode, Value, functions_of, value_in};
use std::alloc::{AllocError, Global};
use std::marker::Model;

/// For each slot of a program whether a run can reach it, and how it loads from the program's context.
#[derive(Debug, Drop)]
pub struct ReachedSlots {
    reached: Vec<bool>,
    loads: Vec<Option<u64>>,
}

impl Model for ReachedSlots {
    ghost use Rattle.plan_registers.specs.Reach.{Reached};

    ghost Value = { Reached };

    ghost view = { λ r. record { slots = r.reached.items; offsets = r.loads.items } };
}

impl ReachedSlots {
    /// Whether a run can reach a slot.
    pub fn is_reached(&self, slot: usize) -> bool
        ensures { result ≡ unwrap_or (slice_get self.now.slots slot) false }
    {
        match self.reached.get(slot) {
            Some(is_reached) => *is_reached,
            None => false,
        }
    }

    /// The offset in the program's context of the register by which a slot loads, modulo 2^64: for an
    /// instruction of the class LDX that a run can reach, whose source register is the address of the
    /// context plus this number in each run. The instruction adds its own offset.
    pub fn context_offset(&self, slot: usize) -> Option<u64>
        ensures { result ≡ flat_option (slice_get self.now.offsets slot) }
    {
        match self.loads.get(slot) {
            Some(offset) => *offset,
            None => None,
        }
    }
}

/// The offset in the context of the register by which an instruction loads.
fn offset_at(slot: bpf_insn, fact: &Option<Known>) -> Option<u64>
    ensures { result ≡ offset_at slot fact.now }
{
    let Some(known) = fact else {
        return None;
    };
    if slot.code % 8 != 1 {
        return None;
    }
    match value_in(known, slot.src_reg()) {
        Value::Context(offset) => Some(offset),
        _ => None,
    }
}

/// The same for each slot.
fn offsets_in(
    alloc: Global,
    slots: &[bpf_insn],
    facts: &[Option<Known>],
) -> Result<Vec<Option<u64>>, AllocError>
    requires { length slots.now ≤ length facts.now }
    ensures { IfOk result (λ offsets. offsets.items ≡ offsets_in slots.now facts.now) }
{
    let mut offsets = Vec::with_capacity(alloc, slots.len())?;
    for position in 0..slots.len() {
        offsets.push(offset_at(slots[position], &facts[position]))?;
    }
    Ok(offsets)
}

fn reached_in(alloc: Global, facts: &[Option<Known>]) -> Result<Vec<bool>, AllocError>
    ensures { IfOk result (λ reached. reached.items ≡ map is_some facts.now) }
{
    let mut reached = Vec::with_capacity(alloc, facts.len())?;
    for fact in facts {
        reached.push(fact.is_some())?;
    }
    Ok(reached)
}

/// Finds the slots that a run can reach, and which of them load from the context. A jump whose operands are known is followed as they decide
/// it, and any other jump both ways.
///
/// # Errors
///
/// `AllocError` where memory runs out.
pub fn reach(alloc: Global, program: &ProgramCode<'_>) -> Result<ReachedSlots, AllocError>
    ensures { IfOk result (λ reach. AreReached program.now reach) }
{
    let functions = functions_of(alloc, program.slots)?;
    let parted = Program {
        slots: program.slots,
        verifier: program.verifier,
        maps: program.maps,
        global_functions: program.global_functions,
        functions: &functions,
    };
    let mut facts = least_facts(alloc, &parted)?;
    let loads = offsets_in(alloc, program.slots, &facts)?;
    facts.truncate(program.slots.len());
    let reached = reached_in(alloc, &facts)?;
    Ok(ReachedSlots { reached, loads })
}
