//! The writes of type relocations.

ghost use Rattle.std.specs.Prelude.{◌≡◌, ◌≢◌, ◌/◌, false, true, map, IfErr, OnOk};
ghost use Rattle.slot_relocation.specs.Walks.{FitsIn, is_refused};
ghost use Rattle.core_relocation.specs.Walks.{AllTake, IsRefusedAmong, IsRefusedBy, after_relocation, is_in, outcome_in, takes, with_patch, with_relocation};
ghost use Rattle.core_relocation.specs.Writes.{type_rule, with_match};
ghost use Rattle.relocation_errors.specs.declared.type_relocations.BtfRelocationCause.TheVariants.{OutOfMemory};

use crate::cause::{InstructionPlace, cause_of_write};
use crate::placed_relocation::PlacedRelocation;
use core_patch::{WriteError, patched};
use ebpf_items::Slots;
use object_parts::{Function, MatchedTables, SLOT_SIZE};
use relocation_errors::BtfRelocationCause;
use slot_relocation::Outcome;
use std::alloc::{AllocError, Global};

/// What a relocation does to slots, `distance` bytes from their beginning.
fn outcome_at(slots: &Slots<'_>, distance: u64, placed: PlacedRelocation) -> Outcome<WriteError>
    ensures value { result ≡ type_rule slots.now distance placed }
    ensures within { FitsIn slots.now (distance / 8) result }
{
    let place = (distance / SLOT_SIZE) as usize;
    match slots.get(place) {
        Some(slot) => patched(slot, slots.get(place + 1), placed.patch),
        None => Outcome::Skipped,
    }
}

/// Writes what a relocation gives into the slots of its function. `number` is its index in its
/// section info.
fn write_patch(
    alloc: Global,
    number: usize,
    placed: PlacedRelocation,
    function: &mut Function<'_>,
) -> Result<(), BtfRelocationCause>
    ensures written { OnOk result (function.new ≡ with_patch placed function.old) }
    ensures fits { OnOk result (is_refused (outcome_in placed function.old) ≡ false) }
    ensures refused { IfErr result (λ c. c ≢ OutOfMemory → IsRefusedBy placed function.old c) }
{
    let distance = placed.offset.saturating_sub(function.section_offset as u64);
    match outcome_at(&function.instructions, distance, placed) {
        Outcome::Skipped => Ok(()),
        Outcome::Written(write) => {
            write.apply(&mut function.instructions, distance)?;
            Ok(())
        }
        Outcome::Refused(fault) => {
            let place = InstructionPlace {
                number,
                index: (distance / SLOT_SIZE) as usize,
                num_instructions: function.instructions.len(),
            };
            Err(cause_of_write(alloc, place, fault))
        }
    }
}

/// Enters the table of a relocation's first match, if it has one.
fn enter_match(tables: &mut MatchedTables, placed: PlacedRelocation) -> Result<(), AllocError>
    ensures { OnOk result (tables.new ≡ with_match tables.old placed) }
{
    match placed.table {
        Some(table) => tables.enter(table),
        None => Ok(()),
    }
}

/// Makes a relocation in its function: writes what it gives, and enters the table of its first
/// match.
fn relocate_function(
    alloc: Global,
    number: usize,
    placed: PlacedRelocation,
    function: &mut Function<'_>,
) -> Result<(), BtfRelocationCause>
    ensures written { OnOk result (function.new ≡ with_relocation placed function.old) }
    ensures fits { OnOk result (is_refused (outcome_in placed function.old) ≡ false) }
    ensures refused { IfErr result (λ c. c ≢ OutOfMemory → IsRefusedBy placed function.old c) }
{
    write_patch(alloc, number, placed, function)?;
    enter_match(&mut function.matched_tables, placed)?;
    Ok(())
}

/// Whether a relocation is in a function.
fn is_in(placed: PlacedRelocation, function: &Function<'_>) -> bool
    ensures { result ≡ is_in placed function.now }
{
    function.key().cmp(&placed.key).is_eq()
}

/// Makes a relocation in a function, if it is in this one.
fn relocate_if_in(
    alloc: Global,
    number: usize,
    placed: PlacedRelocation,
    function: &mut Function<'_>,
) -> Result<(), BtfRelocationCause>
    ensures written { OnOk result (function.new ≡ after_relocation placed function.old) }
    ensures fits { OnOk result (takes placed function.old ≡ true) }
    ensures refused { IfErr result (λ c.
        c ≢ OutOfMemory
        → (is_in placed function.old ≡ true) × IsRefusedBy placed function.old c) }
{
    if !is_in(placed, function) {
        return Ok(());
    }
    relocate_function(alloc, number, placed, function)
}

/// Makes a relocation in its function, which is among these.
#[tactic(auto, using(crate::proofs::Among::took_more, crate::proofs::Among::refused_here))]
pub(crate) fn relocate_among(
    alloc: Global,
    number: usize,
    placed: PlacedRelocation,
    functions: &mut [Function<'_>],
) -> Result<(), BtfRelocationCause>
    ensures written { OnOk result (functions.new ≡ map (after_relocation placed) functions.old) }
    ensures fits { OnOk result (AllTake placed functions.old) }
    ensures refused { IfErr result (λ c.
        c ≢ OutOfMemory → IsRefusedAmong placed functions.old c) }
{
    for function in functions.iter_mut() {
        relocate_if_in(alloc, number, placed, function)?;
    }
    Ok(())
}
