//! The instructions of a program, in order.

ghost use Rattle.std.specs.Prelude.{◌≡◌, IfOk, flat_map, map, slice_get};
ghost use Rattle.code_listing.specs.Listing.{listing, own_slots, shown, shown_at, slots_after};

use ebpf_items::{Slots, bpf_insn};
use instruction_text::{Instruction, instruction_text};
use std::alloc::{AllocError, Global};

/// An instruction of a program.
#[derive(Debug, Drop)]
pub struct ListedInstruction {
    /// The index of its first slot in the program.
    pub slot: usize,
    pub instruction: Instruction,
    pub text: String,
}

/// The instruction in the slot at an index, given the slot behind it.
fn listed_at(
    alloc: Global,
    slot: usize,
    first: bpf_insn,
    second: Option<bpf_insn>,
) -> Result<ListedInstruction, AllocError>
    ensures { IfOk result (λ listed. shown listed ≡ shown_at slot first second) }
{
    Ok(ListedInstruction {
        slot,
        instruction: Instruction::of_slots(first, second),
        text: instruction_text(alloc, first, second)?,
    })
}

/// The slots behind the first instruction of some slots, given its second slot.
fn slots_after(second: Option<bpf_insn>, slots: &[bpf_insn]) -> &[bpf_insn]
    ensures { result.now ≡ slots_after second slots.now }
{
    match (second, slots) {
        (Some(_second), [_first, _slot, rest @ ..]) => rest,
        (None, [_first, rest @ ..]) => rest,
        _ => &[],
    }
}

/// The slot at an index, if there is one.
fn slot_at(slots: &[bpf_insn], index: usize) -> Option<bpf_insn>
    ensures { result ≡ slice_get slots.now index }
{
    slots.get(index).copied()
}

/// The instructions of a program's slots, in order.
fn all_listed(alloc: Global, code: &[bpf_insn]) -> Result<Vec<ListedInstruction>, AllocError>
    ensures { IfOk result (λ list. map shown list.items ≡ listing 0 code.now) }
{
    let mut list = Vec::new(alloc);
    let mut slot = 0;
    let mut left = code;
    while let Some(first) = slot_at(left, 0) {
        let listed = listed_at(alloc, slot, first, slot_at(left, 1))?;
        slot += listed.instruction.slot_count();
        left = slots_after(listed.instruction.second, left);
        list.push(listed)?;
    }
    Ok(list)
}

/// The instructions of a program, in the order of its slots. Each slot is in exactly one of them.
/// Each has the text of `instruction_text`.
///
/// # Errors
///
/// `AllocError` where memory runs out.
pub fn listed_instructions(
    alloc: Global,
    slots: &Slots<'_>,
) -> Result<Vec<ListedInstruction>, AllocError>
    ensures listed { IfOk result (λ list. map shown list.items ≡ listing 0 slots.now) }
    ensures whole { IfOk result (λ list. flat_map own_slots (map shown list.items) ≡ slots.now) }
{
    let mut code = Vec::new(alloc);
    slots.append_to(&mut code)?;
    all_listed(alloc, &code)
}
