//! Instructions, and their texts.

ghost use Rattle.std.specs.Prelude.{◌≡◌, ◌≤◌, IfOk, IfSome, Some};
ghost use Rattle.std.specs.String.{string_bytes};
ghost use Rattle.instruction_text.specs.Texts.{slot_count, taken, text_of};

use crate::forms::has_form;
use crate::parts::{WIDE_LOAD, parts_of};
use crate::writing::push_instruction;
use ebpf_items::bpf_insn;
use std::alloc::{AllocError, Global};

/// An instruction: one slot, or the two of a load of a 64-bit immediate ("Instruction encoding" in
/// the kernel's `instruction-set.rst`).
#[derive(Clone, Copy, Debug)]
pub struct Instruction {
    /// The slot with the code.
    pub first: bpf_insn,
    /// The slot with the high half of a 64-bit immediate.
    pub second: Option<bpf_insn>,
}

impl Instruction {
    /// The instruction in a slot and the slot behind it.
    ///
    /// Only a load of a 64-bit immediate takes the second slot. A slot with an encoding that the
    /// standard doesn't name is an instruction by itself.
    pub fn of_slots(first: bpf_insn, second: Option<bpf_insn>) -> Instruction
        ensures value { result ≡ taken first second }
        ensures first { result.first ≡ first }
        ensures second { IfSome result.second (λ slot. second ≡ Some slot) }
    {
        Instruction {
            first,
            second: second_of(first, second),
        }
    }

    /// The number of slots, 1 or 2.
    pub fn slot_count(self) -> usize
        ensures value { result ≡ slot_count self }
        ensures some { 1 ≤ result }
        ensures few { result ≤ 2 }
    {
        if self.second.is_some() { 2 } else { 1 }
    }
}

fn second_of(first: bpf_insn, second: Option<bpf_insn>) -> Option<bpf_insn>
    ensures value { result ≡ (taken first second).second }
    ensures second { IfSome result (λ slot. second ≡ Some slot) }
{
    let parts = parts_of(first, second)?;
    if has_form(&parts) && first.code == WIDE_LOAD {
        second
    } else {
        None
    }
}

/// The text of the instruction in a slot and the slot behind it.
///
/// The second slot counts only for a load of a 64-bit immediate, as for [`Instruction::of_slots`].
pub fn instruction_text(
    alloc: Global,
    first: bpf_insn,
    second: Option<bpf_insn>,
) -> Result<String, AllocError>
    ensures { IfOk result (λ text. string_bytes text ≡ text_of first second) }
{
    let mut text = String::new(alloc);
    push_instruction(&mut text, first, second)?;
    Ok(text)
}
