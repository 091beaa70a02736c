//! The helpers that a program calls.

ghost use Rattle.std.specs.Prelude.{◌≡◌, IfOk};
ghost use Rattle.report_needs.specs.Helpers.{AreHelpers, calls_helper, numbers_called};

use ebpf_items::{Slots, bpf_insn};
use std::alloc::{AllocError, Global};

/// Whether a slot calls a helper by its number: `BPF_JMP | BPF_CALL` with source register 0.
///
/// The verifier refuses such a slot whose destination register or offset isn't 0 (`do_check`,
/// "BPF_CALL uses reserved fields"). It still counts as a call here, so that its number is looked
/// up. libbpf's `insn_is_helper_call` asks for destination 0 too, since it rewrites the call.
pub fn calls_helper(slot: bpf_insn) -> bool
    ensures { result ≡ calls_helper slot }
{
    slot.code == 0x85 && slot.src_reg() == 0
}

/// The number of each call of a helper, in the order of the slots.
fn numbers_called(alloc: Global, slots: &Slots<'_>) -> Result<Vec<i32>, AllocError>
    ensures { IfOk result (λ numbers. numbers.items ≡ numbers_called slots.now) }
{
    let mut numbers = Vec::new(alloc);
    for slot in slots.iter() {
        if calls_helper(slot) {
            numbers.push(slot.imm)?;
        }
    }
    Ok(numbers)
}

/// The helpers that slots call, as numbers of `enum bpf_func_id`: the immediates of the slots of
/// code 0x85 with source register 0, each once, in rising order. A negative immediate, which no
/// helper has, is listed as it is.
///
/// # Errors
///
/// `AllocError` where memory runs out.
pub fn helpers_of(alloc: Global, slots: &Slots<'_>) -> Result<Vec<i32>, AllocError>
    ensures { IfOk result (λ helpers. AreHelpers slots.now helpers.items) }
{
    let mut numbers = numbers_called(alloc, slots)?;
    numbers.sort_unstable();
    numbers.dedup();
    Ok(numbers)
}
