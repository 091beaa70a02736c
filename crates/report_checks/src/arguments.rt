//! Arguments that programs read and that what they are attached to doesn't have.

ghost use Rattle.std.specs.Prelude.{◌≡◌, false, length, slice_get, IfOk};
ghost use Rattle.report_checks.specs.Arguments.{is_argument_missing, is_beyond, missing_arguments, read_offset};

use ebpf_items::{Slots, bpf_insn};
use plan_registers::ReachedSlots;
use std::alloc::{AllocError, Global};

/// The size of a word of the context, in bytes.
const WORD: u64 = 8;

/// The offset at which a load reads, given that of its source register.
fn read_offset(slot: bpf_insn, offset: u64) -> u64
    ensures { result ≡ read_offset slot offset }
{
    offset.wrapping_add(i64::from(slot.off).cast_unsigned())
}

/// Whether a load at an offset of the context reads no word below a number, or not the beginning of
/// one.
fn is_beyond(words: u64, offset: u64) -> bool
    ensures { result ≡ is_beyond words offset }
{
    offset % WORD != 0 || offset / WORD >= words
}

/// Whether the load in a slot reads an argument that there isn't.
fn is_argument_missing(
    words: Option<u64>,
    slots: &Slots<'_>,
    reach: &ReachedSlots,
    slot: usize,
) -> bool
    ensures { result ≡ is_argument_missing words slots.now reach.now.offsets slot }
{
    match (words, slots.get(slot), reach.context_offset(slot)) {
        (Some(words), Some(insn), Some(offset)) => is_beyond(words, read_offset(insn, offset)),
        _ => false,
    }
}

/// The slots whose loads read arguments that there aren't, given how many words of its context the
/// program can read.
#[tactic(auto, using(crate::proofs::Slots::slot_passes, crate::proofs::Slots::slot_fails))]
pub(crate) fn missing_arguments(
    alloc: Global,
    words: Option<u64>,
    slots: &Slots<'_>,
    reach: &ReachedSlots,
) -> Result<Vec<usize>, AllocError>
    ensures { IfOk result (λ missing.
        missing.items ≡ missing_arguments words slots.now reach.now.offsets (length slots.now)) }
{
    let mut missing = Vec::new(alloc);
    for slot in 0..slots.len() {
        if is_argument_missing(words, slots, reach, slot) {
            missing.push(slot)?;
        }
    }
    Ok(missing)
}
