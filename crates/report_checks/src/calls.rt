//! Calls that a kernel doesn't take.

ghost use Rattle.std.specs.Prelude.{◌≡◌};
ghost use Rattle.report_needs.specs.Enums.{func_ids, helper_presence};
ghost use Rattle.report_checks.specs.Calls.{call_cause, cause_at, number_cause};

use ebpf_items::{Slots, bpf_insn};
use report_needs::{Presence, SearchedKernel, calls_helper};

/// The helper that an instruction calls whose type relocation has no match, or a match without a
/// value. No kernel has it.
pub const POISON: i32 = 0xbad_2310;

/// The least number in a call of a missing weak function (libbpf's `POISON_CALL_KFUNC_BASE`).
pub const MISSING_FUNCTION: i32 = 2_002_000_000;

/// Why a kernel doesn't take a call.
#[derive(Clone, Copy, Debug, PartialEq, Eq)]
pub enum CallCause {
    /// Its type relocation has no match, or a match without a value.
    Poison,
    /// It calls a weak function that the kernel lacks.
    MissingFunction,
    /// It calls a helper that the kernel lacks.
    MissingHelper {
        /// The helper's number, of `enum bpf_func_id`.
        number: i32,
    },
}

/// Why a kernel doesn't take a call of a helper's number, if it doesn't.
fn number_cause(kernel: &SearchedKernel<'_, '_>, number: i32) -> Option<CallCause>
    ensures { result
        ≡ number_cause (helper_presence kernel.now (func_ids kernel.now) number) number }
{
    if number == POISON {
        return Some(CallCause::Poison);
    }
    if number >= MISSING_FUNCTION {
        return Some(CallCause::MissingFunction);
    }
    match kernel.helper(number) {
        Presence::Missing => Some(CallCause::MissingHelper { number }),
        Presence::Found | Presence::Unknown => None,
    }
}

/// Why a kernel doesn't take the call in a slot. `None` where it takes the call, where its types
/// don't tell, and where the slot calls no helper.
pub fn call_cause(kernel: &SearchedKernel<'_, '_>, slot: bpf_insn) -> Option<CallCause>
    ensures { result ≡ call_cause kernel.now slot }
{
    if calls_helper(slot) {
        number_cause(kernel, slot.imm)
    } else {
        None
    }
}

/// Why a kernel doesn't take the call in the slot at an index.
pub(crate) fn cause_at(
    kernel: &SearchedKernel<'_, '_>,
    slots: &Slots<'_>,
    slot: usize,
) -> Option<CallCause>
    ensures { result ≡ cause_at kernel.now slots.now slot }
{
    match slots.get(slot) {
        Some(insn) => call_cause(kernel, insn),
        None => None,
    }
}
