//! All calls of a program that a kernel doesn't take.

ghost use Rattle.std.specs.Prelude.{◌≡◌, ◌<◌, false, is_some, length, IfOk, IfSome};
ghost use Rattle.std.specs.Option.{MatchOption};
ghost use Rattle.plan_registers.specs.Reach.{AreReached};
ghost use Rattle.report_checks.specs.Calls.{cause_at};
ghost use Rattle.report_checks.specs.Codes.{code_of};
ghost use Rattle.report_checks.specs.Reports.{AreHarmfulCalls, IsHarmfulCall};

use crate::calls::{CallCause, cause_at};
use crate::codes::PlanCode;
use crate::sources::line_record_at;
use btf_ext::bpf_line_info;
use plan_registers::ReachedSlots;
use plan_text::PlanProgram;
use report_needs::SearchedKernel;
use std::alloc::{AllocError, Global};

/// A call that a kernel doesn't take.
#[derive(Clone, Copy, Debug, PartialEq, Eq)]
pub struct HarmfulCall {
    /// The index of its slot in the program.
    pub slot: usize,
    pub cause: CallCause,
    /// Whether a run can reach it. The verifier passes over other calls.
    pub is_reached: bool,
    /// The record of the source line that it comes from, if there is one.
    pub line: Option<bpf_line_info>,
}

/// The call in a slot, if the kernel doesn't take it.
fn harmful_call(
    kernel: &SearchedKernel<'_, '_>,
    code: &PlanCode<'_>,
    reach: &ReachedSlots,
    program: &PlanProgram<'_>,
    slot: usize,
) -> Option<HarmfulCall>
    requires { AreReached (code_of code.now program.now) reach.now }
    ensures there { IfSome result (λ call.
        (call.slot ≡ slot) × IsHarmfulCall kernel.now code.now program.now call) }
    ensures missed { is_some result ≡ is_some (cause_at kernel.now program.now.slots slot) }
{
    let cause = cause_at(kernel, program.slots(), slot)?;
    Some(HarmfulCall {
        slot,
        cause,
        is_reached: reach.is_reached(slot),
        line: line_record_at(program, slot),
    })
}

/// The calls of a program that a kernel doesn't take, in the order of the slots, given the slots that
/// a run can reach.
#[tactic(auto, using(crate::proofs::Harmful::one_more, crate::proofs::Harmful::none_here))]
pub(crate) fn harmful_calls(
    alloc: Global,
    kernel: &SearchedKernel<'_, '_>,
    code: &PlanCode<'_>,
    reach: &ReachedSlots,
    program: &PlanProgram<'_>,
) -> Result<Vec<HarmfulCall>, AllocError>
    requires { AreReached (code_of code.now program.now) reach.now }
    ensures { IfOk result (λ calls.
        AreHarmfulCalls kernel.now code.now program.now (length program.now.slots) calls.items) }
{
    let mut calls = Vec::new(alloc);
    for slot in 0..program.slots().len() {
        if let Some(call) = harmful_call(kernel, code, reach, program, slot) {
            calls.push(call)?;
        }
    }
    Ok(calls)
}
