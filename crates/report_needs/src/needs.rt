//! What a kernel must have for a program.

ghost use Rattle.std.specs.Prelude.{◌≡◌, IfOk, map};
ghost use Rattle.report_needs.specs.Enums.{func_ids};
ghost use Rattle.report_needs.specs.Needs.{AreHelperNeeds, AreNeeds, helper_need};

use crate::enums::Presence;
use crate::helpers::helpers_of;
use crate::kernel::SearchedKernel;
use ebpf_items::Slots;
use program_kinds::ProgramSection;
use std::alloc::{AllocError, Global};

/// Whether a kernel has what a program is attached to.
#[derive(Clone, Copy, Debug, PartialEq, Eq)]
pub enum TargetNeed {
    /// The program isn't attached by a name in its section.
    NotNamed,
    /// The id of the record in the kernel's types, a program's `attach_btf_id`.
    Found(u32),
    /// The kernel has no such record, and no module can have it.
    Missing,
    /// The kernel's types don't tell: the section names a record of a module, one that a module may
    /// have, or none.
    Unknown,
}

/// Whether a kernel has a helper.
#[derive(Clone, Copy, Debug, PartialEq, Eq)]
pub struct HelperNeed {
    /// The number that calls have, of `enum bpf_func_id`.
    pub number: i32,
    /// Whether that enum has the number.
    pub presence: Presence,
}

/// What a kernel must have for a program, and whether it has it.
#[derive(Debug, Drop)]
pub struct ProgramNeeds {
    /// What the program is attached to.
    pub target: TargetNeed,
    /// The program's type, of `enum bpf_prog_type`.
    pub prog_type: Presence,
    /// Its expected attach type, of `enum bpf_attach_type`, if it has one.
    pub attach_type: Option<Presence>,
    /// The flags with which it is loaded, if it has some.
    pub flags: Option<Presence>,
    /// The numbers of its calls of helpers, each once, in rising order. Those of poison and of
    /// missing functions are among them.
    pub helpers: Vec<HelperNeed>,
}

/// Whether the kernel has a helper.
#[tactic(auto, unfolding(crate::specs::Needs::helper_need))]
fn helper_need(kernel: &SearchedKernel<'_, '_>, number: i32) -> HelperNeed
    ensures { result ≡ helper_need kernel.now (func_ids kernel.now) number }
{
    HelperNeed {
        number,
        presence: kernel.helper(number),
    }
}

/// Whether the kernel has each of some helpers.
fn helper_needs(
    alloc: Global,
    kernel: &SearchedKernel<'_, '_>,
    numbers: &[i32],
) -> Result<Vec<HelperNeed>, AllocError>
    ensures { IfOk result (λ needs.
        needs.items ≡ map (helper_need kernel.now (func_ids kernel.now)) numbers.now) }
{
    let mut needs = Vec::new(alloc);
    for number in numbers {
        needs.push(helper_need(kernel, *number))?;
    }
    Ok(needs)
}

/// Whether the kernel has each of the helpers that slots call.
fn called_needs(
    alloc: Global,
    kernel: &SearchedKernel<'_, '_>,
    slots: &Slots<'_>,
) -> Result<Vec<HelperNeed>, AllocError>
    ensures { IfOk result (λ needs. AreHelperNeeds kernel.now slots.now needs.items) }
{
    let numbers = helpers_of(alloc, slots)?;
    let needs = helper_needs(alloc, kernel, numbers.as_slice())?;
    Ok(needs)
}

/// What a kernel must have for a program of a kind with these slots, and whether it has it: what
/// the program is attached to by the name of its section, its type, attach type and flags, and the
/// helpers that it calls. The kernel's types are searched again only for a target that isn't among the
/// names that they were searched for in advance.
///
/// # Errors
///
/// `AllocError` where memory runs out.
pub fn program_needs(
    alloc: Global,
    kernel: &SearchedKernel<'_, '_>,
    kind: &ProgramSection,
    section: &str,
    slots: &Slots<'_>,
) -> Result<ProgramNeeds, AllocError>
    ensures { IfOk result (AreNeeds kernel.now kind.now section.now slots.now) }
{
    let helpers = called_needs(alloc, kernel, slots)?;
    let target = kernel.target(alloc, kind, section)?;
    Ok(ProgramNeeds {
        target,
        prog_type: kernel.program_type(kind),
        attach_type: kernel.attach_type(kind),
        flags: kernel.flags(kind),
        helpers,
    })
}
