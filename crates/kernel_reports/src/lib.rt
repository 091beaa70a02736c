//! The report about an object on a kernel: whether it gets a plan and whether the kernel takes it,
//! the results of its type relocations, and which of its externs the kernel has.
#![tactic(auto)]

mod answers;
mod grants;
mod kernel_types;
mod object_relocations;
mod planned;
mod poison;
mod presences;
mod program_names;
mod reach;
mod relocations;
mod report;
mod symbols;

pub use answers::{RelocationAnswer, relocation_answers};
pub use core_patch::{Patch, WriteError};
pub use core_resolve::TypeRelocationError;
pub use kernel_types::KernelTypes;
pub use load_plan::number_maps;
pub use object_relocations::relocations_in;
pub use planned::{KernelAnswer, PlanAnswer, Prepared, plan_answer, prepared_for};
pub use poison::SlotPlace;
pub use presences::presences_of;
pub use program_names::{section_names, target_names};
pub use reach::Reach;
pub use relocations::{RelocatedSlot, RelocationAt, relocations_of};
pub use report::{KernelReport, Reported, report_on};
pub use report_checks::{
    Attachment, CallCause, HarmfulCall, MISSING_FUNCTION, POISON, PlanReport, ProgramCause,
    ProgramReport, SourceLine, line_record_at, source_at, source_of,
};
pub use report_needs::{
    HelperNeed, KindNeed, Presence, ProgramNeeds, SearchedKernel, TargetNeed, kind_needs,
};
pub use report_types::RefusedType;
pub use slot_relocation::Outcome;
pub use symbols::assumed_symbols;
