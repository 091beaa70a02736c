//! What a kernel must have for a program or a map, and whether it has it, by the kernel's own types
//! (BTF).
#![tactic(auto)]

mod check_functions;
mod enums;
mod flags;
mod helpers;
mod kernel;
mod kinds;
mod members;
mod needs;
mod numbers;
mod records;
mod targets;

pub use enums::Presence;
pub use helpers::{calls_helper, helpers_of};
pub use kernel::SearchedKernel;
pub use kinds::{KindNeed, kind_needs};
pub use needs::{HelperNeed, ProgramNeeds, TargetNeed, program_needs};
pub use targets::{AttachTarget, attach_target, is_attached_by_name};
