//! The slots of a linked program that a run can reach.
#![tactic(auto)]

ghost use Rattle.plan_registers.specs.Visits.{VisitsReached};

mod calls;
mod flow;
mod reached;
mod work;

pub use plan_values::{FrozenMap, ProgramCode, Verifier};
pub use reached::{ReachedSlots, reach};

/// A run of a program, whatever helpers and memory answer, visits only slots that are reached.
pub fn visits_reached()
    ensures { VisitsReached }
{}
