//! The lengths of a plan's programs.

ghost use Rattle.plan_laws.specs.Lengths.{PlanProgramsAreShort};

use linker::{lengths_add, programs_are_short};

/// Each program of a plan has the slots of its own function and, once, of each other function in
/// its layout: at most as many as its own function and all functions of the object together.
pub fn plan_programs_are_short()
    ensures { PlanProgramsAreShort }
{
    lengths_add();
    programs_are_short();
}
