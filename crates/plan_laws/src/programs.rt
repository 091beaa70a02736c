//! A description of each program of a plan.

ghost use Rattle.plan_laws.specs.Programs.{PlanProgramsAreDescribed};

/// Each program of a plan has the kind of a program of the object, and the slots of one layout of
/// the object's functions after their relocations. On each list of decisions these slots are
/// visited as the functions are, run with a stack of calls. Its function records are those of the
/// copies; there are none where functions are denied. They name, in the plan's own bytes, the
/// functions that they name in the object's types. What the records in these bytes need is granted.
pub fn plan_programs_are_described()
    ensures { PlanProgramsAreDescribed }
{}
