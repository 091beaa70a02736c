//! Reading a plan back from its text.

use crate::error::ExampleError;
use load_plan::Plan;

/// Prints the maps and programs of a plan.
fn list_contents(rt: &HostRuntime, plan: &Plan<'_>) -> Result<(), ExampleError> {
    for map in plan.maps() {
        println!(rt; "planned map {} under number {}", map.name(), map.number())?;
    }
    for program in plan.programs() {
        println!(rt;
            "planned program {}: {} instructions",
            program.name(),
            program.slots().len()
        )?;
    }
    Ok(())
}

/// Reads a plan from its text, and prints it.
pub(crate) fn list_plan(rt: &HostRuntime, text: &[u8]) -> Result<(), ExampleError> {
    let plan = Plan::read(rt.alloc(), text)?;
    list_contents(rt, &plan)
}
