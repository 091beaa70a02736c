//! The answers to texts of plans.

use crate::error::ExerciseError;
use crate::plan_texts::is_written_as;
use load_plan::{Plan, PlanReadError};

/// Prints whether the text of a file is a plan's whose written text is the same, or the line at
/// which it is refused.
pub(crate) fn print_answer(rt: &HostRuntime, name: &str, text: &[u8]) -> Result<(), ExerciseError> {
    match Plan::read(rt.alloc(), text) {
        Ok(plan) => {
            let is_alike = is_written_as(rt.alloc(), &plan, text);
            println!(rt;
                "{name}: read{}",
                if is_alike { ", and written alike" } else { "" }
            )?;
        }
        Err(PlanReadError::Line(line)) => println!(rt; "{name}: refused at line {line}")?,
        Err(PlanReadError::OutOfMemory) => return Err(ExerciseError::OutOfMemory),
    }
    Ok(())
}
