//! Load plans as code: for each program its functions, its source lines and its instructions, with
//! notes on what the instructions refer to.
//!
//! A plan alone suffices for a listing. The kernel's types add the names of helpers and of the
//! kernel's functions, the object adds what its type relocations ask for.
#![tactic(auto)]

mod column;
mod listed;
mod listing;
mod maps;
mod notes;
mod object_notes;
mod plan_names;
mod printable;
mod program;
mod sources;

pub use column::{CodeColumn, ProgramCode};
pub use listed::{ListedInstruction, listed_instructions};
pub use listing::code_text;
pub use maps::plan_head;
pub use object_notes::{AskedAt, ObjectCode, ProgramNotes, program_notes};
pub use plan_copies::ObjectFunctions;
pub use plan_names::PlanNames;
pub use program::program_code;
pub use report_needs::SearchedKernel;
