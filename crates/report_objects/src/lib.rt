//! Answers on objects and kernels: causes, warnings, a line for each, and how many there are of each
//! kind.
#![tactic(auto)]

mod causes;
mod check;
mod counts;
mod object_report;
mod texts;

pub use causes::{
    CauseText, ReportedProgram, answer_lines, cause_texts, ok_text, program_cause_texts,
    reported_programs, source_of_call, unknown_count, warning_texts,
};
pub use check::check_text;
pub use counts::Counts;
pub use object_report::{ObjectReport, make_optional, program_names};
pub use texts::answers_text;
