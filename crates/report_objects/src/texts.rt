//! The answers as lines.

use crate::check::push_answers;
use crate::counts::Counts;
use crate::object_report::ObjectReport;
use std::alloc::{AllocError, Global};

/// The answers on several objects and kernels: for each object and answer a line, or a line for each
/// cause, with the names of the kernels that have the answer; only those of kernels that don't take
/// an object where failures alone are wanted. The last line has the counts.
///
/// # Errors
///
/// `AllocError` where memory runs out.
pub fn answers_text(
    alloc: Global,
    reports: &[ObjectReport<'_, '_, '_>],
    counts: Counts,
    only_failures: bool,
) -> Result<String, AllocError> {
    let mut text = String::new(alloc);
    for report in reports {
        let file = Some(report.file.as_str());
        push_answers(
            alloc,
            &mut text,
            file,
            &report.rows,
            &report.columns,
            only_failures,
        )?;
    }
    writeln!(text, "{counts}")?;
    Ok(text)
}
