//! The code of a plan, ready to be printed.

use std::collections::BTreeMap;

/// An instruction in a listing.
#[derive(Debug, PartialEq, Eq, Drop)]
pub(crate) struct CodeRow {
    /// The index of its first slot.
    pub(crate) slot: usize,
    pub(crate) text: String,
    pub(crate) note: String,
}

/// The code of a program.
#[derive(Debug)]
pub struct ProgramCode {
    pub(crate) heading: String,
    /// The number of its slots.
    pub(crate) slot_count: usize,
    /// The lines on functions and source lines, by the slot that they stand before.
    pub(crate) marks: BTreeMap<usize, String>,
    pub(crate) rows: Vec<CodeRow>,
}

impl Drop for ProgramCode {
    // One call wherever it is dropped, in place of one for each part.
    fn drop(self) {
        let ProgramCode {
            heading: _heading,
            slot_count: _,
            marks: _marks,
            rows: _rows,
        } = self;
    }
}

/// The code of the programs of a plan, or why there is no plan.
#[derive(Debug, Drop)]
pub struct CodeColumn<'f> {
    /// The file of the kernel that the plan is for.
    pub file: &'f str,
    pub programs: Vec<ProgramCode>,
    /// The message where the object gets no plan.
    pub refusal: Option<String>,
}
