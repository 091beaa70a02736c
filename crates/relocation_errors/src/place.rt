//! Places of faults of type relocations.

use std::fmt;

/// What a fault of type relocations belongs to: a section info or a relocation.
#[derive(Debug, Drop)]
pub enum RelocationPlace {
    /// A section info as a whole.
    SectionInfo,
    /// A relocation of the section info.
    Relocation {
        /// The name of the function that holds the instruction, if there is one.
        function: Option<String>,
        /// The index of the instruction, in slots from the function's beginning, or from the
        /// section's beginning where no function holds it.
        instruction: u64,
        /// What the relocation asks for, as text.
        asked: String,
    },
}

impl fmt::Display for RelocationPlace {
    fn fmt<W: fmt::Write>(&self, f: &mut fmt::Formatter<W>) -> fmt::Result {
        match self {
            RelocationPlace::SectionInfo => Ok(()),
            RelocationPlace::Relocation {
                function: Some(function),
                instruction,
                asked,
            } => write!(
                f,
                ", function {function:?}, instruction {instruction}, {asked}"
            ),
            RelocationPlace::Relocation {
                function: None,
                instruction,
                asked,
            } => write!(f, ", instruction {instruction}, {asked}"),
        }
    }
}
