//! A note on an object.

use std::fmt;

/// What a person may not expect of an object or of its plan. It isn't a fault.
#[derive(Debug, Drop)]
pub enum Note<'a> {
    /// The file isn't an eBPF file, whose `e_machine` is 247.
    OtherMachine {
        machine: u16,
    },
    /// The file's numbers are big-endian.
    BigEndian,
    /// No section is called `license`.
    NoLicense,
    /// A section that defines maps has relocations.
    FirstValues {
        section: &'a str,
    },
    /// A section of variables has relocations.
    Pointers {
        section: &'a str,
    },
    /// Two maps have the same number.
    SharedNumber {
        number: u32,
        first: &'a str,
        second: &'a str,
    },
}

impl<'a> fmt::Display for Note<'a> {
    fn fmt<W: fmt::Write>(&self, f: &mut fmt::Formatter<W>) -> fmt::Result {
        match self {
            Note::OtherMachine { machine } => {
                write!(f, "the file is for machine {machine}, eBPF is 247")
            }
            Note::BigEndian => write!(
                f,
                "the file is big-endian, but its slots and the words that define maps are read as little-endian: no kernel takes them so"
            ),
            Note::NoLicense => write!(f, "no section is called license: the license counts as GPL"),
            Note::FirstValues { section } => {
                write!(
                    f,
                    "the first values of maps of section {section:?} aren't in a plan"
                )
            }
            Note::Pointers { section } => write!(
                f,
                "the pointers in section {section:?} aren't in a plan: their bytes stay as the file has them"
            ),
            Note::SharedNumber {
                number,
                first,
                second,
            } => write!(
                f,
                "the maps {first:?} and {second:?} have one number: {number}"
            ),
        }
    }
}
