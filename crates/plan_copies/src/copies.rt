//! Functions and their copies.

ghost use Rattle.std.specs.Prelude.{◌≡◌};
ghost use Rattle.plan_copies.specs.Slots.{slot_after};

use object_file::ObjectFile;
use object_parts::Functions;
use std::collections::BTreeSet;

/// The key of a function: the index of its section, and its address.
pub type FunctionKey = (usize, u64);

/// The functions of an object.
#[derive(Clone, Copy)]
pub struct ObjectFunctions<'c, 'o> {
    pub file: &'c ObjectFile<'o>,
    /// The functions as they are parsed.
    pub functions: &'c Functions<'o>,
    /// The indexes of the sections with functions.
    pub text_sections: &'c BTreeSet<usize>,
}

/// The copy of a function in a program.
#[derive(Clone, Copy, Debug, PartialEq, Eq)]
pub struct FunctionCopy {
    /// The key of the function.
    pub key: FunctionKey,
    /// The index of the slot at which the copy begins.
    pub start: usize,
    /// The number of its slots.
    pub len: usize,
}

/// The slot that a reference leads to: `slot` plus 1 plus the distance, if that is an index.
pub fn slot_after(slot: usize, distance: i32) -> Option<usize>
    ensures { result ≡ slot_after slot distance }
{
    usize::try_from(slot as i128 + 1 + distance as i128).ok()
}
