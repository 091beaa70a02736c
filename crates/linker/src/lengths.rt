//! The lengths of linked programs.

ghost use Rattle.linker.specs.Lengths.{ProgramsAreShort};

use crate::layout::lengths_add;

/// A linked program has at most as many slots as its own function and all functions of the object
/// together.
pub fn programs_are_short()
    ensures { ProgramsAreShort }
{
    lengths_add();
}
