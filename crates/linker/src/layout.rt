//! The layout of a program with the functions that are linked to it, and its laws.
//!
//! A kernel takes a program as one list of slots: copies of the functions that it calls come after
//! its own function. The definitions say which copies these are, where each begins and what becomes
//! of the slots. Two machines say which slots are visited: one runs functions that call each other
//! with a stack, the other runs the list of slots. The functions here compute nothing: their
//! contracts are the theorems.

ghost use Rattle.linker.specs.Copies.{SlotsAreCopied};
ghost use Rattle.linker.specs.Renamed.{RenamedVisitsSame};
ghost use Rattle.linker.specs.Theorems.{CopiesAreFew, LayoutIsUnique, LengthsAdd, LinkedVisitsSame, ReachedAreAppended};
ghost use Rattle.linker.specs.Walking.{WalkLaws, OrderLaws, PlaceLaws};

/// A program has at most one layout.
pub fn layout_is_unique()
    ensures { LayoutIsUnique }
{}

/// The copies that a layout appends are those of the functions that chains of references reach from
/// the program's own function, each once.
pub fn reached_are_appended()
    ensures { ReachedAreAppended }
{}

/// For every list of decisions about branches on which the functions, run with a stack of calls,
/// don't end outside, the linked slots are visited in the same order and with the same end.
pub fn linked_visits_same()
    ensures { LinkedVisitsSame }
{}

/// A linked program in which older helpers then replace newer ones has the slots of its layout for
/// functions in which older helpers replace newer ones in the slots that refer to no function. For
/// every list of decisions about branches on which these functions, run with a stack of calls,
/// don't end outside, its slots are visited in the same order and with the same end.
pub fn renamed_visits_same()
    ensures { RenamedVisitsSame }
{}

/// A program's own function has at most two copies, and each other function at most one.
pub fn copies_are_few()
    ensures { CopiesAreFew }
{}

/// A program is as long as its own function and the functions of its appended copies together.
pub fn lengths_add()
    ensures { LengthsAdd }
{}

/// A depth-first walk over the references appends copies in the order of the layout.
pub fn walk_laws()
    ensures { WalkLaws }
{}

/// An order of copies is a prefix of the layout.
pub fn order_laws()
    ensures { OrderLaws }
{}

/// Copies stand one after the other.
pub fn place_laws()
    ensures { PlaceLaws }
{}

/// Each slot of a function that is copied to a program is in the copy, unchanged where it refers to
/// no function.
pub fn slots_are_copied()
    ensures { SlotsAreCopied }
{}
