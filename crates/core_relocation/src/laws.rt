//! Laws of type relocations. The functions here compute nothing: their contracts are the theorems.

ghost use Rattle.core_relocation.specs.Laws.{RelocationsRest, TypesAreWritten};
ghost use Rattle.core_relocation.specs.Reach.{ReachIsLeast};

use crate::placed_relocation::PlacedRelocation;
use core_patch::WriteError;
use core_resolve::outcomes_rest;
use slot_relocation::{lengths_remain, one_writes, unwritten_stay};

/// After all relocations, a slot that exactly one relocation writes has what that one writes; a
/// slot that none writes stays as it was; a function keeps its number of slots.
#[tactic(auto, using(crate::proofs::Written::types_are_written))]
pub fn types_are_written()
    ensures { TypesAreWritten }
{
    one_writes::<PlacedRelocation, WriteError>();
    unwritten_stay::<PlacedRelocation, WriteError>();
    lengths_remain::<PlacedRelocation, WriteError>();
}

/// The outcomes, the writes and the refusals of type relocations depend on few of the object's own
/// types: on the records that are reached from the relocations' types, on the texts there, on the
/// access strings and on the names of the section infos' sections.
pub fn relocations_rest()
    ensures { RelocationsRest }
{
    outcomes_rest();
}

/// The reach of type relocations is the least set of ids that has their types and, with each id,
/// the ids that its record holds.
pub fn reach_is_least()
    ensures { ReachIsLeast }
{}
