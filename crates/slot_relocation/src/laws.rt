//! Laws of functions after the relocations inside them. The functions here compute nothing: their
//! contracts are the theorems.

ghost use Rattle.slot_relocation.specs.Laws.{NumbersAreWritten, SlotsCarryNumbers};
ghost use Rattle.slot_relocation.specs.WriteLaws.{LengthsRemain, OneWrites, UnwrittenStay, WritesAreKept};

use crate::outcome::Fault;
use elf64::RelocView;

/// A slot that no relocation writes stays as it was, by any rule.
pub fn unwritten_stay<A, E>()
    ensures { UnwrittenStay A E }
{}

/// A slot that exactly one relocation writes carries what that one writes, computed from the slots
/// after the relocations before it, by any rule.
pub fn one_writes<A, E>()
    ensures { OneWrites A E }
{}

/// A function keeps its number of slots, by any rule.
pub fn lengths_remain<A, E>()
    ensures { LengthsRemain A E }
{}

/// By any rule on the symbols, a relocation that the file holds and that writes applies to a slot
/// and has a symbol. After all relocations the slot carries what it writes, whatever the others
/// write.
pub fn writes_are_kept()
    ensures { WritesAreKept }
{}

/// After all relocations, a slot that a relocation by a map, or by a variable of a map, writes
/// carries the map's number, whatever the others write.
pub fn slots_carry_numbers()
    ensures { SlotsCarryNumbers }
{}

/// All these laws hold for the functions of an object relocated by maps.
#[tactic(auto, using(crate::proofs::Written::numbers_are_written))]
pub fn numbers_are_written()
    ensures { NumbersAreWritten }
{
    slots_carry_numbers();
    one_writes::<RelocView, Fault>();
    unwritten_stay::<RelocView, Fault>();
    lengths_remain::<RelocView, Fault>();
}
