//! Laws of functions after the relocations by externs inside them.

ghost use Rattle.slot_relocation.specs.ExternLaws.{ExternsAreWritten};

use crate::laws::{lengths_remain, one_writes, unwritten_stay, writes_are_kept};
use crate::outcome::Fault;
use elf64::RelocView;

/// After all relocations, a slot that a relocation by an extern writes carries what is known about
/// that extern, whatever the others write; a slot that none writes stays as it was; a function
/// keeps its number of slots. The function computes nothing: its contract is the theorem.
#[tactic(auto, using(crate::proofs::ExternsWritten::externs_are_written))]
pub fn externs_are_written()
    ensures { ExternsAreWritten }
{
    writes_are_kept();
    one_writes::<RelocView, Fault>();
    unwritten_stay::<RelocView, Fault>();
    lengths_remain::<RelocView, Fault>();
}
