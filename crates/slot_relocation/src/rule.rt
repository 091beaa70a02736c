//! Rules of relocations, and the relocation of one function.

ghost use Rattle.std.specs.Prelude.{◌≡◌, ◌/◌, false, true, IfOk, IfErr, OnOk};
ghost use Rattle.std.specs.Prelude.{Bool, List, ℕ};
ghost use Rattle.object_parts.specs.Content.{FunctionContent};
ghost use Rattle.slot_relocation.specs.declared.driver.FaultAt.{FaultAt};
ghost use Rattle.slot_relocation.specs.Walks.{FitsIn, IsRefusal, IsRefusalOf, is_refused, is_sound};
ghost use Rattle.slot_relocation.specs.Writes.{RuleOf, after_all, after_one, outcome_at};

use crate::driver::FaultAt;
use crate::outcome::Outcome;
use ebpf_items::Slots;
use object_parts::Function;
use std::alloc::AllocError;
use std::collections::btree_map::Range;

/// Why a function isn't relocated.
#[derive(Clone, Copy, Debug)]
pub enum Refusal<E> {
    /// The relocation at this offset of the function's section has a fault.
    Fault { offset: u64, fault: E },
    /// Memory ran out.
    OutOfMemory,
}

impl<E> From<AllocError> for Refusal<E> {
    ghost use Rattle.slot_relocation.specs.declared.rule.Refusal.TheVariants.{OutOfMemory};

    ghost from_gives = { λ _ r. r ≡ OutOfMemory };

    fn from(_error: AllocError) -> Refusal<E> {
        Refusal::OutOfMemory
    }
}

/// What relocations do. `A` is a relocation's record, `E` the reason of a refusal.
pub trait Rule<A, E> {
    /// The rule's definition.
    ghost rule: { Self → RuleOf A E };

    /// What a relocation does to the current slots, `distance` bytes from their beginning.
    fn outcome(&self, slots: &Slots<'_>, distance: u64, relocation: &A) -> Outcome<E>
        ensures value { result ≡ rule self.now slots.now distance relocation.now }
        ensures within { FitsIn slots.now (distance / 8) result };
}

/// The relocations of functions, made by a rule.
pub trait Pass<A, E>: Rule<A, E> {
    /// Whether the first fault comes before the second in the pass's order.
    ghost before: { Self → FaultAt E → FaultAt E → Bool };

    /// The relocations inside a function, with their offsets in its section, in the order in which
    /// they are made.
    ghost inside: { Self → FunctionContent → List (ℕ × A) };

    /// Whether `one` comes before `other` in the pass's order.
    fn is_before(&self, one: &FaultAt<'_, E>, other: &FaultAt<'_, E>) -> bool
        ensures { result ≡ before self.now one.now other.now };

    /// The slots of a function after the relocations inside it. Slots to which nothing is written
    /// stay in the file.
    fn slots_after<'f>(&self, function: &Function<'f>) -> Result<Slots<'f>, Refusal<E>>
        ensures value { IfOk result (λ s.
            s ≡ after_all (Self.rule self.now) function.now (inside self.now function.now)) }
        ensures sound { OnOk result
            (is_sound (Self.rule self.now) (inside self.now function.now) function.now ≡ true) }
        ensures refused { IfErr result
            (IsRefusal (Self.rule self.now) (inside self.now function.now) function.now) };
}

/// Makes the relocation at an offset inside a function, in the function's current slots.
pub(crate) fn relocate_at<A, E: Copy, R: Rule<A, E>>(
    rule: &R,
    function: &Function<'_>,
    slots: &mut Slots<'_>,
    offset: u64,
    relocation: &A,
) -> Result<(), Refusal<E>>
    ensures ok { OnOk result
        (slots.new ≡ after_one (R.rule rule.now) function.now slots.old (offset, relocation.now)) }
    ensures sound { OnOk result
        (is_refused (outcome_at (R.rule rule.now) function.now slots.old (offset, relocation.now))
        ≡ false) }
    ensures refused { IfErr result
        (IsRefusalOf offset
        (outcome_at (R.rule rule.now) function.now slots.old (offset, relocation.now))) }
{
    let distance = offset.saturating_sub(function.section_offset as u64);
    match rule.outcome(slots, distance, relocation) {
        Outcome::Skipped => Ok(()),
        Outcome::Written(write) => {
            write.apply(slots, distance)?;
            Ok(())
        }
        Outcome::Refused(fault) => Err(Refusal::Fault { offset, fault }),
    }
}

/// The slots of a function after some relocations inside it, given by their offsets in its section.
pub fn relocate_each<'f, A, E: Copy, R: Rule<A, E>>(
    rule: &R,
    function: &Function<'f>,
    relocations: Range<'_, u64, A>,
) -> Result<Slots<'f>, Refusal<E>>
    ensures value { IfOk result (λ s.
        s ≡ after_all (R.rule rule.now) function.now relocations.entry) }
    ensures sound { OnOk result (is_sound (R.rule rule.now) relocations.entry function.now ≡ true) }
    ensures refused { IfErr result (IsRefusal (R.rule rule.now) relocations.entry function.now) }
{
    let mut slots = function.instructions.try_clone()?;
    for (offset, relocation) in relocations {
        relocate_at(rule, function, &mut slots, *offset, relocation)?;
    }
    Ok(slots)
}
