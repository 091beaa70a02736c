//! Whether runs reach what type relocations leave in a plan.

ghost use Rattle.std.specs.Prelude.{◌≡◌, ◌||◌, map, IfOk, OnOk};
ghost use Rattle.std.specs.BTreeSet.{contains};
ghost use Rattle.std.specs.Option.{option_copied};
ghost use Rattle.kernel_reports.specs.Poison.{SlotPlace};
ghost use Rattle.kernel_reports.specs.Reaches.{has_poison, has_reached, is_reached_in, no_reaches, place_cmp, reach_among, reach_of, reaches_of};

use crate::poison::{Poison, SlotPlace, poison_of};
use crate::relocations::RelocationAt;
use ebpf_object::Object;
use load_plan::Plan;
use report_checks::PlanReport;
use std::alloc::{AllocError, Global};
use std::collections::BTreeSet;

/// Whether a run can reach a place.
#[derive(Clone, Copy, Debug, PartialEq, Eq)]
pub enum Reach {
    /// A run of some program can reach it.
    Reached,
    /// It stands in some program, and no run reaches it.
    CutOff,
}

/// The slots with poison.
fn slots_with_poison(alloc: Global, poison: &[Poison]) -> Result<BTreeSet<SlotPlace>, AllocError>
    ensures { IfOk result (λ slots.
        (place : SlotPlace) → contains place_cmp slots place ≡ has_poison poison.now place) }
{
    let mut slots = BTreeSet::new(alloc);
    for (place, _) in poison {
        slots.insert(*place)?;
    }
    Ok(slots)
}

/// Adds the slot of poison, if a run can reach the poison.
fn add_reached(slots: &mut BTreeSet<SlotPlace>, poison: Poison) -> Result<(), AllocError>
    ensures { OnOk result
        ((place : SlotPlace)
        → contains place_cmp slots.new place
        ≡ (contains place_cmp slots.old place || is_reached_in place poison)) }
{
    let (place, is_reached) = poison;
    if is_reached {
        slots.insert(place)?;
    }
    Ok(())
}

/// The slots with poison that a run can reach.
fn reached_slots(alloc: Global, poison: &[Poison]) -> Result<BTreeSet<SlotPlace>, AllocError>
    ensures { IfOk result (λ slots.
        (place : SlotPlace) → contains place_cmp slots place ≡ has_reached poison.now place) }
{
    let mut slots = BTreeSet::new(alloc);
    for found in poison {
        add_reached(&mut slots, *found)?;
    }
    Ok(slots)
}

/// Whether a run can reach the poison in the instruction of a relocation, given the slots with
/// poison, and those of them whose poison a run can reach.
fn reach_among(
    slots: &BTreeSet<SlotPlace>,
    reached: &BTreeSet<SlotPlace>,
    at: &RelocationAt,
) -> Option<Reach>
    ensures { result
        ≡ reach_among (contains place_cmp slots.now) (contains place_cmp reached.now) at.now }
{
    let place = at.place?;
    let slot = (place.key, place.index);
    if reached.contains(&slot) {
        return Some(Reach::Reached);
    }
    if slots.contains(&slot) {
        return Some(Reach::CutOff);
    }
    None
}

/// Whether a run can reach the poison in the instruction of each relocation.
fn reaches_at(
    alloc: Global,
    poison: &[Poison],
    relocations: &[RelocationAt],
) -> Result<Vec<Option<Reach>>, AllocError>
    ensures { IfOk result (λ reaches. reaches.items ≡ map (reach_of poison.now) relocations.now) }
{
    let slots = slots_with_poison(alloc, poison)?;
    let reached = reached_slots(alloc, poison)?;
    let mut reaches = Vec::new(alloc);
    for at in relocations {
        reaches.push(reach_among(&slots, &reached, at))?;
    }
    Ok(reaches)
}

/// Whether a run can reach the poison in the instruction of each relocation, by the programs of a
/// plan and what a kernel makes of them. None where no program has poison there, and where nothing
/// is known of the kernel. The programs are searched only where there are relocations.
pub(crate) fn reaches_in(
    alloc: Global,
    object: &Object<'_>,
    plan: &Plan<'_>,
    report: Option<&PlanReport>,
    relocations: &[RelocationAt],
) -> Result<Vec<Option<Reach>>, AllocError>
    ensures { IfOk result (λ reaches.
        reaches.items
        ≡ reaches_of object.now plan.now (option_copied report.entry) relocations.now) }
{
    let Some(report) = report else {
        return no_reaches(alloc, relocations);
    };
    if relocations.is_empty() {
        return Ok(Vec::new(alloc));
    }
    let poison = poison_of(alloc, object, plan, report)?;
    reaches_at(alloc, &poison, relocations)
}

/// No relocation has a reach.
pub(crate) fn no_reaches(
    alloc: Global,
    relocations: &[RelocationAt],
) -> Result<Vec<Option<Reach>>, AllocError>
    ensures { IfOk result (λ reaches. reaches.items ≡ no_reaches relocations.now) }
{
    vec![in alloc; None; relocations.len()]
}
