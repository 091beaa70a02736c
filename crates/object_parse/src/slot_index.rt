//! Records by their first slots.

ghost use Rattle.std.specs.Prelude.{◌≡◌, ℕ, List, filter, map, IfOk, OnOk};
ghost use Rattle.std.specs.List.Sorted.{IsNonDecreasingBy};
ghost use Rattle.object_parse.specs.Kept.{is_within};
ghost use Rattle.object_parse.specs.SlotIndexes.{AreBySlot, indexes_within, numbered};

use std::alloc::{AllocError, Global};

/// A record's first slot, and the record's index.
#[derive(Clone, Copy, Debug)]
pub(crate) struct IndexedSlot {
    pub(crate) slot: u32,
    pub(crate) index: u32,
}

impl IndexedSlot {
    /// The slot of the record with an index.
    pub(crate) fn new(slot: u32, index: u32) -> IndexedSlot
        ensures { result ≡ record { slot = slot; index = index } }
    {
        IndexedSlot { slot, index }
    }
}

/// Sorts records by slot.
pub(crate) fn order_by_slot(places: &mut Vec<IndexedSlot>) -> Result<(), AllocError>
    ensures { OnOk result
        ((slots : List ℕ)
        → places.old.items ≡ numbered 0 slots
        → AreBySlot slots places.new.items) }
{
    places.sort_by_key(|place| place.slot)?;
    Ok(())
}

/// The records of the `count` slots from `from` on.
fn stretch(places: &[IndexedSlot], from: u64, count: u64) -> &[IndexedSlot]
    requires { IsNonDecreasingBy (λ (p : IndexedSlot). p.slot) places.now }
    ensures { result.now ≡ filter (λ p. is_within from count p.slot) places.now }
{
    let begin = places.partition_point(|place| (place.slot as u64) < from);
    let (_before, rest) = places.split_at(begin);
    let len = rest.partition_point(|place| (place.slot as u64).saturating_sub(from) < count);
    let (stretch, _after) = rest.split_at(len);
    stretch
}

/// The indexes of records.
fn indexes_of(alloc: Global, places: &[IndexedSlot]) -> Result<Vec<u32>, AllocError>
    ensures { IfOk result (λ indexes. indexes.items ≡ map (λ p. p.index) places.now) }
{
    let mut indexes = Vec::with_capacity(alloc, places.len())?;
    for place in places {
        indexes.push(place.index)?;
    }
    Ok(indexes)
}

/// The indexes of the records of the `count` slots from `from` on, in ascending order.
pub(crate) fn indexes_within(
    alloc: Global,
    places: &[IndexedSlot],
    from: u64,
    count: u64,
) -> Result<Vec<u32>, AllocError>
    requires { IsNonDecreasingBy (λ (p : IndexedSlot). p.slot) places.now }
    ensures { IfOk result (λ indexes.
        (slots : List ℕ)
        → AreBySlot slots places.now
        → indexes.items ≡ indexes_within from count slots) }
{
    let mut indexes = indexes_of(alloc, stretch(places, from, count))?;
    indexes.sort()?;
    Ok(indexes)
}
