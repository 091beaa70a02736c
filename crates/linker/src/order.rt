//! The order of a program's copies, and where each begins.

ghost use Rattle.std.specs.Prelude.{◌≡◌, ◌≢◌, ◌<◌, ◌≤◌, ◌+◌, ◌^◌, ◌++◌, ◌∷◌, [], None, Some, take, length, vec_len, IfOk, IfErr, IfSome, IfNone, OnOk};
ghost use Rattle.std.proofs.Math.ListN.{get_or};
ghost use Rattle.object_parts.specs.Content.{function_at};
ghost use Rattle.relocation_errors.specs.declared.error.RelocationError.TheVariants.{OutOfMemory};
ghost use Rattle.linker.specs.Layout.{first_open};
ghost use Rattle.linker.specs.Unlinked.{refs_of};
ghost use Rattle.linker.specs.Faults.{HasLinkFault, HasTargetFault};
ghost use Rattle.linker.specs.Walks.{IsOpen, SetsStart, IsOrdered, has_start_in, open_in};

use crate::layout::{order_laws, place_laws, walk_laws};
use crate::records::check_records;
use crate::source::{Key, Source, slot_at, slot_count};
use object_parts::Function;
use relocation_errors::RelocationError;
use std::alloc::AllocError;
use std::collections::BTreeMap;

/// The maximum number of slots of a program.
pub(crate) const MOST_SLOTS: usize = 2147483647;

/// A reference at a slot to a function that has no copy yet.
#[derive(Clone, Copy)]
pub(crate) struct Open {
    key: Key,
    slot: usize,
}

/// A function whose references are followed from the slot `next` on.
#[derive(Clone, Copy)]
pub(crate) struct Frame {
    key: Key,
    next: usize,
}

/// The keys in the order of their copies, and the slot where each copy begins.
#[derive(Drop)]
pub(crate) struct CopyOrder {
    pub(crate) keys: Vec<Key>,
    pub(crate) starts: BTreeMap<Key, usize>,
}

/// The error that a program is too long.
fn too_long() -> RelocationError
    ensures { result ≡ RelocationError.InvalidRelocationOffset 0 0 }
{
    RelocationError::InvalidRelocationOffset {
        offset: 0,
        relocation_number: 0,
    }
}

/// Appends the copy of the function that a slot of another refers to. Its references are followed
/// next, and then those of the other after the slot.
fn append(
    keys: &mut Vec<Key>,
    starts: &mut BTreeMap<Key, usize>,
    path: &mut Vec<Frame>,
    caller: Key,
    found: Open,
    start: usize,
) -> Result<(), AllocError>
    requires { found.slot + 1 < 2 ^ 64 }
    ensures keys { OnOk result (keys.new.items ≡ keys.old.items ++ found.key ∷ []) }
    ensures starts { OnOk result (SetsStart starts.old starts.new found.key start) }
    ensures len { OnOk result (vec_len path.new ≡ vec_len path.old + 2) }
    ensures path { OnOk result
        (path.new.items
        ≡ (path.old.items ++ record { key = caller; next = found.slot + 1 } ∷ [])
        ++ record { key = found.key; next = 0 } ∷ []) }
{
    keys.push(found.key)?;
    starts.insert(found.key, start)?;
    path.push(Frame {
        key: caller,
        next: found.slot + 1,
    })?;
    path.push(Frame {
        key: found.key,
        next: 0,
    })?;
    Ok(())
}

impl<'s, 'o, 'f> Source<'s, 'o, 'f> {
    /// The function that a slot refers to, if it has no start yet.
    fn open_at(
        &self,
        function: &Function<'f>,
        index: usize,
        starts: &BTreeMap<Key, usize>,
    ) -> Result<Option<Key>, RelocationError>
        requires { index < length function.now.instructions }
        ensures found { IfOk result (λ key.
            key
            ≡ open_in (has_start_in starts.now)
            (get_or (refs_of self.now function.now) index None)) }
        ensures fault { IfErr result (λ e.
            e ≢ OutOfMemory → HasTargetFault self.now function.now e) }
    {
        let slot = slot_at(function, index);
        let Some(key) = self.reference(function, index, slot)? else {
            return Ok(None);
        };
        if starts.contains_key(&key) {
            return Ok(None);
        }
        Ok(Some(key))
    }

    /// The first reference, from the slot `from` on, to a function without a start.
    fn next_open(
        &self,
        function: &Function<'f>,
        from: usize,
        starts: &BTreeMap<Key, usize>,
    ) -> Result<Option<Open>, RelocationError>
        requires within { from ≤ length function.now.instructions }
        requires before { first_open (has_start_in starts.now)
            (take from (refs_of self.now function.now))
            ≡ None }
        ensures some { IfOk result (λ found.
            IfSome found (λ o.
            IsOpen (has_start_in starts.now) (refs_of self.now function.now) o)) }
        ensures small { IfOk result (λ found. IfSome found (λ o. o.slot + 1 < 2 ^ 64)) }
        ensures none { IfOk result (λ found.
            IfNone found
            (first_open (has_start_in starts.now) (refs_of self.now function.now) ≡ None)) }
        ensures fault { IfErr result (λ e.
            e ≢ OutOfMemory → HasTargetFault self.now function.now e) }
    {
        for slot in from..slot_count(function) {
            if let Some(key) = self.open_at(function, slot, starts)? {
                return Ok(Some(Open { key, slot }));
            }
        }
        Ok(None)
    }

    /// The copies of a program in order, by a depth-first walk over the references. `own` is the
    /// key of the program's own function.
    pub(crate) fn order_of(
        &self,
        own: Key,
        own_function: &Function<'f>,
    ) -> Result<CopyOrder, RelocationError>
        requires { function_at self.now.functions own ≡ Some own_function.now }
        ensures ordered { IfOk result (λ o. IsOrdered self.now own own_function.now o) }
        ensures fault { IfErr result (λ e. e ≢ OutOfMemory → HasLinkFault self.now own e) }
    {
        walk_laws();
        order_laws();
        place_laws();
        let mut keys = Vec::new(self.alloc);
        let mut starts = BTreeMap::new(self.alloc);
        let mut end = slot_count(own_function);
        if end > MOST_SLOTS {
            return Err(too_long());
        }
        let mut path = Vec::new(self.alloc);
        path.push(Frame { key: own, next: 0 })?;
        while let Some(frame) = path.pop() {
            let function = self.function(frame.key);
            if let Some(found) = self.next_open(function, frame.next, &starts)? {
                let callee = self.function(found.key);
                check_records(self.alloc, own_function, callee)?;
                let more = slot_count(callee);
                if more > MOST_SLOTS - end {
                    return Err(too_long());
                }
                append(&mut keys, &mut starts, &mut path, frame.key, found, end)?;
                end += more;
            }
        }
        Ok(CopyOrder { keys, starts })
    }
}
