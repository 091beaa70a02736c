//! A walk over the slots of a program.

ghost use Rattle.std.specs.Prelude.{◌≡◌, length, IfOk, OnOk};
ghost use Rattle.linker.specs.Linked.{unlinked};
ghost use Rattle.linker.specs.Unlinked.{key_at};
ghost use Rattle.plan_copies.specs.Copies.{AreCopies, copies_of, copies_until, copy_until, entered, has_slots, key_of_target, named, noted, referred, may_refer_to_function, visited, with_start};

use crate::copies::{FunctionCopy, FunctionKey, ObjectFunctions, slot_after};
use ebpf_items::{Slots, bpf_insn};
use linker::{Target, target_of};
use std::alloc::{AllocError, Global};
use std::collections::BTreeMap;
use std::marker::Model;

/// A walk over the slots of a program. A slot before each copy refers to it.
#[derive(Drop)]
struct CopyWalk {
    /// The functions whose copies begin at slots, as far as the slots tell that were visited.
    starts: BTreeMap<usize, FunctionKey>,
    /// The copies that have ended.
    copies: Vec<FunctionCopy>,
    /// The function of the current copy.
    key: FunctionKey,
    /// The slot at which the current copy begins.
    start: usize,
}

impl Model for CopyWalk {
    ghost use Rattle.plan_copies.specs.Copies.{Walk};

    ghost Value = { Walk };

    ghost view = { λ w.
        record {
          starts = w.starts.entries;
          copies = w.copies.items;
          key = w.key;
          start = w.start;
        } };
}

/// Whether a slot of a linked program may refer to a function of the program: a call, or a slot
/// with the source register of a load of a function's address.
fn may_refer_to_function(linked: bpf_insn) -> bool
    ensures { result ≡ may_refer_to_function linked }
{
    linked.is_pseudo_call() || linked.src_reg() == 4
}

/// The key of an address in a section, if the address is a number of 64 bits.
fn key_at(section_index: usize, address: i128) -> Option<FunctionKey>
    ensures { result ≡ key_at section_index address }
{
    let address = u64::try_from(address).ok()?;
    Some((section_index, address))
}

/// The key of the function that a target names.
fn key_of_target(target: Target) -> Option<FunctionKey>
    ensures { result ≡ key_of_target target }
{
    match target {
        Target::Nothing | Target::UnknownSymbol { .. } => None,
        Target::Function {
            section_index,
            address,
        } => key_at(section_index, address),
    }
}

/// The key of the function that a function's slot refers to.
fn named(object: ObjectFunctions<'_, '_>, key: FunctionKey, index: usize) -> Option<FunctionKey>
    ensures { result
        ≡ named
        (unlinked object.entry.file.now object.entry.text_sections.now.keys
        object.entry.functions.now) key index }
{
    let function = object.functions.get(key)?;
    let slot = function.instructions.get(index)?;
    key_of_target(target_of(object.file, object.text_sections, function, index, slot))
}

/// Whether a function has slots. One without slots has no copy.
fn has_slots(object: ObjectFunctions<'_, '_>, key: FunctionKey) -> bool
    ensures { result
        ≡ has_slots
        (unlinked object.entry.file.now object.entry.text_sections.now.keys
        object.entry.functions.now) key }
{
    match object.functions.get(key) {
        Some(function) => function.instructions.len() > 0,
        None => false,
    }
}

/// The key of the function with slots that a linked slot refers to, given the function that it is
/// the copy of, and its index there.
fn referred(
    object: ObjectFunctions<'_, '_>,
    key: FunctionKey,
    index: usize,
    linked: bpf_insn,
) -> Option<FunctionKey>
    ensures { result
        ≡ referred
        (unlinked object.entry.file.now object.entry.text_sections.now.keys
        object.entry.functions.now) key index linked }
{
    if !may_refer_to_function(linked) {
        return None;
    }
    let found = named(object, key, index)?;
    if has_slots(object, found) {
        Some(found)
    } else {
        None
    }
}

impl CopyWalk {
    /// The current copy, if it ends before a slot.
    fn copy_until(&self, slot: usize) -> FunctionCopy
        ensures { result ≡ copy_until self.now slot }
    {
        FunctionCopy {
            key: self.key,
            start: self.start,
            len: slot.saturating_sub(self.start),
        }
    }

    /// Ends the current copy and enters the one that begins at a slot, if one does.
    fn enter(&mut self, slot: usize) -> Result<(), AllocError>
        ensures { OnOk result (self.new ≡ entered self.old slot) }
    {
        if self.start >= slot {
            return Ok(());
        }
        let Some(key) = self.starts.get(&slot).copied() else {
            return Ok(());
        };
        let copy = self.copy_until(slot);
        self.copies.push(copy)?;
        self.key = key;
        self.start = slot;
        Ok(())
    }

    /// Notes that the copy of a function begins at a slot, if both are given.
    fn add_start(
        &mut self,
        start: Option<usize>,
        key: Option<FunctionKey>,
    ) -> Result<(), AllocError>
        ensures { OnOk result (self.new ≡ with_start self.old start key) }
    {
        let Some(start) = start else {
            return Ok(());
        };
        let Some(key) = key else {
            return Ok(());
        };
        self.starts.insert(start, key)?;
        Ok(())
    }

    /// Notes where the copy of the function begins that a slot refers to.
    fn note(
        &mut self,
        object: ObjectFunctions<'_, '_>,
        slot: usize,
        linked: bpf_insn,
    ) -> Result<(), AllocError>
        ensures { OnOk result
            (self.new
            ≡ noted
            (unlinked object.entry.file.now object.entry.text_sections.now.keys
            object.entry.functions.now) self.old slot linked) }
    {
        let index = slot.saturating_sub(self.start);
        let key = referred(object, self.key, index, linked);
        self.add_start(slot_after(slot, linked.imm), key)
    }

    /// Adds a slot to the copy that holds it.
    fn visit(
        &mut self,
        object: ObjectFunctions<'_, '_>,
        slot: usize,
        linked: bpf_insn,
    ) -> Result<(), AllocError>
        ensures { OnOk result
            (self.new
            ≡ visited
            (unlinked object.entry.file.now object.entry.text_sections.now.keys
            object.entry.functions.now) self.old slot linked) }
    {
        self.enter(slot)?;
        self.note(object, slot, linked)
    }

    /// All copies of a program with this many slots.
    fn finish(self, count: usize) -> Result<Vec<FunctionCopy>, AllocError>
        ensures { IfOk result (λ copies. copies.items ≡ copies_until self count) }
    {
        let last = self.copy_until(count);
        let mut copies = self.copies;
        if self.start < count {
            copies.push(last)?;
        }
        Ok(copies)
    }
}

/// All copies in a program's slots.
#[tactic(auto, unfolding(crate::specs::Copies::copies_of))]
fn walked(
    alloc: Global,
    object: ObjectFunctions<'_, '_>,
    own: FunctionKey,
    slots: &Slots<'_>,
) -> Result<Vec<FunctionCopy>, AllocError>
    ensures { IfOk result (λ copies.
        copies.items
        ≡ copies_of
        (unlinked object.entry.file.now object.entry.text_sections.now.keys
        object.entry.functions.now) own slots.now) }
{
    let mut walk = CopyWalk {
        starts: BTreeMap::new(alloc),
        copies: Vec::new(alloc),
        key: own,
        start: 0,
    };
    for slot in 0..slots.len() {
        if let Some(linked) = slots.get(slot) {
            walk.visit(object, slot, linked)?;
        }
    }
    walk.finish(slots.len())
}

/// The copies of functions in a program that was linked from an object's functions, in the order of
/// the slots, given the key of the program's own function. Each slot is in exactly one copy.
///
/// The object's functions are those of its file. The copies are those of the program's layout,
/// those of functions without slots aside, unless a relocation changes the immediate by which a
/// slot refers to a function, or makes a slot a call.
///
/// # Errors
///
/// `AllocError` where memory runs out.
pub fn copies_of(
    alloc: Global,
    object: ObjectFunctions<'_, '_>,
    own: FunctionKey,
    slots: &Slots<'_>,
) -> Result<Vec<FunctionCopy>, AllocError>
    ensures copies { IfOk result (λ copies.
        copies.items
        ≡ copies_of
        (unlinked object.entry.file.now object.entry.text_sections.now.keys
        object.entry.functions.now) own slots.now) }
    ensures cover { IfOk result (λ copies. AreCopies own (length slots.now) copies.items) }
{
    let copies = walked(alloc, object, own, slots)?;
    Ok(copies)
}
