//! The instruction slots of a function.

ghost use Rattle.std.specs.Prelude.{◌≡◌, ◌≢◌, ◌+◌, ◌*◌, ◌/◌, ◌%◌, ◌≤◌, ◌<◌, [], ◌++◌, Some, None, length, take, drop, map, slice_get, slice_set, OnOk, OnErr, IfOk, IfErr, SomeIff};
ghost use Rattle.std.specs.Iterator.{YieldsFirst, item_count};
ghost use Rattle.ebpf_items.specs.Instruction.{slot_of, slots_of, with_older_helper};
ghost use Rattle.ebpf_items.specs.Slots.{file_slots};
ghost use Rattle.ebpf_items.specs.declared.error.ParseError.TheVariants.{InvalidProgramCode, OutOfMemory};

use crate::error::ParseError;
use crate::instruction::bpf_insn;
use std::alloc::{AllocError, Global};
use std::marker::Model;

/// The size of a slot in bytes.
const SLOT_SIZE: usize = 8;

/// Slots in the file's bytes. If `is_renamed` is set, they are read with older helpers in place of
/// newer ones.
#[derive(Clone, Copy, Debug)]
struct FileSlots<'a> {
    bytes: &'a [u8],
    is_renamed: bool,
}

impl<'a> FileSlots<'a> {
    fn len(&self) -> usize
        ensures { result ≡ length (file_slots self.now) }
    {
        self.bytes.len() / SLOT_SIZE
    }

    fn get(&self, index: usize) -> Option<bpf_insn>
        ensures { result ≡ slice_get (file_slots self.now) index }
    {
        if self.len() <= index {
            return None;
        }
        let slot = slot_at(self.bytes, SLOT_SIZE * index);
        if self.is_renamed {
            Some(slot.with_older_helper())
        } else {
            Some(slot)
        }
    }

    fn iter(&self) -> SlotIter<'_>
        ensures { result ≡ file_slots self.now }
    {
        SlotIter {
            rest: Rest::File(*self),
        }
    }

    /// Appends the slots to a list, with older helpers if they are renamed.
    fn append_to(&self, list: &mut Vec<bpf_insn>) -> Result<(), AllocError>
        ensures ok { OnOk result (list.new.items ≡ list.old.items ++ file_slots self.now) }
        ensures err { OnErr result (list.new.items ≡ list.old.items) }
    {
        let len = list.len();
        for slot in self.iter() {
            if list.push(slot).is_err() {
                list.truncate(len);
                return Err(AllocError);
            }
        }
        Ok(())
    }

    fn to_list(&self, alloc: Global) -> Result<Vec<bpf_insn>, AllocError>
        ensures { IfOk result (λ list. list.items ≡ file_slots self.now) }
    {
        let mut list = Vec::new(alloc);
        self.append_to(&mut list)?;
        Ok(list)
    }

    /// The slots after the first.
    fn after_first(self) -> FileSlots<'a>
        requires { 8 ≤ length self.bytes.now }
        ensures { file_slots result ≡ drop 1 (file_slots self.entry) }
    {
        FileSlots {
            bytes: &self.bytes[SLOT_SIZE..],
            is_renamed: self.is_renamed,
        }
    }
}

fn slot_at(bytes: &[u8], at: usize) -> bpf_insn
    requires { at + 8 ≤ length bytes.now }
    ensures { result ≡ slot_of (take 8 (drop at bytes.now)) }
{
    bpf_insn::read(&bytes[at..at + SLOT_SIZE])
}

#[derive(Debug, Drop)]
enum Body<'a> {
    File(FileSlots<'a>),
    Own(Vec<bpf_insn>),
}

/// The slots of a function: borrowed from the file's bytes until one is written, and from then on a
/// list of the function's own.
#[derive(Debug)]
pub struct Slots<'a> {
    alloc: Global,
    body: Body<'a>,
}

impl<'a> Drop for Slots<'a> {
    // A single call where a value is dropped, instead of one call per field.
    fn drop(self) {
        let Slots {
            alloc: _,
            body: _body,
        } = self;
    }
}

impl<'a> Model for Slots<'a> {
    ghost use Rattle.std.specs.Prelude.{List};
    ghost use Rattle.ebpf_items.specs.declared.instruction.bpf_insn.{bpf_insn};
    ghost use Rattle.ebpf_items.specs.Slots.{body_slots};

    ghost Value = { List bpf_insn };

    ghost view = { λ s. body_slots s.body };
}

impl<'a> Slots<'a> {
    /// The slots in a function's bytes, or `None` where these aren't whole slots. Allocates no
    /// memory until a slot is written.
    pub fn borrowed(alloc: Global, bytes: &'a [u8]) -> Option<Slots<'a>>
        ensures { SomeIff result (length bytes.now % 8 ≡ 0) (slots_of bytes.now) }
    {
        if bytes.len() % SLOT_SIZE != 0 {
            return None;
        }
        let file = FileSlots {
            bytes,
            is_renamed: false,
        };
        Some(Slots {
            alloc,
            body: Body::File(file),
        })
    }

    /// The slots of a list.
    pub fn owned(slots: Vec<bpf_insn>) -> Slots<'a>
        ensures { result ≡ slots.items }
    {
        Slots {
            alloc: *slots.allocator(),
            body: Body::Own(slots),
        }
    }

    /// Whether the slots are still borrowed from the file's bytes.
    pub fn is_borrowed(&self) -> bool {
        match &self.body {
            Body::File(_) => true,
            Body::Own(_) => false,
        }
    }

    /// The number of slots.
    pub fn len(&self) -> usize
        ensures { result ≡ length self.now }
    {
        match &self.body {
            Body::File(file) => file.len(),
            Body::Own(slots) => slots.len(),
        }
    }

    /// The slot at an index, from 0.
    pub fn get(&self, index: usize) -> Option<bpf_insn>
        ensures { result ≡ slice_get self.now index }
    {
        match &self.body {
            Body::File(file) => file.get(index),
            Body::Own(slots) => slots.get(index).copied(),
        }
    }

    /// The slots in order.
    pub fn iter(&self) -> SlotIter<'_>
        ensures { result ≡ self.now }
    {
        match &self.body {
            Body::File(file) => {
                return file.iter();
            }
            Body::Own(slots) => {
                return SlotIter {
                    rest: Rest::Own(slots.as_slice()),
                };
            }
        }
    }

    /// Writes a slot. Borrowed slots are copied to a list first.
    pub fn set(&mut self, index: usize, slot: bpf_insn) -> Result<(), AllocError>
        requires { index < length self.old }
        ensures ok { OnOk result (self.new ≡ slice_set self.old index slot) }
        ensures err { OnErr result (self.new ≡ self.old) }
    {
        match &mut self.body {
            Body::File(file) => {
                let mut list = file.to_list(self.alloc)?;
                list[index] = slot;
                self.body = Body::Own(list);
                Ok(())
            }
            Body::Own(slots) => {
                slots[index] = slot;
                Ok(())
            }
        }
    }

    /// Puts the older helper into each slot that calls a newer one. Allocates no memory: borrowed
    /// slots are renamed when they are read.
    pub fn rename_helpers(&mut self)
        ensures { self.new ≡ map with_older_helper self.old }
    {
        match &mut self.body {
            Body::File(file) => file.is_renamed = true,
            Body::Own(slots) => rename_all(slots),
        }
    }

    /// Appends the slots to a list.
    pub fn append_to(&self, list: &mut Vec<bpf_insn>) -> Result<(), AllocError>
        ensures ok { OnOk result (list.new.items ≡ list.old.items ++ self.now) }
        ensures err { OnErr result (list.new.items ≡ list.old.items) }
    {
        match &self.body {
            Body::File(file) => file.append_to(list),
            Body::Own(slots) => list.extend_from_slice(slots),
        }
    }

    /// A copy; borrowed slots stay borrowed.
    pub fn try_clone(&self) -> Result<Slots<'a>, AllocError>
        ensures { IfOk result (λ slots. slots ≡ self.now) }
    {
        let body = match &self.body {
            Body::File(file) => Body::File(*file),
            Body::Own(slots) => Body::Own(Vec::from_slice(self.alloc, slots)?),
        };
        Ok(Slots {
            alloc: self.alloc,
            body,
        })
    }
}

#[derive(Clone, Copy, Debug)]
enum Rest<'a> {
    File(FileSlots<'a>),
    Own(&'a [bpf_insn]),
}

/// The slots of a function, in order.
#[derive(Debug, Drop)]
pub struct SlotIter<'a> {
    rest: Rest<'a>,
}

impl<'a> Model for SlotIter<'a> {
    ghost use Rattle.std.specs.Prelude.{List};
    ghost use Rattle.ebpf_items.specs.declared.instruction.bpf_insn.{bpf_insn};
    ghost use Rattle.ebpf_items.specs.Slots.{rest_slots};

    ghost Value = { List bpf_insn };

    ghost view = { λ s. rest_slots s.rest };
}

impl<'a> Iterator for SlotIter<'a> {
    type Item = bpf_insn;

    ghost next_gives = { YieldsFirst (λ s. s) };

    ghost remaining = { item_count (λ s. s) };

    fn next(&mut self) -> Option<bpf_insn> {
        match self.rest {
            Rest::File(file) => {
                let slot = file.get(0)?;
                self.rest = Rest::File(file.after_first());
                Some(slot)
            }
            Rest::Own([]) => None,
            Rest::Own([slot, rest @ ..]) => {
                self.rest = Rest::Own(rest);
                Some(*slot)
            }
        }
    }
}

/// The slots in some bytes, or `InvalidProgramCode` where these aren't whole slots.
pub fn copy_instructions(alloc: Global, bytes: &[u8]) -> Result<Vec<bpf_insn>, ParseError>
    ensures value { IfOk result (λ slots.
        (length bytes.now % 8 ≡ 0) × (slots.items ≡ slots_of bytes.now)) }
    ensures refused { IfErr result (λ e.
        e ≢ OutOfMemory → (e ≡ InvalidProgramCode) × (length bytes.now % 8 ≢ 0)) }
{
    let Some(slots) = Slots::borrowed(alloc, bytes) else {
        return Err(ParseError::InvalidProgramCode);
    };
    let mut list = Vec::new(alloc);
    slots.append_to(&mut list)?;
    Ok(list)
}

fn rename_all(slots: &mut [bpf_insn])
    ensures { slots.new ≡ map with_older_helper slots.old }
{
    for slot in slots.iter_mut() {
        *slot = slot.with_older_helper();
    }
}
