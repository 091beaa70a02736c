//! The object that programs are linked from.

ghost use Rattle.std.specs.Prelude.{◌≡◌, ◌≢◌, ◌<◌, true, Some, None, length, slice_get, IfOk, IfErr, OnOk};
ghost use Rattle.object_parts.specs.Content.{function_at, has_function, key_of};
ghost use Rattle.relocation_errors.specs.declared.error.RelocationError.TheVariants.{OutOfMemory, UnknownFunction};
ghost use Rattle.linker.specs.Unlinked.{function_in, key_at, ref_of, target_at};
ghost use Rattle.linker.specs.Faults.{IsTargetFault, IsUnknownAt, is_sound};

use crate::reference::target_of;
use crate::target::Target;
use ebpf_items::bpf_insn;
use object_file::ObjectFile;
use object_parts::{Function, Functions};
use relocation_errors::RelocationError;
use std::alloc::Global;
use std::collections::BTreeSet;
use std::marker::Model;

/// A section's index and an address in it.
pub(crate) type Key = (usize, u64);

/// The number of addresses.
const ADDRESSES: i128 = 18446744073709551616;

/// An object's file, the indexes of its sections with functions, and its functions.
#[derive(Drop)]
pub(crate) struct Source<'s, 'o, 'f> {
    pub(crate) alloc: Global,
    pub(crate) file: &'s ObjectFile<'o>,
    pub(crate) text_sections: &'s BTreeSet<usize>,
    pub(crate) functions: &'s Functions<'f>,
}

impl<'s, 'o, 'f> Model for Source<'s, 'o, 'f> {
    ghost use Rattle.linker.specs.Unlinked.{Unlinked};

    ghost Value = { Unlinked };

    ghost view = { λ s.
        record {
          file = s.file.now;
          text_sections = s.text_sections.now.keys;
          functions = s.functions.now;
        } };
}

/// The number of slots of a function.
pub(crate) fn slot_count(function: &Function<'_>) -> usize
    ensures { result ≡ length function.now.instructions }
{
    function.instructions.len()
}

/// A slot of a function.
pub(crate) fn slot_at(function: &Function<'_>, index: usize) -> bpf_insn
    requires { index < length function.now.instructions }
    ensures { Some result ≡ slice_get function.now.instructions index }
{
    match function.instructions.get(index) {
        Some(slot) => slot,
        None => unreachable!(),
    }
}

/// The key of an address in a section, if the address is a number of 64 bits.
fn key_at(section_index: usize, address: i128) -> Option<Key>
    ensures { result ≡ key_at section_index address }
{
    let address = u64::try_from(address).ok()?;
    Some((section_index, address))
}

/// The error that no function begins at an address.
fn unknown_function(alloc: Global, address: i128, caller: &str) -> RelocationError
    ensures { result ≢ OutOfMemory → IsUnknownAt address caller.now result }
{
    match String::from_str(alloc, caller) {
        Ok(caller_name) => RelocationError::UnknownFunction {
            address: address.rem_euclid(ADDRESSES) as u64,
            caller_name,
        },
        Err(_) => RelocationError::OutOfMemory,
    }
}

impl<'s, 'o, 'f> Source<'s, 'o, 'f> {
    /// The function with this key.
    pub(crate) fn function(&self, key: Key) -> &'s Function<'f>
        requires { has_function self.now.functions key ≡ true }
        ensures value { function_at self.now.functions key ≡ Some result.now }
        ensures keyed { key_of result.now ≡ key }
    {
        match self.functions.get(key) {
            Some(function) => function,
            None => unreachable!(),
        }
    }

    /// The key of the function that begins at an address of a section.
    fn function_in(
        &self,
        section_index: usize,
        address: i128,
        caller: &str,
    ) -> Result<Key, RelocationError>
        ensures found { IfOk result (λ key.
            function_in self.now.functions section_index address ≡ Some key) }
        ensures fault { IfErr result (λ e.
            e ≢ OutOfMemory
            → (function_in self.now.functions section_index address ≡ None)
            × IsUnknownAt address caller.now e) }
    {
        let Some(key) = key_at(section_index, address) else {
            return Err(unknown_function(self.alloc, address, caller));
        };
        if self.functions.get(key).is_none() {
            return Err(unknown_function(self.alloc, address, caller));
        }
        Ok(key)
    }

    /// The key of the function that a function's slot refers to; `index` is the slot's index.
    pub(crate) fn reference(
        &self,
        function: &Function<'f>,
        index: usize,
        slot: bpf_insn,
    ) -> Result<Option<Key>, RelocationError>
        ensures found { IfOk result (λ key. key ≡ ref_of self.now function.now index slot) }
        ensures sound { OnOk result
            (is_sound self.now (target_at self.now function.now index slot) ≡ true) }
        ensures fault { IfErr result (λ e.
            e ≢ OutOfMemory
            → IsTargetFault self.now function.now (target_at self.now function.now index slot) e) }
    {
        match target_of(self.file, self.text_sections, function, index, slot) {
            Target::Nothing => Ok(None),
            Target::UnknownSymbol { index } => Err(RelocationError::UnknownSymbol { index }),
            Target::Function {
                section_index,
                address,
            } => {
                let key = self.function_in(section_index, address, function.name)?;
                Ok(Some(key))
            }
        }
    }
}
