//! Functions by key.

ghost use Rattle.std.specs.Prelude.{◌≡◌, ◌↔◌, [], length, map, IfOk, IfSome, true, false, IsTrue, OnOk, OnErr};
ghost use Rattle.std.specs.BTreeMap.{insert_entry, is_at};
ghost use Rattle.std.specs.List.{list_any};
ghost use Rattle.std.specs.Map.{lookup};
ghost use Rattle.std.specs.Option.{option_copied};
ghost use Rattle.ebpf_items.specs.Instruction.{calls_newer_helper};
ghost use Rattle.object_parts.specs.Installed.{AreThere, Installed};
ghost use Rattle.object_parts.specs.Content.{AreKeyed, Replaces, has_function, has_newer_helper, key_cmp, key_of, with_older_helpers};

use crate::by_name::Programs;
use crate::function::Function;
use ebpf_items::Slots;
use std::alloc::{AllocError, Global};
use std::collections::BTreeMap;
use std::collections::btree_map::Iter;
use std::marker::Model;

/// The functions of an object, by the index of their section and their address.
#[derive(Debug)]
pub struct Functions<'a> {
    entries: BTreeMap<(usize, u64), Function<'a>>,
}

impl<'a> Drop for Functions<'a> {
    // A single call where a value is dropped, instead of one call per field.
    fn drop(self) {
        let Functions { entries: _entries } = self;
    }
}

/// Whether some slot calls a helper that an older one can replace.
fn calls_newer_helper(slots: &Slots<'_>) -> bool
    ensures { result ≡ list_any calls_newer_helper slots.now }
{
    slots.iter().any(|slot| slot.calls_newer_helper())
}

/// The programs and the functions of an object.
#[derive(Debug, Drop)]
pub struct Code<'a> {
    pub programs: Programs<'a>,
    pub functions: Functions<'a>,
}

impl<'a> Model for Functions<'a> {
    ghost use Rattle.std.specs.Prelude.{ℕ, List};
    ghost use Rattle.object_parts.specs.Content.{AreKeyed, FunctionContent};

    ghost Value = { List ((ℕ × ℕ) × FunctionContent) };

    ghost view = { λ f. f.entries.entries };

    ghost invariant = { λ f. AreKeyed f.entries.entries };
}

impl<'a> Functions<'a> {
    /// No functions.
    #[tactic(auto, unfolding(crate::specs::Content::AreKeyed))]
    pub fn new(alloc: Global) -> Functions<'a>
        ensures { result ≡ [] }
    {
        Functions {
            entries: BTreeMap::new(alloc),
        }
    }

    /// The number of functions.
    pub fn len(&self) -> usize
        ensures { result ≡ length self.now }
    {
        self.entries.len()
    }

    /// Whether there is no function.
    pub fn is_empty(&self) -> bool
        ensures { IsTrue result ↔ (self.now ≡ []) }
    {
        self.entries.is_empty()
    }

    /// The function with this key: its section's index and its address.
    pub fn get(&self, key: (usize, u64)) -> Option<&Function<'a>>
        ensures value { option_copied result ≡ lookup (is_at (key_cmp key)) self.now }
        ensures keyed { IfSome result (λ f. key_of f.now ≡ key) }
    {
        self.entries.get(&key)
    }

    /// The functions with their keys, in order of key.
    pub fn iter(&self) -> Iter<'_, (usize, u64), Function<'a>>
        ensures value { result ≡ self.now }
        ensures keyed { AreKeyed self.now }
    {
        self.entries.iter()
    }

    /// Replaces the function with the same key. Allocates no memory.
    pub fn replace(&mut self, function: Function<'a>)
        requires { has_function self.old (key_of function) ≡ true }
        ensures { Replaces self.old self.new function.entry }
    {
        if self.insert(function).is_err() {
            unreachable!();
        }
    }

    /// Replaces the functions with the same keys. Allocates no memory.
    pub fn install(&mut self, list: Vec<Function<'a>>)
        requires { AreThere self.old list.items }
        ensures { Installed self.old self.new list.entry.items }
    {
        let mut rest = list;
        while let Some(function) = rest.pop() {
            self.replace(function);
        }
    }

    /// Whether some slot of a function calls a helper that an older one can replace: number 112,
    /// 113, 114 or 115.
    pub fn has_newer_helper(&self) -> bool
        ensures { result ≡ has_newer_helper self.now }
    {
        self.entries
            .iter()
            .any(|(_, function)| calls_newer_helper(&function.instructions))
    }

    /// Puts the older helper into each slot that calls a newer one. Allocates no memory: borrowed
    /// slots stay borrowed.
    pub fn rename_helpers(&mut self)
        ensures { self.new ≡ map (λ e. (e.0, with_older_helpers e.1)) self.old }
    {
        self.entries.retain(|_key, function| {
            function.instructions.rename_helpers();
            true
        });
    }

    /// Enters a function under its key. It replaces an earlier one with that key.
    pub fn insert(&mut self, function: Function<'a>) -> Result<(), AllocError>
        ensures ok { OnOk result
            (self.new
            ≡ insert_entry key_cmp self.old (function.entry.section_index, function.entry.address)
            function.entry) }
        ensures replaced { OnOk result
            (has_function self.old (key_of function.entry) ≡ true
            → Replaces self.old self.new function.entry) }
        ensures err { OnErr result (self.new ≡ self.old) }
        ensures absent { OnErr result (has_function self.old (key_of function.entry) ≡ false) }
    {
        self.entries.insert(function.key(), function)?;
        Ok(())
    }

    /// A copy.
    pub fn try_clone(&self) -> Result<Functions<'a>, AllocError>
        ensures { IfOk result (λ functions. functions ≡ self.now) }
    {
        Ok(Functions {
            entries: self.entries.clone()?,
        })
    }
}
