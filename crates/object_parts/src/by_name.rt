//! Programs by name.

ghost use Rattle.std.specs.Prelude.{◌≡◌, ◌↔◌, [], length, map, option_copied, IfOk, IsTrue, OnErr, OnOk};
ghost use Rattle.std.specs.BTreeMap.{insert_entry, is_at};
ghost use Rattle.std.specs.Cmp.Lexicographic.{slice_cmp};
ghost use Rattle.std.specs.List.Sorted.{IsStrictlySortedBy};
ghost use Rattle.std.specs.Map.{lookup};
ghost use Rattle.std.specs.Ordering.{nat_cmp};
ghost use Rattle.object_parts.specs.Names.{by_bytes};

use crate::program::Program;
use std::alloc::{AllocError, Global};
use std::collections::BTreeMap;
use std::collections::btree_map::Iter;
use std::marker::Model;

/// The programs of an object, by name.
#[derive(Debug)]
pub struct Programs<'a> {
    entries: BTreeMap<&'a str, Program<'a>>,
}

impl<'a> Drop for Programs<'a> {
    // A single call where a value is dropped, instead of one call per field.
    fn drop(self) {
        let Programs { entries: _entries } = self;
    }
}

impl<'a> Model for Programs<'a> {
    ghost use Rattle.std.specs.Prelude.{ℕ, List};
    ghost use Rattle.object_parts.specs.Content.{ProgramContent};
    ghost use Rattle.object_parts.specs.Names.{by_bytes};

    ghost Value = { List (List ℕ × ProgramContent) };

    ghost view = { λ p. by_bytes p.entries.entries };
}

impl<'a> Programs<'a> {
    /// No programs.
    pub fn new(alloc: Global) -> Programs<'a>
        ensures { result ≡ [] }
    {
        Programs {
            entries: BTreeMap::new(alloc),
        }
    }

    /// Enters a program under a name. It replaces an earlier one with that name.
    pub fn insert(&mut self, name: &'a str, program: Program<'a>) -> Result<(), AllocError>
        ensures ok { OnOk result
            (self.new ≡ insert_entry (slice_cmp nat_cmp) self.old name.now program.entry) }
        ensures err { OnErr result (self.new ≡ self.old) }
    {
        self.entries.insert(name, program)?;
        Ok(())
    }

    /// The number of programs.
    pub fn len(&self) -> usize
        ensures { result ≡ length self.now }
    {
        self.entries.len()
    }

    /// Whether there is no program.
    pub fn is_empty(&self) -> bool
        ensures { IsTrue result ↔ (self.now ≡ []) }
    {
        self.entries.is_empty()
    }

    /// The program with this name.
    pub fn get(&self, name: &str) -> Option<&Program<'a>>
        ensures { option_copied result ≡ lookup (is_at (slice_cmp nat_cmp name.now)) self.now }
    {
        self.entries.get(name)
    }

    /// The programs with their names, in strictly ascending order of the names' bytes.
    pub fn iter(&self) -> Iter<'_, &'a str, Program<'a>>
        ensures value { by_bytes result ≡ self.now }
        ensures rising { IsStrictlySortedBy (slice_cmp nat_cmp) (map (λ e. e.0) self.now) }
    {
        self.entries.iter()
    }

    /// A copy.
    pub fn try_clone(&self) -> Result<Programs<'a>, AllocError>
        ensures { IfOk result (λ programs. programs ≡ self.now) }
    {
        Ok(Programs {
            entries: self.entries.clone()?,
        })
    }
}
