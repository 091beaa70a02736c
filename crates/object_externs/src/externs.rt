//! The externs of an object, by name.

ghost use Rattle.std.specs.Prelude.{◌≡◌, ◌↔◌, ◌&&◌, [], None, length, map, not, is_some, IfOk, IsTrue, option_copied};
ghost use Rattle.std.specs.BTreeMap.{is_at};
ghost use Rattle.std.specs.Cmp.Lexicographic.{slice_cmp};
ghost use Rattle.std.specs.List.{list_any};
ghost use Rattle.std.specs.List.Sorted.{IsStrictlySortedBy};
ghost use Rattle.std.specs.Map.{lookup};
ghost use Rattle.std.specs.Ordering.{nat_cmp};
ghost use Rattle.object_externs.specs.Names.{by_bytes};

use crate::extern_desc::ExternDesc;
use btf_storage::KsymsIds;
use std::alloc::{AllocError, Global};
use std::collections::BTreeMap;
use std::collections::btree_map::Iter;
use std::marker::Model;

/// The externs of an object, by name, and the ids that the rewriting of their section takes.
#[derive(Debug)]
pub struct Externs<'a> {
    by_name: BTreeMap<&'a str, ExternDesc<'a>>,
    ksyms: Option<KsymsIds>,
}

impl<'a> Drop for Externs<'a> {
    // A single call where a value is dropped, instead of one call per field.
    fn drop(self) {
        let Externs {
            by_name: _by_name,
            ksyms: _,
        } = self;
    }
}

impl<'a> Model for Externs<'a> {
    ghost use Rattle.object_externs.specs.Externs.{ExternsContent};
    ghost use Rattle.object_externs.specs.Names.{by_bytes};

    ghost Value = { ExternsContent };

    ghost view = { λ e. record { by_name = by_bytes e.by_name.entries; ksyms = e.ksyms } };
}

impl<'a> Externs<'a> {
    /// No externs.
    pub fn none(alloc: Global) -> Externs<'a>
        ensures { result ≡ record { by_name = []; ksyms = None } }
    {
        Externs {
            by_name: BTreeMap::new(alloc),
            ksyms: None,
        }
    }

    /// The externs of a map by name.
    pub(crate) fn new(
        by_name: BTreeMap<&'a str, ExternDesc<'a>>,
        ksyms: Option<KsymsIds>,
    ) -> Externs<'a>
        ensures { result ≡ record { by_name = by_bytes by_name.entry.entries; ksyms = ksyms } }
    {
        Externs { by_name, ksyms }
    }

    /// The extern with this name.
    pub fn get(&self, name: &str) -> Option<&ExternDesc<'a>>
        ensures { option_copied result
            ≡ lookup (is_at (slice_cmp nat_cmp name.now)) self.now.by_name }
    {
        self.by_name.get(name)
    }

    /// The number of externs.
    pub fn len(&self) -> usize
        ensures { result ≡ length self.now.by_name }
    {
        self.by_name.len()
    }

    /// Whether there is no extern.
    pub fn is_empty(&self) -> bool
        ensures { IsTrue result ↔ (self.now.by_name ≡ []) }
    {
        self.by_name.is_empty()
    }

    /// The externs with their names, in strictly ascending order of the names' bytes.
    pub fn iter(&self) -> Iter<'_, &'a str, ExternDesc<'a>>
        ensures value { by_bytes result ≡ self.now.by_name }
        ensures rising { IsStrictlySortedBy (slice_cmp nat_cmp) (map (λ e. e.0) self.now.by_name) }
    {
        self.by_name.iter()
    }

    /// Whether some extern has a type.
    pub fn has_typed(&self) -> bool
        ensures { result ≡ list_any (λ e. is_some e.1.type_id) self.now.by_name }
    {
        for (_name, desc) in self.iter() {
            if desc.type_id.is_some() {
                return true;
            }
        }
        false
    }

    /// Whether some extern has a type and isn't weak.
    pub fn has_strong_typed(&self) -> bool
        ensures { result ≡ list_any (λ e. is_some e.1.type_id && not e.1.is_weak) self.now.by_name }
    {
        for (_name, desc) in self.iter() {
            if desc.type_id.is_some() && !desc.is_weak {
                return true;
            }
        }
        false
    }

    /// The ids that the rewriting of the section `.ksyms` takes: the section's id, and the id of
    /// the placeholder variable that replaces functions in it, if it names a function. None where
    /// the section has no entries.
    pub fn ksyms(&self) -> Option<KsymsIds>
        ensures { result ≡ self.now.ksyms }
    {
        self.ksyms
    }

    /// Other externs, for the same section.
    pub fn replaced(&self, by_name: BTreeMap<&'a str, ExternDesc<'a>>) -> Externs<'a>
        ensures { result ≡ record self.now { by_name = by_bytes by_name.entry.entries } }
    {
        Externs {
            by_name,
            ksyms: self.ksyms,
        }
    }

    /// Replaces the externs, for the same section.
    pub fn set_by_name(&mut self, by_name: BTreeMap<&'a str, ExternDesc<'a>>)
        ensures { self.new ≡ record self.old { by_name = by_bytes by_name.entry.entries } }
    {
        // The whole value is assigned: the toolchain doesn't support assignment of a field of this
        // type yet.
        *self = self.replaced(by_name);
    }

    /// A copy.
    pub fn try_clone(&self) -> Result<Externs<'a>, AllocError>
        ensures { IfOk result (λ externs. externs ≡ self.now) }
    {
        Ok(Externs {
            by_name: self.by_name.clone()?,
            ksyms: self.ksyms,
        })
    }
}
