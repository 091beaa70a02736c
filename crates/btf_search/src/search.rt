//! Kinds and names that a search wants.

ghost use Rattle.std.specs.Prelude.{◌≡◌, ◌<◌, ◌≤◌, All, drop, false, length, true, IfSome, OnOk};
ghost use Rattle.std.specs.List.{list_all};
ghost use Rattle.btf_records.specs.Fields.{kind_of_type};
ghost use Rattle.btf_records.specs.Kinds.{number_of};
ghost use Rattle.btf_search.specs.NamedTypes.{name_of};
ghost use Rattle.btf_search.specs.Searches.{ArePrefixes, IsOtherName, covers, has_name, is_wanted};
ghost use Rattle.string_table.specs.FirstBytes.{is_marked};
ghost use Rattle.string_table.specs.Texts.{text_at};

use crate::found::FoundType;
use crate::prefixes::{PREFIX, Prefixes};
use btf_encoding::TypeRef;
use btf_records::BtfKind;
use btf_tables::Btf;
use std::alloc::{AllocError, Global};
use std::collections::BTreeSet;
use std::marker::Model;
use string_table::MarkedBytes;

/// Kinds and names that a search wants.
#[derive(Debug)]
pub(crate) struct Search<'n> {
    /// The numbers of the kinds.
    kinds: MarkedBytes,
    names: BTreeSet<&'n str>,
    /// The prefixes of the names.
    prefixes: Prefixes,
}

impl<'n> Drop for Search<'n> {
    // One call wherever it is dropped, in place of one for each part.
    fn drop(self) {
        let Search {
            kinds: _kinds,
            names: _names,
            prefixes: _prefixes,
        } = self;
    }
}

impl<'n> Model for Search<'n> {
    ghost use Rattle.btf_search.specs.Searches.{ArePrefixes, Searched};

    ghost Value = { Searched };

    ghost view = { λ s. record { kinds = s.kinds; names = s.names.keys } };

    ghost invariant = { λ s. ArePrefixes s.names.keys s.prefixes };
}

/// Adds a name.
fn add_name<'n>(
    names: &mut BTreeSet<&'n str>,
    prefixes: &mut Prefixes,
    name: &'n str,
) -> Result<(), AllocError>
    requires prefixes { ArePrefixes names.old.keys prefixes.old }
    requires long { prefixes.old.short.len ≤ length name.now }
    ensures prefixes { OnOk result (ArePrefixes names.new.keys prefixes.new) }
    ensures len { prefixes.new.short.len ≡ prefixes.old.short.len }
{
    prefixes.mark(name);
    names.insert(name)?;
    Ok(())
}

/// The number of bytes of the shortest of some names, at most eight.
fn prefix_len(names: &[&str]) -> usize
    ensures few { result ≤ PREFIX }
    ensures least { All (λ name. result ≤ length name.now) names.now }
{
    let mut len = PREFIX;
    for name in names {
        len = len.min(name.len());
    }
    len
}

/// The numbers of these kinds.
fn numbers_of(kinds: &[BtfKind]) -> MarkedBytes {
    let mut numbers = MarkedBytes::new();
    for kind in kinds {
        numbers.mark(*kind as u8);
    }
    numbers
}

/// The bytes from an offset on; `None` past the end.
fn bytes_from(bytes: &[u8], offset: u32) -> Option<&[u8]>
    ensures { IfSome result (λ rest.
        (rest.now ≡ drop offset bytes.now) × (offset < length bytes.now)) }
{
    let offset = offset as usize;
    if offset >= bytes.len() {
        return None;
    }
    Some(&bytes[offset..])
}

impl<'n> Search<'n> {
    /// A search that wants nothing.
    #[tactic(auto, using(crate::proofs::Wanted::none_begin))]
    pub(crate) fn none(alloc: Global) -> Search<'n> {
        Search {
            kinds: MarkedBytes::new(),
            names: BTreeSet::new(alloc),
            prefixes: Prefixes::new(PREFIX),
        }
    }

    /// A search for types of these kinds and names.
    #[tactic(auto, using(crate::proofs::Wanted::none_begin))]
    pub(crate) fn all_of(
        alloc: Global,
        kinds: &[BtfKind],
        wanted: &[&'n str],
    ) -> Result<Search<'n>, AllocError> {
        let mut names = BTreeSet::new(alloc);
        let mut prefixes = Prefixes::new(prefix_len(wanted));
        for name in wanted {
            add_name(&mut names, &mut prefixes, *name)?;
        }
        Ok(Search {
            kinds: numbers_of(kinds),
            names,
            prefixes,
        })
    }

    /// Whether the search wants types of this kind.
    pub(crate) fn has_kind(&self, kind: BtfKind) -> bool
        ensures { result ≡ is_marked self.now.kinds (number_of kind) }
    {
        self.kinds.contains(kind as u8)
    }

    /// Whether the search wants types of this name.
    fn has_name(&self, name: &str) -> bool
        ensures { result ≡ has_name self.now.names name.now }
    {
        self.names.contains(name)
    }

    /// Whether the search wants types of all of these kinds.
    fn has_kinds(&self, kinds: &[BtfKind]) -> bool
        ensures { result ≡ list_all (λ k. is_marked self.now.kinds (number_of k)) kinds.now }
    {
        kinds.iter().all(|kind| self.has_kind(*kind))
    }

    /// Whether the search wants each type of these kinds and this name.
    pub(crate) fn covers(&self, kinds: &[BtfKind], name: &str) -> bool
        ensures { result ≡ covers self.now kinds.now name.now }
    {
        self.has_name(name) && self.has_kinds(kinds)
    }

    /// Whether the name at an offset of the table's strings can be read and is seen to be no wanted
    /// name by its first bytes.
    #[tactic(auto, using(crate::proofs::Wanted::begins_otherwise))]
    fn begins_otherwise(&self, table: &Btf<'_>, name_offset: u32) -> bool
        ensures { result ≡ true
            → IsOtherName self.now.names (text_at table.now.strings name_offset) }
    {
        let strings = table.strings();
        if !strings.are_texts() {
            return false;
        }
        match bytes_from(strings.as_slice(), name_offset) {
            Some(bytes) => !self.prefixes.may_begin(bytes),
            None => false,
        }
    }

    /// Whether the search may want a type of the table, judged by its kind and then by the first
    /// bytes of its name.
    #[tactic(auto, using(crate::proofs::Wanted::of_other_kind, crate::proofs::Wanted::of_other_name))]
    pub(crate) fn may_want(&self, table: &Btf<'_>, t: &TypeRef<'_>) -> bool
        ensures { result ≡ false
            → is_wanted self.now (kind_of_type t.now) (name_of table.now t.now) ≡ false }
    {
        if !self.has_kind(t.kind()) {
            return false;
        }
        !self.begins_otherwise(table, t.name_offset())
    }

    /// Whether the search wants a type. A type of a wanted kind whose name can't be read is wanted.
    pub(crate) fn is_wanted(&self, found: &FoundType<'_>) -> bool
        ensures { result ≡ is_wanted self.now found.now.kind found.now.name }
    {
        if !self.has_kind(found.kind()) {
            return false;
        }
        match found.name() {
            Some(name) => self.has_name(name),
            None => true,
        }
    }
}
