//! Types found by a search.

ghost use Rattle.std.specs.Prelude.{◌≡◌, ◌++◌, ◌∷◌, [], OnOk};
ghost use Rattle.std.specs.Option.{option_copied};
ghost use Rattle.btf_records.specs.Fields.{kind_of_type};
ghost use Rattle.btf_search.specs.NamedTypes.{has_kind, is_asked, name_of};

use btf_encoding::TypeRef;
use btf_records::BtfKind;
use btf_tables::{Btf, essential_name};
use std::alloc::{AllocError, Global};
use std::marker::Model;

/// A type found by a search.
#[derive(Debug, Drop)]
pub(crate) struct FoundType<'t> {
    type_id: u32,
    kind: BtfKind,
    /// The name without its flavour; `None` if it can't be read.
    name: Option<&'t str>,
}

impl<'t> Model for FoundType<'t> {
    ghost use Rattle.std.specs.Option.{option_copied};
    ghost use Rattle.btf_search.specs.Searches.{Found};

    ghost Value = { Found };

    ghost view = { λ f. record { type_id = f.type_id; kind = f.kind; name = option_copied f.name } };
}

/// A type's name without its flavour.
fn name_of<'t>(table: &'t Btf<'_>, t: &TypeRef<'_>) -> Option<&'t str>
    ensures { option_copied result ≡ name_of table.now t.now }
{
    match table.string_at(t.name_offset()) {
        Ok(name) => Some(essential_name(name)),
        Err(_error) => None,
    }
}

/// Whether a kind is one of these.
fn has_kind(kinds: &[BtfKind], kind: BtfKind) -> bool
    ensures { result ≡ has_kind kinds.now kind }
{
    kinds.iter().any(|one| *one as u8 == kind as u8)
}

impl<'t> FoundType<'t> {
    /// The type of an id, which has this record.
    pub(crate) fn new(table: &'t Btf<'_>, type_id: u32, t: &TypeRef<'_>) -> FoundType<'t>
        ensures { result
            ≡ record { type_id = type_id; kind = kind_of_type t.now; name = name_of table.now t.now } }
    {
        FoundType {
            type_id,
            kind: t.kind(),
            name: name_of(table, t),
        }
    }

    pub(crate) fn type_id(&self) -> u32
        ensures { result ≡ self.now.type_id }
    {
        self.type_id
    }

    pub(crate) fn kind(&self) -> BtfKind
        ensures { result ≡ self.now.kind }
    {
        self.kind
    }

    pub(crate) fn name(&self) -> Option<&'t str>
        ensures { option_copied result ≡ self.now.name }
    {
        self.name
    }

    /// Whether the type has one of these kinds, and either this name or one that can't be read.
    pub(crate) fn is_asked(&self, kinds: &[BtfKind], name: &str) -> bool
        ensures { result ≡ is_asked kinds.now name.now self.now.kind self.now.name }
    {
        if !has_kind(kinds, self.kind) {
            return false;
        }
        match self.name {
            Some(found) => found == name,
            None => true,
        }
    }
}

/// The types found in a table, in order of their ids.
#[derive(Debug, Drop)]
pub(crate) struct FoundTypes<'t> {
    types: Vec<FoundType<'t>>,
}

impl<'t> Model for FoundTypes<'t> {
    ghost use Rattle.std.specs.Prelude.{List};
    ghost use Rattle.btf_search.specs.Searches.{Found};

    ghost Value = { List Found };

    ghost view = { λ f. f.types.items };
}

impl<'t> FoundTypes<'t> {
    /// No types.
    pub(crate) fn new(alloc: Global) -> FoundTypes<'t>
        ensures { result ≡ [] }
    {
        FoundTypes {
            types: Vec::new(alloc),
        }
    }

    pub(crate) fn as_slice(&self) -> &[FoundType<'t>]
        ensures { result.now ≡ self.now }
    {
        self.types.as_slice()
    }

    /// Adds a type.
    pub(crate) fn push(&mut self, found: FoundType<'t>) -> Result<(), AllocError>
        ensures { OnOk result (self.new ≡ self.old ++ found.entry ∷ []) }
    {
        self.types.push(found)?;
        Ok(())
    }
}
