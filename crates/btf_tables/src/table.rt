//! Type tables.

ghost use Rattle.std.specs.Prelude.{◌≡◌, ◌<◌, ◌≤◌, ◌^◌, ◌==◌, ◌∷◌, length, MatchResult, Some, None};
ghost use Rattle.btf_tables.specs.ResolvedTypes.{chain_end, max_depth, modified_type};
ghost use Rattle.btf_records.specs.Fields.{name_offset_of};
ghost use Rattle.btf_tables.specs.Tables.{type_by_id};
ghost use Rattle.string_table.specs.Texts.{text_at};

use btf_encoding::TypeRef;
use btf_records::{BtfError, BtfKind, BtfType};
use btf_storage::{Strings, TypeRecords, Types};
use std::alloc::Global;
use std::marker::Model;

/// A table of types and the strings that name them, over the bytes of the section that it was read
/// from. The types are borrowed until a type is added, and the strings until a string is added.
#[derive(Debug)]
pub struct Btf<'a> {
    pub(crate) records: TypeRecords<'a>,
    pub(crate) magic: u16,
    pub(crate) version: u8,
    pub(crate) flags: u8,
    pub(crate) strings: Strings<'a>,
}

impl<'a> Drop for Btf<'a> {
    // A single call where a value is dropped, instead of one call per field.
    fn drop(self) {
        let Btf {
            records: _records,
            magic: _,
            version: _,
            flags: _,
            strings: _strings,
        } = self;
    }
}

impl<'a> Model for Btf<'a> {
    ghost use Rattle.std.specs.Prelude.{length, ◌<◌, ◌^◌};
    ghost use Rattle.btf_tables.specs.Tables.{Table};

    ghost Value = { Table };

    ghost view = { λ t.
        record {
          order = t.records.order;
          magic = t.magic;
          version = t.version;
          flags = t.flags;
          strings = t.strings;
          types = t.records.types;
        } };

    ghost invariant = { λ t. length t.strings < 2 ^ 32 };
}

/// The greatest number of records in a chain or a walk.
pub(crate) const MAX_DEPTH: usize = 32;

/// The type that a modifier applies to.
fn modified_type(t: &TypeRef<'_>) -> Option<u32>
    ensures { result ≡ modified_type t.now }
{
    match t.kind() {
        BtfKind::Typedef
        | BtfKind::Volatile
        | BtfKind::Const
        | BtfKind::Restrict
        | BtfKind::TypeTag => t.btf_type(),
        _ => None,
    }
}

impl<'a> Btf<'a> {
    /// Whether there is no type except void.
    pub fn is_empty(&self) -> bool
        ensures { result ≡ (length self.now.types == 0) }
    {
        self.records.len() == 0
    }

    /// The number of types, without void.
    pub fn len(&self) -> usize
        ensures value { result ≡ length self.now.types }
        ensures bounded { result < 2 ^ 32 }
    {
        self.records.len()
    }

    /// The allocator of its memory.
    pub fn allocator(&self) -> Global {
        self.records.allocator()
    }

    /// The strings that name its types.
    pub fn strings(&self) -> &Strings<'a>
        ensures strings { result.now ≡ self.now.strings }
        ensures bounded { length self.now.strings < 2 ^ 32 }
    {
        &self.strings
    }

    /// The text at an offset of the strings.
    ///
    /// `InvalidStringOffset` where the offset is past their end, no NUL ends the text, or it isn't
    /// UTF-8.
    pub fn string_at(&self, offset: u32) -> Result<&str, BtfError>
        ensures { MatchResult result (λ s. text_at self.now.strings offset ≡ Some s.now) (λ e.
            (e ≡ BtfError.InvalidStringOffset offset) × (text_at self.now.strings offset ≡ None)) }
    {
        self.strings
            .text_at(offset)
            .ok_or(BtfError::InvalidStringOffset {
                offset: offset as usize,
            })
    }

    /// The name of a type of this table.
    ///
    /// `InvalidStringOffset` where it can't be read.
    pub fn type_name(&self, t: &BtfType) -> Result<&str, BtfError>
        ensures { MatchResult result
            (λ s. text_at self.now.strings (name_offset_of t.now) ≡ Some s.now) (λ e.
            (e ≡ BtfError.InvalidStringOffset (name_offset_of t.now))
            × (text_at self.now.strings (name_offset_of t.now) ≡ None)) }
    {
        self.string_at(t.name_offset())
    }

    /// The records of the types from id 1 on.
    pub fn records(&self) -> &TypeRecords<'a>
        ensures { result.now
            ≡ record { order = self.now.order; types = self.now.types } }
    {
        &self.records
    }

    /// The records in order of id; the first is void.
    pub fn types(&self) -> Types<'_>
        ensures value { result ≡ BtfType.Unknown ∷ self.now.types }
        ensures countable { length result ≤ 2 ^ 32 }
    {
        Types::new(&self.records)
    }

    /// The record of an id; id 0 is void.
    ///
    /// `UnknownBtfType` where the table has no such id.
    pub fn type_by_id(&self, id: u32) -> Result<TypeRef<'_>, BtfError>
        ensures { MatchResult result (λ t. type_by_id self.now id ≡ Some t) (λ e.
            (e ≡ BtfError.UnknownBtfType id) × (type_by_id self.now id ≡ None)) }
    {
        match self.records.by_id(id as usize) {
            Some(t) => Ok(t),
            None => Err(BtfError::UnknownBtfType { type_id: id }),
        }
    }

    /// The id at the end of a chain of modifiers, as `resolve_type` returns it, for a query about
    /// the id `asked`.
    ///
    /// `UnknownBtfType` where a type of the chain is missing, `MaximumTypeDepthReached` with
    /// `asked` where the chain, with its end, has more than 32 types.
    #[tactic(auto, using(crate::proofs::Chains::chain_over, crate::proofs::Chains::chain_unknown, crate::proofs::Chains::chain_done, crate::proofs::Chains::chain_more))]
    pub fn chain_end(&self, asked: u32, id: u32) -> Result<u32, BtfError>
        ensures { result ≡ chain_end max_depth self.now asked id }
    {
        let mut end = id;
        for _ in 0..MAX_DEPTH {
            match modified_type(&self.type_by_id(end)?) {
                Some(next) => end = next,
                None => return Ok(end),
            }
        }
        Err(BtfError::MaximumTypeDepthReached { type_id: asked })
    }
}
