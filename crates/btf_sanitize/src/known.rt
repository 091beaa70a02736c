//! The input of a rewriting.

ghost use Rattle.std.specs.Prelude.{◌≡◌, IfErr, IfOk, OnOk, Some};
ghost use Rattle.std.specs.Option.{option_copied};
ghost use Rattle.btf_sanitize.specs.Facts.{number_named, type_at};
ghost use Rattle.btf_sanitize.specs.Faults.{NameFault};
ghost use Rattle.btf_sanitize.specs.Knowledge.{facts_of};
ghost use Rattle.string_table.specs.Texts.{text_at};
ghost use Rattle.btf_storage.specs.Faultless.{IsFaultless};

use crate::answers::{Answers, is_granted};
use btf_encoding::TypeRef;
use btf_records::{BtfError, BtfFeature};
use btf_storage::{Strings, TypeRecords};
use std::collections::BTreeMap;

/// The granted features, the table's strings and types, and the sizes and offsets of an object's
/// sections and symbols.
#[derive(Debug, Drop)]
pub struct Known<'t, 'm, 'n> {
    pub answers: &'t Answers,
    pub strings: &'t Strings<'t>,
    pub types: &'t TypeRecords<'t>,
    /// The sizes of the object's sections in bytes, by name.
    pub sizes: &'m BTreeMap<&'n str, u64>,
    /// The offsets of its symbols in their sections, by name.
    pub offsets: &'m BTreeMap<&'n str, u64>,
}

/// The number of a name.
fn number_named<'m, 'n>(numbers: &'m BTreeMap<&'n str, u64>, name: &str) -> Option<u64>
    ensures { result ≡ number_named numbers.now.entries name.now }
{
    numbers.get(name).copied()
}

impl<'t, 'm, 'n> Known<'t, 'm, 'n> {
    pub(crate) fn grants(&self, feature: BtfFeature) -> bool
        ensures { result ≡ (facts_of self.now).grants feature }
    {
        is_granted(self.answers, feature)
    }

    /// The text at an offset of the strings.
    pub(crate) fn text_at(&self, offset: u32) -> Option<&'t str>
        ensures { option_copied result ≡ text_at (facts_of self.now).strings offset }
    {
        self.strings.text_at(offset)
    }

    /// The record of an id; id 0 is void.
    pub(crate) fn type_at(&self, id: u32) -> Option<TypeRef<'t>>
        ensures { result ≡ type_at (facts_of self.now) id }
    {
        self.types.by_id(id as usize)
    }

    pub(crate) fn size_of(&self, section: &str) -> Option<u64>
        ensures { result ≡ (facts_of self.now).sizes section.now }
    {
        number_named(self.sizes, section)
    }

    pub(crate) fn offset_of(&self, symbol: &str) -> Option<u64>
        ensures { result ≡ (facts_of self.now).offsets symbol.now }
    {
        number_named(self.offsets, symbol)
    }

    /// The name at an offset of the strings; an error where it can't be read.
    pub(crate) fn name_at(&self, offset: u32) -> Result<&'t str, BtfError>
        ensures value { IfOk result (λ name.
            text_at (facts_of self.now).strings offset ≡ Some name.now) }
        ensures refused { IfErr result (NameFault (facts_of self.now) offset) }
        ensures accepted { OnOk result (IsFaultless (NameFault (facts_of self.now) offset)) }
    {
        match self.text_at(offset) {
            Some(name) => Ok(name),
            None => Err(BtfError::InvalidStringOffset {
                offset: offset as usize,
            }),
        }
    }
}
