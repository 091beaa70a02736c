//! New tables, and additions to a table.

ghost use Rattle.std.specs.Prelude.{◌≡◌, ◌≢◌, ◌+◌, ◌<◌, ◌^◌, ◌∷◌, ◌++◌, [], All, IfErr, IfOk, OnErr, OnOk, Some, length};
ghost use Rattle.btf_tables.specs.GrownTables.{IsFull, TextsStay, TypesStay, with_records, with_string, with_type};
ghost use Rattle.btf_storage.specs.Growth.{TooMany};
ghost use Rattle.btf_tables.specs.Tables.{new_table, type_by_id};
ghost use Rattle.string_table.specs.Texts.{text_at};
ghost use Rattle.btf_records.specs.declared.error.BtfError.TheVariants.{InvalidTypeInfo, OutOfMemory};

use crate::table::Btf;
use btf_records::{BtfError, BtfType, Endianness};
use btf_storage::{MOST, Strings, TypeRecords};
use std::alloc::{AllocError, Global};

/// The documentation's magic number.
const MAGIC: u16 = 0xeb9f;

const VERSION: u8 = 1;

impl<'a> Btf<'a> {
    /// A table with no types except void, whose one string is the empty text.
    pub fn new(alloc: Global) -> Result<Btf<'a>, AllocError>
        ensures { IfOk result (λ table. table ≡ new_table) }
    {
        Ok(Btf {
            records: TypeRecords::new(alloc, Endianness::Little),
            magic: MAGIC,
            version: VERSION,
            flags: 0,
            strings: Strings::owned(Vec::from_slice(alloc, &[0])?),
        })
    }

    /// A copy; borrowed bytes stay borrowed.
    pub fn try_clone(&self) -> Result<Btf<'a>, AllocError>
        ensures { IfOk result (λ table. table ≡ self.now) }
    {
        Ok(Btf {
            records: self.records.try_clone()?,
            magic: self.magic,
            version: self.version,
            flags: self.flags,
            strings: self.strings.try_clone()?,
        })
    }

    /// The table with other records, and with the bytes `texts` after its strings. Together these
    /// strings have less than 2^32 bytes.
    pub fn with_records(
        &self,
        records: TypeRecords<'a>,
        texts: &[u8],
    ) -> Result<Btf<'a>, AllocError>
        requires { length (self.now.strings ++ texts.now) < 2 ^ 32 }
        ensures table { IfOk result (λ table. table ≡ with_records self.now records.entry texts.now) }
        ensures stay { IfOk result (λ table. TextsStay self.now table) }
    {
        Ok(Btf {
            records,
            magic: self.magic,
            version: self.version,
            flags: self.flags,
            strings: self.strings.with_texts(self.allocator(), texts)?,
        })
    }

    /// Adds a text without a NUL to the strings, and returns its offset. Existing types and strings
    /// stay as they are.
    ///
    /// `InvalidTypeInfo` where the strings would have more than 2^32 - 1 bytes.
    #[tactic(auto, using(crate::proofs::Texts::texts_stay))]
    pub fn add_string(&mut self, text: &str) -> Result<u32, BtfError>
        requires { All (λ b. b ≢ 0) text.now }
        ensures table { OnOk result (self.new ≡ with_string self.old text.now) }
        ensures offset { IfOk result (λ offset. offset ≡ length self.old.strings) }
        ensures found { IfOk result (λ offset. text_at self.new.strings offset ≡ Some text.now) }
        ensures stay { OnOk result (TextsStay self.old self.new) }
        ensures refused { IfErr result (λ e.
            e ≢ OutOfMemory
            → (e ≡ InvalidTypeInfo) × TooMany (length self.old.strings + length text.now + 1)) }
        ensures accepted { OnOk result (length self.new.strings < 2 ^ 32) }
        ensures err { OnErr result (self.new ≡ self.old) }
    {
        let alloc = self.allocator();
        let len = self.strings.len();
        if text.len() >= MOST.saturating_sub(len) {
            return Err(BtfError::InvalidTypeInfo);
        }
        self.strings.push(alloc, text)?;
        Ok(len as u32)
    }

    /// Adds a type, and returns its id. Existing types and strings stay as they are.
    ///
    /// `InvalidTypeInfo` where there would be more than 2^32 - 1 types, or more than 2^32 - 1 bytes
    /// of types.
    pub fn add_type(&mut self, t: BtfType) -> Result<u32, BtfError>
        ensures table { OnOk result (self.new ≡ with_type self.old t) }
        ensures id { IfOk result (λ id. id ≡ length self.old.types + 1) }
        ensures found { IfOk result (λ id. type_by_id self.new id ≡ Some t) }
        ensures stay { OnOk result (TypesStay self.old self.new) }
        ensures refused { IfErr result (λ e.
            e ≢ OutOfMemory → (e ≡ InvalidTypeInfo) × IsFull self.old t) }
        ensures accepted { OnOk result (IsFull self.old t → ⊥) }
        ensures err { OnErr result (self.new ≡ self.old) }
    {
        self.records.push(t)?;
        Ok(self.records.len() as u32)
    }
}
