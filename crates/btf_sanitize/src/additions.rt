//! The texts and types that are appended to a table.

ghost use Rattle.std.specs.Prelude.{◌≡◌, ◌≢◌, ◌+◌, ◌<◌, ◌^◌, IfErr, IfOk, OnOk, Some, length};
ghost use Rattle.btf_records.specs.declared.error.BtfError.TheVariants.{InvalidTypeInfo, OutOfMemory};
ghost use Rattle.btf_sanitize.specs.Additions.{next_id, next_offset, nothing_added, placeholder_id, filler_id, renamed_offset, small_int, static_var, with_filler, with_filler_int, with_filler_var, with_placeholder, with_renamed, with_text, with_type};
ghost use Rattle.btf_sanitize.specs.Faults.{IsTooMuch};
ghost use Rattle.string_table.specs.Texts.{text_at};

use crate::names::{has_byte, replaced};
use btf_records::{BtfError, BtfType, Int, IntEncoding, Var, VarLinkage};
use btf_storage::MOST;
use std::alloc::Global;
use std::marker::Model;

/// Texts and types that are appended after a table's own.
#[derive(Drop)]
pub struct Additions {
    string_len: usize,
    type_count: usize,
    texts: Vec<u8>,
    types: Vec<BtfType>,
    placeholder: Option<u32>,
    filler: Option<u32>,
}

impl Model for Additions {
    ghost use Rattle.std.specs.Prelude.{◌+◌, ◌<◌, ◌^◌, length};
    ghost use Rattle.btf_sanitize.specs.Additions.{Added};

    ghost Value = { Added };

    ghost view = { λ a.
        record {
          string_len = a.string_len;
          type_count = a.type_count;
          texts = a.texts.items;
          types = a.types.items;
          placeholder = a.placeholder;
          filler = a.filler;
        } };

    ghost invariant = { λ a.
        (a.string_len + length a.texts.items < 2 ^ 32)
        × (a.type_count + length a.types.items < 2 ^ 32) };
}

impl Additions {
    /// No additions to a table with `string_len` bytes of strings and `type_count` types.
    pub fn new(alloc: Global, string_len: usize, type_count: usize) -> Additions
        requires strings { string_len < 2 ^ 32 }
        requires types { type_count < 2 ^ 32 }
        ensures { result ≡ nothing_added string_len type_count }
    {
        Additions {
            string_len,
            type_count,
            texts: Vec::new(alloc),
            types: Vec::new(alloc),
            placeholder: None,
            filler: None,
        }
    }

    /// The texts, each with its NUL, and the types.
    pub(crate) fn into_parts(self) -> (Vec<u8>, Vec<BtfType>)
        ensures texts { result.0.items ≡ self.texts }
        ensures types { result.1.items ≡ self.types }
        ensures few_bytes { self.string_len + length self.texts < 2 ^ 32 }
        ensures few_types { self.type_count + length self.types < 2 ^ 32 }
    {
        let Additions { texts, types, .. } = self;
        (texts, types)
    }

    pub(crate) fn alloc(&self) -> Global {
        *self.texts.allocator()
    }

    /// Appends a text and a NUL, and returns the text's offset.
    pub(crate) fn add_text(&mut self, text: &[u8]) -> Result<u32, BtfError>
        ensures offset { IfOk result (λ offset. offset ≡ next_offset self.old) }
        ensures added { OnOk result (self.new ≡ with_text text.now self.old) }
        ensures refused { IfErr result (λ e.
            e ≢ OutOfMemory → IsTooMuch (with_text text.now self.old) e) }
    {
        let offset = self.string_len + self.texts.len();
        if text.len() >= MOST - offset {
            return Err(BtfError::InvalidTypeInfo);
        }
        self.texts.extend_from_slice(text)?;
        self.texts.push(0)?;
        Ok(offset as u32)
    }

    /// Appends a type, and returns its id.
    pub(crate) fn add_type(&mut self, t: BtfType) -> Result<u32, BtfError>
        ensures id { IfOk result (λ id. id ≡ next_id self.old) }
        ensures added { OnOk result (self.new ≡ with_type t self.old) }
        ensures refused { IfErr result (λ e. e ≢ OutOfMemory → IsTooMuch (with_type t self.old) e) }
    {
        let id = self.type_count + self.types.len() + 1;
        if id > MOST {
            return Err(BtfError::InvalidTypeInfo);
        }
        self.types.push(t)?;
        Ok(id as u32)
    }

    /// Appends a name with one byte replaced by another, and returns its offset. Returns
    /// `name_offset` where the name doesn't have that byte.
    pub(crate) fn rename(
        &mut self,
        name: &str,
        name_offset: u32,
        from: u8,
        to: u8,
    ) -> Result<u32, BtfError>
        ensures offset { IfOk result (λ offset.
            offset ≡ renamed_offset from name.now name_offset self.old) }
        ensures added { OnOk result (self.new ≡ with_renamed from to name.now self.old) }
        ensures refused { IfErr result (λ e.
            e ≢ OutOfMemory → IsTooMuch (with_renamed from to name.now self.old) e) }
    {
        if !has_byte(name.as_bytes(), from) {
            return Ok(name_offset);
        }
        let text = replaced(self.alloc(), name.as_bytes(), from, to)?;
        self.add_text(text.as_slice())
    }

    /// The id of the integer of one byte that the members of a rewritten 64-bit enum have as their
    /// type. It is appended at the first call.
    pub(crate) fn placeholder(&mut self) -> Result<u32, BtfError>
        ensures id { IfOk result (λ id. id ≡ placeholder_id self.old) }
        ensures added { OnOk result (self.new ≡ with_placeholder self.old) }
        ensures refused { IfErr result (λ e.
            e ≢ OutOfMemory → IsTooMuch (with_placeholder self.old) e) }
    {
        if let Some(id) = self.placeholder {
            return Ok(id);
        }
        let name_offset = self.add_text(b"enum64_placeholder")?;
        let id = self.add_type(small_int(name_offset))?;
        self.placeholder = Some(id);
        Ok(id)
    }

    /// The id of the variable that is put into a section without variables. It is appended with its
    /// integer at the first call.
    pub(crate) fn filler(&mut self) -> Result<u32, BtfError>
        ensures id { IfOk result (λ id. id ≡ filler_id self.old) }
        ensures added { OnOk result (self.new ≡ with_filler self.old) }
        ensures refused { IfErr result (λ e. e ≢ OutOfMemory → IsTooMuch (with_filler self.old) e) }
    {
        if let Some(id) = self.filler {
            return Ok(id);
        }
        let name_offset = self.add_text(b"datasec_filler_int")?;
        let int = self.add_type(small_int(name_offset))?;
        let name_offset = self.add_text(b"datasec_filler")?;
        let var = Var::new(name_offset, int, VarLinkage::Static);
        let id = self.add_type(BtfType::Var(var))?;
        self.filler = Some(id);
        Ok(id)
    }
}

/// An integer of one byte.
pub(crate) fn small_int(name_offset: u32) -> BtfType
    ensures { result ≡ small_int name_offset }
{
    BtfType::Int(Int::new(name_offset, 1, IntEncoding::None, 0))
}
