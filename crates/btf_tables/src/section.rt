//! The section that holds a table (Documentation/bpf/btf.rst, "BTF Type and String Encoding").

ghost use Rattle.std.specs.Prelude.{◌≡◌, ◌≢◌, ◌+◌, ◌<◌, ◌≤◌, ◌^◌, ◌++◌, IfErr, IfOk, OnOk, MatchOption, drop, length, take};
ghost use Rattle.btf_tables.specs.Headers.{bytes_of_header};
ghost use Rattle.btf_tables.specs.Sections.{HoldsTable, without_fallbacks};
ghost use Rattle.btf_tables.specs.Tables.{TableFault, table_bytes};
ghost use Rattle.btf_records.specs.Words.{word_at};
ghost use Rattle.btf_records.specs.declared.error.BtfError.TheVariants.{OutOfMemory};

use crate::half_words::{half_word, push_half_word};
use crate::table::Btf;
use btf_records::{BtfError, Endianness, push_word, word};
use btf_storage::{Strings, TypeRecords};
use std::alloc::{AllocError, Global};

/// The size of the header in bytes.
const HEADER_LEN: u32 = 24;

/// The offset in the header of the types' offset; their length follows it.
const TYPES: usize = 8;

/// The offset in the header of the strings' offset; their length follows it.
const STRINGS: usize = 16;

/// The fields of a header whose types follow it at once, with the strings after them.
#[derive(Clone, Copy)]
struct Header {
    magic: u16,
    version: u8,
    flags: u8,
    types_len: u32,
    strings_len: u32,
}

/// The bytes of the region whose offset and length are in the header at `at`.
fn region(order: Endianness, bytes: &[u8], at: usize) -> Option<&[u8]>
    requires head { 24 ≤ length bytes.now }
    requires within { at + 8 ≤ 24 }
    ensures { MatchOption result
        (length bytes.now
        < word_at order bytes.now 4 + word_at order bytes.now at + word_at order bytes.now (at + 4))
        (λ r.
        (word_at order bytes.now 4 + word_at order bytes.now at + word_at order bytes.now (at + 4)
        ≤ length bytes.now)
        × (r.now
        ≡ take (word_at order bytes.now (at + 4))
        (drop (word_at order bytes.now 4 + word_at order bytes.now at) bytes.now))
        × (length r.now < 2 ^ 32)) }
{
    let start = word(order, bytes, 4) as usize + word(order, bytes, at) as usize;
    let end = start + word(order, bytes, at + 4) as usize;
    bytes.get(start..end)
}

/// Appends the header of a section.
fn push_header(out: &mut Vec<u8>, order: Endianness, header: Header) -> Result<(), AllocError>
    ensures written { OnOk result (out.new.items ≡ out.old.items ++ bytes_of_header order header) }
    ensures fits { header.magic < 2 ^ 16 }
{
    push_half_word(out, order, header.magic)?;
    out.push(header.version)?;
    out.push(header.flags)?;
    push_word(out, order, HEADER_LEN)?;
    push_word(out, order, 0)?;
    push_word(out, order, header.types_len)?;
    push_word(out, order, header.types_len)?;
    push_word(out, order, header.strings_len)?;
    Ok(())
}

impl<'a> Btf<'a> {
    /// The table that a section holds, in this byte order. Neither the magic number nor the version
    /// is checked. The table borrows the section's types and strings.
    ///
    /// `InvalidHeader` where the header is cut off or the strings reach past the end of the
    /// section, `InvalidTypeInfo` where the types reach past the end or a record is cut off,
    /// `InvalidTypeKind` where a record's kind is above 19.
    #[tactic(auto, using(crate::proofs::Sections::holds_table, crate::proofs::Sections::types_fault))]
    pub fn parse(alloc: Global, bytes: &'a [u8], order: Endianness) -> Result<Btf<'a>, BtfError>
        ensures holds { IfOk result (λ table. HoldsTable order bytes.now table) }
        ensures refused { IfErr result (λ e. e ≢ OutOfMemory → TableFault order bytes.now e) }
    {
        if bytes.len() < HEADER_LEN as usize {
            return Err(BtfError::InvalidHeader);
        }
        let Some(strings) = region(order, bytes, STRINGS) else {
            return Err(BtfError::InvalidHeader);
        };
        let Some(types) = region(order, bytes, TYPES) else {
            return Err(BtfError::InvalidTypeInfo);
        };
        Ok(Btf {
            records: TypeRecords::read(alloc, order, types)?,
            magic: half_word(order, bytes, 0),
            version: bytes[2],
            flags: bytes[3],
            strings: Strings::borrowed(strings),
        })
    }

    /// The bytes of a section with this table: the header, then the types, then the strings. The
    /// enums that unions stand for aren't written.
    pub fn to_bytes(&self) -> Result<Vec<u8>, AllocError>
        ensures written { IfOk result (λ section. section.items ≡ table_bytes self.now) }
        ensures holds { IfOk result (λ section.
            HoldsTable self.now.order section.items (without_fallbacks self.now)) }
    {
        let types_len = self.records.byte_len();
        let strings_len = self.strings.len();
        let header = Header {
            magic: self.magic,
            version: self.version,
            flags: self.flags,
            types_len: types_len as u32,
            strings_len: strings_len as u32,
        };
        let len = HEADER_LEN as usize + types_len + strings_len;
        let mut out = Vec::with_capacity(self.allocator(), len)?;
        push_header(&mut out, self.records.order(), header)?;
        self.records.write(&mut out)?;
        out.extend_from_slice(self.strings.as_slice())?;
        Ok(out)
    }
}
