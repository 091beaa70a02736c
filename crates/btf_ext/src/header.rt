//! The header of a section.

ghost use Rattle.std.specs.Prelude.{◌≡◌, ◌≤◌, ◌<◌, ◌+◌, ◌^◌, ◌⊎◌, length, slice_index_or, IfErr, IfOk, MatchResult};
ghost use Rattle.btf_records.specs.declared.error.BtfError.TheVariants.{InvalidHeader};
ghost use Rattle.btf_ext.specs.Faults.{ExtentFault};
ghost use Rattle.btf_ext.specs.Regions.{HasHeader, IsHeaderCut, IsWithin, header_in, padded_word, region_extent, region_in};

use crate::region::{RegionExtent, RegionKind};
use btf_records::{BtfError, Endianness, word};

/// The least size of a header in bytes; its length is in these bytes.
const LEAST_LEN: usize = 8;

/// A region and its bytes.
#[derive(Clone, Copy)]
pub(crate) struct Region<'a> {
    pub(crate) kind: RegionKind,
    pub(crate) extent: RegionExtent,
    pub(crate) bytes: &'a [u8],
}

/// The byte at an offset of the header; 0 past its end.
fn padded_byte(header: &[u8], at: usize) -> u8
    ensures { result ≡ slice_index_or header.now at 0 }
{
    match header.get(at) {
        Some(byte) => *byte,
        None => 0,
    }
}

/// The word at an offset of the header; bytes past its end are read as 0.
fn padded_word(order: Endianness, header: &[u8], at: usize) -> u32
    requires { at < 2 ^ 16 }
    ensures { result ≡ padded_word order header.now at }
{
    let bytes = [
        padded_byte(header, at),
        padded_byte(header, at + 1),
        padded_byte(header, at + 2),
        padded_byte(header, at + 3),
    ];
    word(order, &bytes, 0)
}

/// The header that the section begins with.
pub(crate) fn header(order: Endianness, section: &[u8]) -> Result<&[u8], BtfError>
    ensures { MatchResult result (λ h.
        (h.now ≡ header_in order section.now) × HasHeader order section.now) (λ e.
        (e ≡ InvalidHeader) × IsHeaderCut order section.now) }
{
    if section.len() < LEAST_LEN {
        return Err(BtfError::InvalidHeader);
    }
    let len = word(order, section, 4) as usize;
    if len < LEAST_LEN {
        return Err(BtfError::InvalidHeader);
    }
    match section.get(..len) {
        Some(header) => Ok(header),
        None => Err(BtfError::InvalidHeader),
    }
}

/// The region's offset and length, by the header.
fn region_extent(kind: RegionKind, order: Endianness, section: &[u8], header: &[u8]) -> RegionExtent
    requires head { HasHeader order section.now }
    requires header { header.now ≡ header_in order section.now }
    ensures value { result ≡ region_extent kind order section.now }
    ensures few { result.offset < 2 ^ 33 }
    ensures few_bytes { result.len < 2 ^ 32 }
{
    let field = kind.field();
    RegionExtent {
        offset: word(order, section, 4) as usize + padded_word(order, header, field) as usize,
        len: padded_word(order, header, field + 4) as usize,
        section_len: section.len(),
    }
}

/// The region of a kind.
pub(crate) fn region_of<'a>(
    kind: RegionKind,
    order: Endianness,
    section: &'a [u8],
    header: &[u8],
) -> Result<Region<'a>, BtfError>
    requires head { HasHeader order section.now }
    requires header { header.now ≡ header_in order section.now }
    ensures kind { IfOk result (λ r. r.kind ≡ kind) }
    ensures extent { IfOk result (λ r. r.extent ≡ region_extent kind order section.now) }
    ensures within { IfOk result (λ _. IsWithin (region_extent kind order section.now)) }
    ensures bytes { IfOk result (λ r. r.bytes.now ≡ region_in kind order section.now) }
    ensures sized { IfOk result (λ r. (length r.bytes.now ≡ 0) ⊎ (4 ≤ length r.bytes.now)) }
    ensures few { IfOk result (λ r. length r.bytes.now < 2 ^ 32) }
    ensures refused { IfErr result (ExtentFault (region_extent kind order section.now)) }
{
    let extent = region_extent(kind, order, section, header);
    if extent.len > 0 && extent.len < 4 {
        return Err(extent.misplaced());
    }
    match section.get(extent.offset..extent.offset + extent.len) {
        Some(bytes) => Ok(Region {
            kind,
            extent,
            bytes,
        }),
        None => Err(extent.misplaced()),
    }
}
