//! Sections of variables.

ghost use Rattle.std.specs.Prelude.{◌≡◌, ◌≢◌, ◌⊎◌, ◌∷◌, [], Any, IfErr, IfOk, OnOk, Some, length, map};
ghost use Rattle.btf_records.specs.declared.error.BtfError.TheVariants.{OutOfMemory};
ghost use Rattle.btf_sanitize.specs.Faults.{IsTooMuch, MemberFault, PlaceFault, SectionFault, SizeFault, UnsizedFault};
ghost use Rattle.btf_sanitize.specs.Additions.{with_renamed};
ghost use Rattle.string_table.specs.Texts.{text_at};
ghost use Rattle.btf_sanitize.specs.Knowledge.{facts_of};
ghost use Rattle.btf_sanitize.specs.Rewritten.{after_granted, after_section, filler_entry, granted_section, member_of_entry, placed, rewritten_section, section_size, section_struct, sized};
ghost use Rattle.btf_storage.specs.Faultless.{IsFaultless};

use crate::additions::Additions;
use crate::known::Known;
use btf_records::{
    BtfError, BtfFeature, BtfMember, BtfType, DataSec, DataSecEntry, Items, Struct, VarLinkage,
};
use std::alloc::{AllocError, Global};

/// The member that replaces an entry: its type's name, its type, and its offset in bits.
fn member_of_entry(known: &Known<'_, '_, '_>, entry: DataSecEntry) -> Result<BtfMember, BtfError>
    ensures value { IfOk result (λ m. m ≡ member_of_entry (facts_of known.now) entry) }
    ensures refused { IfErr result (MemberFault (facts_of known.now) entry) }
    ensures accepted { OnOk result (IsFaultless (MemberFault (facts_of known.now) entry)) }
{
    let type_id = entry.btf_type;
    let Some(t) = known.type_at(type_id) else {
        return Err(BtfError::UnknownBtfType { type_id });
    };
    let Some(offset) = entry.offset.checked_mul(8) else {
        return Err(BtfError::InvalidDatasec);
    };
    Ok(BtfMember {
        name_offset: t.name_offset(),
        btf_type: type_id,
        offset,
    })
}

/// A member for each entry of a section.
pub(crate) fn members_of_entries(
    alloc: Global,
    known: &Known<'_, '_, '_>,
    entries: &[DataSecEntry],
) -> Result<Vec<BtfMember>, BtfError>
    ensures value { IfOk result (λ members.
        members.items ≡ map (member_of_entry (facts_of known.now)) entries.now) }
    ensures len { IfOk result (λ members. length members.items ≡ length entries.now) }
    ensures refused { IfErr result (λ e.
        e ≢ OutOfMemory → Any (λ entry. MemberFault (facts_of known.now) entry e) entries.now) }
    ensures accepted { OnOk result
        (IsFaultless (λ e. Any (λ entry. MemberFault (facts_of known.now) entry e) entries.now)) }
{
    let mut members = Vec::with_capacity(alloc, entries.len())?;
    for entry in entries {
        members.push(member_of_entry(known, *entry)?)?;
    }
    Ok(members)
}

/// An entry; at its symbol's offset, unless its variable is static.
fn placed(
    alloc: Global,
    known: &Known<'_, '_, '_>,
    entry: DataSecEntry,
) -> Result<DataSecEntry, BtfError>
    ensures value { IfOk result (λ e. e ≡ placed (facts_of known.now) entry) }
    ensures refused { IfErr result (λ e.
        e ≢ OutOfMemory → PlaceFault (facts_of known.now) entry e) }
    ensures accepted { OnOk result (IsFaultless (PlaceFault (facts_of known.now) entry)) }
{
    let type_id = entry.btf_type;
    let Some(t) = known.type_at(type_id) else {
        return Err(BtfError::UnknownBtfType { type_id });
    };
    let Some(var) = t.var() else {
        return Err(BtfError::InvalidDatasec);
    };
    if matches!(var.linkage, VarLinkage::Static) {
        return Ok(entry);
    }
    let Some(name) = known.text_at(var.name_offset) else {
        return Err(BtfError::InvalidStringOffset {
            offset: var.name_offset as usize,
        });
    };
    let Some(offset) = known.offset_of(name) else {
        return Err(BtfError::SymbolOffsetNotFound {
            symbol_name: String::from_str(alloc, name)?,
        });
    };
    match u32::try_from(offset) {
        Ok(offset) => Ok(DataSecEntry { offset, ..entry }),
        Err(_) => Err(BtfError::InvalidDatasec),
    }
}

/// The entries of a section, each at its symbol's offset, unless its variable is static.
pub(crate) fn placed_entries(
    alloc: Global,
    known: &Known<'_, '_, '_>,
    entries: &[DataSecEntry],
) -> Result<Vec<DataSecEntry>, BtfError>
    ensures value { IfOk result (λ p. p.items ≡ map (placed (facts_of known.now)) entries.now) }
    ensures len { IfOk result (λ p. length p.items ≡ length entries.now) }
    ensures refused { IfErr result (λ e.
        e ≢ OutOfMemory → Any (λ entry. PlaceFault (facts_of known.now) entry e) entries.now) }
    ensures accepted { OnOk result
        (IsFaultless (λ e. Any (λ entry. PlaceFault (facts_of known.now) entry e) entries.now)) }
{
    let mut placed_entries = Vec::with_capacity(alloc, entries.len())?;
    for entry in entries {
        placed_entries.push(placed(alloc, known, *entry)?)?;
    }
    Ok(placed_entries)
}

/// The size of a section of the object, in bytes.
pub(crate) fn section_size(
    alloc: Global,
    known: &Known<'_, '_, '_>,
    name: &str,
) -> Result<u32, BtfError>
    ensures value { IfOk result (λ size. size ≡ section_size (facts_of known.now) name.now) }
    ensures refused { IfErr result (λ e.
        e ≢ OutOfMemory → SizeFault (facts_of known.now) name.now e) }
    ensures accepted { OnOk result (IsFaultless (SizeFault (facts_of known.now) name.now)) }
{
    let Some(size) = known.size_of(name) else {
        return Err(BtfError::UnknownSectionSize {
            section_name: String::from_str(alloc, name)?,
        });
    };
    u32::try_from(size).map_err(|_| BtfError::InvalidDatasec)
}

/// The struct that replaces a section where the kernel doesn't support sections.
fn struct_of_section(
    alloc: Global,
    known: &Known<'_, '_, '_>,
    additions: &mut Additions,
    name: &str,
    t: &DataSec,
) -> Result<Struct, BtfError>
    requires { text_at (facts_of known.now).strings t.now.name_offset ≡ Some name.now }
    ensures value { IfOk result (λ r. r ≡ section_struct (facts_of known.now) additions.old t.now) }
    ensures added { OnOk result (additions.new ≡ with_renamed 46 95 name.now additions.old) }
    ensures refused { IfErr result (λ e.
        e ≢ OutOfMemory
        → Any (λ entry. MemberFault (facts_of known.now) entry e) t.now.entries
        ⊎ IsTooMuch (with_renamed 46 95 name.now additions.old) e) }
    ensures accepted { OnOk result
        (IsFaultless (λ e. Any (λ entry. MemberFault (facts_of known.now) entry e) t.now.entries)) }
{
    let members = members_of_entries(alloc, known, t.entries.as_slice())?;
    let name_offset = additions.rename(name, t.name_offset, b'.', b'_')?;
    Ok(Struct::new(name_offset, members, t.entries.len() as u32))
}

/// A section with its size and the offsets of its variables. They are filled in where the record's
/// size is 0.
fn sized(
    alloc: Global,
    known: &Known<'_, '_, '_>,
    name: &str,
    t: DataSec,
) -> Result<DataSec, BtfError>
    requires { text_at (facts_of known.now).strings t.name_offset ≡ Some name.now }
    ensures value { IfOk result (λ r. r ≡ sized (facts_of known.now) t) }
    ensures refused { IfErr result (λ e.
        e ≢ OutOfMemory → (t.size ≡ 0) × UnsizedFault (facts_of known.now) t e) }
    ensures accepted { OnOk result
        (IsFaultless (λ e. (t.size ≡ 0) × UnsizedFault (facts_of known.now) t e)) }
{
    if t.size != 0 {
        return Ok(t);
    }
    let size = section_size(alloc, known, name)?;
    let entries = placed_entries(alloc, known, t.entries.as_slice())?;
    Ok(DataSec {
        size,
        entries: Items::from_vec(entries),
        ..t
    })
}

/// The one entry of a section that had no variables.
fn filler_entries(alloc: Global, filler: u32) -> Result<Items<DataSecEntry>, AllocError>
    ensures { IfOk result (λ entries. entries ≡ filler_entry filler ∷ []) }
{
    let mut entries = Items::new(alloc);
    entries.push(DataSecEntry {
        btf_type: filler,
        offset: 0,
        size: 1,
    })?;
    Ok(entries)
}

/// The rewritten section where the kernel supports sections.
fn granted_section(
    alloc: Global,
    known: &Known<'_, '_, '_>,
    additions: &mut Additions,
    name: &str,
    t: DataSec,
) -> Result<DataSec, BtfError>
    requires { text_at (facts_of known.now).strings t.name_offset ≡ Some name.now }
    ensures value { IfOk result (λ r. r ≡ granted_section (facts_of known.now) additions.old t) }
    ensures added { OnOk result
        (additions.new ≡ after_granted (facts_of known.now) additions.old t) }
    ensures refused { IfErr result (λ e.
        e ≢ OutOfMemory
        → ((t.size ≡ 0) × UnsizedFault (facts_of known.now) t e)
        ⊎ IsTooMuch (after_granted (facts_of known.now) additions.old t) e) }
    ensures accepted { OnOk result
        (IsFaultless (λ e. (t.size ≡ 0) × UnsizedFault (facts_of known.now) t e)) }
{
    let is_filled = t.size == 0 && t.entries.is_empty() && !known.grants(BtfFeature::DataSecZero);
    let name_offset = additions.rename(name, t.name_offset, b'/', b'.')?;
    let section = sized(alloc, known, name, t)?;
    if !is_filled {
        return Ok(DataSec {
            name_offset,
            ..section
        });
    }
    let filler = additions.filler()?;
    Ok(DataSec {
        name_offset,
        size: section.size.max(1),
        entries: filler_entries(alloc, filler)?,
        ..section
    })
}

/// The rewritten record of a `BTF_KIND_DATASEC`.
pub(crate) fn rewritten_section(
    alloc: Global,
    known: &Known<'_, '_, '_>,
    additions: &mut Additions,
    t: DataSec,
) -> Result<BtfType, BtfError>
    ensures value { IfOk result (λ r. r ≡ rewritten_section (facts_of known.now) additions.old t) }
    ensures added { OnOk result
        (additions.new ≡ after_section (facts_of known.now) additions.old t) }
    ensures refused { IfErr result (λ e.
        e ≢ OutOfMemory
        → SectionFault (facts_of known.now) t e
        ⊎ IsTooMuch (after_section (facts_of known.now) additions.old t) e) }
    ensures accepted { OnOk result (IsFaultless (SectionFault (facts_of known.now) t)) }
{
    let name = known.name_at(t.name_offset)?;
    if known.grants(BtfFeature::DataSec) {
        let section = granted_section(alloc, known, additions, name, t)?;
        return Ok(BtfType::DataSec(section));
    }
    let section = struct_of_section(alloc, known, additions, name, &t)?;
    Ok(BtfType::Struct(section))
}
