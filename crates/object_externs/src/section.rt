//! The section `.ksyms` of a table.

ghost use Rattle.std.specs.Prelude.{◌≡◌, ◌≢◌, ℕ, IfErr, IfOk, IsSome, OnOk, false, true};
ghost use Rattle.btf_records.specs.Fields.{name_offset_of};
ghost use Rattle.btf_records.specs.declared.error.BtfError.TheVariants.{InvalidStringOffset, OutOfMemory};
ghost use Rattle.btf_storage.specs.Faultless.{IsFaultless};
ghost use Rattle.object_externs.specs.Faults.{SectionFault};
ghost use Rattle.btf_tables.specs.Tables.{type_by_id};
ghost use Rattle.object_externs.specs.Section.{entries_at, is_ksyms, is_unreadable, ksyms_section};

use btf_encoding::TypeRef;
use btf_records::{BtfError, BtfKind, DataSecEntry};
use btf_tables::Btf;
use std::alloc::{AllocError, Global};

/// The name of the section.
const KSYMS: &str = ".ksyms";

/// Whether a record is a section called `.ksyms`.
///
/// `InvalidStringOffset` where it is a section whose name can't be read.
fn is_ksyms(table: &Btf<'_>, t: &TypeRef<'_>) -> Result<bool, BtfError>
    ensures value { IfOk result (λ r. r ≡ is_ksyms table.now.strings t.now) }
    ensures accepted { OnOk result
        ((offset : ℕ) → is_unreadable table.now.strings offset t.now ≡ false) }
    ensures refused { IfErr result (λ e.
        (e ≡ InvalidStringOffset (name_offset_of t.now))
        × (is_unreadable table.now.strings (name_offset_of t.now) t.now ≡ true)) }
{
    if t.kind() != BtfKind::DataSec {
        return Ok(false);
    }
    Ok(table.string_at(t.name_offset())? == KSYMS)
}

/// The id of the first section called `.ksyms`, if there is one.
///
/// `InvalidStringOffset` where the name of a section before it can't be read.
pub(crate) fn ksyms_section(table: &Btf<'_>) -> Result<Option<u32>, BtfError>
    ensures value { IfOk result (λ found. found ≡ ksyms_section table.now) }
    ensures refused { IfErr result (SectionFault table.now) }
    ensures accepted { OnOk result (IsFaultless (SectionFault table.now)) }
{
    let mut id: usize = 0;
    for t in table.types() {
        if is_ksyms(table, &t)? {
            return Ok(Some(id as u32));
        }
        id += 1;
    }
    Ok(None)
}

/// The entries of the section of an id.
pub(crate) fn section_entries(
    alloc: Global,
    table: &Btf<'_>,
    section: u32,
) -> Result<Vec<DataSecEntry>, BtfError>
    requires { IsSome (type_by_id table.now section) }
    ensures value { IfOk result (λ entries. entries.items ≡ entries_at table.now section) }
    ensures refused { IfErr result (λ e. e ≡ OutOfMemory) }
{
    let t = table.type_by_id(section)?;
    let mut entries = Vec::with_capacity(alloc, t.count())?;
    let mut index = 0;
    while let Some(entry) = t.entry(index) {
        entries.push(entry)?;
        index += 1;
    }
    Ok(entries)
}
