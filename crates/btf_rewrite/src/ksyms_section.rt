//! The section `.ksyms`, whose entries the kernel resolves by name.

ghost use Rattle.std.specs.Prelude.{◌≡◌, ◌≢◌, ◌≤◌, ◌<◌, ◌∷◌, [], Any, IfErr, IfOk, OnOk, length, set, true};
ghost use Rattle.std.specs.List.{list_any};
ghost use Rattle.btf_records.specs.declared.error.BtfError.TheVariants.{InvalidTypeInfo, OutOfMemory};
ghost use Rattle.btf_records.specs.declared.kind.BtfKind.TheVariants as kinds;
ghost use Rattle.btf_rewrite.specs.Ksyms.{EntryFault, KsymsFault, int_id, names_a, placed_entry, placed_from, section_entries, stepped, stepped_from, stepped_texts, stepped_types};
ghost use Rattle.btf_storage.specs.Ints.{int4_from, is_int4, signed_int};
ghost use Rattle.btf_storage.specs.Faultless.{IsFaultless};
ghost use Rattle.btf_rewrite.specs.Steps.{AreMarks, ksyms_of};
ghost use Rattle.btf_storage.specs.Growth.{AreFew, AreTooMany};

use btf_encoding::TypeRef;
use btf_records::{BtfError, BtfKind, DataSecEntry};
use btf_storage::{Strings, TypeRecords};
use std::alloc::{AllocError, Global};

/// A section of a table, by id, and the id of the placeholder variable that replaces functions in
/// it.
#[derive(Debug, Drop)]
pub(crate) struct KsymsSection<'t> {
    pub types: &'t TypeRecords<'t>,
    pub strings: &'t Strings<'t>,
    pub section: u32,
    pub placeholder: Option<u32>,
}

/// An entry of 4 bytes at 4 times its index, with the placeholder where it names a function; and
/// whether it names a variable.
fn placed_entry(
    k: &KsymsSection<'_>,
    index: usize,
    entry: DataSecEntry,
) -> Result<(DataSecEntry, bool), BtfError>
    requires { index < 65536 }
    ensures value { IfOk result (λ e. e.0 ≡ placed_entry (ksyms_of k.now) index entry) }
    ensures variable { IfOk result (λ e. e.1 ≡ names_a kinds.Var (ksyms_of k.now) entry) }
    ensures refused { IfErr result (EntryFault (ksyms_of k.now) entry) }
    ensures accepted { OnOk result (IsFaultless (EntryFault (ksyms_of k.now) entry)) }
{
    let type_id = entry.btf_type;
    let Some(t) = k.types.by_id(type_id as usize) else {
        return Err(BtfError::UnknownBtfType { type_id });
    };
    let (btf_type, is_variable) = match t.kind() {
        BtfKind::Func => (k.placeholder.ok_or(BtfError::InvalidDatasec)?, false),
        BtfKind::Var => (type_id, true),
        _ => return Err(BtfError::InvalidDatasec),
    };
    let placed = DataSecEntry {
        btf_type,
        offset: 4 * index as u32,
        size: 4,
    };
    Ok((placed, is_variable))
}

/// The entries of the section, each of 4 bytes at 4 times its index, and whether one of them names
/// a variable.
#[derive(Drop)]
pub(crate) struct PlacedEntries {
    pub(crate) entries: Vec<DataSecEntry>,
    pub(crate) has_variables: bool,
}

/// The entries of the section, each of 4 bytes at 4 times its index.
pub(crate) fn placed_entries(
    alloc: Global,
    k: &KsymsSection<'_>,
    entries: &[DataSecEntry],
) -> Result<PlacedEntries, BtfError>
    requires { length entries.now < 65536 }
    ensures value { IfOk result (λ p.
        p.entries.items ≡ placed_from (ksyms_of k.now) 0 entries.now) }
    ensures len { IfOk result (λ p. length p.entries.items ≡ length entries.now) }
    ensures variables { IfOk result (λ p.
        p.has_variables ≡ list_any (names_a kinds.Var (ksyms_of k.now)) entries.now) }
    ensures refused { IfErr result (λ e.
        e ≢ OutOfMemory → Any (λ entry. EntryFault (ksyms_of k.now) entry e) entries.now) }
    ensures accepted { OnOk result
        (IsFaultless (λ e. Any (λ entry. EntryFault (ksyms_of k.now) entry e) entries.now)) }
{
    let mut placed = Vec::with_capacity(alloc, entries.len())?;
    let mut has_variables = false;
    for (index, entry) in entries.iter().enumerate() {
        let next = placed_entry(k, index, *entry)?;
        placed.push(next.0)?;
        has_variables |= next.1;
    }
    Ok(PlacedEntries {
        entries: placed,
        has_variables,
    })
}

/// Whether a record is an integer of 4 bytes.
fn is_int4(t: &TypeRef<'_>) -> bool
    ensures { result ≡ is_int4 t.now }
{
    match t.int() {
        Some(int) => int.size == 4,
        None => false,
    }
}

/// The least id of an integer of 4 bytes.
#[tactic(auto, using(std::proofs::lemmas::Option::slice_get_within, crate::proofs::Ints::int_here, crate::proofs::Ints::no_int_here, crate::proofs::Ints::no_ints_left))]
pub(crate) fn int4_id(types: &TypeRecords<'_>) -> Option<u32>
    ensures { result ≡ int4_from 1 types.now.types }
{
    let mut index = 0;
    while let Some(t) = types.get(index) {
        index += 1;
        if is_int4(&t) {
            return Some(index as u32);
        }
    }
    None
}

/// Marks an id, if it is less than the number of marks.
fn mark(marks: &mut Vec<bool>, id: usize)
    ensures len { length marks.new.items ≡ length marks.old.items }
    ensures within { id < length marks.old.items → marks.new.items ≡ set marks.old.items id true }
    ensures past { length marks.old.items ≤ id → marks.new.items ≡ marks.old.items }
{
    if id < marks.len() {
        marks[id] = true;
    }
}

/// For each id below `count`, whether an entry names it.
#[tactic(auto, using(crate::proofs::Marks::no_marks, crate::proofs::Marks::marked_within, crate::proofs::Marks::marked_past, crate::proofs::Marks::all_marks))]
pub(crate) fn marks(
    alloc: Global,
    count: usize,
    entries: &[DataSecEntry],
) -> Result<Vec<bool>, AllocError>
    ensures marks { IfOk result (λ m. AreMarks m.items entries.now) }
    ensures len { IfOk result (λ m. length m.items ≡ count) }
{
    let mut marks = vec![in alloc; false; count]?;
    for entry in entries {
        mark(&mut marks, entry.btf_type as usize);
    }
    Ok(marks)
}
