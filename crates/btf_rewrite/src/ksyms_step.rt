//! The rewriting of the section `.ksyms` of a table.

ghost use Rattle.std.specs.Prelude.{◌≡◌, ◌≢◌, ◌+◌, ◌<◌, ◌++◌, ◌^◌, ◌∷◌, ◌⊎◌, [], Any, false, IfErr, IfOk, OnOk, length};
ghost use Rattle.std.proofs.Math.ListN.{get_or};
ghost use Rattle.btf_storage.specs.Growth.{AreFew, AreTooMany, TooMany};
ghost use Rattle.btf_records.specs.declared.error.BtfError.TheVariants.{InvalidTypeInfo, OutOfMemory};
ghost use Rattle.btf_rewrite.specs.Ksyms.{EntryFault, IsOverfull, KsymsFault, StepKeeps, SubjectFault, adds_int, leaves, section_entries, stepped, stepped_from, stepped_texts, stepped_types};
ghost use Rattle.btf_storage.specs.Ints.{int4_from, int_name, signed_int};
ghost use Rattle.btf_storage.specs.Faultless.{IsFaultless};
ghost use Rattle.btf_rewrite.specs.Steps.{IsStep, ksyms_of};

use crate::ksyms_section::{KsymsSection, int4_id, marks, placed_entries};
use btf_encoding::TypeRef;
use btf_records::{
    BtfError, BtfKind, BtfType, DataSec, DataSecEntry, FuncLinkage, Int, IntEncoding, Items, Var,
    VarLinkage,
};
use btf_storage::{MOST, TypeRecords};
use std::alloc::{AllocError, Global};

/// A table's rewritten records, and the text that follows its strings.
#[derive(Debug, Drop)]
pub(crate) struct SteppedTable<'a> {
    pub records: TypeRecords<'a>,
    pub texts: Vec<u8>,
}

/// The data that the records of a table are rewritten with.
#[derive(Drop)]
pub(crate) struct KsymsStep {
    /// The section's entries, each of 4 bytes at 4 times its index.
    entries: Items<DataSecEntry>,
    /// For each id, whether the section names it.
    marks: Vec<bool>,
    /// The id of the integer that its variables have as their type.
    int: u32,
    has_variables: bool,
}

/// Whether an id is marked.
fn is_marked(marks: &[bool], id: usize) -> bool
    ensures { result ≡ get_or marks.now id false }
{
    match marks.get(id) {
        Some(mark) => *mark,
        None => false,
    }
}

/// The rewritten record of an id.
fn stepped(
    k: &KsymsSection<'_>,
    step: &KsymsStep,
    id: usize,
    t: BtfType,
) -> Result<BtfType, AllocError>
    requires step { IsStep (ksyms_of k.now) step.now }
    requires within { id < length step.now.marks.items }
    ensures { IfOk result (λ r. r ≡ stepped (ksyms_of k.now) id t) }
{
    match t {
        BtfType::DataSec(t) if id == k.section as usize => Ok(BtfType::DataSec(DataSec {
            entries: step.entries.clone()?,
            size: 4 * step.entries.len() as u32,
            ..t
        })),
        BtfType::Func(t) if is_marked(step.marks.as_slice(), id) => {
            Ok(BtfType::Func(t.with_linkage(FuncLinkage::Global)))
        }
        BtfType::Var(t) if is_marked(step.marks.as_slice(), id) => Ok(BtfType::Var(Var {
            btf_type: step.int,
            linkage: VarLinkage::Global,
            ..t
        })),
        t => Ok(t),
    }
}

/// Whether the record of an id stays as it is.
fn leaves(k: &KsymsSection<'_>, step: &KsymsStep, id: usize, t: &TypeRef<'_>) -> bool
    requires step { IsStep (ksyms_of k.now) step.now }
    requires within { id < length step.now.marks.items }
    ensures { result ≡ leaves (ksyms_of k.now) id t.now }
{
    match t.kind() {
        BtfKind::DataSec => id != k.section as usize,
        BtfKind::Func | BtfKind::Var => !is_marked(step.marks.as_slice(), id),
        _ => true,
    }
}

/// Appends the rewritten record of an id.
#[tactic(auto, using(crate::proofs::Left::left_alone))]
fn step_next(
    alloc: Global,
    k: &KsymsSection<'_>,
    step: &KsymsStep,
    id: usize,
    t: &TypeRef<'_>,
    records: &mut TypeRecords<'_>,
) -> Result<(), BtfError>
    requires step { IsStep (ksyms_of k.now) step.now }
    requires within { id < length step.now.marks.items }
    ensures types { OnOk result
        (records.new.types ≡ records.old.types ++ stepped (ksyms_of k.now) id t.now ∷ []) }
    ensures order { OnOk result (records.new.order ≡ records.old.order) }
    ensures few { OnOk result (AreFew records.new.order records.new.types) }
    ensures refused { IfErr result (λ e.
        e ≢ OutOfMemory
        → (e ≡ InvalidTypeInfo)
        × AreTooMany records.old.order
        (records.old.types ++ stepped (ksyms_of k.now) id t.now ∷ [])) }
{
    if leaves(k, step, id, t) {
        return records.push_copy(t);
    }
    let t = t.to_type(alloc)?;
    let t = stepped(k, step, id, t)?;
    records.push(t)
}

/// Appends each rewritten record.
fn step_all(
    alloc: Global,
    k: &KsymsSection<'_>,
    step: &KsymsStep,
    records: &mut TypeRecords<'_>,
) -> Result<(), BtfError>
    requires empty { records.old.types ≡ [] }
    requires step { IsStep (ksyms_of k.now) step.now }
    requires marks { length step.now.marks.items ≡ length (ksyms_of k.now).types + 1 }
    ensures types { OnOk result
        (records.new.types ≡ stepped_from (ksyms_of k.now) 1 (ksyms_of k.now).types) }
    ensures order { OnOk result (records.new.order ≡ records.old.order) }
    ensures few { OnOk result (AreFew records.new.order records.new.types) }
    ensures refused { IfErr result (λ e.
        e ≢ OutOfMemory
        → (e ≡ InvalidTypeInfo)
        × AreTooMany records.old.order (stepped_from (ksyms_of k.now) 1 (ksyms_of k.now).types)) }
{
    let mut index = 0;
    while let Some(t) = k.types.get(index) {
        index += 1;
        step_next(alloc, k, step, index, &t, records)?;
    }
    Ok(())
}

/// The entries of the section.
fn section_entries(alloc: Global, k: &KsymsSection<'_>) -> Result<Items<DataSecEntry>, BtfError>
    ensures value { IfOk result (λ entries. entries ≡ section_entries (ksyms_of k.now)) }
    ensures refused { IfErr result (λ e. e ≢ OutOfMemory → SubjectFault (ksyms_of k.now) e) }
    ensures accepted { OnOk result (IsFaultless (SubjectFault (ksyms_of k.now))) }
{
    let type_id = k.section;
    let Some(t) = k.types.by_id(type_id as usize) else {
        return Err(BtfError::UnknownBtfType { type_id });
    };
    match t.to_type(alloc)? {
        BtfType::DataSec(section) => Ok(section.entries),
        _ => Err(BtfError::UnexpectedBtfType { type_id }),
    }
}

/// The data that the records of the table are rewritten with. `int` is the table's first integer of
/// 4 bytes, if it has one.
fn step_of(
    alloc: Global,
    k: &KsymsSection<'_>,
    entries: &[DataSecEntry],
    int: Option<u32>,
) -> Result<KsymsStep, BtfError>
    requires entries { entries.now ≡ section_entries (ksyms_of k.now) }
    requires few { length entries.now < 65536 }
    requires int { int ≡ int4_from 1 (ksyms_of k.now).types }
    ensures step { IfOk result (λ step. IsStep (ksyms_of k.now) step) }
    ensures marks { IfOk result (λ step.
        length step.marks.items ≡ length (ksyms_of k.now).types + 1) }
    ensures refused { IfErr result (λ e.
        e ≢ OutOfMemory → Any (λ entry. EntryFault (ksyms_of k.now) entry e) entries.now) }
    ensures accepted { OnOk result
        (IsFaultless (λ e. Any (λ entry. EntryFault (ksyms_of k.now) entry e) entries.now)) }
{
    let placed = placed_entries(alloc, k, entries)?;
    let next_id = k.types.len() + 1;
    Ok(KsymsStep {
        entries: Items::from_vec(placed.entries),
        marks: marks(alloc, next_id, entries)?,
        int: int.unwrap_or(next_id as u32),
        has_variables: placed.has_variables,
    })
}

/// The integer that is appended for variables where the table has no integer of 4 bytes.
fn signed_int(name_offset: u32) -> BtfType
    ensures { result ≡ signed_int name_offset }
{
    BtfType::Int(Int::new(name_offset, 4, IntEncoding::Signed, 0))
}

/// Appends that integer, and returns the text of its name.
fn add_int(
    alloc: Global,
    string_len: usize,
    records: &mut TypeRecords<'_>,
) -> Result<Vec<u8>, BtfError>
    requires { string_len < 2 ^ 32 }
    ensures types { OnOk result
        (records.new.types ≡ records.old.types ++ signed_int string_len ∷ []) }
    ensures order { OnOk result (records.new.order ≡ records.old.order) }
    ensures few { OnOk result (AreFew records.new.order records.new.types) }
    ensures text { IfOk result (λ text. text.items ≡ int_name ++ 0 ∷ []) }
    ensures short { OnOk result (string_len + 4 < 2 ^ 32) }
    ensures refused { IfErr result (λ e.
        e ≢ OutOfMemory
        → (e ≡ InvalidTypeInfo)
        × (TooMany (string_len + 4)
        ⊎ AreTooMany records.old.order (records.old.types ++ signed_int string_len ∷ []))) }
{
    let text = b"int\0";
    if string_len + text.len() > MOST {
        return Err(BtfError::InvalidTypeInfo);
    }
    records.push(signed_int(string_len as u32))?;
    Ok(Vec::from_slice(alloc, text)?)
}

/// The rewritten records, and after them the integer if it is added.
fn with_int<'a>(
    alloc: Global,
    k: &KsymsSection<'_>,
    is_added: bool,
    mut records: TypeRecords<'a>,
) -> Result<SteppedTable<'a>, BtfError>
    requires strings { length (ksyms_of k.now).strings < 2 ^ 32 }
    requires int { is_added ≡ adds_int (ksyms_of k.now) }
    requires types { records.types ≡ stepped_from (ksyms_of k.now) 1 (ksyms_of k.now).types }
    requires few { AreFew records.order records.types }
    ensures types { IfOk result (λ s. s.records.types ≡ stepped_types (ksyms_of k.now)) }
    ensures order { IfOk result (λ s. s.records.order ≡ records.entry.order) }
    ensures texts { IfOk result (λ s. s.texts.items ≡ stepped_texts (ksyms_of k.now)) }
    ensures refused { IfErr result (λ e.
        e ≢ OutOfMemory → IsOverfull records.entry.order (ksyms_of k.now) e) }
    ensures accepted { OnOk result (IsFaultless (IsOverfull records.entry.order (ksyms_of k.now))) }
{
    if !is_added {
        return Ok(SteppedTable {
            records,
            texts: Vec::new(alloc),
        });
    }
    let texts = add_int(alloc, k.strings.len(), &mut records)?;
    Ok(SteppedTable { records, texts })
}

/// The rewritten records, with the integer and its name where these are added.
fn stepped_table<'a>(alloc: Global, k: &KsymsSection<'_>) -> Result<SteppedTable<'a>, BtfError>
    requires { length (ksyms_of k.now).strings < 2 ^ 32 }
    ensures types { IfOk result (λ s. s.records.types ≡ stepped_types (ksyms_of k.now)) }
    ensures order { IfOk result (λ s. s.records.order ≡ k.now.types.now.order) }
    ensures texts { IfOk result (λ s. s.texts.items ≡ stepped_texts (ksyms_of k.now)) }
    ensures refused { IfErr result (λ e.
        e ≢ OutOfMemory → KsymsFault k.now.types.now.order (ksyms_of k.now) e) }
    ensures accepted { OnOk result
        (IsFaultless (KsymsFault k.now.types.now.order (ksyms_of k.now))) }
{
    let entries = section_entries(alloc, k)?;
    let int = int4_id(k.types);
    let step = step_of(alloc, k, entries.as_slice(), int)?;
    let mut records = TypeRecords::new(alloc, k.types.order());
    step_all(alloc, k, &step, &mut records)?;
    let is_added = step.has_variables && int.is_none();
    let table = with_int(alloc, k, is_added, records)?;
    Ok(table)
}

/// The records of a table after its section `.ksyms` is rewritten, and the text that follows its
/// strings. Each entry gets 4 bytes at 4 times its index. An entry that names a function names the
/// placeholder instead. The functions and variables that the section names become global. The
/// variables get the first integer of 4 bytes as their type; it is appended where there is none.
///
/// `UnknownBtfType` where no type has the id of the section or of an entry, `UnexpectedBtfType`
/// where the id isn't that of a section, `InvalidDatasec` where an entry names neither a function
/// nor a variable, or names a function and there is no placeholder, `InvalidTypeInfo` where the
/// size of the table overflows 32 bits.
pub(crate) fn fixup_ksyms<'a>(
    alloc: Global,
    k: &KsymsSection<'_>,
) -> Result<SteppedTable<'a>, BtfError>
    requires { length (ksyms_of k.now).strings < 2 ^ 32 }
    ensures types { IfOk result (λ s. s.records.types ≡ stepped_types (ksyms_of k.now)) }
    ensures order { IfOk result (λ s. s.records.order ≡ k.now.types.now.order) }
    ensures texts { IfOk result (λ s. s.texts.items ≡ stepped_texts (ksyms_of k.now)) }
    ensures refused { IfErr result (λ e.
        e ≢ OutOfMemory → KsymsFault k.now.types.now.order (ksyms_of k.now) e) }
    ensures accepted { OnOk result
        (IsFaultless (KsymsFault k.now.types.now.order (ksyms_of k.now))) }
    ensures keeps { IfOk result (λ s. StepKeeps (ksyms_of k.now) s.records.types) }
{
    let table = stepped_table(alloc, k)?;
    Ok(table)
}
