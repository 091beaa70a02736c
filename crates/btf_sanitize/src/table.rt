//! The rewriting of the records of a table, in order.

ghost use Rattle.std.specs.Prelude.{◌≡◌, ◌≢◌, ◌<◌, ◌++◌, ◌^◌, ◌∷◌, [], Any, IfErr, IfOk, OnOk, length, true};
ghost use Rattle.btf_records.specs.declared.error.BtfError.TheVariants.{InvalidTypeInfo, OutOfMemory};
ghost use Rattle.btf_sanitize.specs.Faults.{KindFault};
ghost use Rattle.btf_sanitize.specs.Kept.{Keeps};
ghost use Rattle.btf_sanitize.specs.Knowledge.{facts_of};
ghost use Rattle.btf_sanitize.specs.Rewritten.{after, after_all, all_rewritten, rewritten};
ghost use Rattle.btf_sanitize.specs.Stays.{stays};
ghost use Rattle.btf_sanitize.specs.Sanitized.{AnyFault, NextFault, SanitizingFault, sanitized_strings, sanitized_types};
ghost use Rattle.btf_storage.specs.Faultless.{IsFaultless};
ghost use Rattle.btf_storage.specs.Growth.{AreFew, AreTooMany};

use crate::additions::Additions;
use crate::known::Known;
use crate::own_texts::own_texts_fit;
use crate::rows::rewritten;
use crate::staying::stays;
use btf_encoding::TypeRef;
use btf_records::{BtfError, BtfType};
use btf_storage::TypeRecords;
use std::alloc::Global;

/// Appends a copy of a record that stays as it is.
#[tactic(auto, using(crate::proofs::Stays::stays_alone))]
fn keep(
    known: &Known<'_, '_, '_>,
    additions: &Additions,
    records: &mut TypeRecords<'_>,
    t: &TypeRef<'_>,
) -> Result<(), BtfError>
    requires { stays (facts_of known.now) t.now ≡ true }
    ensures types { OnOk result
        (records.new.types
        ≡ records.old.types ++ rewritten (facts_of known.now) additions.now t.now ∷ []) }
    ensures order { OnOk result (records.new.order ≡ records.old.order) }
    ensures added { OnOk result (additions.now ≡ after (facts_of known.now) additions.now t.now) }
    ensures few { OnOk result (AreFew records.new.order records.new.types) }
    ensures refused { IfErr result (λ e.
        e ≢ OutOfMemory → NextFault (facts_of known.now) records.old additions.now t.now e) }
    ensures accepted { OnOk result (IsFaultless (KindFault (facts_of known.now) t.now)) }
{
    records.push_copy(t)?;
    Ok(())
}

/// Appends a rewritten record.
fn rewrite_next(
    alloc: Global,
    known: &Known<'_, '_, '_>,
    additions: &mut Additions,
    records: &mut TypeRecords<'_>,
    t: &TypeRef<'_>,
) -> Result<(), BtfError>
    ensures types { OnOk result
        (records.new.types
        ≡ records.old.types ++ rewritten (facts_of known.now) additions.old t.now ∷ []) }
    ensures order { OnOk result (records.new.order ≡ records.old.order) }
    ensures added { OnOk result (additions.new ≡ after (facts_of known.now) additions.old t.now) }
    ensures few { OnOk result (AreFew records.new.order records.new.types) }
    ensures refused { IfErr result (λ e.
        e ≢ OutOfMemory → NextFault (facts_of known.now) records.old additions.old t.now e) }
    ensures accepted { OnOk result (IsFaultless (KindFault (facts_of known.now) t.now)) }
{
    if stays(known, t) {
        return keep(known, additions, records, t);
    }
    let t = t.to_type(alloc)?;
    let t = rewritten(alloc, known, additions, t)?;
    records.push(t)
}

/// Appends each rewritten record.
#[tactic(auto, using(crate::proofs::Passes::refused_here))]
fn rewrite_all(
    alloc: Global,
    known: &Known<'_, '_, '_>,
    additions: &mut Additions,
    records: &mut TypeRecords<'_>,
) -> Result<(), BtfError>
    requires { records.old.types ≡ [] }
    ensures types { OnOk result
        (records.new.types
        ≡ all_rewritten (facts_of known.now) additions.old (facts_of known.now).types) }
    ensures order { OnOk result (records.new.order ≡ records.old.order) }
    ensures added { OnOk result
        (additions.new ≡ after_all (facts_of known.now) additions.old (facts_of known.now).types) }
    ensures few { OnOk result (AreFew records.new.order records.new.types) }
    ensures refused { IfErr result (λ e.
        e ≢ OutOfMemory → AnyFault (facts_of known.now) records.old.order additions.old e) }
    ensures accepted { OnOk result
        (IsFaultless (λ e.
        Any (λ t. KindFault (facts_of known.now) t e) (facts_of known.now).types)) }
{
    let mut index = 0;
    while let Some(t) = known.types.get(index) {
        rewrite_next(alloc, known, additions, records, &t)?;
        index += 1;
    }
    Ok(())
}

/// Appends types.
#[tactic(auto, using(crate::proofs::Passes::too_many_next))]
fn push_all(records: &mut TypeRecords<'_>, types: Vec<BtfType>) -> Result<(), BtfError>
    requires { AreFew records.old.order records.old.types }
    ensures types { OnOk result (records.new.types ≡ records.old.types ++ types.items) }
    ensures order { OnOk result (records.new.order ≡ records.old.order) }
    ensures few { OnOk result (AreFew records.new.order records.new.types) }
    ensures refused { IfErr result (λ e.
        e ≢ OutOfMemory
        → (e ≡ InvalidTypeInfo) × AreTooMany records.old.order (records.old.types ++ types.items)) }
{
    for t in types {
        records.push(t)?;
    }
    Ok(())
}

/// A table's rewritten records, and the texts that follow its strings.
#[derive(Debug, Drop)]
pub struct SanitizedTable<'a> {
    pub records: TypeRecords<'a>,
    pub texts: Vec<u8>,
}

/// The rewritten records, with the types and the texts that are added.
fn rewritten_table<'a>(
    alloc: Global,
    known: &Known<'_, '_, '_>,
) -> Result<SanitizedTable<'a>, BtfError>
    requires { length (facts_of known.now).strings < 2 ^ 32 }
    ensures types { IfOk result (λ s. s.records.types ≡ sanitized_types (facts_of known.now)) }
    ensures order { IfOk result (λ s. s.records.order ≡ known.now.types.now.order) }
    ensures strings { IfOk result (λ s.
        (facts_of known.now).strings ++ s.texts.items ≡ sanitized_strings (facts_of known.now)) }
    ensures refused { IfErr result (λ e.
        e ≢ OutOfMemory → SanitizingFault known.now.types.now.order (facts_of known.now) e) }
    ensures accepted { OnOk result
        (IsFaultless (SanitizingFault known.now.types.now.order (facts_of known.now))) }
{
    if !own_texts_fit(known) {
        return Err(BtfError::InvalidTypeInfo);
    }
    let mut additions = Additions::new(alloc, known.strings.len(), known.types.len());
    let mut records = TypeRecords::new(alloc, known.types.order());
    rewrite_all(alloc, known, &mut additions, &mut records)?;
    let (texts, types) = additions.into_parts();
    push_all(&mut records, types)?;
    Ok(SanitizedTable { records, texts })
}

/// The records of a table, each rewritten under its id, and after them the types that are added;
/// and the texts that are added after the table's strings. The rewritten records need only granted
/// features.
///
/// `InvalidStringOffset` where a needed name can't be read, `UnknownBtfType` where an entry of a
/// section names no type, `InvalidDatasec` where it names no variable or its offset is too great,
/// `UnknownSectionSize` and `SymbolOffsetNotFound` where a section lacks a size or an offset that
/// the object doesn't give, `InvalidTypeInfo` where the number of bytes of the strings, of types,
/// or of bytes of the types overflows 32 bits.
pub fn sanitize<'a>(
    alloc: Global,
    known: &Known<'_, '_, '_>,
) -> Result<SanitizedTable<'a>, BtfError>
    requires { length (facts_of known.now).strings < 2 ^ 32 }
    ensures types { IfOk result (λ s. s.records.types ≡ sanitized_types (facts_of known.now)) }
    ensures order { IfOk result (λ s. s.records.order ≡ known.now.types.now.order) }
    ensures strings { IfOk result (λ s.
        (facts_of known.now).strings ++ s.texts.items ≡ sanitized_strings (facts_of known.now)) }
    ensures refused { IfErr result (λ e.
        e ≢ OutOfMemory → SanitizingFault known.now.types.now.order (facts_of known.now) e) }
    ensures accepted { OnOk result
        (IsFaultless (SanitizingFault known.now.types.now.order (facts_of known.now))) }
    ensures keeps { IfOk result (λ s. Keeps (facts_of known.now) s.records.types) }
{
    let table = rewritten_table(alloc, known)?;
    Ok(table)
}
