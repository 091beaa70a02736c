//! Tables rewritten to use only the features that a kernel grants.

ghost use Rattle.std.specs.Prelude.{◌≡◌, ◌≢◌, ◌⊎◌, IfErr, IfOk, OnErr, OnOk};
ghost use Rattle.btf_records.specs.declared.error.BtfError.TheVariants.{OutOfMemory};
ghost use Rattle.btf_sanitize.specs.Facts.{number_named};
ghost use Rattle.btf_sanitize.specs.Kept.{Keeps};
ghost use Rattle.btf_rewrite.specs.Ksyms.{KsymsFault, StepKeeps, leaves};
ghost use Rattle.btf_rewrite.specs.Carrying.{Carries, stays_in};
ghost use Rattle.btf_tables.specs.GrownTables.{TextsStay};
ghost use Rattle.btf_rewrite.specs.Sanitizing.{AreAnswersFor, IsAccepted, IsRefused, StepFault, StepStays, facts_in, ksyms_in, sanitized, stepped, with_ksyms};
ghost use Rattle.btf_storage.specs.Faultless.{IsFaultless};

use crate::ksyms_section::KsymsSection;
use crate::ksyms_step::fixup_ksyms;
use btf_records::{BtfError, BtfFeature};
use btf_sanitize::{Answers, Known, ask_all, sanitize};
use btf_storage::KsymsIds;
use btf_tables::Btf;
use std::collections::BTreeMap;

/// A rewritten table, and the answers that it depends on.
#[derive(Drop)]
struct Rewritten<'a> {
    answers: Answers,
    table: Btf<'a>,
}

/// The table after its section `.ksyms` is rewritten.
fn with_ksyms<'a>(
    table: &Btf<'a>,
    section: u32,
    placeholder: Option<u32>,
) -> Result<Btf<'a>, BtfError>
    ensures value { IfOk result (λ t. t ≡ with_ksyms section placeholder table.now) }
    ensures refused { IfErr result (λ e.
        e ≢ OutOfMemory → KsymsFault table.now.order (ksyms_in table.now section placeholder) e) }
    ensures accepted { OnOk result
        (IsFaultless (KsymsFault table.now.order (ksyms_in table.now section placeholder))) }
    ensures keeps { IfOk result (λ t.
        StepKeeps (ksyms_in table.now section placeholder) t.types) }
    ensures texts { IfOk result (λ t. TextsStay table.now t) }
{
    let types = table.records();
    let strings = table.strings();
    let ksyms = KsymsSection {
        types,
        strings,
        section,
        placeholder,
    };
    let step = fixup_ksyms(table.allocator(), &ksyms)?;
    let stepped = table.with_records(step.records, step.texts.as_slice())?;
    Ok(stepped)
}

/// Rewrites the section `.ksyms`, of this id, and the records that it names. Each entry gets 4
/// bytes at 4 times its index. An entry that names a function names the placeholder instead. These
/// functions and variables become global. The variables get the first integer of 4 bytes as their
/// type; it is added where there is none.
///
/// `UnknownBtfType` where no type has the id of the section or of an entry, `UnexpectedBtfType`
/// where the id isn't that of a section, `InvalidDatasec` where an entry names neither a function
/// nor a variable, or names a function and there is no placeholder, `InvalidTypeInfo` where the
/// size of the table overflows 32 bits.
pub fn fixup_ksyms_datasec(
    table: &mut Btf<'_>,
    section: u32,
    placeholder: Option<u32>,
) -> Result<(), BtfError>
    ensures table { OnOk result (table.new ≡ with_ksyms section placeholder table.old) }
    ensures refused { IfErr result (λ e.
        e ≢ OutOfMemory → KsymsFault table.old.order (ksyms_in table.old section placeholder) e) }
    ensures accepted { OnOk result
        (IsFaultless (KsymsFault table.old.order (ksyms_in table.old section placeholder))) }
    ensures keeps { OnOk result
        (StepKeeps (ksyms_in table.old section placeholder) table.new.types) }
    ensures texts { OnOk result (TextsStay table.old table.new) }
    ensures carries { OnOk result
        (Carries (leaves (ksyms_in table.old section placeholder)) table.old table.new) }
    ensures err { OnErr result (table.new ≡ table.old) }
{
    let stepped = with_ksyms(table, section, placeholder)?;
    *table = stepped;
    Ok(())
}

/// The table rewritten to use only granted features, and the answers.
fn granted_table<'a, 'm, 'n, F: FnMut(BtfFeature) -> bool>(
    table: &Btf<'a>,
    sizes: &'m BTreeMap<&'n str, u64>,
    offsets: &'m BTreeMap<&'n str, u64>,
    predicate: F,
) -> Result<Rewritten<'a>, BtfError>
    requires { F.IsAlwaysCallable predicate }
    ensures value { IfOk result (λ r.
        r.table
        ≡ sanitized r.answers.items (number_named sizes.now.entries)
        (number_named offsets.now.entries) table.now) }
    ensures answers { IfOk result (λ r.
        AreAnswersFor F.FnMut predicate table.now r.answers.items) }
    ensures refused { IfErr result (λ e.
        e ≢ OutOfMemory
        → IsRefused F.FnMut predicate (number_named sizes.now.entries)
        (number_named offsets.now.entries) table.now e) }
    ensures accepted { IfOk result (λ r.
        IsAccepted r.answers.items (number_named sizes.now.entries)
        (number_named offsets.now.entries) table.now) }
    ensures keeps { IfOk result (λ r.
        Keeps
        (facts_in r.answers.items (number_named sizes.now.entries)
        (number_named offsets.now.entries) table.now) r.table.types) }
    ensures texts { IfOk result (λ r. TextsStay table.now r.table) }
{
    let mut predicate = predicate;
    let types = table.records();
    let strings = table.strings();
    let answers = ask_all(&mut predicate, strings, types);
    let known = Known {
        answers: &answers,
        strings,
        types,
        sizes,
        offsets,
    };
    let sanitized = sanitize(table.allocator(), &known)?;
    let table = table.with_records(sanitized.records, sanitized.texts.as_slice())?;
    Ok(Rewritten { answers, table })
}

/// The same, after the section `.ksyms` of these ids is rewritten.
#[tactic(auto, using(crate::proofs::Sanitized::texts_then))]
fn granted_table_after<'a, 'm, 'n, F: FnMut(BtfFeature) -> bool>(
    table: &Btf<'a>,
    ksyms: Option<KsymsIds>,
    sizes: &'m BTreeMap<&'n str, u64>,
    offsets: &'m BTreeMap<&'n str, u64>,
    predicate: F,
) -> Result<Rewritten<'a>, BtfError>
    requires { F.IsAlwaysCallable predicate }
    ensures value { IfOk result (λ r.
        r.table
        ≡ sanitized r.answers.items (number_named sizes.now.entries)
        (number_named offsets.now.entries) (stepped ksyms table.now)) }
    ensures answers { IfOk result (λ r.
        AreAnswersFor F.FnMut predicate (stepped ksyms table.now) r.answers.items) }
    ensures refused { IfErr result (λ e.
        e ≢ OutOfMemory
        → StepFault ksyms table.now e
        ⊎ (IsFaultless (StepFault ksyms table.now)
        × IsRefused F.FnMut predicate (number_named sizes.now.entries)
        (number_named offsets.now.entries) (stepped ksyms table.now) e)) }
    ensures stepped { OnOk result (IsFaultless (StepFault ksyms table.now)) }
    ensures accepted { IfOk result (λ r.
        IsAccepted r.answers.items (number_named sizes.now.entries)
        (number_named offsets.now.entries) (stepped ksyms table.now)) }
    ensures step { OnOk result (StepStays ksyms table.now) }
    ensures keeps { IfOk result (λ r.
        Keeps
        (facts_in r.answers.items (number_named sizes.now.entries)
        (number_named offsets.now.entries) (stepped ksyms table.now)) r.table.types) }
    ensures texts { IfOk result (λ r. TextsStay table.now r.table) }
{
    let Some((section, placeholder)) = ksyms else {
        return granted_table(table, sizes, offsets, predicate);
    };
    let stepped = with_ksyms(table, section, placeholder)?;
    let rewritten = granted_table(&stepped, sizes, offsets, predicate)?;
    Ok(rewritten)
}

/// Rewrites the table to use only the features that a kernel grants, by the predicate: first the
/// section `.ksyms` of these ids, as `fixup_ksyms_datasec` does, then each record. A record that
/// needs a feature that isn't granted is replaced by records that every kernel supports. Where
/// sections are granted, a section without a size gets the size of the object's section of that
/// name, and its variables get the offsets of their symbols. Returns the features that were asked
/// about with the answers, each once, in the order in which records need them.
///
/// The errors of `fixup_ksyms_datasec`; `InvalidStringOffset` where a needed name can't be read,
/// `UnknownSectionSize` and `SymbolOffsetNotFound` where a section lacks a size or an offset that
/// the object doesn't give, `InvalidDatasec` where an entry of a section names no variable or its
/// offset is too great.
pub fn fixup_and_sanitize<'m, 'n, F: FnMut(BtfFeature) -> bool>(
    table: &mut Btf<'_>,
    sizes: &'m BTreeMap<&'n str, u64>,
    offsets: &'m BTreeMap<&'n str, u64>,
    ksyms: Option<KsymsIds>,
    predicate: F,
) -> Result<Answers, BtfError>
    requires { F.IsAlwaysCallable predicate }
    ensures table { IfOk result (λ answers.
        table.new
        ≡ sanitized answers.items (number_named sizes.now.entries)
        (number_named offsets.now.entries) (stepped ksyms table.old)) }
    ensures answers { IfOk result (λ answers.
        AreAnswersFor F.FnMut predicate (stepped ksyms table.old) answers.items) }
    ensures refused { IfErr result (λ e.
        e ≢ OutOfMemory
        → StepFault ksyms table.old e
        ⊎ (IsFaultless (StepFault ksyms table.old)
        × IsRefused F.FnMut predicate (number_named sizes.now.entries)
        (number_named offsets.now.entries) (stepped ksyms table.old) e)) }
    ensures stepped { OnOk result (IsFaultless (StepFault ksyms table.old)) }
    ensures accepted { IfOk result (λ answers.
        IsAccepted answers.items (number_named sizes.now.entries)
        (number_named offsets.now.entries) (stepped ksyms table.old)) }
    ensures step { OnOk result (StepStays ksyms table.old) }
    ensures keeps { IfOk result (λ answers.
        Keeps
        (facts_in answers.items (number_named sizes.now.entries)
        (number_named offsets.now.entries) (stepped ksyms table.old)) table.new.types) }
    ensures texts { OnOk result (TextsStay table.old table.new) }
    ensures carries { IfOk result (λ answers.
        Carries
        (stays_in ksyms table.old
        (facts_in answers.items (number_named sizes.now.entries)
        (number_named offsets.now.entries) (stepped ksyms table.old))) table.old table.new) }
    ensures err { OnErr result (table.new ≡ table.old) }
{
    let rewritten = granted_table_after(table, ksyms, sizes, offsets, predicate)?;
    *table = rewritten.table;
    Ok(rewritten.answers)
}
