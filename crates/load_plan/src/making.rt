//! The passes over a parsed object.

ghost use Rattle.std.specs.Prelude.{◌≡◌, ◌≢◌, ◌≤◌, ◌^◌, ℕ, List, false, length, slice_get, IfErr, IfOk, OnOk};
ghost use Rattle.extern_resolution.specs.Outcomes.{is_any_sought};
ghost use Rattle.ebpf_object.specs.TextSections as code;
ghost use Rattle.ebpf_object.specs.Rewriting.{AreAnswered};
ghost use Rattle.load_plan.specs.Inputs.{ForText, inputs, symbols_given};
ghost use Rattle.load_plan.specs.Made.{AreTypesMade, AreTypesRefused, IsMade, IsRefusedTypes};
ghost use Rattle.load_plan.specs.Passes.{CannotLink, CannotPutValues, CannotResolve, CannotWriteExterns, CannotWriteNumbers, HasNamelessRecord, CannotRelocateTypes, HasKernelTypes, IsNumbered, KeepsNamed, LacksKernelTypes, LacksNumber, LinksPrograms, OfKsyms, OfParse, OfRelocation, OfTypeRelocation, PutsValues, RelocatesTypes, ResolvesExterns, RewritesTypes, WritesExterns, WritesNumbers};
ghost use Rattle.load_plan.specs.Planned.{IsRefusedObject};
ghost use Rattle.plan_errors.specs.declared.error.PrepareError.TheVariants.{OutOfMemory};
ghost use Rattle.watched.specs.Watched.{has_failed, watched_inner};

use crate::named_functions::nameless_record;
use crate::numbered::{numbered_maps, unnumbered_map};
use crate::order::Order;
use btf_records::BtfFeature;
use btf_tables::Btf;
use ebpf_object::{Maps, Object, Watched};
use plan_errors::PrepareError;
use plan_text::Answers;
use settings::Settings;
use std::alloc::Global;
use std::collections::BTreeSet;
use std::io::BufRead;

/// Refuses an object with a function that keeps a record whose type isn't a function with a name.
fn require_named(alloc: Global, object: &Object<'_>) -> Result<(), PrepareError>
    ensures made { OnOk result (KeepsNamed object.now object.now) }
    ensures refused { IfErr result (λ e. e ≢ OutOfMemory → HasNamelessRecord object.now e) }
{
    match nameless_record(object.btf(), object.functions()) {
        Some((name, type_id)) => Err(PrepareError::FunctionRecordType {
            function: String::from_str(alloc, name)?,
            type_id,
        }),
        None => Ok(()),
    }
}

/// Refuses an object with a map for which no number is set.
fn require_numbered(
    alloc: Global,
    settings: &Settings,
    object: &Object<'_>,
) -> Result<(), PrepareError>
    ensures made { OnOk result (IsNumbered settings.now object.now object.now) }
    ensures refused { IfErr result (λ e. e ≢ OutOfMemory → LacksNumber settings.now object.now e) }
{
    match unnumbered_map(object.maps(), settings) {
        Some(name) => Err(PrepareError::MapNumberMissing {
            name: String::from_str(alloc, name)?,
        }),
        None => Ok(()),
    }
}

/// Writes the values of global variables into an object's maps.
fn put_values(settings: &Settings, object: &mut Object<'_>) -> Result<(), PrepareError>
    ensures made { OnOk result (PutsValues settings.now object.old object.new) }
    ensures refused { IfErr result (λ e.
        e ≢ OutOfMemory → OfParse (CannotPutValues settings.now object.old) e) }
{
    object.put_values(settings.globals())?;
    Ok(())
}

/// Refuses an object with type relocations where no kernel types are given.
fn require_kernel_types(kernel_types: &[Btf<'_>], object: &Object<'_>) -> Result<(), PrepareError>
    ensures made { OnOk result (HasKernelTypes kernel_types.now object.now object.now) }
    ensures refused { IfErr result (LacksKernelTypes kernel_types.now object.now) }
{
    if object.has_btf_relocations() && kernel_types.is_empty() {
        return Err(PrepareError::KernelTypesRequired);
    }
    Ok(())
}

/// Resolves an object's externs by a kernel's types and symbols.
fn resolve<R: BufRead>(
    kernel_types: &[Btf<'_>],
    symbols: &mut Watched<R>,
    object: &mut Object<'_>,
) -> Result<(), PrepareError>
    ensures made { OnOk result
        (ForText (R.remaining (watched_inner symbols.old)) (λ text.
        ResolvesExterns (slice_get kernel_types.now 0)
        (symbols_given text (has_failed symbols.new)) object.old object.new)) }
    ensures refused { IfErr result (λ e.
        e ≢ OutOfMemory
        → ForText (R.remaining (watched_inner symbols.old)) (λ text.
        OfKsyms
        (CannotResolve (slice_get kernel_types.now 0)
        (symbols_given text (has_failed symbols.new)) object.old) e)) }
    ensures unread { is_any_sought object.old.externs.by_name ≡ false → symbols.new ≡ symbols.old }
{
    object.resolve_externs(kernel_types.first(), symbols)?;
    Ok(())
}

/// Resolves an object's type relocations, and writes the results into its slots.
fn relocate_types(kernel_types: &[Btf<'_>], object: &mut Object<'_>) -> Result<(), PrepareError>
    requires { length kernel_types.now ≤ 2 ^ 32 }
    ensures made { OnOk result (RelocatesTypes kernel_types.now object.old object.new) }
    ensures refused { IfErr result (λ e.
        e ≢ OutOfMemory → OfTypeRelocation (CannotRelocateTypes kernel_types.now object.old) e) }
{
    object.relocate_btf(kernel_types)?;
    Ok(())
}

/// Rewrites the types of an object to the features that a kernel grants.
fn rewrite_types<F: FnMut(BtfFeature) -> bool>(
    object: &mut Object<'_>,
    predicate: F,
) -> Result<Answers, PrepareError>
    requires { F.IsAlwaysCallable predicate }
    ensures made { IfOk result (λ answers. RewritesTypes answers.items object.old object.new) }
    ensures answered { IfOk result (λ answers. AreAnswered F.FnMut predicate answers.items) }
    ensures refused { IfErr result (λ e.
        e ≢ OutOfMemory → IsRefusedTypes F.FnMut predicate object.old e) }
{
    Ok(object.fixup_and_sanitize_btf(predicate)?)
}

/// Writes the numbers of maps into the slots of the object that the maps were taken from.
fn write_numbers_of(
    alloc: Global,
    settings: &Settings,
    maps: &Maps<'_>,
    object: &mut Object<'_>,
    text_sections: &BTreeSet<usize>,
) -> Result<(), PrepareError>
    requires { text_sections.now.keys ≡ code.text_sections object.old.functions }
    ensures made { OnOk result
        (WritesNumbers settings.now (record object.old { maps = maps.now })
        (record object.new { maps = maps.now })) }
    ensures refused { IfErr result (λ e.
        e ≢ OutOfMemory
        → OfRelocation (CannotWriteNumbers settings.now (record object.old { maps = maps.now }))
        e) }
{
    let numbered = numbered_maps(alloc, maps, settings)?;
    object.write_map_numbers(&numbered, text_sections)?;
    Ok(())
}

/// Writes the numbers of an object's maps into its slots.
fn write_numbers(
    alloc: Global,
    settings: &Settings,
    object: &mut Object<'_>,
    text_sections: &BTreeSet<usize>,
) -> Result<(), PrepareError>
    requires { text_sections.now.keys ≡ code.text_sections object.old.functions }
    ensures made { OnOk result (WritesNumbers settings.now object.old object.new) }
    ensures refused { IfErr result (λ e.
        e ≢ OutOfMemory → OfRelocation (CannotWriteNumbers settings.now object.old) e) }
{
    let maps = object.take_maps();
    let written = write_numbers_of(alloc, settings, &maps, object, text_sections);
    let _ = object.replace_maps(maps);
    written
}

/// Writes what is known about an object's externs into its slots.
fn write_externs(object: &mut Object<'_>) -> Result<(), PrepareError>
    ensures made { OnOk result (WritesExterns object.old object.new) }
    ensures refused { IfErr result (λ e.
        e ≢ OutOfMemory → OfRelocation (CannotWriteExterns object.old) e) }
{
    object.relocate_externs()?;
    Ok(())
}

/// Links an object's programs.
fn link(object: &mut Object<'_>, text_sections: &BTreeSet<usize>) -> Result<(), PrepareError>
    requires { text_sections.now.keys ≡ code.text_sections object.old.functions }
    ensures made { OnOk result (LinksPrograms object.old object.new) }
    ensures refused { IfErr result (λ e. e ≢ OutOfMemory → OfRelocation (CannotLink object.old) e) }
{
    object.link_programs(text_sections)?;
    Ok(())
}

/// Makes an object's type relocations and rewrites its types, in the order given, and returns the
/// answers about the kernel's features.
fn make_types<F: FnMut(BtfFeature) -> bool>(
    kernel_types: &[Btf<'_>],
    order: Order,
    object: &mut Object<'_>,
    predicate: F,
) -> Result<Answers, PrepareError>
    requires tables { length kernel_types.now ≤ 2 ^ 32 }
    requires predicate { F.IsAlwaysCallable predicate }
    ensures made { IfOk result (λ answers.
        AreTypesMade F.FnMut predicate kernel_types.now order answers.items object.old object.new) }
    ensures refused { IfErr result (λ e.
        e ≢ OutOfMemory → AreTypesRefused F.FnMut predicate kernel_types.now order object.old e) }
{
    match order {
        Order::RelocateFirst => {
            relocate_types(kernel_types, object)?;
            let answers = rewrite_types(object, predicate)?;
            Ok(answers)
        }
        Order::RewriteFirst => {
            let answers = rewrite_types(object, predicate)?;
            relocate_types(kernel_types, object)?;
            Ok(answers)
        }
    }
}

/// Makes all passes over an object that come before its plan, and returns the answers about the
/// kernel's features.
#[tactic(auto, using(crate::proofs::Unread::unsought))]
pub(crate) fn make<R: BufRead, F: FnMut(BtfFeature) -> bool, P: FnOnce() -> bool>(
    alloc: Global,
    kernel_types: &[Btf<'_>],
    symbols: &mut Watched<R>,
    settings: &Settings,
    order: Order,
    object: &mut Object<'_>,
    predicate: F,
    probe: P,
) -> Result<Answers, PrepareError>
    requires tables { length kernel_types.now ≤ 2 ^ 32 }
    requires predicate { F.IsAlwaysCallable predicate }
    requires probe { P.pre probe }
    ensures made { IfOk result (λ answers.
        ForText (R.remaining (watched_inner symbols.old)) (λ text.
        (file : List ℕ)
        → IsMade F.FnMut predicate (P.post probe)
        (inputs file kernel_types.now (symbols_given text (has_failed symbols.new))
        settings.now order) answers.items object.old object.new)) }
    ensures refused { IfErr result (λ e.
        e ≢ OutOfMemory
        → ForText (R.remaining (watched_inner symbols.old)) (λ text.
        (file : List ℕ)
        → IsRefusedObject F.FnMut predicate
        (inputs file kernel_types.now (symbols_given text (has_failed symbols.new))
        settings.now order) object.old e)) }
    ensures unread { is_any_sought object.old.externs.by_name ≡ false → symbols.new ≡ symbols.old }
{
    require_named(alloc, object)?;
    require_numbered(alloc, settings, object)?;
    put_values(settings, object)?;
    require_kernel_types(kernel_types, object)?;
    resolve(kernel_types, symbols, object)?;
    let text_sections = object.text_sections()?;
    let answers = make_types(kernel_types, order, object, predicate)?;
    write_numbers(alloc, settings, object, &text_sections)?;
    write_externs(object)?;
    link(object, &text_sections)?;
    object.sanitize_functions(probe);
    Ok(answers)
}
