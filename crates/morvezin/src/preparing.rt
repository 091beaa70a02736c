//! The text of a plan.

ghost use Rattle.std.specs.Prelude.{◌≡◌, ◌≤◌, ◌≢◌, ◌^◌, Some, false, length, IfErr, IfOk, OnOk};
ghost use Rattle.ebpf_items.specs.declared.error.ParseError.TheVariants.{OutOfMemory};
ghost use Rattle.load_plan.specs.Numbering.{AreNumbered, names_of};
ghost use Rattle.load_plan.specs.Run.{inputs_of};
ghost use Rattle.plan_errors.specs.declared.error.PrepareError.TheVariants as prepare;
ghost use Rattle.run_settings.specs.Documents.{settings_of};
ghost use Rattle.morvezin.specs.Calls.{AreInvalid, AreTables, HasAllNumbers, HasText, IsFaultOfSettings, IsRefused, IsRefusedFor, IsSet, IsTextFor, NoKind, Says, order_of};

use crate::failure::Failure;
use crate::inputs::Inputs;
use crate::messages::{invalid_settings, kernel_files, refused, settings_without_text, type_names};
use crate::tables::tables_of;
use btf_tables::Btf;
use ebpf_object::{Object, ParseError};
use load_plan::{Order, RunError, number_maps, run};
use run_settings::{RunSettings, SettingsError};
use settings::Settings;
use std::alloc::Global;
use watched::Watched;

/// The order of the passes over types.
fn order_of(rewrite_first: bool) -> Order
    ensures { result ≡ order_of rewrite_first }
{
    if rewrite_first {
        Order::RewriteFirst
    } else {
        Order::RelocateFirst
    }
}

/// The settings of a TOML document.
fn settings_of(alloc: Global, bytes: &[u8]) -> Result<RunSettings, Failure>
    ensures set { IfOk result (λ set. settings_of bytes.now ≡ Some set) }
    ensures invalid { IfErr result (Says NoKind (IsFaultOfSettings bytes.now) ⊥) }
{
    let Ok(text) = std::str::from_utf8(bytes) else {
        return Err(settings_without_text(alloc));
    };
    match RunSettings::from_toml(alloc, text) {
        Ok(settings) => Ok(settings),
        Err(SettingsError::OutOfMemory) => Err(Failure::OutOfMemory),
        Err(SettingsError::Invalid) => Err(invalid_settings(alloc, text)),
    }
}

/// Numbers the maps of an object that have no number.
fn number_object(alloc: Global, object: &Object<'_>, settings: &mut Settings) -> Result<(), Failure>
    ensures numbered { OnOk result
        (AreNumbered (names_of object.now.maps) (names_of object.now.maps) settings.old settings.new) }
    ensures memory { IfErr result (Says NoKind ⊥ ⊥) }
{
    if number_maps(alloc, object.maps(), settings)? {
        Ok(())
    } else {
        Err(Failure::OutOfMemory)
    }
}

/// An error that isn't out of memory.
fn fault_of(error: ParseError) -> Result<ParseError, Failure>
    ensures fault { IfOk result (λ fault. (fault ≡ error) × (error ≢ OutOfMemory)) }
    ensures memory { IfErr result (Says NoKind ⊥ ⊥) }
{
    match error {
        ParseError::OutOfMemory => Err(Failure::OutOfMemory),
        error => Ok(error),
    }
}

/// The same for the object of a file. One that can't be parsed is left to the run, which refuses it.
#[tactic(auto, using(crate::proofs::Numbers::has_numbers))]
fn number_file(alloc: Global, file: &[u8], settings: &mut Settings) -> Result<(), Failure>
    ensures numbers { OnOk result (HasAllNumbers file.now settings.old settings.new) }
    ensures memory { IfErr result (Says NoKind ⊥ ⊥) }
{
    match Object::parse(alloc, file) {
        Ok(object) => {
            number_object(alloc, &object, settings)?;
            Ok(())
        }
        Err(error) => {
            let _fault = fault_of(error)?;
            Ok(())
        }
    }
}

/// The settings of a document, with the numbers of maps that are wanted.
fn settings_for(alloc: Global, inputs: &Inputs<'_>) -> Result<RunSettings, Failure>
    ensures set { IfOk result (IsSet inputs.now) }
    ensures invalid { IfErr result
        (Says NoKind (IsFaultOfSettings inputs.now.settings.now) ⊥) }
{
    let mut settings = settings_of(alloc, inputs.settings)?;
    if inputs.number_maps {
        number_file(alloc, inputs.object, &mut settings.settings)?;
    }
    Ok(settings)
}

/// The text of the plan of an object, for parsed types and settings.
fn planned_text(
    alloc: Global,
    object: &[u8],
    tables: &[Btf<'_>],
    symbols: &[u8],
    settings: &RunSettings,
    order: Order,
) -> Result<Vec<u8>, Failure>
    requires { length tables.now ≤ 2 ^ 32 }
    ensures planned { IfOk result (λ text.
        IsTextFor text.items settings.now
        (inputs_of object.now tables.now symbols.now false settings.now order)) }
    ensures refused { IfErr result
        (Says
        (λ kind.
        IsRefusedFor kind settings.now
        (inputs_of object.now tables.now symbols.now false settings.now order))
        ⊥ ⊥) }
{
    let mut reader = Watched::new(symbols);
    let mut out = Watched::new(Vec::new(alloc));
    let ran = run(
        alloc,
        object,
        tables,
        &mut reader,
        settings,
        order,
        &mut out,
    );
    // No reader of memory fails before its 2^64 - 1 calls are used up.
    if reader.failed() {
        return Err(Failure::OutOfMemory);
    }
    match ran {
        Ok(()) => Ok(out.into_inner()),
        Err(RunError::Output) => Err(Failure::OutOfMemory),
        Err(RunError::Refused(error)) => {
            let files = kernel_files(type_names(!tables.is_empty()), !symbols.is_empty());
            Err(refused(alloc, object, &settings.settings, &files, error))
        }
    }
}

/// The text of the plan of an object.
pub(crate) fn plan_text(alloc: Global, inputs: &Inputs<'_>) -> Result<Vec<u8>, Failure>
    ensures planned { IfOk result (λ text. HasText inputs.now text.items) }
    ensures refused { IfErr result
        (Says (IsRefused inputs.now) (IsFaultOfSettings inputs.now.settings.now)
        (AreInvalid inputs.now.types.now)) }
{
    let settings = settings_for(alloc, inputs)?;
    let tables = tables_of(alloc, inputs.types)?;
    planned_text(
        alloc,
        inputs.object,
        &tables,
        inputs.symbols,
        &settings,
        order_of(inputs.rewrite_first),
    )
}
