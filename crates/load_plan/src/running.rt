//! From an object's bytes to its plan's text.

ghost use Rattle.std.specs.Prelude.{◌≡◌, ◌≢◌, ◌≤◌, ◌^◌, true, false, length, IfErr, OnOk, Err};
ghost use Rattle.std.specs.Io.KnownBytes.{Appends};
ghost use Rattle.load_plan.specs.Inputs.{ForText};
ghost use Rattle.load_plan.specs.Watched.{watched_inner, has_failed, AppendsPart};
ghost use Rattle.load_plan.specs.Run.{inputs_of, HoldsOfText, IsRunRefusal};
ghost use Rattle.load_plan.specs.declared.run_error.RunError.TheVariants.{Output};

use crate::order::Order;
use crate::planning::prepare;
use crate::run_error::RunError;
use btf_tables::Btf;
use run_settings::RunSettings;
use std::alloc::Global;
use std::io::{BufRead, Write};
use watched::Watched;

/// Writes the text of an object's plan, or nothing where the object is refused. `kernel_types` are
/// the kernel's types, in at most 2^32 tables, and `symbols` its symbols as `/proc/kallsyms` lists
/// them. `settings` has the numbers of maps and the values of variables, and says which features of
/// types the kernel grants and whether it has the newer helpers that read memory. `order` says
/// whether type relocations are resolved in the object's types before or after these are rewritten.
///
/// # Errors
///
/// [`RunError::Refused`] where the object gets no plan, and [`RunError::Output`] where the writer
/// fails or accepts no bytes; a prefix of the text has then been written.
pub fn run<R: BufRead, W: Write>(
    alloc: Global,
    object: &[u8],
    kernel_types: &[Btf<'_>],
    symbols: &mut Watched<R>,
    settings: &RunSettings,
    order: Order,
    out: &mut Watched<W>,
) -> Result<(), RunError>
    requires { length kernel_types.now ≤ 2 ^ 32 }

    // Exactly the text of the plan is written, and the object has no fault.
    ensures well { OnOk result (has_failed out.new ≡ false) }
    ensures written { OnOk result
        (ForText (R.remaining (watched_inner symbols.old)) (λ text.
        HoldsOfText settings.now
        (inputs_of object.now kernel_types.now text (has_failed symbols.new) settings.now order)
        (λ written.
        Appends (W.contents (watched_inner out.old)) (W.contents (watched_inner out.new)) written))) }

    // A refusal names a fault of the object, and nothing is written.
    ensures refused { IfErr result
        (IsRunRefusal settings.now (R.remaining (watched_inner symbols.old)) (λ text.
        inputs_of object.now kernel_types.now text (has_failed symbols.new) settings.now order)) }
    ensures unwritten { IfErr result (λ e. e ≢ Output → out.new ≡ out.old) }

    // The object isn't refused, a prefix of the text is written, and the writer failed.
    ensures part { result ≡ Err Output
        → ForText (R.remaining (watched_inner symbols.old)) (λ text.
        HoldsOfText settings.now
        (inputs_of object.now kernel_types.now text (has_failed symbols.new) settings.now order)
        (λ written.
        AppendsPart (W.contents (watched_inner out.old)) (W.contents (watched_inner out.new))
        written)) }
    ensures failed { result ≡ Err Output → has_failed out.new ≡ true }
    ensures at_once { has_failed out.old ≡ true → out.new ≡ out.old }
{
    let features = settings.features;
    let has_newer_helpers = settings.probe;
    let plan = prepare(
        alloc,
        object,
        kernel_types,
        symbols,
        &settings.settings,
        order,
        move |feature| features.grants(feature),
        move || has_newer_helpers,
    )?;
    match plan.write(out) {
        Ok(()) => Ok(()),
        Err(_) => Err(RunError::Output),
    }
}
