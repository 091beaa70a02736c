//! From an object's bytes to its plan.

ghost use Rattle.std.specs.Prelude.{◌≡◌, ◌≢◌, ◌≤◌, ◌^◌, ℕ, List, false, length, IfErr, IfOk};
ghost use Rattle.extern_resolution.specs.Outcomes.{is_any_sought};
ghost use Rattle.object_contents.specs.Faults.{HasFault};
ghost use Rattle.load_plan.specs.Inputs.{ForText, State, inputs, symbols_given};
ghost use Rattle.load_plan.specs.Passes.{OfParse};
ghost use Rattle.load_plan.specs.Planned.{IsPlanned, IsPlannedObject, IsRefusal, IsRefusedObject, IsWholeObject};
ghost use Rattle.plan_errors.specs.declared.error.PrepareError.TheVariants.{OutOfMemory};
ghost use Rattle.watched.specs.Watched.{has_failed, watched_inner};

use crate::contents::plan_of;
use crate::laws::pass_laws;
use crate::making::make;
use crate::order::Order;
use crate::plan_map::plan_maps;
use btf_records::BtfFeature;
use btf_tables::Btf;
use core_relocation::relocations_rest;
use ebpf_object::{Object, Watched};
use plan_errors::PrepareError;
use plan_text::Plan;
use settings::Settings;
use std::alloc::Global;
use std::io::BufRead;

/// The object that a file holds.
fn parse<'a>(alloc: Global, file: &'a [u8]) -> Result<Object<'a>, PrepareError>
    ensures parsed { IfOk result (IsWholeObject file.entry.now) }
    ensures refused { IfErr result (λ e. e ≢ OutOfMemory → OfParse (HasFault file.entry.now) e) }
{
    Ok(Object::parse(alloc, file)?)
}

/// The plan of a parsed object after all passes.
fn plan_object<'a, R: BufRead, F: FnMut(BtfFeature) -> bool, P: FnOnce() -> bool>(
    alloc: Global,
    kernel_types: &[Btf<'_>],
    symbols: &mut Watched<R>,
    settings: &Settings,
    order: Order,
    object: &mut Object<'a>,
    predicate: F,
    probe: P,
) -> Result<Plan<'a>, PrepareError>
    requires tables { length kernel_types.now ≤ 2 ^ 32 }
    requires predicate { F.IsAlwaysCallable predicate }
    requires probe { P.pre probe }
    ensures planned { IfOk result (λ plan.
        ForText (R.remaining (watched_inner symbols.old)) (λ text.
        (file : List ℕ)
        → IsPlannedObject F.FnMut predicate (P.post probe)
        (inputs file kernel_types.now (symbols_given text (has_failed symbols.new))
        settings.now order) object.old plan)) }
    ensures refused { IfErr result (λ e.
        e ≢ OutOfMemory
        → ForText (R.remaining (watched_inner symbols.old)) (λ text.
        (file : List ℕ)
        → IsRefusedObject F.FnMut predicate
        (inputs file kernel_types.now (symbols_given text (has_failed symbols.new))
        settings.now order) object.old e)) }
    ensures unread { is_any_sought object.old.externs.by_name ≡ false → symbols.new ≡ symbols.old }
{
    pass_laws();
    let answers = make(
        alloc,
        kernel_types,
        symbols,
        settings,
        order,
        object,
        predicate,
        probe,
    )?;
    let maps = plan_maps(alloc, object.maps(), settings)?;
    Ok(plan_of(alloc, object, answers, maps)?)
}

/// The load plan of an object file for one kernel. It has the object's maps under the numbers that
/// `settings` give them, with the values of its global variables; its types rewritten to the
/// features that the kernel grants; and its programs, each linked to the functions that it reaches.
/// The slots name the maps by these numbers, and the kernel's functions and variables by what is
/// known about them.
///
/// `kernel_types` are the kernel's types, in at most 2^32 tables. Type relocations are resolved in
/// all of them; the first has the kernel's functions and variables. `symbols` are the kernel's
/// symbols as `/proc/kallsyms` lists them; they are read only where a variable without a type is
/// searched. `predicate` says whether the kernel takes a feature of types. `probe` says whether it
/// has the newer helpers that read memory; where it lacks them, older ones are called. `order` says
/// whether type relocations are resolved in the object's types as they are or as they are
/// rewritten. A number that is set for a map that the object lacks is ignored.
///
/// # Errors
///
/// That of the earliest pass that refuses: [`PrepareError::Parse`] where the file isn't an object
/// that can be parsed, [`PrepareError::FunctionRecordType`] where a function record names a type
/// that isn't a function with a name, [`PrepareError::MapNumberMissing`] where no number is set for
/// a map, [`PrepareError::Parse`] where a value of a global variable can't be written into the
/// maps, [`PrepareError::KernelTypesRequired`] where the object has type relocations and no kernel
/// types are given, [`PrepareError::Ksyms`] where an extern can't be resolved,
/// [`PrepareError::BtfRelocation`] where a type relocation can't be made and
/// [`PrepareError::Types`] where the types can't be rewritten, in the order given, and
/// [`PrepareError::Relocation`] where a slot can't get a map's number or what is known about an
/// extern, or a program can't be linked. [`PrepareError::OutOfMemory`] in any pass.
pub fn prepare<'a, R: BufRead, F: FnMut(BtfFeature) -> bool, P: FnOnce() -> bool>(
    alloc: Global,
    object: &'a [u8],
    kernel_types: &[Btf<'_>],
    symbols: &mut Watched<R>,
    settings: &Settings,
    order: Order,
    predicate: F,
    probe: P,
) -> Result<Plan<'a>, PrepareError>
    requires tables { length kernel_types.now ≤ 2 ^ 32 }
    requires predicate { F.IsAlwaysCallable predicate }
    requires probe { P.pre probe }
    ensures planned { IfOk result (λ plan.
        ForText (R.remaining (watched_inner symbols.old)) (λ text.
        IsPlanned F.FnMut predicate (P.post probe)
        (inputs object.entry.now kernel_types.now
        (symbols_given text (has_failed symbols.new)) settings.now order) plan)) }
    ensures refused { IfErr result (λ e.
        e ≢ OutOfMemory
        → ForText (R.remaining (watched_inner symbols.old)) (λ text.
        IsRefusal F.FnMut predicate
        (inputs object.entry.now kernel_types.now
        (symbols_given text (has_failed symbols.new)) settings.now order) e)) }
    ensures unread { ((parsed : State)
        → IsWholeObject object.entry.now parsed
        → is_any_sought parsed.externs.by_name ≡ false)
        → symbols.new ≡ symbols.old }
{
    relocations_rest();
    let mut parsed = parse(alloc, object)?;
    plan_object(
        alloc,
        kernel_types,
        symbols,
        settings,
        order,
        &mut parsed,
        predicate,
        probe,
    )
}
