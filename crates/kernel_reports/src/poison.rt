//! The poison that type relocations leave in the programs of a plan.

ghost use Rattle.std.specs.Prelude.{◌≡◌, ◌++◌, filter_map, slice_get, IfOk, OnOk};
ghost use Rattle.ebpf_object.specs.TextSections.{text_sections};
ghost use Rattle.kernel_reports.specs.Poison.{copies_in, is_poison, places_in, places_of, poison_at, poison_in, poison_of};

use ebpf_object::Object;
use load_plan::{Plan, PlanProgram};
use plan_copies::{FunctionCopy, FunctionKey, ObjectFunctions, copies_of};
use report_checks::{CallCause, HarmfulCall, PlanReport, ProgramReport};
use std::alloc::{AllocError, Global};
use std::collections::BTreeSet;

/// A slot of a function of the object: the function's key, and the index of the slot.
pub type SlotPlace = (FunctionKey, usize);

/// Poison in a program: the slot of a function that its slot is a copy of, and whether a run of the
/// program can reach it.
pub(crate) type Poison = (SlotPlace, bool);

/// Adds the slots of its function that a copy's slots are copies of.
fn add_places(places: &mut Vec<SlotPlace>, copy: FunctionCopy) -> Result<(), AllocError>
    ensures { OnOk result (places.new.items ≡ places.old.items ++ places_in copy) }
{
    for index in 0..copy.len {
        places.push((copy.key, index))?;
    }
    Ok(())
}

/// The slots of functions that a program's slots are copies of, in order.
fn places_of(alloc: Global, copies: &[FunctionCopy]) -> Result<Vec<SlotPlace>, AllocError>
    ensures { IfOk result (λ places. places.items ≡ places_of copies.now) }
{
    let mut places = Vec::new(alloc);
    for copy in copies {
        add_places(&mut places, *copy)?;
    }
    Ok(places)
}

/// The copies of functions in a program of a plan; none where the object has no program of its
/// name. `sections` are the indexes of the object's sections with functions.
fn copies_in(
    alloc: Global,
    object: &Object<'_>,
    sections: &BTreeSet<usize>,
    program: &PlanProgram<'_>,
) -> Result<Vec<FunctionCopy>, AllocError>
    requires { sections.now.keys ≡ text_sections object.now.functions }
    ensures { IfOk result (λ copies. copies.items ≡ copies_in object.now program.now) }
{
    let Some(own) = object.programs().get(program.name()) else {
        return Ok(Vec::new(alloc));
    };
    let functions = ObjectFunctions {
        file: object.file(),
        functions: object.functions(),
        text_sections: sections,
    };
    let copies = copies_of(alloc, functions, own.function_key(), program.slots())?;
    Ok(copies)
}

/// Whether a call stands for a type relocation that left poison.
fn is_poison(cause: CallCause) -> bool
    ensures { result ≡ is_poison cause }
{
    match cause {
        CallCause::Poison => true,
        CallCause::MissingFunction | CallCause::MissingHelper { .. } => false,
    }
}

/// The slot of a function that a program's slot is a copy of.
fn place_at(places: &[SlotPlace], slot: usize) -> Option<SlotPlace>
    ensures { result ≡ slice_get places.now slot }
{
    places.get(slot).copied()
}

/// The poison that a call is, if it is poison.
fn poison_at(places: &[SlotPlace], call: &HarmfulCall) -> Option<Poison>
    ensures { result ≡ poison_at places.now call.now }
{
    if !is_poison(call.cause) {
        return None;
    }
    let place = place_at(places, call.slot)?;
    Some((place, call.is_reached))
}

/// The slots of functions that some calls of a program are copies of.
fn call_places_in(
    alloc: Global,
    object: &Object<'_>,
    sections: &BTreeSet<usize>,
    program: &PlanProgram<'_>,
    calls: &[HarmfulCall],
) -> Result<Vec<Option<SlotPlace>>, AllocError>
    requires { sections.now.keys ≡ text_sections object.now.functions }
{
    let mut found = Vec::new(alloc);
    if calls.is_empty() {
        return Ok(found);
    }
    let copies = copies_in(alloc, object, sections, program)?;
    let places = places_of(alloc, &copies)?;
    for call in calls {
        found.push(place_at(&places, call.slot))?;
    }
    Ok(found)
}

/// For each program of a plan, and each of its calls that a kernel doesn't take, the slot of a
/// function of the object that the call's slot is a copy of, if it is one.
pub(crate) fn call_places(
    alloc: Global,
    object: &Object<'_>,
    plan: &Plan<'_>,
    report: Option<&PlanReport>,
) -> Result<Vec<Vec<Option<SlotPlace>>>, AllocError> {
    let mut places = Vec::new(alloc);
    let Some(report) = report else {
        return Ok(places);
    };
    let sections = object.text_sections()?;
    for (program, found) in plan.programs().iter().zip(&report.programs) {
        places.push(call_places_in(alloc, object, &sections, program, &found.calls)?)?;
    }
    Ok(places)
}

/// Adds the poison among the calls of a program.
fn add_calls(
    poison: &mut Vec<Poison>,
    places: &[SlotPlace],
    calls: &[HarmfulCall],
) -> Result<(), AllocError>
    ensures { OnOk result
        (poison.new.items ≡ poison.old.items ++ filter_map (poison_at places.now) calls.now) }
{
    for call in calls {
        if let Some(found) = poison_at(places, call) {
            poison.push(found)?;
        }
    }
    Ok(())
}

/// Adds the poison in a program.
fn add_program(
    alloc: Global,
    object: &Object<'_>,
    sections: &BTreeSet<usize>,
    program: &PlanProgram<'_>,
    report: &ProgramReport,
    poison: &mut Vec<Poison>,
) -> Result<(), AllocError>
    requires { sections.now.keys ≡ text_sections object.now.functions }
    ensures { OnOk result
        (poison.new.items ≡ poison.old.items ++ poison_in object.now program.now report.now) }
{
    if report.calls.is_empty() {
        return Ok(());
    }
    let copies = copies_in(alloc, object, sections, program)?;
    let places = places_of(alloc, &copies)?;
    add_calls(poison, &places, &report.calls)
}

/// The poison in the programs of a plan, given what a kernel makes of the plan.
pub(crate) fn poison_of(
    alloc: Global,
    object: &Object<'_>,
    plan: &Plan<'_>,
    report: &PlanReport,
) -> Result<Vec<Poison>, AllocError>
    ensures { IfOk result (λ poison. poison.items ≡ poison_of object.now plan.now report.now) }
{
    let sections = object.text_sections()?;
    let mut poison = Vec::new(alloc);
    for (program, found) in plan.programs().iter().zip(&report.programs) {
        add_program(alloc, object, &sections, program, found, &mut poison)?;
    }
    Ok(poison)
}
