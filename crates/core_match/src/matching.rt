//! The path in one candidate.

ghost use Rattle.std.specs.Prelude.{◌≡◌, ◌≢◌, ◌++◌, ◌∷◌, [], IfOk, IfErr, IfSome, Ok, Err};
ghost use Rattle.std.specs.Option.{option_to_list};
ghost use Rattle.core_match.specs.Matches.{enum_matched, fields_matched, matching_path, path_found, type_matched};
ghost use Rattle.core_match.specs.Steps.{step_matched};
ghost use Rattle.core_spec.specs.declared.error.AccessError.TheVariants.{BtfError as TypeError};
ghost use Rattle.btf_records.specs.declared.error.BtfError.TheVariants.{OutOfMemory};

use crate::step::{Progress, step_matched};
use crate::variant::variant_matched;
use btf_compatibility::types_are_compatible;
use btf_records::BtfError;
use btf_tables::Btf;
use core_spec::{AccessError, AccessPath, Step, Steps, Subject};

/// The path with these steps, at its end.
fn path_found(
    type_id: u32,
    steps: Steps,
    bits: Option<u32>,
) -> Result<Option<AccessPath>, AccessError>
    ensures { result ≡ path_found type_id steps bits }
{
    match bits {
        Some(bit_offset) => Ok(Some(AccessPath {
            type_id,
            steps,
            bit_offset,
        })),
        None => Err(AccessError::BtfError(BtfError::InvalidTypeInfo)),
    }
}

/// The state of a path after a step; the step in the target's types is added to `steps`.
fn add_step<'t>(
    local: &Btf<'t>,
    step: Step,
    target: &Btf<'t>,
    from: Progress,
    steps: &mut Steps,
) -> Result<Option<Progress>, AccessError>
    ensures value { IfOk result (λ next. step_matched local.now step target.now from ≡ Ok next) }
    ensures steps { IfOk result (λ next.
        IfSome next (λ n. steps.new ≡ steps.old ++ option_to_list n.last)) }
    ensures refused { IfErr result (λ e.
        e ≢ TypeError OutOfMemory → step_matched local.now step target.now from ≡ Err e) }
{
    let Some(next) = step_matched(local, step, target, from)? else {
        return Ok(None);
    };
    if let Some(last) = next.last {
        steps.push(last)?;
    }
    Ok(Some(next))
}

/// The path of a field in a type of the target.
#[tactic(auto, using(crate::proofs::FieldMatches::none_left, crate::proofs::FieldMatches::no_step, crate::proofs::FieldMatches::one_step))]
fn fields_matched<'t>(
    local: &Btf<'t>,
    path: &[Step],
    target: &Btf<'t>,
    type_id: u32,
) -> Result<Option<AccessPath>, AccessError>
    ensures value { IfOk result (λ found.
        fields_matched local.now path.now target.now type_id ≡ Ok found) }
    ensures refused { IfErr result (λ e.
        e ≢ TypeError OutOfMemory → fields_matched local.now path.now target.now type_id ≡ Err e) }
{
    let mut progress = Progress {
        type_id,
        last: None,
        bits: Some(0),
        parts: 0,
    };
    let mut steps = Steps::new(target.allocator());
    for step in path {
        let Some(next) = add_step(local, *step, target, progress, &mut steps)? else {
            return Ok(None);
        };
        progress = next;
    }
    path_found(type_id, steps, progress.bits)
}

/// The path to a whole type of the target, if it is compatible with the local one.
fn type_matched<'t>(
    local: &Btf<'t>,
    local_id: u32,
    target: &Btf<'t>,
    type_id: u32,
) -> Result<Option<AccessPath>, AccessError>
    ensures value { IfOk result (λ found.
        type_matched local.now local_id target.now type_id ≡ Ok found) }
    ensures refused { IfErr result (λ e.
        e ≢ TypeError OutOfMemory → type_matched local.now local_id target.now type_id ≡ Err e) }
{
    if types_are_compatible(local, local_id, target, type_id)? {
        Ok(Some(AccessPath {
            type_id,
            steps: Steps::new(target.allocator()),
            bit_offset: 0,
        }))
    } else {
        Ok(None)
    }
}

/// The path to a variant of an enum of the target.
fn enum_matched(
    local: &Btf<'_>,
    step: Option<Step>,
    target: &Btf<'_>,
    type_id: u32,
) -> Result<Option<AccessPath>, AccessError>
    ensures value { IfOk result (λ found.
        enum_matched local.now step target.now type_id ≡ Ok found) }
    ensures refused { IfErr result (λ e.
        e ≢ TypeError OutOfMemory → enum_matched local.now step target.now type_id ≡ Err e) }
{
    let Some(Step::Variant(place)) = step else {
        return Err(AccessError::InvalidRelocationKindForType { type_id });
    };
    let Some(found) = variant_matched(local, place, target, type_id)? else {
        return Ok(None);
    };
    let mut steps = Steps::new(target.allocator());
    steps.push(Step::Variant(found))?;
    Ok(Some(AccessPath {
        type_id,
        steps,
        bit_offset: 0,
    }))
}

/// The path of a type relocation in a type of the target, if the type matches the local path: it
/// has the members and elements of the path's steps, by name and index; it has a variant of the
/// same name; or it is compatible as a whole (`bpf_core_spec_match`, tools/lib/bpf/relo_core.c). An
/// index past an array's end doesn't match, unless the array has no elements and is the last member
/// of a struct.
///
/// `MaximumNestingLevelReached` where a step would come after 64 elements and members or more,
/// including members without names, or where a struct or union contains itself;
/// `BtfError::InvalidTypeInfo` where the field's offset is 2^32 bits or more; and the errors of the
/// look-ups of names, sizes and types and of the comparisons.
pub fn matching_path<'t>(
    subject: Subject,
    local: &Btf<'t>,
    path: &AccessPath,
    target: &Btf<'t>,
    type_id: u32,
) -> Result<Option<AccessPath>, AccessError>
    ensures value { IfOk result (λ found.
        matching_path subject local.now path.now target.now type_id ≡ Ok found) }
    ensures refused { IfErr result (λ e.
        e ≢ TypeError OutOfMemory
        → matching_path subject local.now path.now target.now type_id ≡ Err e) }
{
    match subject {
        Subject::Field => fields_matched(local, path.steps.as_slice(), target, type_id),
        Subject::Type => type_matched(local, path.type_id, target, type_id),
        Subject::Variant => enum_matched(local, path.steps.last(), target, type_id),
    }
}
