//! The steps of a local path in the target's types.

ghost use Rattle.std.specs.Prelude.{◌≡◌, ◌≢◌, IfOk, IfErr, Ok, Err};
ghost use Rattle.core_match.specs.Steps.{element_in, element_matched, at_member, has_members, local_member, member_matched, step_matched};
ghost use Rattle.core_spec.specs.declared.error.AccessError.TheVariants.{BtfError as TypeError};
ghost use Rattle.btf_records.specs.declared.error.BtfError.TheVariants.{OutOfMemory};

use crate::search::{FoundMember, find_member};
use btf_encoding::TypeRef;
use btf_records::BtfMember;
use btf_tables::Btf;
use core_spec::{AccessError, Place, Step, elements_after, has_element};

/// The number of parts after which no further step is made: libbpf's `BPF_CORE_SPEC_MAX_LEN`.
const MAX_PARTS: usize = 64;

/// The state of a path in the target's types.
#[derive(Clone, Copy)]
pub(crate) struct Progress {
    /// The id of the type that it has reached.
    pub(crate) type_id: u32,
    /// The last step; none before the first.
    pub(crate) last: Option<Step>,
    /// The offset so far in bits, if it fits in 32 bits.
    pub(crate) bits: Option<u32>,
    /// The number of elements and members so far, including members without names; at most 64.
    pub(crate) parts: usize,
}

/// The id of the type of the element at this index of a type without modifiers; none where the type
/// isn't an array, or the array is too short. In the first step, the elements are of the type
/// itself.
fn element_in(
    target: &Btf<'_>,
    type_id: u32,
    last: Option<Step>,
    index: u64,
) -> Result<Option<u32>, AccessError>
    ensures { result ≡ element_in target.now type_id last index }
{
    let Some(last) = last else {
        return Ok(Some(type_id));
    };
    let t = target.type_by_id(type_id)?;
    let Some(array) = t.array() else {
        return Ok(None);
    };
    if !has_element(target, array.len, last, index) {
        return Ok(None);
    }
    let element = target.resolve_type(array.element_type)?;
    Ok(Some(element))
}

/// The state of a path after a step to an element.
fn element_matched(
    target: &Btf<'_>,
    from: Progress,
    index: u64,
) -> Result<Option<Progress>, AccessError>
    ensures { result ≡ element_matched target.now from index }
{
    let type_id = target.resolve_type(from.type_id)?;
    let Some(element) = element_in(target, type_id, from.last, index)? else {
        return Ok(None);
    };
    if from.parts >= MAX_PARTS {
        return Err(AccessError::MaximumNestingLevelReached);
    }
    let size = target.type_size_u32(element)?;
    Ok(Some(Progress {
        type_id: element,
        last: Some(Step::Element(Place {
            type_id: element,
            index,
        })),
        bits: elements_after(from.bits, index, size),
        parts: from.parts + 1,
    }))
}

/// The member at a place of the local types.
fn local_member(local: &Btf<'_>, place: Place) -> Result<BtfMember, AccessError>
    ensures { result ≡ local_member local.now place }
{
    let t = local.type_by_id(place.type_id)?;
    match t.member(place.index as usize) {
        Some(member) => Ok(member),
        None => Err(AccessError::InvalidRelocationKindForType {
            type_id: place.type_id,
        }),
    }
}

/// Whether a record has members.
fn has_members(t: &TypeRef<'_>) -> bool
    ensures { result ≡ has_members t.now }
{
    t.member(0).is_some()
}

/// The state of a path after a step to a member that was found.
fn at_member(from: Progress, found: Option<FoundMember>) -> Option<Progress>
    ensures { result ≡ at_member from found }
{
    let found = found?;
    Some(Progress {
        type_id: found.type_id,
        last: Some(Step::Member(found.place)),
        bits: found.bits,
        parts: usize::min(usize::saturating_add(from.parts, found.parts), MAX_PARTS),
    })
}

/// The state of a path after a step to a member, by its name.
fn member_matched<'t>(
    local: &Btf<'t>,
    place: Place,
    target: &Btf<'t>,
    from: Progress,
) -> Result<Option<Progress>, AccessError>
    ensures value { IfOk result (λ next.
        member_matched local.now place target.now from ≡ Ok next) }
    ensures refused { IfErr result (λ e.
        e ≢ TypeError OutOfMemory → member_matched local.now place target.now from ≡ Err e) }
{
    let root = target.resolve_type(from.type_id)?;
    let member = local_member(local, place)?;
    let name = local.string_at(member.name_offset)?;
    let t = target.type_by_id(root)?;
    if from.parts >= MAX_PARTS && has_members(&t) {
        return Err(AccessError::MaximumNestingLevelReached);
    }
    let found = find_member(local, member.btf_type, name, target, root, from.bits)?;
    Ok(at_member(from, found))
}

/// The state of a path after the next step of the local path; none where the target has no such
/// member or element.
///
/// `MaximumNestingLevelReached` where the step would come after 64 parts or more, or a struct or
/// union contains itself, and the errors of the look-ups of names, sizes and types.
pub(crate) fn step_matched<'t>(
    local: &Btf<'t>,
    step: Step,
    target: &Btf<'t>,
    from: Progress,
) -> Result<Option<Progress>, AccessError>
    ensures value { IfOk result (λ next. step_matched local.now step target.now from ≡ Ok next) }
    ensures refused { IfErr result (λ e.
        e ≢ TypeError OutOfMemory → step_matched local.now step target.now from ≡ Err e) }
{
    match step {
        Step::Element(place) => element_matched(target, from, place.index),
        Step::Member(place) => member_matched(local, place, target, from),
        Step::Variant(place) => Err(AccessError::InvalidRelocationKindForType {
            type_id: place.type_id,
        }),
    }
}
