//! Paths to fields.

ghost use Rattle.std.specs.Prelude.{◌≡◌, ◌≢◌, ◌*◌, ◌++◌, ◌∷◌, [], IfOk, IfErr, Ok, Err};
ghost use Rattle.std.specs.Option.{option_to_list};
ghost use Rattle.core_spec.specs.FieldPaths.{apply_index, first_index, bits_after, finished_path, ends_with, field_path, has_element, is_flexible_array, member_step, path_from, to_element, to_member};
ghost use Rattle.core_spec.specs.declared.error.AccessError.TheVariants.{BtfError as TypeError};
ghost use Rattle.btf_records.specs.declared.error.BtfError.TheVariants.{OutOfMemory};

use crate::error::AccessError;
use crate::path::{AccessPath, Place, Step, Steps};
use btf_encoding::TypeRef;
use btf_records::{BtfArray, BtfError, BtfKind, BtfMember};
use btf_tables::Btf;

/// The state of a path after some numbers.
#[derive(Clone, Copy)]
pub(crate) struct Reached {
    /// The id of the type that it has reached.
    pub(crate) type_id: u32,
    pub(crate) last: Step,
    /// The offset so far in bits, if it fits in 32 bits.
    pub(crate) bits: Option<u32>,
}

/// The state of a path after another number, and the step of that number.
#[derive(Clone, Copy)]
pub(crate) struct Advance {
    pub(crate) reached: Reached,
    pub(crate) step: Option<Step>,
}

/// The sum of two numbers of bits, if it fits in 32 bits.
pub fn bits_after(bits: Option<u32>, more: u64) -> Option<u32>
    ensures { result ≡ bits_after bits more }
{
    let sum = u64::checked_add(u64::from(bits?), more)?;
    match u32::try_from(sum) {
        Ok(sum) => Some(sum),
        Err(_) => None,
    }
}

/// The sum of `bits` and the bits of `count` elements of `size` bytes, if it fits in 32 bits.
pub fn elements_after(bits: Option<u32>, count: u64, size: u32) -> Option<u32>
    ensures { result ≡ bits_after bits (8 * (count * size)) }
{
    let bytes = u64::checked_mul(count, u64::from(size))?;
    bits_after(bits, u64::checked_mul(8, bytes)?)
}

/// Whether a record is a struct whose last member has this index.
fn ends_with(t: &TypeRef<'_>, index: u64) -> bool
    ensures { result ≡ ends_with t.now index }
{
    match t.kind() {
        BtfKind::Struct => {
            let count = t.count() as u64;
            count > 0 && count - 1 == index
        }
        _ => false,
    }
}

/// Whether an array is a flexible one: it has no elements and is the last member of a struct, and
/// so it is as long as the memory around the struct has room for. `place` is that of the step
/// before.
fn is_flexible_array(table: &Btf<'_>, len: u32, place: Place) -> bool
    ensures { result ≡ is_flexible_array table.now len place }
{
    if len != 0 {
        return false;
    }
    match table.type_by_id(place.type_id) {
        Ok(t) => ends_with(&t, place.index),
        Err(_error) => false,
    }
}

/// Whether an array has an element at this index. A flexible array has one at each. `last` is the
/// step before.
pub fn has_element(table: &Btf<'_>, len: u32, last: Step, index: u64) -> bool
    ensures { result ≡ has_element table.now len last index }
{
    let (Step::Element(place) | Step::Member(place) | Step::Variant(place)) = last;
    index < u64::from(len) || is_flexible_array(table, len, place)
}

/// The state of a path after its first number, the index of an element of the type `root` without
/// modifiers.
fn first_index(table: &Btf<'_>, root: u32, index: u64) -> Result<Reached, AccessError>
    ensures { result ≡ first_index table.now root index }
{
    let size = table.type_size_u32(root)?;
    Ok(Reached {
        type_id: root,
        last: Step::Element(Place {
            type_id: root,
            index,
        }),
        bits: elements_after(Some(0), index, size),
    })
}

/// The step to a member of a struct or union; none for a member without a name.
fn member_step(
    table: &Btf<'_>,
    place: Place,
    member: BtfMember,
) -> Result<Option<Step>, AccessError>
    ensures { result ≡ member_step table.now place member }
{
    if member.name_offset == 0 {
        return Ok(None);
    }
    let _name = table.string_at(member.name_offset)?;
    Ok(Some(Step::Member(place)))
}

/// The state of a path after a step to a member of a struct or union.
fn to_member(
    table: &Btf<'_>,
    from: Reached,
    t: &TypeRef<'_>,
    place: Place,
) -> Result<Advance, AccessError>
    ensures { result ≡ to_member table.now from t.now place }
{
    let Some(member) = t.member(place.index as usize) else {
        return Err(AccessError::InvalidAccessIndex {
            place,
            len: t.count(),
        });
    };
    let step = member_step(table, place, member)?;
    Ok(Advance {
        reached: Reached {
            type_id: member.btf_type,
            last: step.unwrap_or(from.last),
            bits: bits_after(from.bits, u64::from(member.bit_offset(t.flag()))),
        },
        step,
    })
}

/// The state of a path after a step to an element of an array.
fn to_element(
    table: &Btf<'_>,
    from: Reached,
    array: BtfArray,
    place: Place,
) -> Result<Advance, AccessError>
    ensures { result ≡ to_element table.now from array place }
{
    let element = table.resolve_type(array.element_type)?;
    if !has_element(table, array.len, from.last, place.index) {
        return Err(AccessError::InvalidAccessIndex {
            place,
            len: array.len as usize,
        });
    }
    let size = table.type_size_u32(element)?;
    let step = Step::Element(Place {
        type_id: element,
        index: place.index,
    });
    Ok(Advance {
        reached: Reached {
            type_id: element,
            last: step,
            bits: elements_after(from.bits, place.index, size),
        },
        step: Some(step),
    })
}

/// The state of a path after the next number.
fn apply_index(table: &Btf<'_>, from: Reached, index: u64) -> Result<Advance, AccessError>
    ensures { result ≡ apply_index table.now from index }
{
    let type_id = table.resolve_type(from.type_id)?;
    let t = table.type_by_id(type_id)?;
    let place = Place { type_id, index };
    if let Some(array) = t.array() {
        return to_element(table, from, array, place);
    }
    match t.kind() {
        BtfKind::Struct | BtfKind::Union => to_member(table, from, &t, place),
        _ => Err(AccessError::InvalidRelocationKindForType { type_id }),
    }
}

/// The state of a path after the next number; its step is added to `steps`.
fn add_index(
    table: &Btf<'_>,
    from: Reached,
    index: u64,
    steps: &mut Steps,
) -> Result<Advance, AccessError>
    ensures value { IfOk result (λ next. apply_index table.now from index ≡ Ok next) }
    ensures steps { IfOk result (λ next. steps.new ≡ steps.old ++ option_to_list next.step) }
    ensures refused { IfErr result (λ e.
        e ≢ TypeError OutOfMemory → apply_index table.now from index ≡ Err e) }
{
    let next = apply_index(table, from, index)?;
    if let Some(step) = next.step {
        steps.push(step)?;
    }
    Ok(next)
}

/// The path with these steps, at its end.
fn finished_path(type_id: u32, steps: Steps, bits: Option<u32>) -> Result<AccessPath, AccessError>
    ensures { result ≡ finished_path type_id steps bits }
{
    match bits {
        Some(bit_offset) => Ok(AccessPath {
            type_id,
            steps,
            bit_offset,
        }),
        None => Err(AccessError::BtfError(BtfError::InvalidTypeInfo)),
    }
}

/// The path with this first step and these further numbers.
#[tactic(auto, using(crate::proofs::FieldPaths::path_done, crate::proofs::FieldPaths::path_more))]
fn path_from(
    table: &Btf<'_>,
    type_id: u32,
    first: Reached,
    numbers: &[u64],
) -> Result<AccessPath, AccessError>
    ensures value { IfOk result (λ path.
        path_from table.now type_id (first.last ∷ []) first numbers.now ≡ Ok path) }
    ensures refused { IfErr result (λ e.
        e ≢ TypeError OutOfMemory
        → path_from table.now type_id (first.last ∷ []) first numbers.now ≡ Err e) }
{
    let mut reached = first;
    let mut steps = Steps::new(table.allocator());
    steps.push(reached.last)?;
    for number in numbers {
        let next = add_index(table, reached, *number, &mut steps)?;
        reached = next.reached;
    }
    finished_path(type_id, steps, reached.bits)
}

/// The path to a field by the numbers of an access string. `root` is the id of the type without its
/// modifiers.
///
/// `InvalidAccessIndex` where an index is out of bounds, `InvalidRelocationKindForType` where a
/// type has neither members nor elements, `BtfError::InvalidTypeInfo` where the field's offset is
/// 2^32 bits or more, and the errors of the look-ups of sizes, names and types on the path.
pub(crate) fn field_path(
    table: &Btf<'_>,
    type_id: u32,
    root: u32,
    numbers: &[u64],
) -> Result<AccessPath, AccessError>
    ensures value { IfOk result (λ path. field_path table.now type_id root numbers.now ≡ Ok path) }
    ensures refused { IfErr result (λ e.
        e ≢ TypeError OutOfMemory → field_path table.now type_id root numbers.now ≡ Err e) }
{
    let [first, others @ ..] = numbers else {
        return Err(AccessError::InvalidAccessString);
    };
    let reached = first_index(table, root, *first)?;
    path_from(table, type_id, reached, others)
}
