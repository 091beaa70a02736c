//! Whether types of two tables are compatible.

ghost use Rattle.std.specs.Prelude.{◌≡◌, ◌≢◌, ◌<◌, ◌+◌, ◌*◌, true, [], ◌∷◌, ◌++◌, IfOk, IfErr, IfSome, OnOk, Ok, Err, length, slice_get};
ghost use Rattle.btf_tables.specs.Agreement.{RestsOnBoth};
ghost use Rattle.btf_tables.specs.Holdings.{AreHeld};
ghost use Rattle.btf_compatibility.specs.TypeCompatibility.{IsBoundless, compared_ids, ends_compatible, has_no_bit_offset, pair_parts, pair_verdict, parts_of, record_at, types_compatible, verdict};
ghost use Rattle.btf_compatibility.specs.Pairs.{SetsState};
ghost use Rattle.btf_records.specs.Fields.{kind_of_type};

use crate::pairs::{OpenPair, PairState, Pairs};
use btf_encoding::TypeRef;
use btf_records::{BtfError, BtfKind};
use btf_tables::Btf;

/// The record of an id; void where it is missing.
pub(crate) fn record_at<'t>(table: &'t Btf<'_>, id: u32) -> TypeRef<'t>
    ensures { result ≡ record_at table.now id }
{
    match table.type_by_id(id) {
        Ok(t) => t,
        Err(_error) => TypeRef::void(),
    }
}

/// The type at an index among a function prototype's parameters and, after these, its return type.
#[tactic(auto, using(crate::proofs::Parts::param_at, crate::proofs::Parts::returned_at, crate::proofs::Parts::past_returned))]
fn func_proto_part(t: &TypeRef<'_>, index: usize) -> Option<u32>
    requires { kind_of_type t.now ≡ BtfKind.FuncProto }
    ensures value { result ≡ slice_get (parts_of t.now) index }
    ensures within { IfSome result (λ _. index < 65536) }
{
    let count = t.count();
    if index < count {
        Some(t.param(index)?.btf_type)
    } else if index == count {
        t.btf_type()
    } else {
        None
    }
}

/// The type at an index among the types that a record is made of.
fn part(t: &TypeRef<'_>, index: usize) -> Option<u32>
    ensures value { result ≡ slice_get (parts_of t.now) index }
    ensures within { IfSome result (λ _. index < 65536) }
{
    match t.kind() {
        BtfKind::Ptr if index == 0 => t.btf_type(),
        BtfKind::Array if index == 0 => Some(t.array()?.element_type),
        BtfKind::FuncProto => func_proto_part(t, index),
        _ => None,
    }
}

/// The next part of each type of a pair.
#[tactic(auto, using(crate::proofs::Parts::both_parts, crate::proofs::Parts::no_left_part, crate::proofs::Parts::no_right_part))]
fn next_parts(local: &Btf<'_>, target: &Btf<'_>, pair: OpenPair) -> Option<(u32, u32)>
    ensures value { result
        ≡ slice_get (pair_parts local.now target.now pair.left pair.right) pair.next }
    ensures within { IfSome result (λ _. pair.next < 65536) }
{
    let left = part(&record_at(local, pair.left), pair.next)?;
    let right = part(&record_at(target, pair.right), pair.next)?;
    Some((left, right))
}

/// Whether a record isn't an integer with a nonzero bit offset.
pub(crate) fn has_no_bit_offset(t: &TypeRef<'_>) -> bool
    ensures { result ≡ has_no_bit_offset t.now }
{
    match t.int() {
        Some(int) => int.offset() == 0,
        None => true,
    }
}

/// Whether two records agree without their parts. `left` is the id of the local one.
fn verdict(left: u32, a: &TypeRef<'_>, b: &TypeRef<'_>) -> Result<bool, BtfError>
    ensures { result ≡ verdict left a.now b.now }
{
    if a.kind() != b.kind() {
        return Ok(false);
    }
    match a.kind() {
        BtfKind::Int => Ok(has_no_bit_offset(a) && has_no_bit_offset(b)),
        BtfKind::FuncProto => Ok(a.count() == b.count()),
        BtfKind::Func | BtfKind::Var | BtfKind::DataSec | BtfKind::DeclTag => {
            Err(BtfError::UnexpectedBtfType { type_id: left })
        }
        _ => Ok(true),
    }
}

/// Opens a pair of types, unless their records alone end the comparison.
fn enter(
    local: &Btf<'_>,
    target: &Btf<'_>,
    left: u32,
    right: u32,
    pairs: &mut Pairs,
) -> Result<bool, BtfError>
    ensures answer { IfOk result (λ yes. pair_verdict local.now target.now left right ≡ Ok yes) }
    ensures refused { IfErr result (λ e.
        e ≢ BtfError.OutOfMemory → pair_verdict local.now target.now left right ≡ Err e) }
    ensures pushed { IfOk result (λ yes.
        yes ≡ true
        → pairs.new.open.items
        ≡ pairs.old.open.items ++ record { left = left; right = right; next = 0 } ∷ []) }
    ensures state { IfOk result (λ yes.
        yes ≡ true
        → SetsState pairs.old.states.entries pairs.new.states.entries left right PairState.Open) }
{
    let agree = verdict(left, &record_at(local, left), &record_at(target, right))?;
    if agree {
        pairs.open(left, right)?;
    }
    Ok(agree)
}

/// Whether the types at the ends of two chains of modifiers are compatible, for a query about the
/// id `asked`.
fn ends_are_compatible(
    local: &Btf<'_>,
    target: &Btf<'_>,
    asked: u32,
    local_id: u32,
    target_id: u32,
) -> Result<bool, BtfError>
    ensures answer { IfOk result (λ yes.
        ends_compatible local.now target.now asked (local_id, target_id) ≡ Ok yes) }
    ensures refused { IfErr result (λ e.
        e ≢ BtfError.OutOfMemory
        → ends_compatible local.now target.now asked (local_id, target_id) ≡ Err e) }
{
    let first_left = local.chain_end(asked, local_id)?;
    let first_right = target.chain_end(asked, target_id)?;
    let mut pairs = Pairs::new(local.allocator());
    if !enter(local, target, first_left, first_right, &mut pairs)? {
        return Ok(false);
    }
    while let Some(pair) = pairs.open.pop() {
        let Some((local_part, target_part)) = next_parts(local, target, pair) else {
            pairs.settle(pair.left, pair.right)?;
            continue;
        };
        let left = local.chain_end(asked, local_part)?;
        let right = target.chain_end(asked, target_part)?;
        match pairs.state(left, right) {
            Some(PairState::Settled) => pairs.open.push(OpenPair {
                next: pair.next + 1,
                ..pair
            })?,
            Some(PairState::Open) => {
                return Err(BtfError::MaximumTypeDepthReached { type_id: asked });
            }
            None => {
                pairs.open.push(pair)?;
                if !enter(local, target, left, right, &mut pairs)? {
                    return Ok(false);
                }
            }
        }
    }
    Ok(true)
}

/// Whether types of equal kinds are compatible, after their modifiers; types of different kinds
/// aren't.
fn compared<'t>(
    local: &Btf<'t>,
    local_id: u32,
    target: &Btf<'t>,
    target_id: u32,
) -> Result<bool, BtfError>
    ensures answer { IfOk result (λ yes.
        types_compatible local.now local_id target.now target_id ≡ Ok yes) }
    ensures refused { IfErr result (λ e.
        e ≢ BtfError.OutOfMemory
        → types_compatible local.now local_id target.now target_id ≡ Err e) }
{
    let local_kind = local.type_by_id(local_id)?.kind();
    let target_kind = target.type_by_id(target_id)?.kind();
    if local_kind != target_kind {
        return Ok(false);
    }
    ends_are_compatible(local, target, local_id, local_id, target_id)
}

/// Whether a type is compatible with a type of another table, as libbpf compares the types that a
/// program was compiled against with those of the kernel (`__bpf_core_types_are_compat`,
/// tools/lib/bpf/relo_core.c).
///
/// Both types have the same kind. The ends of their chains of modifiers have the same kind, and so,
/// in turn, have their pointees, array elements, parameters and return types. Function prototypes
/// have equally many parameters, and integers have the bit offset 0.
///
/// `UnknownBtfType` where a type is missing, `UnexpectedBtfType` where functions, variables,
/// sections or declaration tags are compared, `MaximumTypeDepthReached` with the local id where a
/// pair of types contains itself or a chain of modifiers is too long.
#[tactic(auto, using(crate::proofs::Held::compared_are_held))]
pub fn types_are_compatible<'t>(
    local: &Btf<'t>,
    local_id: u32,
    target: &Btf<'t>,
    target_id: u32,
) -> Result<bool, BtfError>
    ensures answer { IfOk result (λ yes.
        types_compatible local.now local_id target.now target_id ≡ Ok yes) }
    ensures refused { IfErr result (λ e.
        e ≢ BtfError.OutOfMemory
        → types_compatible local.now local_id target.now target_id ≡ Err e) }
    ensures boundless { IsBoundless local.now local_id target.now target_id }
    ensures exchanged { IfOk result (λ yes.
        types_compatible target.now target_id local.now local_id ≡ Ok yes) }
    ensures rests { RestsOnBoth compared_ids local.now local_id target.now target_id (λ one other.
        types_compatible one local_id other target_id) }
    ensures held { AreHeld compared_ids }
{
    compared(local, local_id, target, target_id)
}
