//! What type relocations give to their instructions.

ghost use Rattle.std.specs.Prelude.{◌≡◌, None, Some, slice_get, option_and_then};
ghost use Rattle.std.specs.Option.{option_copied};
ghost use Rattle.core_patch.specs.Patches.{are_alike, is_unsigned, may_stand_for, patch_for, patch_of, field_size, type_of, width_of};

use btf_encoding::TypeRef;
use btf_records::BtfKind;
use btf_tables::Btf;
use core_resolve::{RelocationOutcome, Resolved};
use core_spec::WholeField;

/// What becomes of the width of a load or a store.
#[derive(Clone, Copy, Debug)]
pub enum Width {
    /// It stays.
    Kept,
    /// It becomes this number of bytes.
    Changed(u32),
    /// The field has another size, and its type isn't one whose width can change.
    Unknown,
}

/// What a type relocation gives to its instruction.
#[derive(Clone, Copy, Debug)]
pub enum Patch {
    Value { value: u64, width: Width },
    /// The instruction becomes one that can't be run.
    Poison,
}

/// The size of a field in bytes; 0 where it isn't a whole field.
fn field_size(field: Option<WholeField>) -> u32
    ensures { result ≡ field_size field }
{
    match field {
        Some(field) => field.size,
        None => 0,
    }
}

/// The record of a field's type.
fn type_of<'b>(table: Option<&'b Btf<'_>>, field: Option<WholeField>) -> Option<TypeRef<'b>>
    ensures { result ≡ type_of (option_copied table.entry) field }
{
    let field = field?;
    let table = table?;
    table.type_by_id(field.type_id).ok()
}

/// Whether a type is an integer whose encoding lacks the bit for signed ones; the other bits don't
/// matter.
fn is_unsigned(t: &TypeRef<'_>) -> bool
    ensures { result ≡ is_unsigned t.now }
{
    match t.int() {
        Some(int) => int.int_word / 0x100_0000 % 2 == 0,
        None => false,
    }
}

/// Whether an instruction that reads `local` can read `target` instead where their sizes differ.
fn are_alike(local: &TypeRef<'_>, target: &TypeRef<'_>) -> bool
    ensures { result ≡ are_alike local.now target.now }
{
    (local.kind() == BtfKind::Ptr && target.kind() == BtfKind::Ptr)
        || (is_unsigned(local) && is_unsigned(target))
}

/// The same for types that may be unknown.
fn may_stand_for(local: Option<TypeRef<'_>>, target: Option<TypeRef<'_>>) -> bool
    ensures { result ≡ may_stand_for local.entry target.entry }
{
    match (local, target) {
        (Some(local), Some(target)) => are_alike(&local, &target),
        _ => false,
    }
}

/// What becomes of the width of an instruction that was compiled for the field `compiled` and gets
/// the field `field`.
fn width_of(
    local: &Btf<'_>,
    target: Option<&Btf<'_>>,
    compiled: Option<WholeField>,
    field: Option<WholeField>,
) -> Width
    ensures { result ≡ width_of local.now (option_copied target.entry) compiled field }
{
    let size = field_size(field);
    if field_size(compiled) == size {
        return Width::Kept;
    }
    if may_stand_for(type_of(Some(local), compiled), type_of(target, field)) {
        Width::Changed(size)
    } else {
        Width::Unknown
    }
}

/// The table of the first match.
fn target_of<'b, 't>(targets: &'b [Btf<'t>], outcome: RelocationOutcome) -> Option<&'b Btf<'t>>
    ensures { option_copied result ≡ option_and_then (slice_get targets.entry.now) outcome.table }
{
    targets.get(outcome.table?)
}

/// What an outcome gives to an instruction.
pub fn patch_of(local: &Btf<'_>, targets: &[Btf<'_>], outcome: RelocationOutcome) -> Patch
    ensures { result ≡ patch_of local.now targets.now outcome }
{
    match outcome.outcome {
        Resolved::Value(found) => Patch::Value {
            value: found.value,
            width: width_of(
                local,
                target_of(targets, outcome),
                outcome.local_field,
                found.field,
            ),
        },
        Resolved::Poison => Patch::Poison,
    }
}
