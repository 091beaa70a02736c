//! Whether the types of members of two tables are compatible.

ghost use Rattle.std.specs.Prelude.{◌≡◌, ◌&&◌, ◌==◌, Err, Ok, IfOk};
ghost use Rattle.std.specs.Option.{option_map, option_zip};
ghost use Rattle.btf_tables.specs.Agreement.{RestsOnNames};
ghost use Rattle.btf_tables.specs.Holdings.{AreHeld};
ghost use Rattle.btf_compatibility.specs.FieldCompatibility.{field_ids, fields_compatible, is_composite, field_answer, same_names};
ghost use Rattle.btf_records.specs.Fields.{array_of};

use crate::compatibility::{has_no_bit_offset, record_at};
use btf_encoding::TypeRef;
use btf_records::{BtfError, BtfKind};
use btf_tables::{Btf, essential_name};

/// The greatest number of rounds; each is one step into the elements of two arrays.
const MAX_ROUNDS: usize = 32;

/// Whether the names of two records are equal without their flavours.
fn same_names(
    local: &Btf<'_>,
    target: &Btf<'_>,
    a: &TypeRef<'_>,
    b: &TypeRef<'_>,
) -> Result<bool, BtfError>
    ensures { result ≡ same_names local.now target.now a.now b.now }
{
    let local_name = local.string_at(a.name_offset())?;
    let target_name = target.string_at(b.name_offset())?;
    Ok(essential_name(local_name) == essential_name(target_name))
}

fn is_composite(t: &TypeRef<'_>) -> bool
    ensures { result ≡ is_composite t.now }
{
    matches!(t.kind(), BtfKind::Struct | BtfKind::Union)
}

/// Whether two records agree, which aren't both arrays. `left` is the id of the local one.
fn field_verdict(
    local: &Btf<'_>,
    target: &Btf<'_>,
    left: u32,
    a: &TypeRef<'_>,
    b: &TypeRef<'_>,
) -> Result<bool, BtfError>
    ensures { result
        ≡ field_answer (λ _. Err (BtfError.UnexpectedBtfType left)) local.now target.now left a.now
        b.now }
{
    if is_composite(a) && is_composite(b) {
        return Ok(true);
    }
    if a.kind() != b.kind() {
        return Ok(false);
    }
    match a.kind() {
        BtfKind::Fwd | BtfKind::Enum | BtfKind::Enum64 => same_names(local, target, a, b),
        BtfKind::Int => Ok(has_no_bit_offset(a) && has_no_bit_offset(b)),
        BtfKind::Float | BtfKind::Ptr => Ok(true),
        _ => Err(BtfError::UnexpectedBtfType { type_id: left }),
    }
}

/// The element types of two arrays.
fn elements(a: &TypeRef<'_>, b: &TypeRef<'_>) -> Option<(u32, u32)>
    ensures { result
        ≡ option_zip (option_map (λ array. array.element_type) (array_of a.now))
        (option_map (λ array. array.element_type) (array_of b.now)) }
{
    Some((a.array()?.element_type, b.array()?.element_type))
}

/// Whether two members' types are compatible. Each round skips modifiers and enters an array.
#[tactic(auto, using(crate::proofs::FieldRounds::rounds_over, crate::proofs::FieldRounds::round_left, crate::proofs::FieldRounds::round_right))]
fn compare_fields(
    local: &Btf<'_>,
    local_id: u32,
    target: &Btf<'_>,
    target_id: u32,
) -> Result<bool, BtfError>
    ensures { result ≡ fields_compatible local.now local_id target.now target_id }
{
    let mut local_part = local_id;
    let mut target_part = target_id;
    for _ in 0..MAX_ROUNDS {
        let left = local.chain_end(local_id, local_part)?;
        let right = target.chain_end(local_id, target_part)?;
        let a = record_at(local, left);
        let b = record_at(target, right);
        let Some((local_element, target_element)) = elements(&a, &b) else {
            return field_verdict(local, target, left, &a, &b);
        };
        local_part = local_element;
        target_part = target_element;
    }
    Err(BtfError::MaximumTypeDepthReached { type_id: local_id })
}

/// Whether the type of a member is compatible with that of a member of a type of another table, as
/// libbpf compares them where it relocates an access to a member (`bpf_core_fields_are_compat`,
/// tools/lib/bpf/relo_core.c).
///
/// Modifiers are skipped. Any two structs or unions are compatible; so are two floats, two
/// pointers, two integers with the bit offset 0, two arrays with compatible elements, and two
/// enums, two 64-bit enums or two forward declarations with the same name. A name's flavour, from
/// its first `___` on, is ignored.
///
/// `UnknownBtfType` where a type is missing, `UnexpectedBtfType` where two types of another kind
/// are compared, `InvalidStringOffset` where a name can't be read, `MaximumTypeDepthReached` with
/// the local id where arrays are nested more than 31 deep or a chain of modifiers is too long.
pub fn fields_are_compatible<'t>(
    local: &Btf<'t>,
    local_id: u32,
    target: &Btf<'t>,
    target_id: u32,
) -> Result<bool, BtfError>
    ensures value { result ≡ fields_compatible local.now local_id target.now target_id }
    ensures exchanged { IfOk result (λ yes.
        fields_compatible target.now target_id local.now local_id ≡ Ok yes) }
    ensures rests { RestsOnNames field_ids local.now local_id target.now target_id (λ one other.
        fields_compatible one local_id other target_id) }
    ensures held { AreHeld field_ids }
{
    compare_fields(local, local_id, target, target_id)
}
