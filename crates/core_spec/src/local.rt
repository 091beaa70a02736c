//! The paths of type relocations through the types that a program was compiled against.

ghost use Rattle.std.specs.Prelude.{◌≡◌, ◌≢◌, IfOk, IfErr, Ok, Err};
ghost use Rattle.core_spec.specs.LocalPaths.{local_path, path_of, type_path};
ghost use Rattle.core_spec.specs.declared.error.AccessError.TheVariants.{BtfError as TypeError};
ghost use Rattle.btf_records.specs.declared.error.BtfError.TheVariants.{OutOfMemory};

use crate::error::AccessError;
use crate::fields::field_path;
use crate::numbers::access_numbers;
use crate::path::{AccessPath, Step, Steps};
use crate::subject::{Subject, subject_of};
use crate::variants::variant_place;
use btf_tables::Btf;
use ebpf_items::RelocationKind;

/// The path to a whole type, whose access string is the number 0.
fn type_path(table: &Btf<'_>, type_id: u32, numbers: &[u64]) -> Result<AccessPath, AccessError>
    ensures { result ≡ type_path type_id numbers.now }
{
    match numbers {
        [0] => Ok(AccessPath {
            type_id,
            steps: Steps::new(table.allocator()),
            bit_offset: 0,
        }),
        _ => Err(AccessError::InvalidAccessString),
    }
}

/// The path to a variant of an enum.
fn variant_path(
    table: &Btf<'_>,
    type_id: u32,
    root: u32,
    numbers: &[u64],
) -> Result<AccessPath, AccessError>
    ensures value { IfOk result (λ path.
        path_of Subject.Variant table.now type_id root numbers.now ≡ Ok path) }
    ensures refused { IfErr result (λ e.
        e ≢ TypeError OutOfMemory
        → path_of Subject.Variant table.now type_id root numbers.now ≡ Err e) }
{
    let place = variant_place(table, root, numbers)?;
    let mut steps = Steps::new(table.allocator());
    steps.push(Step::Variant(place))?;
    Ok(AccessPath {
        type_id,
        steps,
        bit_offset: 0,
    })
}

/// The path of a subject by the numbers of an access string.
fn path_of(
    subject: Subject,
    table: &Btf<'_>,
    type_id: u32,
    root: u32,
    numbers: &[u64],
) -> Result<AccessPath, AccessError>
    ensures value { IfOk result (λ path.
        path_of subject table.now type_id root numbers.now ≡ Ok path) }
    ensures refused { IfErr result (λ e.
        e ≢ TypeError OutOfMemory → path_of subject table.now type_id root numbers.now ≡ Err e) }
{
    match subject {
        Subject::Field => field_path(table, type_id, root, numbers),
        Subject::Type => type_path(table, type_id, numbers),
        Subject::Variant => variant_path(table, type_id, root, numbers),
    }
}

/// The path of a type relocation through the types that its program was compiled against: to the
/// field for the kinds of fields, to the variant for the kinds of variants, and to the whole type
/// for the others (`bpf_core_parse_spec`, tools/lib/bpf/relo_core.c).
///
/// `BtfError` where the type's name, the access string, or the type after its modifiers can't be
/// read. `InvalidAccessString` where the access string isn't numbers of 64 bits joined by `:`, or
/// isn't the one number 0 for a whole type, or one number for a variant. `InvalidAccessIndex` where
/// an index is past the members, elements or variants of a type; an array without elements that is
/// the last member of a struct may have any index. `InvalidRelocationKindForType` where a type has
/// no members, elements or variants. `BtfError::InvalidTypeInfo` where a field's offset is 2^32
/// bits or more.
pub fn local_path(
    table: &Btf<'_>,
    kind: RelocationKind,
    type_id: u32,
    access_str_off: u32,
) -> Result<AccessPath, AccessError>
    ensures value { IfOk result (λ path.
        local_path table.now kind type_id access_str_off ≡ Ok path) }
    ensures refused { IfErr result (λ e.
        e ≢ TypeError OutOfMemory → local_path table.now kind type_id access_str_off ≡ Err e) }
{
    let t = table.type_by_id(type_id)?;
    let _name = table.string_at(t.name_offset())?;
    let access_str = table.string_at(access_str_off)?;
    let numbers = access_numbers(table.allocator(), access_str)?;
    let root = table.resolve_type(type_id)?;
    path_of(subject_of(kind), table, type_id, root, numbers.as_slice())
}
