//! The outcomes of type relocations.

ghost use Rattle.std.specs.Prelude.{◌≡◌, ◌≢◌, IfOk, IfErr, Ok, Err};
ghost use Rattle.core_resolve.specs.RelocationOutcomes.{IsTableOf, resolved_by_kind, first_table, local_value, relocation_outcome, outcome_of_matches};
ghost use Rattle.core_resolve.specs.declared.error.TypeRelocationError.TheVariants.{OutOfMemory};

use crate::error::TypeRelocationError;
use crate::matcher::TypeMatcher;
use crate::matches::Match;
use crate::resolved::{Resolved, outcome_of};
use btf_tables::Btf;
use core_spec::{AccessError, AccessPath, RelocationValue, WholeField, path_value};
use ebpf_items::RelocationKind;

/// A type relocation (`struct bpf_core_relo`, include/uapi/linux/bpf.h).
#[derive(Clone, Copy, Debug, PartialEq, Eq)]
pub struct TypeRelocation {
    pub kind: RelocationKind,
    /// The id of a type in the object's own table.
    pub type_id: u32,
    /// The offset of its access string.
    pub access_str_off: u32,
}

/// The result of a type relocation, and the field that its instruction was compiled for.
#[derive(Clone, Copy, Debug)]
pub struct RelocationOutcome {
    pub outcome: Resolved,
    /// For a byte offset, the field in the object's own types, unless it is a bit field.
    pub local_field: Option<WholeField>,
    /// The index from 0 of the kernel's table with the first match, also where the match's value
    /// can't be computed; none without a match, and for an id of the object's own types.
    pub table: Option<usize>,
}

/// The value in the object's own types; 0 for a type's size, which is only computed for the
/// kernel's types.
pub(crate) fn local_value(
    local: &Btf<'_>,
    kind: RelocationKind,
    path: &AccessPath,
) -> Result<RelocationValue, AccessError>
    ensures { result ≡ local_value local.now kind path.now }
{
    match kind {
        RelocationKind::TypeSize => Ok(RelocationValue {
            value: 0,
            field: None,
        }),
        _ => path_value(local, kind, path),
    }
}

/// The result for some matches; an id of the object's own types has its value there.
fn resolved_by_kind(
    kind: RelocationKind,
    value: RelocationValue,
    matches: &[Match],
) -> Result<Resolved, TypeRelocationError>
    ensures { result ≡ resolved_by_kind kind value matches.now }
{
    match kind {
        RelocationKind::TypeIdLocal => Ok(Resolved::Value(value)),
        _ => outcome_of(kind, matches),
    }
}

/// The table of the first match.
fn first_table(matches: &[Match]) -> Option<usize>
    ensures { result ≡ first_table matches.now }
{
    match matches {
        [first, ..] => Some(first.table),
        [] => None,
    }
}

/// The outcome for some matches, with the value in the object's own types.
pub(crate) fn outcome_of_matches(
    kind: RelocationKind,
    matches: &[Match],
    value: RelocationValue,
) -> Result<RelocationOutcome, TypeRelocationError>
    ensures { result ≡ outcome_of_matches kind matches.now value }
{
    let outcome = resolved_by_kind(kind, value, matches)?;
    Ok(RelocationOutcome {
        outcome,
        local_field: value.field,
        table: first_table(matches),
    })
}

/// The outcome of a type relocation in the kernel's tables: the value at the first match, or poison
/// where it can't be computed; without a match, the result of `outcome_of`. An id of the object's
/// own types stays as it is.
///
/// `Local` where the access has no path in the object's own types, with the error of `local_path`,
/// or no value there; `UnreadableName` and `Kernel` as for `kernel_matches`;
/// `ConflictingCandidates` and `MissingTargetDefinition` as for `outcome_of`.
pub fn relocation_outcome<'t>(
    local: &Btf<'t>,
    relocation: TypeRelocation,
    targets: &[Btf<'t>],
) -> Result<RelocationOutcome, TypeRelocationError>
    ensures value { IfOk result (λ outcome.
        relocation_outcome local.now relocation targets.now ≡ Ok outcome) }
    ensures table { IfOk result (λ outcome. IsTableOf targets.now outcome.table) }
    ensures refused { IfErr result (λ e.
        e ≢ OutOfMemory → relocation_outcome local.now relocation targets.now ≡ Err e) }
{
    let mut matcher = TypeMatcher::new(local, targets);
    matcher.found_outcome(relocation)
}
