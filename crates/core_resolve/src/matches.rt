//! The matches of a type relocation in the kernel's tables.

ghost use Rattle.std.specs.Prelude.{◌≡◌, ◌≢◌, ◌++◌, [], IfOk, IfErr, Ok, Err};
ghost use Rattle.std.specs.Option.{option_to_list};
ghost use Rattle.core_resolve.specs.Matches.{kernel_matches, match_at, match_in, match_of, matches_of};
ghost use Rattle.core_resolve.specs.declared.error.TypeRelocationError.TheVariants.{OutOfMemory};
ghost use Rattle.core_spec.specs.declared.error.AccessError.TheVariants.{BtfError as TypeError};
ghost use Rattle.btf_records.specs.declared.error.BtfError.TheVariants.{OutOfMemory as NoMemory};

use crate::error::{TypeRelocationError, at_kernel_type};
use crate::matcher::TypeMatcher;
use btf_tables::Btf;
use core_match::{KernelType, matching_path};
use core_spec::{AccessError, AccessPath, RelocationValue, path_value, subject_of};
use ebpf_items::RelocationKind;

/// A match of a type relocation: a kernel type in which the relocation has a path.
#[derive(Clone, Copy, Debug)]
pub struct Match {
    /// The index of its table among the kernel's tables, from 0.
    pub table: usize,
    pub type_id: u32,
    /// The offset of the field from the type's beginning, in bits.
    pub bit_offset: u32,
    /// The relocation's value there, if it can be computed.
    pub value: Option<RelocationValue>,
}

/// The match of a path in a table. An error where the kind is a type's size and it can't be
/// computed.
fn match_of(
    kind: RelocationKind,
    target: &Btf<'_>,
    table: usize,
    path: &AccessPath,
) -> Result<Match, AccessError>
    ensures { result ≡ match_of kind target.now table path.now }
{
    let value = match path_value(target, kind, path) {
        Ok(value) => Some(value),
        Err(error) => {
            if kind == RelocationKind::TypeSize {
                return Err(error);
            }
            None
        }
    };
    Ok(Match {
        table,
        type_id: path.type_id,
        bit_offset: path.bit_offset,
        value,
    })
}

/// The match of a candidate in a table, if it matches.
fn match_in<'t>(
    kind: RelocationKind,
    local: &Btf<'t>,
    path: &AccessPath,
    target: &Btf<'t>,
    place: KernelType,
) -> Result<Option<Match>, AccessError>
    ensures value { IfOk result (λ found.
        match_in kind local.now path.now target.now place ≡ Ok found) }
    ensures refused { IfErr result (λ e.
        e ≢ TypeError NoMemory → match_in kind local.now path.now target.now place ≡ Err e) }
{
    let found = matching_path(subject_of(kind), local, path, target, place.type_id)?;
    let Some(found) = found else {
        return Ok(None);
    };
    let m = match_of(kind, target, place.table, &found)?;
    Ok(Some(m))
}

/// The match of a candidate, if it matches.
fn match_at<'t>(
    kind: RelocationKind,
    local: &Btf<'t>,
    path: &AccessPath,
    targets: &[Btf<'t>],
    place: KernelType,
) -> Result<Option<Match>, TypeRelocationError>
    ensures value { IfOk result (λ found.
        match_at kind local.now path.now targets.now place ≡ Ok found) }
    ensures refused { IfErr result (λ e.
        e ≢ OutOfMemory → match_at kind local.now path.now targets.now place ≡ Err e) }
{
    let Some(target) = targets.get(place.table) else {
        return Ok(None);
    };
    match match_in(kind, local, path, target, place) {
        Ok(found) => Ok(found),
        Err(error) => Err(at_kernel_type(place, error)),
    }
}

/// Adds the match of a candidate, if it matches.
fn add_match<'t>(
    kind: RelocationKind,
    local: &Btf<'t>,
    path: &AccessPath,
    targets: &[Btf<'t>],
    place: KernelType,
    matches: &mut Vec<Match>,
) -> Result<Option<Match>, TypeRelocationError>
    ensures value { IfOk result (λ found.
        match_at kind local.now path.now targets.now place ≡ Ok found) }
    ensures added { IfOk result (λ found.
        matches.new.items ≡ matches.old.items ++ option_to_list found) }
    ensures refused { IfErr result (λ e.
        e ≢ OutOfMemory → match_at kind local.now path.now targets.now place ≡ Err e) }
{
    let found = match_at(kind, local, path, targets, place)?;
    if let Some(m) = found {
        matches.push(m)?;
    }
    Ok(found)
}

/// The matches of candidates, in order.
#[tactic(auto, using(crate::proofs::MatchesOf::none_left, crate::proofs::MatchesOf::next_candidate))]
pub(crate) fn matches_of<'t>(
    kind: RelocationKind,
    local: &Btf<'t>,
    path: &AccessPath,
    targets: &[Btf<'t>],
    candidates: &[KernelType],
) -> Result<Vec<Match>, TypeRelocationError>
    ensures value { IfOk result (λ found.
        matches_of kind local.now path.now targets.now [] candidates.now ≡ Ok found.items) }
    ensures refused { IfErr result (λ e.
        e ≢ OutOfMemory
        → matches_of kind local.now path.now targets.now [] candidates.now ≡ Err e) }
{
    let mut matches = Vec::new(local.allocator());
    for candidate in candidates {
        let _found = add_match(kind, local, path, targets, *candidate, &mut matches)?;
    }
    Ok(matches)
}

/// The matches of a type relocation in the kernel's tables, in order of table and then of id: the
/// types that have the kind of the path's type and its name without flavours, and that match the
/// path. An id of the object's own types has no matches. For the id of a kernel type, only the
/// first table is searched.
///
/// `Local` where the local type is missing or its name can't be read; `UnreadableName` where the
/// name of a type of the kind can't be read in a table that is searched; `Kernel` where all names
/// can be read, with the error of the search for the path in a type of the kind and the name, or
/// with the error of the size of a match, where the relocation is for the size.
pub fn kernel_matches<'t>(
    kind: RelocationKind,
    local: &Btf<'t>,
    path: &AccessPath,
    targets: &[Btf<'t>],
) -> Result<Vec<Match>, TypeRelocationError>
    ensures value { IfOk result (λ found.
        kernel_matches kind local.now path.now targets.now ≡ Ok found.items) }
    ensures refused { IfErr result (λ e.
        e ≢ OutOfMemory → kernel_matches kind local.now path.now targets.now ≡ Err e) }
{
    TypeMatcher::new(local, targets).kernel_matches(kind, path)
}
