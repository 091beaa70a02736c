//! Paths in the kernel's types, from which the matches of several kinds are made.

ghost use Rattle.std.specs.Prelude.{◌≡◌, ◌≢◌, [], map, true, IfOk, IfErr, OnOk, Ok, Err};
ghost use Rattle.core_resolve.specs.FoundPaths.{AskForOne, IsAdded, is_part, match_from, path_at, paths_of};
ghost use Rattle.core_resolve.specs.declared.error.TypeRelocationError.TheVariants.{OutOfMemory};

use crate::error::{TypeRelocationError, at_kernel_type};
use crate::matches::Match;
use crate::relocation::TypeRelocation;
use btf_tables::Btf;
use core_match::{KernelType, matching_path};
use core_spec::{AccessPath, Subject, path_value, subject_of};
use ebpf_items::RelocationKind;
use std::alloc::{AllocError, Global};

/// The path of a relocation in a kernel type.
#[derive(Debug, Drop)]
pub(crate) struct FoundPath {
    /// The index of the type's table among the kernel's tables, from 0.
    pub(crate) table: usize,
    pub(crate) path: AccessPath,
}

/// The paths that were found for a relocation.
#[derive(Debug, Drop)]
pub(crate) struct KnownPaths {
    pub(crate) relocation: TypeRelocation,
    pub(crate) paths: Vec<FoundPath>,
}

/// Whether a subject is a field or a variant.
pub(crate) fn is_part(subject: Subject) -> bool
    ensures { result ≡ is_part subject }
{
    match subject {
        Subject::Type => false,
        Subject::Field | Subject::Variant => true,
    }
}

/// Whether two relocations have the same subject, type and access string.
pub(crate) fn ask_for_one(one: TypeRelocation, other: TypeRelocation) -> bool
    ensures { result ≡ true → AskForOne one other }
{
    if subject_of(one.kind) != subject_of(other.kind) {
        return false;
    }
    if one.type_id != other.type_id {
        return false;
    }
    one.access_str_off == other.access_str_off
}

/// The path in a candidate, if it matches.
fn path_at<'t>(
    subject: Subject,
    local: &Btf<'t>,
    path: &AccessPath,
    targets: &[Btf<'t>],
    place: KernelType,
) -> Result<Option<FoundPath>, TypeRelocationError>
    ensures value { IfOk result (λ found.
        path_at subject local.now path.now targets.now place ≡ Ok found) }
    ensures refused { IfErr result (λ e.
        e ≢ OutOfMemory → path_at subject local.now path.now targets.now place ≡ Err e) }
{
    let Some(target) = targets.get(place.table) else {
        return Ok(None);
    };
    match matching_path(subject, local, path, target, place.type_id) {
        Ok(Some(path)) => Ok(Some(FoundPath {
            table: place.table,
            path,
        })),
        Ok(None) => Ok(None),
        Err(error) => Err(at_kernel_type(place, error)),
    }
}

/// Adds the path in a candidate, if it matches.
fn add_path<'t>(
    subject: Subject,
    local: &Btf<'t>,
    path: &AccessPath,
    targets: &[Btf<'t>],
    place: KernelType,
    paths: &mut Vec<FoundPath>,
) -> Result<(), TypeRelocationError>
    ensures added { OnOk result
        (IsAdded (path_at subject local.now path.now targets.now place) paths.old.items
        paths.new.items) }
    ensures refused { IfErr result (λ e.
        e ≢ OutOfMemory → path_at subject local.now path.now targets.now place ≡ Err e) }
{
    match path_at(subject, local, path, targets, place)? {
        Some(found) => {
            paths.push(found)?;
            Ok(())
        }
        None => Ok(()),
    }
}

/// The paths in candidates, in order.
#[tactic(auto, using(crate::proofs::FoundPaths::no_path_left, crate::proofs::FoundPaths::next_path))]
pub(crate) fn paths_of<'t>(
    subject: Subject,
    local: &Btf<'t>,
    path: &AccessPath,
    targets: &[Btf<'t>],
    candidates: &[KernelType],
) -> Result<Vec<FoundPath>, TypeRelocationError>
    ensures value { IfOk result (λ found.
        paths_of subject local.now path.now targets.now [] candidates.now ≡ Ok found.items) }
    ensures refused { IfErr result (λ e.
        e ≢ OutOfMemory
        → paths_of subject local.now path.now targets.now [] candidates.now ≡ Err e) }
{
    let mut paths = Vec::new(local.allocator());
    for candidate in candidates {
        add_path(subject, local, path, targets, *candidate, &mut paths)?;
    }
    Ok(paths)
}

/// The match of a path, for a kind of fields or variants.
fn match_from(kind: RelocationKind, targets: &[Btf<'_>], found: &FoundPath) -> Match
    ensures { result ≡ match_from kind targets.now found.now }
{
    let value = match targets.get(found.table) {
        Some(target) => path_value(target, kind, &found.path).ok(),
        None => None,
    };
    Match {
        table: found.table,
        type_id: found.path.type_id,
        bit_offset: found.path.bit_offset,
        value,
    }
}

/// The matches of paths, for a kind of fields or variants.
pub(crate) fn matches_from(
    alloc: Global,
    kind: RelocationKind,
    targets: &[Btf<'_>],
    paths: &[FoundPath],
) -> Result<Vec<Match>, AllocError>
    ensures { IfOk result (λ matches. matches.items ≡ map (match_from kind targets.now) paths.now) }
{
    let mut matches = Vec::new(alloc);
    for found in paths {
        matches.push(match_from(kind, targets, found))?;
    }
    Ok(matches)
}
