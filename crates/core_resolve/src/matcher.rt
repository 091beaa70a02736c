//! Matches of an object's type relocations; each of the kernel's tables is searched once for all of
//! them.

ghost use Rattle.std.specs.Prelude.{◌≡◌, ◌≢◌, [], true, IfOk, IfErr, IfSome, Ok, Err};
ghost use Rattle.core_spec.specs.LocalPaths.{local_path};
ghost use Rattle.core_spec.specs.Subjects.{subject_of};
ghost use Rattle.core_match.specs.Candidates.{candidates};
ghost use Rattle.core_match.specs.declared.error.CandidateError.TheVariants.{OutOfMemory as NoMemory};
ghost use Rattle.core_resolve.specs.FoundPaths.{ArePathsOf, found_paths, is_part};
ghost use Rattle.core_resolve.specs.KnownOutcomes.{IsOutcome};
ghost use Rattle.core_resolve.specs.Matches.{candidates_of, kernel_matches, searched_tables};
ghost use Rattle.core_resolve.specs.RelocationOutcomes.{IsTableOf, relocation_outcome};
ghost use Rattle.core_resolve.specs.declared.error.TypeRelocationError.TheVariants.{OutOfMemory};

use crate::error::TypeRelocationError;
use crate::known::{AccessKey, KnownOutcome, access_key, is_same};
use crate::matches::{Match, matches_of};
use crate::paths::{FoundPath, KnownPaths, ask_for_one, is_part, matches_from, paths_of};
use crate::relocation::{RelocationOutcome, TypeRelocation, local_value, outcome_of_matches};
use btf_tables::Btf;
use core_match::{CandidateError, Candidates, KernelType, WantedType};
use core_spec::{AccessError, AccessPath, local_path, subject_of};
use ebpf_items::RelocationKind;
use std::alloc::{AllocError, Global};
use std::collections::BTreeMap;
use std::marker::Model;

/// An object's own types and the kernel's types, with the candidates for relocations.
#[derive(Debug)]
pub struct TypeMatcher<'m> {
    local: &'m Btf<'m>,
    targets: &'m [Btf<'m>],
    candidates: Candidates<'m, 'm>,
    /// The known outcomes of relocations.
    known: BTreeMap<AccessKey, KnownOutcome>,
    /// The paths that were found for relocations of fields and variants, by type id and access
    /// string offset.
    paths: BTreeMap<(u32, u32), KnownPaths>,
}

impl<'m> Drop for TypeMatcher<'m> {
    // A single call where a value is dropped, instead of one call per field.
    fn drop(self) {
        let TypeMatcher {
            local: _,
            targets: _,
            candidates: _candidates,
            known: _known,
            paths: _paths,
        } = self;
    }
}

impl<'m> Model for TypeMatcher<'m> {
    ghost use Rattle.std.specs.Prelude.{◌≡◌};
    ghost use Rattle.std.specs.Map.{values_of};
    ghost use Rattle.core_resolve.specs.FoundPaths.{AreKnown};
    ghost use Rattle.core_resolve.specs.KnownOutcomes.{AreOutcomes};
    ghost use Rattle.core_resolve.specs.RelocationOutcomes.{Matched};

    ghost Value = { Matched };

    ghost view = { λ m. record { local = m.local.now; targets = m.targets.now } };

    ghost invariant = { λ m.
        (m.candidates ≡ m.targets.now)
        × AreOutcomes m.local.now m.targets.now (values_of m.known.entries)
        × AreKnown m.local.now m.targets.now (values_of m.paths.entries) };
}

/// The local types of the relocations that are resolved against the kernel's types, each once.
fn wanted_ids(local: &Btf<'_>, relocations: &[TypeRelocation]) -> Result<Vec<u32>, AllocError> {
    let mut type_ids = Vec::new(local.allocator());
    for relocation in relocations {
        if relocation.kind != RelocationKind::TypeIdLocal {
            type_ids.push(relocation.type_id)?;
        }
    }
    type_ids.sort_unstable();
    type_ids.dedup();
    Ok(type_ids)
}

/// The candidates for a local type, in the tables that are searched for a kind of relocation.
fn candidates_for(
    alloc: Global,
    kind: RelocationKind,
    wanted: &WantedType<'_>,
    types: &Candidates<'_, '_>,
) -> Result<Vec<KernelType>, CandidateError>
    ensures value { IfOk result (λ found.
        candidates wanted.now (searched_tables kind types.now) ≡ Ok found.items) }
    ensures refused { IfErr result (λ e.
        e ≢ NoMemory → candidates wanted.now (searched_tables kind types.now) ≡ Err e) }
{
    match kind {
        RelocationKind::TypeIdLocal => Ok(Vec::new(alloc)),
        RelocationKind::TypeIdTarget => types.of_first(alloc, wanted),
        _ => types.of(alloc, wanted),
    }
}

impl<'m> TypeMatcher<'m> {
    /// The types of an object and of the kernel. The kernel's tables are searched for each
    /// relocation.
    #[tactic(auto, using(crate::proofs::KnownOutcomes::none_known, crate::proofs::FoundPaths::no_paths_known))]
    pub fn new(local: &'m Btf<'m>, targets: &'m [Btf<'m>]) -> TypeMatcher<'m>
        ensures { result ≡ record { local = local.now; targets = targets.now } }
    {
        let alloc = local.allocator();
        TypeMatcher {
            local,
            targets,
            candidates: Candidates::new(alloc, targets),
            known: BTreeMap::new(alloc),
            paths: BTreeMap::new(alloc),
        }
    }

    /// The types of an object and of the kernel. Each of the kernel's tables is searched once for
    /// all of these relocations.
    #[tactic(auto, using(crate::proofs::KnownOutcomes::none_known, crate::proofs::FoundPaths::no_paths_known))]
    pub fn collect(
        local: &'m Btf<'m>,
        relocations: &[TypeRelocation],
        targets: &'m [Btf<'m>],
    ) -> Result<TypeMatcher<'m>, AllocError>
        ensures { IfOk result (λ matcher.
            matcher ≡ record { local = local.now; targets = targets.now }) }
    {
        let alloc = local.allocator();
        let type_ids = wanted_ids(local, relocations)?;
        let candidates = Candidates::collect(alloc, local, type_ids.as_slice(), targets)?;
        Ok(TypeMatcher {
            local,
            targets,
            candidates,
            known: BTreeMap::new(alloc),
            paths: BTreeMap::new(alloc),
        })
    }

    /// The candidates for the local type of an id.
    fn candidates_of(
        &self,
        kind: RelocationKind,
        type_id: u32,
    ) -> Result<Vec<KernelType>, TypeRelocationError>
        ensures value { IfOk result (λ found.
            candidates_of kind self.now.local type_id self.now.targets ≡ Ok found.items) }
        ensures refused { IfErr result (λ e.
            e ≢ OutOfMemory
            → candidates_of kind self.now.local type_id self.now.targets ≡ Err e) }
    {
        let wanted = match WantedType::find(self.local, type_id) {
            Ok(wanted) => wanted,
            Err(error) => return Err(TypeRelocationError::Local(AccessError::BtfError(error))),
        };
        let found = candidates_for(self.local.allocator(), kind, &wanted, &self.candidates)?;
        Ok(found)
    }

    /// The result of `kernel_matches`.
    #[tactic(auto, using(crate::proofs::WantedCandidates::matches_among, crate::proofs::WantedCandidates::matches_refused))]
    pub fn kernel_matches(
        &self,
        kind: RelocationKind,
        path: &AccessPath,
    ) -> Result<Vec<Match>, TypeRelocationError>
        ensures value { IfOk result (λ found.
            kernel_matches kind self.now.local path.now self.now.targets ≡ Ok found.items) }
        ensures refused { IfErr result (λ e.
            e ≢ OutOfMemory
            → kernel_matches kind self.now.local path.now self.now.targets ≡ Err e) }
    {
        let found = self.candidates_of(kind, path.type_id)?;
        matches_of(kind, self.local, path, self.targets, found.as_slice())
    }

    /// The paths in all tables that match a path to a part of a local type.
    #[tactic(auto, using(crate::proofs::WantedCandidates::paths_among))]
    fn found_paths(
        &self,
        kind: RelocationKind,
        path: &AccessPath,
    ) -> Result<Vec<FoundPath>, TypeRelocationError>
        requires { is_part (subject_of kind) ≡ true }
        ensures value { IfOk result (λ found.
            found_paths (subject_of kind) self.now.local path.now self.now.targets
            ≡ Ok found.items) }
        ensures refused { IfErr result (λ e.
            e ≢ OutOfMemory
            → found_paths (subject_of kind) self.now.local path.now self.now.targets ≡ Err e) }
    {
        let found = self.candidates_of(kind, path.type_id)?;
        paths_of(
            subject_of(kind),
            self.local,
            path,
            self.targets,
            found.as_slice(),
        )
    }

    /// The paths that were found for a relocation of the same subject, type and access string.
    #[tactic(auto, using(crate::proofs::FoundPaths::paths_known))]
    fn known_paths(&self, relocation: TypeRelocation) -> Option<&[FoundPath]>
        ensures { IfSome result (λ paths.
            ArePathsOf self.now.local self.now.targets relocation paths.now) }
    {
        let known = self
            .paths
            .get(&(relocation.type_id, relocation.access_str_off))?;
        if ask_for_one(known.relocation, relocation) {
            Some(known.paths.as_slice())
        } else {
            None
        }
    }

    /// The matches of a relocation of a part of a type, with this path. The paths in the kernel's
    /// types are stored.
    fn part_matches(
        &mut self,
        relocation: TypeRelocation,
        path: &AccessPath,
    ) -> Result<Vec<Match>, TypeRelocationError>
        requires part { is_part (subject_of relocation.kind) ≡ true }
        requires path { local_path self.old.local relocation.kind relocation.type_id
            relocation.access_str_off
            ≡ Ok path.now }
        ensures value { IfOk result (λ found.
            kernel_matches relocation.kind self.old.local path.now self.old.targets
            ≡ Ok found.items) }
        ensures refused { IfErr result (λ e.
            e ≢ OutOfMemory
            → kernel_matches relocation.kind self.old.local path.now self.old.targets ≡ Err e) }
        ensures same { self.new ≡ self.old }
    {
        let alloc = self.local.allocator();
        let kind = relocation.kind;
        if let Some(paths) = self.known_paths(relocation) {
            let matches = matches_from(alloc, kind, self.targets, paths)?;
            return Ok(matches);
        }
        let paths = self.found_paths(kind, path)?;
        let matches = matches_from(alloc, kind, self.targets, paths.as_slice())?;
        self.paths.insert(
            (relocation.type_id, relocation.access_str_off),
            KnownPaths { relocation, paths },
        )?;
        Ok(matches)
    }

    /// The matches of a relocation with this path.
    fn matches(
        &mut self,
        relocation: TypeRelocation,
        path: &AccessPath,
    ) -> Result<Vec<Match>, TypeRelocationError>
        requires { local_path self.old.local relocation.kind relocation.type_id
            relocation.access_str_off
            ≡ Ok path.now }
        ensures value { IfOk result (λ found.
            kernel_matches relocation.kind self.old.local path.now self.old.targets
            ≡ Ok found.items) }
        ensures refused { IfErr result (λ e.
            e ≢ OutOfMemory
            → kernel_matches relocation.kind self.old.local path.now self.old.targets ≡ Err e) }
        ensures same { self.new ≡ self.old }
    {
        if is_part(subject_of(relocation.kind)) {
            self.part_matches(relocation, path)
        } else {
            self.kernel_matches(relocation.kind, path)
        }
    }

    /// The result of `relocation_outcome`.
    pub(crate) fn found_outcome(
        &mut self,
        relocation: TypeRelocation,
    ) -> Result<RelocationOutcome, TypeRelocationError>
        ensures value { IfOk result (λ outcome.
            relocation_outcome self.old.local relocation self.old.targets ≡ Ok outcome) }
        ensures table { IfOk result (λ outcome. IsTableOf self.old.targets outcome.table) }
        ensures refused { IfErr result (λ e.
            e ≢ OutOfMemory
            → relocation_outcome self.old.local relocation self.old.targets ≡ Err e) }
        ensures same { self.new ≡ self.old }
    {
        let kind = relocation.kind;
        let local = self.local;
        let path = local_path(local, kind, relocation.type_id, relocation.access_str_off)?;
        let matches = self.matches(relocation, &path)?;
        let value = local_value(local, kind, &path)?;
        outcome_of_matches(kind, matches.as_slice(), value)
    }

    /// The outcome of a relocation, if it is known.
    #[tactic(auto, using(crate::proofs::KnownOutcomes::known_outcome))]
    fn known_outcome(&self, relocation: TypeRelocation) -> Option<RelocationOutcome>
        ensures { IfSome result (IsOutcome self.now.local self.now.targets relocation) }
    {
        let known = self.known.get(&access_key(relocation))?;
        if is_same(known.relocation, relocation) {
            Some(known.outcome)
        } else {
            None
        }
    }

    /// The result of `relocation_outcome`, which is stored for equal relocations.
    pub fn relocation_outcome(
        &mut self,
        relocation: TypeRelocation,
    ) -> Result<RelocationOutcome, TypeRelocationError>
        ensures value { IfOk result (λ outcome.
            relocation_outcome self.old.local relocation self.old.targets ≡ Ok outcome) }
        ensures table { IfOk result (λ outcome. IsTableOf self.old.targets outcome.table) }
        ensures refused { IfErr result (λ e.
            e ≢ OutOfMemory
            → relocation_outcome self.old.local relocation self.old.targets ≡ Err e) }
        ensures same { self.new ≡ self.old }
    {
        if let Some(outcome) = self.known_outcome(relocation) {
            return Ok(outcome);
        }
        let outcome = self.found_outcome(relocation)?;
        let known = KnownOutcome {
            relocation,
            outcome,
        };
        self.known.insert(access_key(relocation), known)?;
        Ok(outcome)
    }
}
