//! The results of type relocations in a kernel's types.

ghost use Rattle.std.specs.Prelude.{◌≡◌, [], Ok, map, option_copied, IfOk, IfSome};
ghost use Rattle.core_relocation.specs.Relocations.{types_given};
ghost use Rattle.kernel_reports.specs.Answers.{answer_of, answer_to, answers_to};

use crate::relocations::{RelocatedSlot, RelocationAt};
use btf_ext::bpf_core_relo;
use btf_tables::Btf;
use core_patch::{Patch, WriteError, patch_of, patched};
use core_resolve::{RelocationOutcome, TypeMatcher, TypeRelocation, TypeRelocationError};
use core_spec::AccessError;
use ebpf_items::RelocationKind;
use slot_relocation::Outcome;
use std::alloc::{AllocError, Global};

/// The result of a type relocation in a kernel's types.
#[derive(Debug, Drop)]
pub enum RelocationAnswer {
    /// No function of its section holds its instruction, or the object has no such section.
    Unplaced,
    /// It can't be resolved.
    Fault(TypeRelocationError),
    /// It gives a value or poison to its instruction, which can hold it or can't.
    Given {
        patch: Patch,
        written: Outcome<WriteError>,
    },
}

/// What a relocation asks for, given its kind.
fn asked_for(kind: RelocationKind, asked: bpf_core_relo) -> TypeRelocation
    ensures { result
        ≡ record { kind = kind; type_id = asked.type_id; access_str_off = asked.access_str_off } }
{
    TypeRelocation {
        kind,
        type_id: asked.type_id,
        access_str_off: asked.access_str_off,
    }
}

/// What a relocation asks for; nothing where its number stands for no kind.
fn type_relocation(at: &RelocationAt) -> Option<TypeRelocation> {
    let kind = RelocationKind::try_from(at.asked.kind).ok()?;
    Some(asked_for(kind, at.asked))
}

/// What all relocations ask for; a kernel's tables are searched once for all of it.
fn asked_by(
    alloc: Global,
    relocations: &[RelocationAt],
) -> Result<Vec<TypeRelocation>, AllocError> {
    let mut asked = Vec::new(alloc);
    for at in relocations {
        if let Some(relocation) = type_relocation(at) {
            asked.push(relocation)?;
        }
    }
    Ok(asked)
}

/// What an outcome changes in the instruction at a place.
fn given(
    local: &Btf<'_>,
    targets: &[Btf<'_>],
    place: RelocatedSlot,
    outcome: RelocationOutcome,
) -> RelocationAnswer
    ensures { result ≡ answer_of (types_given [] [] local.now targets.now) place (Ok outcome) }
{
    let patch = patch_of(local, targets, outcome);
    RelocationAnswer::Given {
        patch,
        written: patched(place.slot, place.next, patch),
    }
}

/// The result of a relocation.
fn answer_of(
    matcher: &mut TypeMatcher<'_>,
    local: &Btf<'_>,
    targets: &[Btf<'_>],
    at: RelocationAt,
) -> Result<RelocationAnswer, AllocError>
    requires { matcher.old ≡ record { local = local.now; targets = targets.now } }
    ensures value { IfOk result (λ answer. answer ≡ answer_to local.now targets.now at) }
    ensures same { matcher.new ≡ matcher.old }
{
    let Some(place) = at.place else {
        return Ok(RelocationAnswer::Unplaced);
    };
    let kind = match RelocationKind::try_from(at.asked.kind) {
        Ok(kind) => kind,
        Err(error) => {
            return Ok(RelocationAnswer::Fault(TypeRelocationError::Local(AccessError::BtfError(
                error,
            ))));
        }
    };
    match matcher.relocation_outcome(asked_for(kind, at.asked)) {
        Ok(outcome) => Ok(given(local, targets, place, outcome)),
        Err(TypeRelocationError::OutOfMemory) => Err(AllocError),
        Err(error) => Ok(RelocationAnswer::Fault(error)),
    }
}

/// The results of some relocations, with a matcher for `targets`.
fn all_answers(
    alloc: Global,
    matcher: &mut TypeMatcher<'_>,
    local: &Btf<'_>,
    targets: &[Btf<'_>],
    relocations: &[RelocationAt],
) -> Result<Vec<RelocationAnswer>, AllocError>
    requires { matcher.old ≡ record { local = local.now; targets = targets.now } }
    ensures { IfOk result (λ answers.
        answers.items ≡ map (answer_to local.now targets.now) relocations.now) }
{
    let mut answers = Vec::new(alloc);
    for at in relocations {
        let answer = answer_of(matcher, local, targets, *at)?;
        answers.push(answer)?;
    }
    Ok(answers)
}

/// The result of each of some relocations of an object in a kernel's types, each alone: on the
/// slots of the object, as if no other relocation were made. None where the object has no types of
/// its own. Each table is searched once for all of them.
///
/// # Errors
///
/// `AllocError` where memory runs out.
pub fn relocation_answers<'t>(
    alloc: Global,
    local: Option<&'t Btf<'t>>,
    targets: &'t [Btf<'t>],
    relocations: &[RelocationAt],
) -> Result<Vec<RelocationAnswer>, AllocError>
    ensures { IfOk result (λ answers.
        answers.items ≡ answers_to (option_copied local.entry) targets.now relocations.now) }
{
    let Some(local) = local else {
        return Ok(Vec::new(alloc));
    };
    let asked = asked_by(alloc, relocations)?;
    let mut matcher = TypeMatcher::collect(local, asked.as_slice(), targets)?;
    all_answers(alloc, &mut matcher, local, targets, relocations)
}
