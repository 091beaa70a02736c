//! The results for matches.

ghost use Rattle.std.specs.Prelude.{◌≡◌, filter, not, IfOk};
ghost use Rattle.std.specs.List.{list_all};
ghost use Rattle.core_resolve.specs.Outcomes.{agree, conflicts, no_match, of_first, outcome_of};

use crate::error::TypeRelocationError;
use crate::matches::Match;
use core_spec::RelocationValue;
use ebpf_items::RelocationKind;
use std::alloc::{AllocError, Global};

/// The result of a type relocation.
#[derive(Clone, Copy, Debug)]
pub enum Resolved {
    /// This value.
    Value(RelocationValue),
    /// The instruction can't be run.
    Poison,
}

/// The result without a match.
fn no_match(kind: RelocationKind) -> Result<Resolved, TypeRelocationError>
    ensures { result ≡ no_match kind }
{
    match kind {
        RelocationKind::FieldExists
        | RelocationKind::TypeExists
        | RelocationKind::EnumVariantExists => Ok(Resolved::Value(RelocationValue {
            value: 0,
            field: None,
        })),
        RelocationKind::TypeIdTarget | RelocationKind::TypeSize => {
            Err(TypeRelocationError::MissingTargetDefinition)
        }
        _ => Ok(Resolved::Poison),
    }
}

/// Whether two matches have the same bit offset, and the same value where both have one.
fn agree(first: Match, other: Match) -> bool
    ensures { result ≡ agree first other }
{
    if first.bit_offset != other.bit_offset {
        return false;
    }
    match (first.value, other.value) {
        (Some(one), Some(another)) => one.value == another.value,
        _ => true,
    }
}

/// Whether others agree with the first.
fn all_agree(first: Match, others: &[Match]) -> bool
    ensures { result ≡ list_all (agree first) others.now }
{
    others.iter().all(|other| agree(first, *other))
}

/// The result for the first match.
fn of_first(first: Match) -> Resolved
    ensures { result ≡ of_first first }
{
    match first.value {
        Some(value) => Resolved::Value(value),
        None => Resolved::Poison,
    }
}

/// The result of a type relocation with these matches, in order of table and then of id: the value
/// of the first match, or poison where that can't be computed. Without a match, the result is 0 for
/// the kinds of existence, and poison for others.
///
/// `ConflictingCandidates` where another match has another bit offset than the first, or another
/// value where both can be computed; `MissingTargetDefinition` for the id or the size of a type
/// without a match.
pub fn outcome_of(kind: RelocationKind, matches: &[Match]) -> Result<Resolved, TypeRelocationError>
    ensures { result ≡ outcome_of kind matches.now }
{
    let [first, others @ ..] = matches else {
        return no_match(kind);
    };
    if all_agree(*first, others) {
        Ok(of_first(*first))
    } else {
        Err(TypeRelocationError::ConflictingCandidates)
    }
}

/// The matches that don't agree with `first`.
#[tactic(auto, using(crate::proofs::DifferingMatches::conflict_on, crate::proofs::DifferingMatches::conflict_past, crate::proofs::DifferingMatches::conflict_end))]
fn differing(alloc: Global, first: Match, others: &[Match]) -> Result<Vec<Match>, AllocError>
    ensures { IfOk result (λ found.
        found.items ≡ filter (λ other. not (agree first other)) others.now) }
{
    let mut found = Vec::new(alloc);
    for other in others {
        if !agree(first, *other) {
            found.push(*other)?;
        }
    }
    Ok(found)
}

/// The matches that don't agree with the first, in order. Because of these, `outcome_of` returns
/// `ConflictingCandidates`.
pub fn conflicts(alloc: Global, matches: &[Match]) -> Result<Vec<Match>, AllocError>
    ensures { IfOk result (λ found. found.items ≡ conflicts matches.now) }
{
    match matches {
        [first, others @ ..] => differing(alloc, *first, others),
        [] => Ok(Vec::new(alloc)),
    }
}
