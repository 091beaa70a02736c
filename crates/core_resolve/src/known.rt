//! Known outcomes.

ghost use Rattle.std.specs.Prelude.{◌≡◌, true};

use crate::relocation::{RelocationOutcome, TypeRelocation};

/// A relocation's type id, access string offset and kind number.
pub(crate) type AccessKey = (u32, u32, u32);

/// The outcome of a relocation.
#[derive(Clone, Copy, Debug)]
pub(crate) struct KnownOutcome {
    pub(crate) relocation: TypeRelocation,
    pub(crate) outcome: RelocationOutcome,
}

pub(crate) fn access_key(relocation: TypeRelocation) -> AccessKey {
    (
        relocation.type_id,
        relocation.access_str_off,
        relocation.kind.number(),
    )
}

/// Whether two relocations are equal.
#[tactic(auto, using(crate::proofs::KnownOutcomes::same_relocation))]
pub(crate) fn is_same(one: TypeRelocation, other: TypeRelocation) -> bool
    ensures { result ≡ true → one ≡ other }
{
    if one.kind.number() != other.kind.number() {
        return false;
    }
    if one.type_id != other.type_id {
        return false;
    }
    one.access_str_off == other.access_str_off
}
