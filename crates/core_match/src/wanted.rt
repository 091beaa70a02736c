//! The kind and name of candidates.

ghost use Rattle.std.specs.Prelude.{◌≡◌, MatchResult, Ok, Err, nat_eq};
ghost use Rattle.std.specs.Cmp.Lexicographic.{pointwise};
ghost use Rattle.btf_tables.specs.EssentialNames.{essential_name};
ghost use Rattle.core_match.specs.Candidates.{is_of_kind, wanted_for, wanted_of};

use btf_encoding::TypeRef;
use btf_records::{BtfError, BtfKind};
use btf_tables::{Btf, essential_name};
use std::marker::Model;

/// The kind and the name of the candidates for a local type.
#[derive(Debug, Drop)]
pub struct WantedType<'l> {
    kind: BtfKind,
    /// Whether 64-bit enums are candidates too: the local type is a union that stands for one.
    or_enum64: bool,
    /// Without its flavour.
    name: &'l str,
}

impl<'l> Model for WantedType<'l> {
    ghost use Rattle.core_match.specs.Candidates.{Wanted};

    ghost Value = { Wanted };

    ghost view = { λ w. record { kind = w.kind; or_enum64 = w.or_enum64; name = w.name.now } };
}

impl<'l> WantedType<'l> {
    /// The kind and name for a local type with this name.
    fn of(t: &TypeRef<'_>, name: &'l str) -> WantedType<'l>
        ensures { result ≡ wanted_of t.now name.now }
    {
        WantedType {
            kind: t.kind(),
            or_enum64: t.enum64_fallback().is_some(),
            name: essential_name(name),
        }
    }

    /// The kind and name for the local type of an id.
    ///
    /// `UnknownBtfType` where there is no such type, `InvalidStringOffset` where its name can't be
    /// read.
    pub fn find(local: &'l Btf<'_>, type_id: u32) -> Result<WantedType<'l>, BtfError>
        ensures { MatchResult result (λ wanted. wanted_for local.now type_id ≡ Ok wanted) (λ e.
            wanted_for local.now type_id ≡ Err e) }
    {
        let t = local.type_by_id(type_id)?;
        match local.string_at(t.name_offset()) {
            Ok(name) => Ok(WantedType::of(&t, name)),
            Err(error) => Err(error),
        }
    }

    /// The kind.
    pub(crate) fn kind(&self) -> BtfKind
        ensures { result ≡ self.now.kind }
    {
        self.kind
    }

    /// Whether 64-bit enums are candidates too.
    pub(crate) fn or_enum64(&self) -> bool
        ensures { result ≡ self.now.or_enum64 }
    {
        self.or_enum64
    }

    /// The name, without its flavour.
    pub(crate) fn name(&self) -> &'l str
        ensures { result.now ≡ self.now.name }
    {
        self.name
    }

    /// Whether a type has the kind of a candidate.
    pub(crate) fn is_of_kind(&self, t: &TypeRef<'_>) -> bool
        ensures { result ≡ is_of_kind self.now t.now }
    {
        t.kind() == self.kind || (self.or_enum64 && t.kind() == BtfKind::Enum64)
    }

    /// Whether this is the name of a candidate, without its flavour.
    pub(crate) fn is_name(&self, name: &str) -> bool
        ensures { result ≡ pointwise nat_eq (essential_name name.now) self.now.name }
    {
        essential_name(name) == self.name
    }
}
