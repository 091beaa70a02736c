//! The kinds of type records.

ghost use Rattle.std.specs.Prelude.{◌≡◌, ◌<◌, ◌≤◌, MatchResult, Some};
ghost use Rattle.btf_records.specs.Kinds.{kind_count, kind_of, number_of, text_of};
ghost use Rattle.btf_records.specs.declared.error.BtfError.TheVariants.{InvalidTypeKind};

use crate::error::BtfError;
use std::fmt;

/// The kind of a type record, `BTF_KIND_UNKN` to `BTF_KIND_ENUM64` of the kernel's BTF
/// documentation.
#[derive(Clone, Copy, Debug, PartialEq, Eq)]
pub enum BtfKind {
    Unknown,
    Int,
    Ptr,
    Array,
    Struct,
    Union,
    Enum,
    Fwd,
    Typedef,
    Volatile,
    Const,
    Restrict,
    Func,
    FuncProto,
    Var,
    DataSec,
    Float,
    DeclTag,
    TypeTag,
    Enum64,
}

/// The kinds by their numbers.
const KINDS: [BtfKind; 20] = [
    BtfKind::Unknown,
    BtfKind::Int,
    BtfKind::Ptr,
    BtfKind::Array,
    BtfKind::Struct,
    BtfKind::Union,
    BtfKind::Enum,
    BtfKind::Fwd,
    BtfKind::Typedef,
    BtfKind::Volatile,
    BtfKind::Const,
    BtfKind::Restrict,
    BtfKind::Func,
    BtfKind::FuncProto,
    BtfKind::Var,
    BtfKind::DataSec,
    BtfKind::Float,
    BtfKind::DeclTag,
    BtfKind::TypeTag,
    BtfKind::Enum64,
];

impl BtfKind {
    /// The number of this kind in a record's info word.
    pub(crate) fn number(self) -> u32
        ensures value { result ≡ number_of self }
        ensures bounded { result < kind_count }
    {
        self as u32
    }

    fn name(self) -> &'static str
        ensures { result.now ≡ text_of self }
    {
        match self {
            BtfKind::Unknown => "[UNKNOWN]",
            BtfKind::Int => "[INT]",
            BtfKind::Ptr => "[PTR]",
            BtfKind::Array => "[ARRAY]",
            BtfKind::Struct => "[STRUCT]",
            BtfKind::Union => "[UNION]",
            BtfKind::Enum => "[ENUM]",
            BtfKind::Fwd => "[FWD]",
            BtfKind::Typedef => "[TYPEDEF]",
            BtfKind::Volatile => "[VOLATILE]",
            BtfKind::Const => "[CONST]",
            BtfKind::Restrict => "[RESTRICT]",
            BtfKind::Func => "[FUNC]",
            BtfKind::FuncProto => "[FUNC_PROTO]",
            BtfKind::Var => "[VAR]",
            BtfKind::DataSec => "[DATASEC]",
            BtfKind::Float => "[FLOAT]",
            BtfKind::DeclTag => "[DECL_TAG]",
            BtfKind::TypeTag => "[TYPE_TAG]",
            BtfKind::Enum64 => "[ENUM64]",
        }
    }
}

/// The kind of a number from 0 to 19; any other is refused as `InvalidTypeKind`.
impl TryFrom<u32> for BtfKind {
    type Error = BtfError;

    ghost try_from_gives = { λ n r.
        MatchResult r (λ kind. (n < kind_count) × (kind ≡ kind_of n)) (λ e.
        (kind_count ≤ n) × (e ≡ InvalidTypeKind n)) };

    #[tactic(auto, unfolding(crate::specs::Kinds::kind_of))]
    fn try_from(kind: u32) -> Result<BtfKind, BtfError> {
        match KINDS.get(kind as usize) {
            Some(found) => Ok(*found),
            None => Err(BtfError::InvalidTypeKind { kind }),
        }
    }
}

/// The documentation's name in brackets, such as `[FUNC_PROTO]`.
impl fmt::Display for BtfKind {
    ghost output = { λ kind. Some (text_of kind) };

    fn fmt<W: fmt::Write>(&self, f: &mut fmt::Formatter<W>) -> fmt::Result {
        f.write_str(self.name())
    }
}
