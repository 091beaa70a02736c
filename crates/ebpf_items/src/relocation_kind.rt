//! Kinds of type relocations.

ghost use Rattle.std.specs.Prelude.{◌≡◌, Some, IfErr, slice_get};
ghost use Rattle.std.specs.Result.{result_ok};
ghost use Rattle.ebpf_items.specs.RelocationKind.{relocation_kinds, relocation_kind_number};
ghost use Rattle.btf_records.specs.declared.error.BtfError.TheVariants.{InvalidRelocationKind};

use btf_records::BtfError;

/// The property of the kernel's types that a type relocation is resolved to: `enum
/// bpf_core_relo_kind` of the kernel's `bpf.h` ("CO-RE relocations" in its `llvm_reloc.rst`).
#[derive(Clone, Copy, Debug, PartialEq, Eq)]
pub enum RelocationKind {
    /// The offset of a field, in bytes.
    FieldByteOffset = 0,
    /// The size of a field, in bytes.
    FieldByteSize = 1,
    /// Whether a field exists.
    FieldExists = 2,
    /// Whether a field is signed.
    FieldSigned = 3,
    /// The number of bits to shift a bit field left in 64 bits.
    FieldLShift64 = 4,
    /// The number of bits to shift a bit field right in 64 bits.
    FieldRShift64 = 5,
    /// The id of a type in the object.
    TypeIdLocal = 6,
    /// The id of a type in the kernel.
    TypeIdTarget = 7,
    /// Whether a type exists.
    TypeExists = 8,
    /// The size of a type, in bytes.
    TypeSize = 9,
    /// Whether a variant of an enum exists.
    EnumVariantExists = 10,
    /// The value of a variant of an enum.
    EnumVariantValue = 11,
}

impl RelocationKind {
    /// Its number in the kernel's `bpf.h`. `try_from` is the inverse.
    pub fn number(self) -> u32
        ensures value { result ≡ relocation_kind_number self }
        ensures entry { slice_get relocation_kinds result ≡ Some self }
    {
        self as u32
    }
}

const RELOCATION_KINDS: [RelocationKind; 12] = [
    RelocationKind::FieldByteOffset,
    RelocationKind::FieldByteSize,
    RelocationKind::FieldExists,
    RelocationKind::FieldSigned,
    RelocationKind::FieldLShift64,
    RelocationKind::FieldRShift64,
    RelocationKind::TypeIdLocal,
    RelocationKind::TypeIdTarget,
    RelocationKind::TypeExists,
    RelocationKind::TypeSize,
    RelocationKind::EnumVariantExists,
    RelocationKind::EnumVariantValue,
];

impl TryFrom<u32> for RelocationKind {
    type Error = BtfError;

    ghost try_from_gives = { λ kind r.
        (result_ok r ≡ slice_get relocation_kinds kind)
        × IfErr r (λ e. e ≡ InvalidRelocationKind kind) };

    fn try_from(kind: u32) -> Result<RelocationKind, BtfError> {
        kind_numbered(kind).ok_or(BtfError::InvalidRelocationKind { kind })
    }
}

fn kind_numbered(kind: u32) -> Option<RelocationKind>
    ensures { result ≡ slice_get relocation_kinds kind }
{
    RELOCATION_KINDS.get(kind as usize).copied()
}
