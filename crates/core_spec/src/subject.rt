//! The subjects of type relocations.

ghost use Rattle.std.specs.Prelude.{◌≡◌};
ghost use Rattle.core_spec.specs.Subjects.{subject_of};

use ebpf_items::RelocationKind;

/// The subject of a type relocation.
#[derive(Clone, Copy, Debug, PartialEq, Eq)]
pub enum Subject {
    /// A part of a type.
    Field,
    /// The type as a whole.
    Type,
    /// A variant of an enum.
    Variant,
}

/// The subject of a kind of type relocation.
pub fn subject_of(kind: RelocationKind) -> Subject
    ensures { result ≡ subject_of kind }
{
    match kind {
        RelocationKind::FieldByteOffset
        | RelocationKind::FieldByteSize
        | RelocationKind::FieldExists
        | RelocationKind::FieldSigned
        | RelocationKind::FieldLShift64
        | RelocationKind::FieldRShift64 => Subject::Field,
        RelocationKind::TypeIdLocal
        | RelocationKind::TypeIdTarget
        | RelocationKind::TypeExists
        | RelocationKind::TypeSize => Subject::Type,
        RelocationKind::EnumVariantExists | RelocationKind::EnumVariantValue => Subject::Variant,
    }
}
