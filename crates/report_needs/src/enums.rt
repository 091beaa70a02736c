//! Numbers in the kernel's enums.

ghost use Rattle.std.specs.Prelude.{◌≡◌, ◌∷◌, [], IfOk};
ghost use Rattle.std.specs.Int.{w64, cast_unsigned};
ghost use Rattle.std.specs.Option.{option_copied, option_map};
ghost use Rattle.report_needs.specs.Enums.{AreEnums, enum_of, has_number, is_for_none, is_marker, helper_name, missing_or_unknown, name_at_number, presence_at, variant_32, variant_64, widened};

use crate::records::first_enum;
use btf_encoding::TypeRef;
use btf_records::BtfKind;
use btf_search::NamedTypes;
use btf_tables::Btf;
use std::alloc::{AllocError, Global};

/// Whether a kernel has something.
#[derive(Clone, Copy, Debug, PartialEq, Eq)]
pub enum Presence {
    Found,
    Missing,
    /// It isn't known. A number is unknown where the kernel's types lack the enum that would have
    /// it; `presences_of` of `kernel_reports` says when an extern is.
    Unknown,
}

impl Presence {
    /// What something tells of another thing that came at the same time or later.
    pub(crate) fn missing_or_unknown(self) -> Presence
        ensures { result ≡ missing_or_unknown self }
    {
        match self {
            Presence::Missing => Presence::Missing,
            Presence::Found | Presence::Unknown => Presence::Unknown,
        }
    }
}

/// The id of the kernel's enum with a name: the first of 32 bits, or where there is none the first
/// of 64. The kernel is the only table of `types`.
fn enum_of(
    alloc: Global,
    kernel: &Btf<'_>,
    types: &NamedTypes<'_, '_>,
    enum_name: &str,
) -> Result<Option<u32>, AllocError>
    requires { types.now ≡ kernel.now ∷ [] }
    ensures { IfOk result (λ found. found ≡ enum_of kernel.now enum_name.now) }
{
    match first_enum(alloc, kernel, types, BtfKind::Enum, enum_name)? {
        Some(id) => Ok(Some(id)),
        None => first_enum(alloc, kernel, types, BtfKind::Enum64, enum_name),
    }
}

/// The ids of the kernel's enums of numbers.
#[derive(Clone, Copy, Debug)]
pub(crate) struct EnumIds {
    pub(crate) program_types: Option<u32>,
    pub(crate) attach_types: Option<u32>,
    pub(crate) map_types: Option<u32>,
    pub(crate) helpers: Option<u32>,
    pub(crate) linkages: Option<u32>,
}

/// The names of the enums.
pub(crate) const ENUM_NAMES: [&str; 5] = [
    "bpf_prog_type",
    "bpf_attach_type",
    "bpf_map_type",
    "bpf_func_id",
    "btf_func_linkage",
];

impl EnumIds {
    /// The enums of a kernel, which is the only table of `types`.
    pub(crate) fn find(
        alloc: Global,
        kernel: &Btf<'_>,
        types: &NamedTypes<'_, '_>,
    ) -> Result<EnumIds, AllocError>
        requires { types.now ≡ kernel.now ∷ [] }
        ensures { IfOk result (AreEnums kernel.now) }
    {
        Ok(EnumIds {
            program_types: enum_of(alloc, kernel, types, "bpf_prog_type")?,
            attach_types: enum_of(alloc, kernel, types, "bpf_attach_type")?,
            map_types: enum_of(alloc, kernel, types, "bpf_map_type")?,
            helpers: enum_of(alloc, kernel, types, "bpf_func_id")?,
            linkages: enum_of(alloc, kernel, types, "btf_func_linkage")?,
        })
    }
}

/// Whether a variant's name is that of the one for none.
#[tactic(auto, using(std::proofs::lemmas::Str::Pattern::ends_text))]
fn is_for_none(name: &str) -> bool
    ensures { result ≡ is_for_none name.now }
{
    name.ends_with("_unspec") || name.ends_with("_UNSPEC")
}

/// Whether the value of a variant isn't a number that the kernel has. The variant marks the end of
/// its enum, like `__BPF_FUNC_MAX_ID`, or stands for none, like `BPF_FUNC_unspec` and
/// `BPF_MAP_TYPE_UNSPEC`.
pub(crate) fn is_marker(kernel: &Btf<'_>, name_offset: u32) -> bool
    ensures { result ≡ is_marker kernel.now name_offset }
{
    match kernel.string_at(name_offset) {
        Ok(text) => text.starts_with("__") || is_for_none(text),
        Err(_error) => false,
    }
}

/// A value of 32 bits as one of 64.
pub(crate) fn widened(is_signed: bool, value: u32) -> u64
    ensures { result ≡ widened is_signed value }
{
    if is_signed {
        i64::from(value.cast_signed()).cast_unsigned()
    } else {
        u64::from(value)
    }
}

/// Whether a variant has this number.
fn has_number(kernel: &Btf<'_>, name_offset: u32, value: u64, number: u64) -> bool
    ensures { result ≡ has_number kernel.now name_offset value number }
{
    value == number && !is_marker(kernel, name_offset)
}

/// The offset of the name of the first variant of 32 bits with this number.
fn variant_32(kernel: &Btf<'_>, t: &TypeRef<'_>, number: u64) -> Option<u32>
    ensures { result ≡ variant_32 kernel.now t.now number }
{
    let is_signed = t.flag();
    for index in 0..t.count() {
        let variant = t.variant(index)?;
        let value = widened(is_signed, variant.value);
        if has_number(kernel, variant.name_offset, value, number) {
            return Some(variant.name_offset);
        }
    }
    None
}

/// The offset of the name of the first variant of 64 bits with this number.
fn variant_64(kernel: &Btf<'_>, t: &TypeRef<'_>, number: u64) -> Option<u32>
    ensures { result ≡ variant_64 kernel.now t.now number }
{
    for index in 0..t.count() {
        let variant = t.variant64(index)?;
        if has_number(kernel, variant.name_offset, variant.value(), number) {
            return Some(variant.name_offset);
        }
    }
    None
}

/// The offset of the name of the first variant of an enum with this number.
fn name_at_number(kernel: &Btf<'_>, id: u32, number: u64) -> Option<u32>
    ensures { result ≡ name_at_number kernel.now id number }
{
    let Ok(t) = kernel.type_by_id(id) else {
        return None;
    };
    match variant_32(kernel, &t, number) {
        Some(offset) => Some(offset),
        None => variant_64(kernel, &t, number),
    }
}

/// Whether the enum with an id has a number.
pub(crate) fn presence_at(kernel: &Btf<'_>, id: Option<u32>, number: u64) -> Presence
    ensures { result ≡ presence_at kernel.now id number }
{
    let Some(id) = id else {
        return Presence::Unknown;
    };
    match name_at_number(kernel, id, number) {
        Some(_offset) => Presence::Found,
        None => Presence::Missing,
    }
}

/// The name of the first variant that has a helper's number, of the enum with an id.
pub(crate) fn helper_name<'k>(kernel: &'k Btf<'_>, id: Option<u32>, helper: i32) -> Option<&'k str>
    ensures { option_copied result ≡ helper_name kernel.now id helper }
{
    let id = id?;
    let offset = name_at_number(kernel, id, i64::from(helper).cast_unsigned())?;
    match kernel.string_at(offset) {
        Ok(name) => Some(name),
        Err(_error) => None,
    }
}
