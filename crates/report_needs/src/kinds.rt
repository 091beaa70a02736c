//! The kinds of records that a kernel has.

ghost use Rattle.std.specs.Prelude.{◌≡◌, ◌<◌, ◌==◌, ◌++◌, false, map, slice_get, IfOk, OnOk};
ghost use Rattle.std.specs.Option.{option_copied, option_map_or};
ghost use Rattle.btf_records.specs.Fields.{kind_of_type};
ghost use Rattle.btf_records.specs.Kinds.{kind_count, number_of};
ghost use Rattle.report_needs.specs.Kinds.{is_among, is_first_kind, is_kind_enum, is_kind_number, kind_among, kind_enum, kind_need, kind_needs, kind_number, kinds_in, presence_among, presence_on, record_kinds_of};
ghost use Rattle.report_needs.specs.declared.kinds.RecordKinds.TheVariants.{Numbered};

use crate::check_functions::CheckFunctions;
use crate::enums::Presence;
use crate::kernel::SearchedKernel;
use crate::records::is_named;
use btf_encoding::TypeRef;
use btf_records::{BtfEnum, BtfKind};
use btf_tables::Btf;
use std::alloc::{AllocError, Global};

/// Whether a kernel has records of a kind.
#[derive(Clone, Copy, Debug, PartialEq, Eq)]
pub struct KindNeed {
    pub kind: BtfKind,
    /// Whether the kernel's enum of kinds has the number.
    pub presence: Presence,
}

/// The number of the last kind, and one more.
const KIND_COUNT: u32 = BtfKind::Enum64 as u32 + 1;

/// Whether a variant is the number of kind 0.
fn is_first_kind(kernel: &Btf<'_>, variant: BtfEnum) -> bool
    ensures { result ≡ is_first_kind kernel.now variant }
{
    match kernel.string_at(variant.name_offset) {
        Ok(text) => text == "BTF_KIND_UNKN",
        Err(_error) => false,
    }
}

/// Whether a record is the enum of the kinds' numbers.
fn is_kind_enum(kernel: &Btf<'_>, t: &TypeRef<'_>) -> bool
    ensures { result ≡ is_kind_enum kernel.now t.now }
{
    if !is_named(kernel, BtfKind::Enum, "", t) {
        return false;
    }
    match t.variant(0) {
        Some(variant) => is_first_kind(kernel, variant),
        None => false,
    }
}

/// The kernel's enum of the kinds' numbers, if it has one.
#[tactic(auto, using(crate::proofs::Variants::none_is))]
fn kind_enum<'k>(kernel: &'k Btf<'_>) -> Option<TypeRef<'k>>
    ensures { result ≡ kind_enum kernel.now }
{
    for t in kernel.types() {
        if is_kind_enum(kernel, &t) {
            return Some(t);
        }
    }
    None
}

/// Whether a variant is the number of a kind.
fn is_kind_number(kernel: &Btf<'_>, number: u32, variant: BtfEnum) -> bool
    ensures { result ≡ is_kind_number kernel.now number variant }
{
    if variant.value != number {
        return false;
    }
    match kernel.string_at(variant.name_offset) {
        Ok(text) => text.starts_with("BTF_KIND_"),
        Err(_error) => false,
    }
}

/// The first variant that is the number of a kind.
#[tactic(auto, using(crate::proofs::Variants::found_here, crate::proofs::Variants::found_later))]
fn kind_number(kernel: &Btf<'_>, number: u32, t: &TypeRef<'_>) -> Option<BtfEnum>
    ensures { result ≡ kind_number kernel.now number t.now }
{
    for index in 0..t.count() {
        let variant = t.variant(index)?;
        if is_kind_number(kernel, number, variant) {
            return Some(variant);
        }
    }
    None
}

/// What tells the kinds of a kernel's records.
#[derive(Debug, Drop)]
pub(crate) enum RecordKinds<'k> {
    /// The enum of the kinds' numbers.
    Numbered(TypeRef<'k>),
    /// The functions that check records, where there is no such enum.
    Checked(CheckFunctions),
}

impl<'k> RecordKinds<'k> {
    /// What tells the kinds of a kernel.
    pub(crate) fn find(alloc: Global, kernel: &'k Btf<'_>) -> Result<RecordKinds<'k>, AllocError>
        ensures { IfOk result (λ kinds. kinds ≡ record_kinds_of kernel.now) }
    {
        match kind_enum(kernel) {
            Some(t) => Ok(RecordKinds::Numbered(t)),
            None => {
                let functions = CheckFunctions::find(alloc, kernel)?;
                Ok(RecordKinds::Checked(functions))
            }
        }
    }

    /// Whether the kernel has records of a kind.
    pub(crate) fn presence(&self, kernel: &Btf<'_>, kind: BtfKind) -> Presence
        ensures { result ≡ presence_among kernel.now self.now kind }
    {
        match self {
            RecordKinds::Numbered(t) => number_presence(kernel, t, kind),
            RecordKinds::Checked(functions) => functions.presence(kind),
        }
    }
}

/// Whether the enum of the numbers has that of a kind.
fn number_presence(kernel: &Btf<'_>, t: &TypeRef<'_>, kind: BtfKind) -> Presence
    ensures { result ≡ presence_among kernel.now (Numbered t.now) kind }
{
    match kind_number(kernel, kind as u32, t) {
        Some(_variant) => Presence::Found,
        None => Presence::Missing,
    }
}

/// Whether a kernel has records of a kind. Nothing is known where its types aren't given.
fn presence_on(kernel: Option<&SearchedKernel<'_, '_>>, kind: BtfKind) -> Presence
    ensures { result ≡ presence_on (option_copied kernel.entry) kind }
{
    match kernel {
        Some(kernel) => kernel.record_kind(kind),
        None => Presence::Unknown,
    }
}

/// Whether a kernel has records of a kind.
#[tactic(auto, unfolding(crate::specs::Kinds::kind_need))]
fn kind_need(kernel: Option<&SearchedKernel<'_, '_>>, kind: BtfKind) -> KindNeed
    ensures { result ≡ kind_need (option_copied kernel.entry) kind }
{
    KindNeed {
        kind,
        presence: presence_on(kernel, kind),
    }
}

/// Whether the record at an index is of a kind.
fn is_kind_at(table: &Btf<'_>, index: usize, kind: BtfKind) -> bool
    ensures { result
        ≡ option_map_or (λ t. number_of (kind_of_type t) == number_of kind)
        (slice_get table.now.types index) false }
{
    match table.records().get(index) {
        Some(t) => t.kind() as u8 == kind as u8,
        None => false,
    }
}

/// Whether a table has records of a kind.
#[tactic(auto, using(crate::proofs::KindsOf::among_types, crate::proofs::KindsOf::here, crate::proofs::KindsOf::later, crate::proofs::KindsOf::nowhere))]
pub(crate) fn has_kind(table: &Btf<'_>, kind: BtfKind) -> bool
    ensures { result ≡ is_among (map (λ t. number_of (kind_of_type t)) table.now.types) kind }
{
    for index in 0..table.len() {
        if is_kind_at(table, index, kind) {
            return true;
        }
    }
    false
}

/// Adds the kind with a number, if a table has records of it.
#[tactic(auto, using(crate::proofs::KindsOf::added, crate::proofs::KindsOf::left_out))]
fn add_kind(table: &Btf<'_>, number: u32, kinds: &mut Vec<BtfKind>) -> Result<(), AllocError>
    requires { number < kind_count }
    ensures { OnOk result
        (kinds.new.items
        ≡ kinds.old.items
        ++ kind_among (map (λ t. number_of (kind_of_type t)) table.now.types) number) }
{
    if let Ok(kind) = BtfKind::try_from(number) {
        if has_kind(table, kind) {
            kinds.push(kind)?;
        }
    }
    Ok(())
}

/// The kinds of the records of a table, in the order of their numbers.
fn kinds_in(alloc: Global, table: &Btf<'_>) -> Result<Vec<BtfKind>, AllocError>
    ensures { IfOk result (λ kinds. kinds.items ≡ kinds_in table.now) }
{
    let mut kinds = Vec::new(alloc);
    for number in 0..KIND_COUNT {
        add_kind(table, number, &mut kinds)?;
    }
    Ok(kinds)
}

/// Whether a kernel has records of each of some kinds.
fn needs_of(
    alloc: Global,
    kernel: Option<&SearchedKernel<'_, '_>>,
    kinds: &[BtfKind],
) -> Result<Vec<KindNeed>, AllocError>
    ensures { IfOk result (λ needs.
        needs.items ≡ map (kind_need (option_copied kernel.entry)) kinds.now) }
{
    let mut needs = Vec::new(alloc);
    for kind in kinds {
        needs.push(kind_need(kernel, *kind))?;
    }
    Ok(needs)
}

/// Whether a kernel has records of each kind that an object's own types have, in the order of the
/// kinds' numbers. Nothing is known of a kernel whose types aren't given.
///
/// # Errors
///
/// `AllocError` where memory runs out.
pub fn kind_needs(
    alloc: Global,
    kernel: Option<&SearchedKernel<'_, '_>>,
    types: Option<&Btf<'_>>,
) -> Result<Vec<KindNeed>, AllocError>
    ensures { IfOk result (λ needs.
        needs.items ≡ kind_needs (option_copied kernel.entry) (option_copied types.entry)) }
{
    let Some(types) = types else {
        return Ok(Vec::new(alloc));
    };
    let kinds = kinds_in(alloc, types)?;
    needs_of(alloc, kernel, kinds.as_slice())
}
