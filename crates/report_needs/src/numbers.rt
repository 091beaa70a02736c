//! The numbers of one of the kernel's enums, as a set in which many are looked up.

ghost use Rattle.std.specs.Prelude.{◌≡◌, is_some, IfOk, OnOk};
ghost use Rattle.report_needs.specs.Enums.{has_number, variant_32, variant_64};
ghost use Rattle.report_needs.specs.Numbers.{Adds, AreNumbers, known_presence};

use crate::enums::{Presence, is_marker, widened};
use btf_encoding::TypeRef;
use btf_tables::Btf;
use std::alloc::{AllocError, Global};
use std::collections::BTreeSet;

/// Adds a variant's number, if it has one.
fn add_number(
    kernel: &Btf<'_>,
    name_offset: u32,
    value: u64,
    numbers: &mut BTreeSet<u64>,
) -> Result<(), AllocError>
    ensures { OnOk result
        (Adds (λ number. has_number kernel.now name_offset value number) numbers.old numbers.new) }
{
    if !is_marker(kernel, name_offset) {
        numbers.insert(value)?;
    }
    Ok(())
}

/// Adds the numbers of an enum of 32 bits.
fn add_32(kernel: &Btf<'_>, t: &TypeRef<'_>, numbers: &mut BTreeSet<u64>) -> Result<(), AllocError>
    ensures { OnOk result
        (Adds (λ number. is_some (variant_32 kernel.now t.now number)) numbers.old numbers.new) }
{
    let is_signed = t.flag();
    for index in 0..t.count() {
        let Some(variant) = t.variant(index) else {
            return Ok(());
        };
        let value = widened(is_signed, variant.value);
        add_number(kernel, variant.name_offset, value, numbers)?;
    }
    Ok(())
}

/// Adds the numbers of an enum of 64 bits.
fn add_64(kernel: &Btf<'_>, t: &TypeRef<'_>, numbers: &mut BTreeSet<u64>) -> Result<(), AllocError>
    ensures { OnOk result
        (Adds (λ number. is_some (variant_64 kernel.now t.now number)) numbers.old numbers.new) }
{
    for index in 0..t.count() {
        let Some(variant) = t.variant64(index) else {
            return Ok(());
        };
        add_number(kernel, variant.name_offset, variant.value(), numbers)?;
    }
    Ok(())
}

/// The numbers of the enum with an id.
pub(crate) fn numbers_at(
    alloc: Global,
    kernel: &Btf<'_>,
    id: Option<u32>,
) -> Result<BTreeSet<u64>, AllocError>
    ensures { IfOk result (AreNumbers kernel.now id) }
{
    let mut numbers = BTreeSet::new(alloc);
    let Some(id) = id else {
        return Ok(numbers);
    };
    let Ok(t) = kernel.type_by_id(id) else {
        return Ok(numbers);
    };
    add_32(kernel, &t, &mut numbers)?;
    add_64(kernel, &t, &mut numbers)?;
    Ok(numbers)
}

/// Whether an enum, if the kernel has it, has a number among its own.
pub(crate) fn known_presence(is_there: bool, numbers: &BTreeSet<u64>, number: u64) -> Presence
    ensures { result ≡ known_presence is_there numbers.now number }
{
    if !is_there {
        return Presence::Unknown;
    }
    if numbers.contains(&number) {
        Presence::Found
    } else {
        Presence::Missing
    }
}
