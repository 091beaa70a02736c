//! Making an object's load plan, and writing it as text.

ghost use Rattle.std.specs.Prelude.{◌≤◌, ◌^◌, length, IfOk};

use crate::error::ExampleError;
use btf::{Btf, Endianness};
use ebpf_object::Object;
use load_plan::{Order, Plan, Settings, Watched, prepare};
use std::alloc::{AllocError, Global};
use std::io;

/// The limit of map numbers, which stand for file descriptors.
const NUMBERS: u32 = 0x8000_0000;

/// A list of one table.
fn list_of<'t>(alloc: Global, table: Btf<'t>) -> Result<Vec<Btf<'t>>, ExampleError>
    ensures { IfOk result (λ tables. length tables.items ≤ 2 ^ 32) }
{
    let mut tables = Vec::new(alloc);
    tables.push(table)?;
    Ok(tables)
}

/// The kernel's types: one table, or none.
fn kernel_types<'t>(alloc: Global, bytes: Option<&'t [u8]>) -> Result<Vec<Btf<'t>>, ExampleError>
    ensures { IfOk result (λ tables. length tables.items ≤ 2 ^ 32) }
{
    match bytes {
        Some(bytes) => {
            let table = Btf::parse(alloc, bytes, Endianness::Little)?;
            list_of(alloc, table)
        }
        None => Ok(Vec::new(alloc)),
    }
}

/// Settings that number the maps from 0 on.
fn settings_of(alloc: Global, object: &Object<'_>) -> Result<Settings, AllocError> {
    let mut settings = Settings::new(alloc);
    for (number, (name, _map)) in (0..NUMBERS).zip(object.maps().iter()) {
        if number < NUMBERS {
            settings.set_map(name, number)?;
        }
    }
    Ok(settings)
}

/// The text of a plan.
fn text_of(alloc: Global, plan: &Plan<'_>) -> Result<Vec<u8>, ExampleError> {
    let mut out = Watched::new(Vec::new(alloc));
    plan.write(&mut out)?;
    Ok(out.into_inner())
}

/// The text of an object's plan, for a kernel with these types that grants all features.
fn planned_text(
    alloc: Global,
    bytes: &[u8],
    settings: &Settings,
    kernel_types: &[Btf<'_>],
) -> Result<Vec<u8>, ExampleError>
    requires { length kernel_types.now ≤ 2 ^ 32 }
{
    let mut symbols = Watched::new(io::empty());
    let plan = prepare(
        alloc,
        bytes,
        kernel_types,
        &mut symbols,
        settings,
        Order::RelocateFirst,
        |_feature| true,
        || true,
    )?;
    text_of(alloc, &plan)
}

/// The same, with settings that number the maps.
fn numbered_text(
    alloc: Global,
    bytes: &[u8],
    object: &Object<'_>,
    kernel_types: &[Btf<'_>],
) -> Result<Vec<u8>, ExampleError>
    requires { length kernel_types.now ≤ 2 ^ 32 }
{
    let settings = settings_of(alloc, object)?;
    planned_text(alloc, bytes, &settings, kernel_types)
}

/// The text of an object's plan, for a kernel that grants all features. `types` are the bytes of
/// the kernel's types.
pub(crate) fn plan_text(
    alloc: Global,
    bytes: &[u8],
    object: &Object<'_>,
    types: Option<&[u8]>,
) -> Result<Vec<u8>, ExampleError> {
    let tables = kernel_types(alloc, types)?;
    numbered_text(alloc, bytes, object, &tables)
}
