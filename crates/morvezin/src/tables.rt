//! The kernel's types.

ghost use Rattle.std.specs.Prelude.{◌≡◌, ◌≤◌, ◌<◌, ◌^◌, ◌⊎◌, length, IfErr, IfOk, OnOk, [], ◌∷◌, ◌++◌};
ghost use Rattle.morvezin.specs.Calls.{AreInvalid, AreTables, HoldsGiven, IsFaulty, NoKind, Says, order_in};

use crate::failure::Failure;
use crate::inputs::Types;
use btf_records::{BtfError, Endianness};
use btf_tables::Btf;
use std::alloc::Global;

/// The maximum number of tables.
const MAX_TABLES: usize = 0x1_0000_0000;

/// The byte order of a table.
fn order_of(types: &Types<'_>) -> Endianness
    ensures { result ≡ order_in types.now.is_big_endian }
{
    if types.is_big_endian {
        Endianness::Big
    } else {
        Endianness::Little
    }
}

/// The failure for a table that can't be read.
fn invalid_table(alloc: Global, index: usize, error: BtfError) -> Failure
    ensures { Says NoKind ⊥ (Unit {0}) result }
{
    let number = index.saturating_add(1);
    match format!(in alloc; "table {number} of the kernel's types: {error}") {
        Ok(text) => Failure::Types(text),
        Err(_) => Failure::OutOfMemory,
    }
}

/// A table, of which the index is told where it is invalid.
fn table_of<'t>(alloc: Global, index: usize, types: &Types<'t>) -> Result<Btf<'t>, Failure>
    ensures table { IfOk result (λ table. HoldsGiven types.now table) }
    ensures invalid { IfErr result (Says NoKind ⊥ (IsFaulty types.now)) }
{
    match Btf::parse(alloc, types.table, order_of(types)) {
        Ok(table) => Ok(table),
        Err(BtfError::OutOfMemory) => Err(Failure::OutOfMemory),
        Err(error) => Err(invalid_table(alloc, index, error)),
    }
}

/// The failure for more tables than there can be.
fn too_many(alloc: Global) -> Failure
    ensures { Says NoKind ⊥ (Unit {0}) result }
{
    match String::from_str(
        alloc,
        "there are more than 4294967296 tables of kernel types",
    ) {
        Ok(text) => Failure::Types(text),
        Err(_) => Failure::OutOfMemory,
    }
}

/// Adds a table.
fn add<'t>(tables: &mut Vec<Btf<'t>>, table: Btf<'t>) -> Result<(), Failure>
    ensures added { OnOk result (tables.new.items ≡ tables.old.items ++ table.entry ∷ []) }
    ensures memory { IfErr result (Says NoKind ⊥ ⊥) }
{
    match tables.push(table) {
        Ok(()) => Ok(()),
        Err(_) => Err(Failure::OutOfMemory),
    }
}

/// The tables of a kernel's types, in order.
#[tactic(auto, using(crate::proofs::OneMore::invalid_at))]
pub(crate) fn tables_of<'t>(alloc: Global, types: &[Types<'t>]) -> Result<Vec<Btf<'t>>, Failure>
    ensures tables { IfOk result (λ tables. AreTables types.now tables.items) }
    ensures few { IfOk result (λ tables. length tables.items ≤ 2 ^ 32) }
    ensures invalid { IfErr result (Says NoKind ⊥ (AreInvalid types.now)) }
{
    if types.len() > MAX_TABLES {
        return Err(too_many(alloc));
    }
    let mut tables = Vec::with_capacity(alloc, types.len())?;
    for given in types {
        let table = table_of(alloc, tables.len(), given)?;
        add(&mut tables, table)?;
    }
    Ok(tables)
}
