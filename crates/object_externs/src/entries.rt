//! The externs that the entries of a section declare.

ghost use Rattle.std.specs.Prelude.{◌≡◌, ◌≢◌, [], Any, Some, fold, option_and_then, IfErr, IfOk, OnOk};
ghost use Rattle.std.specs.List.{list_any};
ghost use Rattle.btf_records.specs.Fields.{kind_of_type};
ghost use Rattle.btf_records.specs.declared.error.BtfError.TheVariants.{OutOfMemory};
ghost use Rattle.btf_storage.specs.Faultless.{IsFaultless};
ghost use Rattle.object_externs.specs.Externs.{declared, declared_name, declared_type, declares, names_function, with_extern};
ghost use Rattle.object_externs.specs.Faults.{EntryFault, NameFault, RecordFault, TypeFault};
ghost use Rattle.object_externs.specs.Names.{by_bytes};
ghost use Rattle.object_file.specs.Symbols.{first_named};

use crate::extern_desc::ExternDesc;
use crate::first_symbols::FirstSymbols;
use btf_encoding::TypeRef;
use btf_records::{BtfError, BtfKind, DataSecEntry};
use btf_tables::{Btf, essential_name};
use object_file::ReadSymbol;
use std::alloc::Global;
use std::collections::BTreeMap;

/// The id of the type of a declared function or variable, after modifiers; a variable of void has
/// none.
fn declared_type(table: &Btf<'_>, t: &TypeRef<'_>) -> Result<Option<u32>, BtfError>
    ensures value { IfOk result (λ id. id ≡ declared_type table.now t.now) }
    ensures refused { IfErr result (TypeFault table.now t.now) }
    ensures accepted { OnOk result (IsFaultless (TypeFault table.now t.now)) }
{
    let id = table.resolve_type(t.btf_type().unwrap_or(0))?;
    if t.kind() == BtfKind::Var && id == 0 {
        return Ok(None);
    }
    Ok(Some(id))
}

/// The symbol of a declared function or variable.
fn declared_symbol<'s, 'a>(
    symbols: &FirstSymbols<'s, 'a>,
    table: &Btf<'_>,
    t: &TypeRef<'_>,
) -> Result<&'s ReadSymbol<'a>, BtfError>
    ensures name { IfOk result (λ symbol. declared_name table.now t.now ≡ symbol.now.name) }
    ensures value { IfOk result (λ symbol.
        option_and_then (first_named symbols.now) (declared_name table.now t.now)
        ≡ Some symbol.now) }
    ensures refused { IfErr result (NameFault symbols.now table.now t.now) }
    ensures accepted { OnOk result (IsFaultless (NameFault symbols.now table.now t.now)) }
{
    let name = table.string_at(t.name_offset())?;
    match symbols.named(name) {
        Some(symbol) => Ok(symbol),
        None => Err(BtfError::InvalidSymbolName),
    }
}

/// The extern that is declared by the record of an id.
fn read_record<'a>(
    symbols: &FirstSymbols<'_, 'a>,
    table: &Btf<'_>,
    id: u32,
    t: &TypeRef<'_>,
) -> Result<ExternDesc<'a>, BtfError>
    ensures name { IfOk result (λ desc. declared_name table.now t.now ≡ Some desc.name) }
    ensures value { IfOk result (λ desc. desc ≡ declared symbols.now table.now id t.now desc.name) }
    ensures refused { IfErr result (RecordFault symbols.now table.now t.now) }
    ensures accepted { OnOk result (IsFaultless (RecordFault symbols.now table.now t.now)) }
{
    match t.kind() {
        BtfKind::Func | BtfKind::Var => (),
        _ => return Err(BtfError::InvalidDatasec),
    }
    let symbol = declared_symbol(symbols, table, t)?;
    Ok(ExternDesc {
        name: symbol.name(),
        btf_id: id,
        is_weak: symbol.view().is_weak(),
        is_resolved: false,
        kernel_btf_id: None,
        ksym_addr: None,
        type_id: declared_type(table, t)?,
        essential_name: essential_name(symbol.name()),
    })
}

/// Enters the extern that is declared by an entry. It replaces an earlier one with its name.
fn enter<'a>(
    externs: &mut BTreeMap<&'a str, ExternDesc<'a>>,
    symbols: &FirstSymbols<'_, 'a>,
    table: &Btf<'_>,
    entry: &DataSecEntry,
) -> Result<(), BtfError>
    ensures externs { OnOk result
        (by_bytes externs.new.entries
        ≡ with_extern symbols.now table.now (by_bytes externs.old.entries) entry.now) }
    ensures refused { IfErr result (λ e.
        e ≢ OutOfMemory → EntryFault symbols.now table.now entry.now e) }
    ensures accepted { OnOk result (IsFaultless (EntryFault symbols.now table.now entry.now)) }
{
    let t = table.type_by_id(entry.btf_type)?;
    let desc = read_record(symbols, table, entry.btf_type, &t)?;
    externs.insert(desc.name, desc)?;
    Ok(())
}

/// The externs that are declared by the entries of a section, by name.
pub(crate) fn read_entries<'a>(
    alloc: Global,
    symbols: &FirstSymbols<'_, 'a>,
    table: &Btf<'_>,
    entries: &[DataSecEntry],
) -> Result<BTreeMap<&'a str, ExternDesc<'a>>, BtfError>
    ensures value { IfOk result (λ externs.
        by_bytes externs.entries ≡ fold (with_extern symbols.now table.now) [] entries.now) }
    ensures refused { IfErr result (λ e.
        e ≢ OutOfMemory → Any (λ entry. EntryFault symbols.now table.now entry e) entries.now) }
    ensures accepted { OnOk result
        (IsFaultless (λ e. Any (λ entry. EntryFault symbols.now table.now entry e) entries.now)) }
{
    let mut externs = BTreeMap::new(alloc);
    for entry in entries {
        enter(&mut externs, symbols, table, entry)?;
    }
    Ok(externs)
}

/// Whether an entry names a function.
fn names_function(table: &Btf<'_>, entry: &DataSecEntry) -> bool
    ensures { result ≡ names_function table.now entry.now }
{
    let Ok(t) = table.type_by_id(entry.btf_type) else {
        return false;
    };
    t.kind() == BtfKind::Func
}

/// Whether one of the entries names a function.
pub(crate) fn any_names_function(table: &Btf<'_>, entries: &[DataSecEntry]) -> bool
    ensures { result ≡ list_any (names_function table.now) entries.now }
{
    for entry in entries {
        if names_function(table, entry) {
            return true;
        }
    }
    false
}
