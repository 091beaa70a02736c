//! The writes of the values of global variables.

ghost use Rattle.std.specs.Prelude.{◌≡◌, ◌≢◌, None, Some, IfOk, IfErr, OnOk, map, option_and_then};
ghost use Rattle.std.specs.Cmp.Lexicographic.{slice_cmp};
ghost use Rattle.std.specs.List.Sorted.{IsStrictlySortedBy};
ghost use Rattle.std.specs.Option.{option_copied};
ghost use Rattle.std.specs.Ordering.{nat_cmp};
ghost use Rattle.elf64.specs.Symbols.{symbols_of};
ghost use Rattle.ebpf_items.specs.declared.error.ParseError.TheVariants.{OutOfMemory};
ghost use Rattle.global_data.specs.GlobalData.{GlobalFault, Says, bad_data, fault_of, first_fault, symbol_fault, write_over};
ghost use Rattle.global_data.specs.Writes.{writes_of};

use crate::section_maps::SectionMaps;
use ebpf_items::ParseError;
use object_file::{ObjectFile, ReadSymbol};
use object_maps::{LastSymbols, Maps};
use settings::{GlobalValue, GlobalValues};
use std::alloc::Global;
use std::marker::Model;

/// Bytes that are written into a map, from the offset `start` on.
#[derive(Drop)]
pub(crate) struct MapWrite<'a, 's> {
    pub(crate) map: &'a str,
    pub(crate) start: usize,
    pub(crate) bytes: &'s [u8],
}

impl<'a, 's> Model for MapWrite<'a, 's> {
    ghost use Rattle.global_data.specs.GlobalData.{Write};

    ghost Value = { Write };

    ghost view = { λ w. record { map = w.map.now; start = w.start; bytes = w.bytes.now } };
}

/// The error for a value that doesn't fit its symbol, or a symbol that doesn't fit its map.
fn bad_data(alloc: Global, name: &str, value: &GlobalValue, symbol: &ReadSymbol<'_>) -> ParseError
    ensures { result ≢ OutOfMemory
        → fault_of result ≡ Some (bad_data (name.now, value.now) symbol.now) }
{
    match String::from_str(alloc, name) {
        Ok(name) => ParseError::InvalidGlobalData {
            name,
            sym_size: symbol.view().size(),
            data_size: value.bytes.len(),
        },
        Err(_) => ParseError::OutOfMemory,
    }
}

/// The write of a value that has a symbol.
fn write_over<'a, 's>(
    alloc: Global,
    maps: &SectionMaps<'_, 'a>,
    name: &str,
    value: &'s GlobalValue,
    symbol: &ReadSymbol<'_>,
) -> Result<MapWrite<'a, 's>, ParseError>
    ensures value { IfOk result (λ w. write_over maps.now value.now.bytes symbol.now ≡ Some w) }
    ensures sound { OnOk result
        (symbol_fault maps.now (name.now, value.now) (Some symbol.now) ≡ None) }
    ensures fault { IfErr result (λ e.
        e ≢ OutOfMemory → Says (symbol_fault maps.now (name.now, value.now) (Some symbol.now)) e) }
{
    if value.bytes.len() as u64 != symbol.view().size() {
        return Err(bad_data(alloc, name, value, symbol));
    }
    let section = symbol.view().section_index();
    let Some(map) = maps.of_section(section) else {
        return Err(ParseError::MapNotFound {
            index: section.unwrap_or(0),
        });
    };
    let start = symbol.view().address() as usize;
    let size = value.bytes.len();
    if start > map.size || size > map.size - start {
        return Err(bad_data(alloc, name, value, symbol));
    }
    Ok(MapWrite {
        map: map.name,
        start,
        bytes: value.bytes.as_slice(),
    })
}

/// The write of a value; none where the symbol is missing and may be.
fn write_of<'a, 's>(
    alloc: Global,
    maps: &SectionMaps<'_, 'a>,
    name: &str,
    value: &'s GlobalValue,
    symbol: Option<&ReadSymbol<'_>>,
) -> Result<Option<MapWrite<'a, 's>>, ParseError>
    ensures value { IfOk result (λ w.
        w ≡ option_and_then (write_over maps.now value.now.bytes) (option_copied symbol.entry)) }
    ensures sound { OnOk result
        (symbol_fault maps.now (name.now, value.now) (option_copied symbol.entry) ≡ None) }
    ensures fault { IfErr result (λ e.
        e ≢ OutOfMemory
        → Says (symbol_fault maps.now (name.now, value.now) (option_copied symbol.entry)) e) }
{
    let Some(symbol) = symbol else {
        if value.must_exist {
            return Err(ParseError::SymbolNotFound {
                name: String::from_str(alloc, name)?,
            });
        }
        return Ok(None);
    };
    Ok(Some(write_over(alloc, maps, name, value, symbol)?))
}

/// The writes of the values of all global variables, by name.
pub(crate) fn writes_of<'a, 's>(
    alloc: Global,
    file: &ObjectFile<'_>,
    maps: &Maps<'a>,
    values: &'s GlobalValues,
) -> Result<Vec<MapWrite<'a, 's>>, ParseError>
    ensures value { IfOk result (λ writes.
        writes.items ≡ writes_of (symbols_of file.now) maps.now values.now) }
    ensures rising { OnOk result
        (IsStrictlySortedBy (slice_cmp nat_cmp) (map (λ e. e.0) maps.now)) }
    ensures sound { OnOk result (first_fault file.now maps.now values.now ≡ None) }
    ensures fault { IfErr result (λ e.
        e ≢ OutOfMemory → Says (first_fault file.now maps.now values.now) e) }
{
    let maps = SectionMaps::new(alloc, maps)?;
    let symbols = LastSymbols::new(alloc, file.symbols())?;
    let mut writes = Vec::new(alloc);
    for (name, value) in values.iter() {
        let name = name.as_str();
        let Some(write) = write_of(alloc, &maps, name, value, symbols.named(name))? else {
            continue;
        };
        writes.push(write)?;
    }
    Ok(writes)
}
