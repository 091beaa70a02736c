//! The calls that take memory, and their results. Status 3 is out of memory.

use btf::{
    Btf, BtfError, BtfExt, BtfKind, BtfType, Endianness, Int, IntEncoding, Ptr,
    types_are_compatible,
};
use ebpf_items::{Slots, bpf_insn};
use std::alloc::{AllocError, Global};
use std::process::ExitCode;

/// The section of a table to which an `int` and a pointer to it are added.
fn section_with_types(table: &mut Btf<'_>) -> Result<Vec<u8>, BtfError> {
    let name = table.add_string("int")?;
    let int = Int::new(name, 4, IntEncoding::Signed, 0);
    let id = table.add_type(BtfType::Int(int))?;
    table.add_type(BtfType::Ptr(Ptr::new(0, id)))?;
    Ok(table.to_bytes()?)
}

/// The section of a table with an `int` and a pointer to it.
fn section(alloc: Global) -> Result<Vec<u8>, BtfError> {
    let mut table = Btf::new(alloc)?;
    section_with_types(&mut table)
}

/// The offset of the name of a type that the table lacks, as the search for it returns it: the name
/// is added to the table. It is 0 where the table has the type.
fn name_offset(table: &mut Btf<'_>) -> Result<u32, BtfError> {
    match table.id_by_type_name_kind("none", BtfKind::Int) {
        Err(BtfError::UnknownBtfTypeName { type_name }) => table.add_string(type_name.as_str()),
        Err(error) => Err(error),
        Ok(_id) => Ok(0),
    }
}

/// The number of types of a table after the type that it lacks is added.
fn count_with_missing(table: &mut Btf<'_>) -> Result<usize, BtfError> {
    let name = name_offset(table)?;
    table.add_type(BtfType::Int(Int::new(name, 8, IntEncoding::None, 0)))?;
    Ok(table.types().count())
}

/// The number of types of a parsed table, after a search for a name that it lacks.
fn types(alloc: Global, section: &[u8]) -> Result<usize, BtfError> {
    let mut table = Btf::parse(alloc, section, Endianness::Little)?;
    count_with_missing(&mut table)
}

/// A copy of the table that a section holds.
fn copied_table(alloc: Global, section: &[u8]) -> Result<Btf<'_>, BtfError> {
    let table = Btf::parse(alloc, section, Endianness::Little)?;
    Ok(table.try_clone()?)
}

/// The first type of a table with a kind and a name, and whether a pointer to it is compatible with
/// itself.
fn looked_up(table: &Btf<'_>) -> Result<(u32, bool), BtfError> {
    let found = table.id_by_type_name_kind("int", BtfKind::Int)?;
    let is_same = types_are_compatible(table, 2, table, 2)?;
    Ok((found, is_same))
}

/// What searches find in a copy of the table of a section.
fn look_ups(alloc: Global, section: &[u8]) -> Result<(u32, bool), BtfError> {
    let table = copied_table(alloc, section)?;
    looked_up(&table)
}

/// A `.BTF.ext` section with a function and a line, for a section without a name.
const EXTENSION: [u8; 80] = [
    0x9f, 0xeb, 1, 0, 32, 0, 0, 0, 0, 0, 0, 0, 20, 0, 0, 0, 20, 0, 0, 0, 28, 0, 0, 0, 0, 0, 0, 0,
    0, 0, 0, 0, 8, 0, 0, 0, 0, 0, 0, 0, 1, 0, 0, 0, 16, 0, 0, 0, 42, 0, 0, 0, 16, 0, 0, 0, 0, 0, 0,
    0, 1, 0, 0, 0, 16, 0, 0, 0, 0, 0, 0, 0, 0, 0, 0, 0, 1, 4, 0, 0,
];

/// The records of a `.BTF.ext` section, for a table without types.
fn extension(alloc: Global, section: &[u8]) -> Result<BtfExt<'_>, BtfError> {
    let table = Btf::new(alloc)?;
    BtfExt::parse(alloc, section, Endianness::Little, &table)
}

/// A copy of the records of a `.BTF.ext` section.
fn copied_extension(alloc: Global, section: &[u8]) -> Result<BtfExt<'_>, BtfError> {
    let extension = extension(alloc, section)?;
    Ok(extension.try_clone()?)
}

/// The number of bytes of the function records, in a copy.
fn function_bytes(alloc: Global, extension: &BtfExt<'_>) -> Result<usize, BtfError> {
    let Some(section_info) = extension.func_info().get("") else {
        return Ok(0);
    };
    let copy = section_info.try_clone()?;
    Ok(copy.func_info_bytes(alloc)?.len())
}

/// The number of bytes of the line records, in a copy.
fn line_bytes(alloc: Global, extension: &BtfExt<'_>) -> Result<usize, BtfError> {
    let Some(section_info) = extension.line_info("") else {
        return Ok(0);
    };
    let copy = section_info.try_clone()?;
    Ok(copy.line_info_bytes(alloc)?.len())
}

/// The numbers of bytes of the function records and of the line records, in copies.
fn record_bytes(alloc: Global, extension: &BtfExt<'_>) -> Result<(usize, usize), BtfError> {
    let functions = function_bytes(alloc, extension)?;
    let lines = line_bytes(alloc, extension)?;
    Ok((functions, lines))
}

/// The numbers of bytes of the function records and of the line records of a `.BTF.ext` section, in
/// copies.
fn records(alloc: Global, section: &[u8]) -> Result<(usize, usize), BtfError> {
    let extension = copied_extension(alloc, section)?;
    record_bytes(alloc, &extension)
}

/// The immediate of a slot that is written into a copy of borrowed slots.
fn written(alloc: Global) -> Result<i32, AllocError> {
    let slots = Slots::borrowed(alloc, &[0; 16]);
    let Some(slots) = slots else {
        return Ok(0);
    };
    let mut copy = slots.try_clone()?;
    if copy.len() == 2 {
        copy.set(1, bpf_insn::from_bytes([0x95, 0, 0, 0, 7, 0, 0, 0]))?;
    }
    Ok(copy.get(1).map_or(0, |slot| slot.imm))
}

/// Prints the results of the calls on a table of types.
fn print_table(rt: &HostRuntime, section: &[u8]) -> Result<(), BtfError> {
    let types = types(rt.alloc(), section)?;
    let (found, is_same) = look_ups(rt.alloc(), section)?;
    let _ = println!(rt; "{types} types, type {found} found, alike: {is_same}");
    Ok(())
}

/// Prints the results of the calls on records of functions and lines.
fn print_records(rt: &HostRuntime) -> Result<(), BtfError> {
    let (functions, lines) = records(rt.alloc(), &EXTENSION)?;
    let _ = println!(rt; "{functions} bytes of functions, {lines} of lines");
    Ok(())
}

/// Makes a table, and prints the results of the calls on it.
fn print_made_table(rt: &HostRuntime) -> Result<(), BtfError> {
    let section = section(rt.alloc())?;
    print_table(rt, section.as_slice())
}

/// Prints the results of the calls on types.
fn print_types(rt: &HostRuntime) -> Result<(), BtfError> {
    print_made_table(rt)?;
    print_records(rt)
}

/// Prints the result of the calls on slots.
fn print_slots(rt: &HostRuntime) -> Result<(), AllocError> {
    let immediate = written(rt.alloc())?;
    let _ = println!(rt; "{immediate} written");
    Ok(())
}

/// The status for out of memory.
const REFUSED: u8 = 3;

/// Makes the calls, and prints their results.
pub(crate) fn run(rt: &HostRuntime) -> ExitCode {
    if print_slots(rt).is_err() {
        return ExitCode::from(REFUSED);
    }
    match print_types(rt) {
        Ok(()) => (),
        Err(BtfError::OutOfMemory) => return ExitCode::from(REFUSED),
        Err(error) => {
            let _ = println!(rt; "{error}");
        }
    }
    ExitCode::SUCCESS
}
