//! Files, by their names.

ghost use Rattle.std.specs.Prelude.{◌≡◌, ◌≢◌, ◌<◌, ◌≤◌, ◌^◌, length, IfErr, IfOk, OnOk};
ghost use Rattle.btf_records.specs.declared.error.BtfError.TheVariants as btf;
ghost use Rattle.btf_tables.specs.Sections.{HoldsTable};
ghost use Rattle.btf_tables.specs.Tables.{TableFault};
ghost use Rattle.program_io.specs.Errors.{begin_otherwise, HasNoTypes, IsGivenError, IsMarkedError, IsNoTypes, IsReadError, IsTypesError, IsUnmarked, IsUnread};
ghost use Rattle.program_io.specs.Tables.{lacks_magic, HoldsGiven, HoldsMarked};
ghost use Rattle.type_files.specs.Starts.{start_of};
ghost use Rattle.type_files.specs.Tables.{IsFound};

use crate::error::InputError;
use btf_records::{BtfError, Endianness};
use btf_tables::Btf;
use std::alloc::{AllocError, Global};
use std::fs::File;
use std::io::{BufReader, Read};
use std::{fs, io};
use type_files::{FileStart, FoundTypes, TypesFault, start_of, types_in};

/// The error for a file that can't be read.
pub(crate) fn unread(alloc: Global, name: &str, error: io::Error) -> InputError
    ensures { IsUnread name.now result }
{
    match String::from_str(alloc, name) {
        Ok(name) => InputError::Read { name, error },
        Err(_) => InputError::OutOfMemory,
    }
}

/// The bytes of the file with a name. Memory for the file's length is taken at once, so that bytes
/// aren't copied while the list grows, with a byte more for the read that finds the end.
fn content_of(rt: &HostRuntime, name: &str) -> io::Result<Vec<u8>> {
    let mut file = fs::open(rt, name)?;
    let len = file.metadata()?.len();
    let mut bytes = Vec::with_capacity(rt.alloc(), (len as usize).saturating_add(1))?;
    file.read_to_end(&mut bytes)?;
    Ok(bytes)
}

/// The bytes of the file with a name.
///
/// # Errors
///
/// `Read`, with the cause, and `OutOfMemory`.
pub fn read(rt: &HostRuntime, name: &str) -> Result<Vec<u8>, InputError>
    ensures { IfErr result (IsUnread name.now) }
{
    match content_of(rt, name) {
        Ok(bytes) => Ok(bytes),
        Err(error) => Err(unread(rt.alloc(), name, error)),
    }
}

/// The bytes of the files with these names.
///
/// # Errors
///
/// `Read` at the first that can't be read, with the cause, and `OutOfMemory`.
pub fn read_all(rt: &HostRuntime, names: &[&str]) -> Result<Vec<Vec<u8>>, InputError>
    ensures each { IfOk result (λ files. length files.items ≡ length names.now) }
    ensures unread { IfErr result IsReadError }
{
    let mut files = Vec::new(rt.alloc());
    for name in names {
        files.push(read(rt, name)?)?;
    }
    Ok(files)
}

/// Whether bytes begin like types of the other byte order.
fn begin_otherwise(bytes: &[u8], order: Endianness) -> bool
    ensures { result ≡ begin_otherwise bytes.now order }
{
    let magic: [u8; 2] = match order {
        Endianness::Little => [0xeb, 0x9f],
        Endianness::Big => [0x9f, 0xeb],
    };
    bytes.starts_with(&magic)
}

/// The error for types in the bytes of a file.
fn types_fault(
    alloc: Global,
    name: &str,
    bytes: &[u8],
    order: Endianness,
    error: BtfError,
) -> Result<InputError, AllocError>
    requires { TableFault order bytes.now error }
    ensures { IfOk result (IsTypesError name.now bytes.now order) }
{
    let name = String::from_str(alloc, name)?;
    if begin_otherwise(bytes, order) {
        Ok(InputError::TypesOrder { name, error })
    } else {
        Ok(InputError::Types { name, error })
    }
}

/// A kernel's types, parsed from the bytes of the file with a name.
///
/// # Errors
///
/// `Types` or `TypesOrder`, with the fault, and `OutOfMemory`.
pub fn kernel_table<'t>(
    alloc: Global,
    name: &str,
    bytes: &'t [u8],
    order: Endianness,
) -> Result<Btf<'t>, InputError>
    ensures holds { IfOk result (λ table. HoldsTable order bytes.now table) }
    ensures refused { IfErr result (IsTypesError name.now bytes.now order) }
{
    match Btf::parse(alloc, bytes, order) {
        Ok(table) => Ok(table),
        Err(BtfError::OutOfMemory) => Err(InputError::OutOfMemory),
        Err(error) => Err(types_fault(alloc, name, bytes, order, error)?),
    }
}

/// The error for a file that holds no types of a kernel.
fn no_types(alloc: Global, name: &str, fault: TypesFault) -> InputError
    ensures { IsNoTypes name.now fault result }
{
    match String::from_str(alloc, name) {
        Ok(name) => InputError::NoTypes { name, fault },
        Err(_) => InputError::OutOfMemory,
    }
}

/// The types in the bytes of the file with a name.
fn found_types<'t>(alloc: Global, name: &str, bytes: &'t [u8]) -> Result<FoundTypes<'t>, InputError>
    ensures found { IfOk result (IsFound bytes.now) }
    ensures refused { IfErr result (HasNoTypes name.now bytes.now) }
{
    match types_in(bytes) {
        Ok(found) => Ok(found),
        Err(fault) => Err(no_types(alloc, name, fault)),
    }
}

/// The error for a file that doesn't begin with the magic of types in a byte order.
fn unmarked(alloc: Global, name: &str, is_other_order: bool) -> InputError
    ensures { IsUnmarked name.now is_other_order result }
{
    match String::from_str(alloc, name) {
        Ok(name) if is_other_order => InputError::OtherOrder { name },
        Ok(name) => InputError::Unmarked { name },
        Err(_) => InputError::OutOfMemory,
    }
}

/// A kernel's types, parsed from the bytes of the file with a name: those of an ELF file, or types
/// that begin with their magic in this byte order.
///
/// # Errors
///
/// `NoTypes`, `Unmarked` and `OtherOrder`, where the file holds no such types; `Types`, with the
/// fault; and `OutOfMemory`.
pub fn marked_table<'t>(
    alloc: Global,
    name: &str,
    bytes: &'t [u8],
    order: Endianness,
) -> Result<Btf<'t>, InputError>
    ensures holds { IfOk result (HoldsMarked order bytes.now) }
    ensures refused { IfErr result (IsMarkedError name.now bytes.now order) }
{
    match found_types(alloc, name, bytes)? {
        FoundTypes::Section { table, order } => kernel_table(alloc, name, table, order),
        FoundTypes::File { table, order: own } => {
            if own != order {
                return Err(unmarked(alloc, name, true));
            }
            kernel_table(alloc, name, table, order)
        }
        FoundTypes::Unmarked { .. } => Err(unmarked(alloc, name, false)),
    }
}

/// A kernel's types, parsed from the bytes of the file with a name: those of an ELF file, or types
/// in this byte order, whose magic isn't checked.
///
/// # Errors
///
/// `NoTypes`, where the file's first bytes show that it holds no types; `Types` or `TypesOrder`,
/// with the fault; and `OutOfMemory`.
fn given_table<'t>(
    alloc: Global,
    name: &str,
    bytes: &'t [u8],
    order: Endianness,
) -> Result<Btf<'t>, InputError>
    ensures holds { IfOk result (HoldsGiven order bytes.now) }
    ensures refused { IfErr result (IsGivenError name.now bytes.now order) }
{
    match found_types(alloc, name, bytes)? {
        FoundTypes::Section { table, order } => kernel_table(alloc, name, table, order),
        FoundTypes::File { table, .. } | FoundTypes::Unmarked { table } => {
            kernel_table(alloc, name, table, order)
        }
    }
}

/// Whether a file that may hold types in this byte order doesn't begin with their magic.
pub fn lacks_magic(bytes: &[u8], order: Endianness) -> bool
    ensures { result ≡ lacks_magic order (start_of bytes.now) }
{
    match start_of(bytes) {
        FileStart::Types(own) => own != order,
        FileStart::Unknown => true,
        FileStart::Elf | FileStart::Format(_) => false,
    }
}

/// The maximum number of tables of types.
const MAX_TABLES: usize = 0x1_0000_0000;

/// Refuses more names of files of types than there can be tables.
///
/// # Errors
///
/// `TooManyTypes` where there are more than 2^32 names.
pub fn check_types_count(names: &[&str]) -> Result<(), InputError>
    ensures few { OnOk result (length names.now ≤ 2 ^ 32) }
    ensures many { IfErr result (λ e. 2 ^ 32 < length names.now) }
{
    if names.len() > MAX_TABLES {
        return Err(InputError::TooManyTypes);
    }
    Ok(())
}

/// A kernel's types, parsed from the bytes of the files with these names.
///
/// # Errors
///
/// `NoTypes` at the first that its first bytes show to hold no types, `Types` or `TypesOrder` at the
/// first that can't be parsed, `TooManyTypes` where there are more than 2^32 files, and
/// `OutOfMemory`.
pub fn kernel_tables<'t>(
    alloc: Global,
    names: &[&str],
    files: &'t [Vec<u8>],
    order: Endianness,
) -> Result<Vec<Btf<'t>>, InputError>
    ensures { IfOk result (λ tables. length tables.items ≤ 2 ^ 32) }
{
    let mut tables = Vec::new(alloc);
    for (name, bytes) in names.iter().zip(files) {
        tables.push(given_table(alloc, name, bytes, order)?)?;
    }
    if tables.len() > MAX_TABLES {
        return Err(InputError::TooManyTypes);
    }
    Ok(tables)
}

/// The number of bytes that a reader asks the system for at a time. A kernel's symbols are some ten
/// megabytes.
const BUFFER: usize = 0x1_0000;

/// The reader of the file with a name.
///
/// # Errors
///
/// `Read`, with the cause, and `OutOfMemory`.
pub fn open(rt: &HostRuntime, name: &str) -> Result<BufReader<File>, InputError>
    ensures { IfErr result (IsUnread name.now) }
{
    match fs::open(rt, name) {
        Ok(file) => match BufReader::with_capacity(rt.alloc(), BUFFER, file) {
            Ok(reader) => Ok(reader),
            Err(_) => Err(InputError::OutOfMemory),
        },
        Err(error) => Err(unread(rt.alloc(), name, error)),
    }
}
