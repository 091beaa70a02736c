//! What a file is by its first bytes.

ghost use Rattle.std.specs.Prelude.{◌≡◌};
ghost use Rattle.type_files.specs.Starts.{begins_as_types, start_of};

use crate::formats::{FileFormat, begins, format_of};
use btf_records::Endianness;

/// What a file is by its first bytes.
#[derive(Clone, Copy, Debug, PartialEq, Eq)]
pub enum FileStart {
    /// It begins with the magic of ELF.
    Elf,
    /// It begins with the magic of types, 0xeB9F, in this byte order.
    Types(Endianness),
    /// It is of another format.
    Format(FileFormat),
    /// Its first bytes say nothing.
    Unknown,
}

/// Whether bytes begin with the magic of types in this byte order.
pub(crate) fn begins_as_types(order: Endianness, bytes: &[u8]) -> bool
    ensures { result ≡ begins_as_types order bytes.now }
{
    match order {
        Endianness::Little => begins(bytes, &[0x9f, 0xeb]),
        Endianness::Big => begins(bytes, &[0xeb, 0x9f]),
    }
}

/// What a file is by its first bytes; the first 518 serve.
pub fn start_of(bytes: &[u8]) -> FileStart
    ensures { result ≡ start_of bytes.now }
{
    if begins(bytes, &[0x7f, 0x45, 0x4c, 0x46]) {
        return FileStart::Elf;
    }
    if begins_as_types(Endianness::Little, bytes) {
        return FileStart::Types(Endianness::Little);
    }
    if begins_as_types(Endianness::Big, bytes) {
        return FileStart::Types(Endianness::Big);
    }
    match format_of(bytes) {
        Some(format) => FileStart::Format(format),
        None => FileStart::Unknown,
    }
}
