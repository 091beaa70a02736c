//! The types of an object.

use btf_records::Endianness;
use btf_tables::Btf;
use elf64::{ByteOrder, ElfFile};
use std::alloc::Global;

/// The byte order of a file's numbers, as type information has it.
fn endianness(elf: &ElfFile<'_>) -> Endianness {
    match elf.order() {
        ByteOrder::Little => Endianness::Little,
        ByteOrder::Big => Endianness::Big,
    }
}

/// The types of an object, where it has any that can be read.
pub(crate) fn table_of<'o>(alloc: Global, object: &'o [u8]) -> Option<Btf<'o>> {
    let elf = ElfFile::parse(object).ok()?;
    let section = elf.section_by_name(".BTF")?;
    let bytes = section.data().ok()?;
    Btf::parse(alloc, bytes, endianness(&elf)).ok()
}
