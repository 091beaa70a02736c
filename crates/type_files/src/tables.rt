//! Which bytes of a file are a table of types.

ghost use Rattle.std.specs.Prelude.{◌≡◌, IfErr, IfOk};
ghost use Rattle.std.specs.Option.{option_copied};
ghost use Rattle.type_files.specs.Starts.{start_of};
ghost use Rattle.type_files.specs.Tables.{HasTypesFault, IsFound, IsSectionFault, IsSectionTable, is_split, strings_in, types_order};
ghost use Rattle.type_files.specs.declared.starts.FileStart.TheVariants.{Elf};

use crate::fault::TypesFault;
use crate::starts::{FileStart, begins_as_types, start_of};
use btf_records::{Endianness, word};
use elf64::{ByteOrder, ElfFile};

/// The types in a file, as bytes.
#[derive(Clone, Copy, Debug, PartialEq, Eq)]
pub enum FoundTypes<'a> {
    /// The section `.BTF` of an ELF64 file in this byte order.
    Section { table: &'a [u8], order: Endianness },
    /// The whole file, which begins with the magic of types in this byte order.
    File { table: &'a [u8], order: Endianness },
    /// The whole file, whose first bytes say nothing.
    Unmarked { table: &'a [u8] },
}

/// The name of the section that holds types.
const SECTION: &str = ".BTF";

/// The byte order of types in a file.
fn types_order(order: ByteOrder) -> Endianness
    ensures { result ≡ types_order order }
{
    match order {
        ByteOrder::Little => Endianness::Little,
        ByteOrder::Big => Endianness::Big,
    }
}

/// The size of a table's header in bytes.
const HEADER_LEN: usize = 24;

/// The strings of a table, where its header and they lie in it.
fn strings_in(order: Endianness, table: &[u8]) -> Option<&[u8]>
    ensures { option_copied result ≡ strings_in order table.now }
{
    if table.len() < HEADER_LEN {
        return None;
    }
    let start = word(order, table, 4) as usize + word(order, table, 16) as usize;
    let end = start + word(order, table, 20) as usize;
    table.get(start..end)
}

/// Whether a table is one of a module, which goes on the kernel's: its strings don't begin with the
/// empty string.
fn is_split(order: Endianness, table: &[u8]) -> bool
    ensures { result ≡ is_split order table.now }
{
    match strings_in(order, table) {
        Some(strings) => !strings.starts_with(&[0]),
        None => false,
    }
}

/// The section `.BTF` of an ELF64 file.
fn section_in<'a>(file: &ElfFile<'a>) -> Result<&'a [u8], TypesFault>
    ensures found { IfOk result (λ table. IsSectionTable file.now table.now) }
    ensures refused { IfErr result (IsSectionFault file.now) }
{
    let Some(section) = file.section_by_name(SECTION) else {
        return Err(TypesFault::NoSection);
    };
    match section.data() {
        Ok(table) => Ok(table),
        Err(_) => Err(TypesFault::SectionData),
    }
}

/// The types in the section `.BTF` of an ELF64 file.
fn section_types(bytes: &[u8]) -> Result<FoundTypes<'_>, TypesFault>
    requires { start_of bytes.now ≡ Elf }
    ensures found { IfOk result (IsFound bytes.now) }
    ensures refused { IfErr result (HasTypesFault bytes.now) }
{
    let file = match ElfFile::parse(bytes) {
        Ok(file) => file,
        Err(error) => return Err(TypesFault::Elf(error)),
    };
    let order = types_order(file.order());
    let table = section_in(&file)?;
    if !begins_as_types(order, table) {
        return Err(TypesFault::SectionMagic);
    }
    if is_split(order, table) {
        return Err(TypesFault::Split);
    }
    Ok(FoundTypes::Section { table, order })
}

/// The types in a file: those of the first section `.BTF` of an ELF64 file (ELF-64 object file
/// format), in the file's byte order; otherwise the whole file, where it begins with the magic of
/// types (Documentation/bpf/btf.rst, "BTF Type and String Encoding") or its first bytes say nothing.
///
/// # Errors
///
/// A fault of an ELF file or of its section, another format, and types of a module.
pub fn types_in(bytes: &[u8]) -> Result<FoundTypes<'_>, TypesFault>
    ensures found { IfOk result (IsFound bytes.now) }
    ensures refused { IfErr result (HasTypesFault bytes.now) }
{
    match start_of(bytes) {
        FileStart::Elf => section_types(bytes),
        FileStart::Types(order) if is_split(order, bytes) => Err(TypesFault::Split),
        FileStart::Types(order) => Ok(FoundTypes::File {
            table: bytes,
            order,
        }),
        FileStart::Format(format) => Err(TypesFault::Format(format)),
        FileStart::Unknown => Ok(FoundTypes::Unmarked { table: bytes }),
    }
}
