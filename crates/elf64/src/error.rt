//! The errors of ELF64 files.

use std::error::Error;
use std::fmt;

/// What is wrong with an ELF64 file, or with the part of it that was asked for.
#[derive(Clone, Copy, Debug, PartialEq, Eq)]
pub enum ElfError {
    /// The file is shorter than a file header, or doesn't begin with the ELF magic.
    NotElf,
    /// `EI_CLASS` isn't `ELFCLASS64`.
    UnsupportedClass,
    /// `EI_DATA` is neither `ELFDATA2LSB` nor `ELFDATA2MSB`.
    UnsupportedOrder,
    /// The section header table, or the section that holds the sections' names, is malformed.
    BadSectionTable,
    /// The symbol table, or the section that holds the symbols' names, is malformed.
    BadSymbolTable,
    /// A relocation section of the symbol table is malformed.
    BadRelocationTable,
    /// A section's bytes lie past the end of the file.
    SectionData,
    /// A name isn't UTF-8 text ended by a NUL inside its string section.
    Name,
}

impl fmt::Display for ElfError {
    fn fmt<W: fmt::Write>(&self, f: &mut fmt::Formatter<W>) -> fmt::Result {
        match self {
            ElfError::NotElf => write!(f, "not an ELF file"),
            ElfError::UnsupportedClass => write!(f, "not a 64-bit ELF file"),
            ElfError::UnsupportedOrder => write!(f, "unknown ELF byte order"),
            ElfError::BadSectionTable => write!(f, "malformed section header table"),
            ElfError::BadSymbolTable => write!(f, "malformed symbol table"),
            ElfError::BadRelocationTable => write!(f, "malformed relocation table"),
            ElfError::SectionData => write!(f, "section data past the end of the file"),
            ElfError::Name => write!(f, "unreadable name"),
        }
    }
}

impl Error for ElfError {}
