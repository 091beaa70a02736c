//! Why a file holds no types of a kernel.

use crate::formats::FileFormat;
use elf64::ElfError;
use thiserror::Error;

/// Why a file holds no types of a kernel.
#[derive(Clone, Copy, Debug, PartialEq, Eq, Error)]
pub enum TypesFault {
    /// It begins as an ELF file, and can't be read as an ELF64 file.
    #[error("it begins as an ELF file, but it can't be read as one: {0}")]
    Elf(ElfError),
    /// An ELF64 file without a section `.BTF`.
    #[error("it is an ELF file without a section .BTF")]
    NoSection,
    /// The section's bytes lie past the end of the file.
    #[error("the bytes of its section .BTF lie past the end of the file")]
    SectionData,
    /// The section doesn't begin with the magic of types in the file's byte order.
    #[error("its section .BTF doesn't begin as types in the file's byte order")]
    SectionMagic,
    /// A file of another format.
    #[error("{0}")]
    Format(FileFormat),
    /// The types of a module, which go on those of the kernel (split BTF).
    #[error("it has the types of a module alone, which go on those of the kernel (split BTF)")]
    Split,
}
