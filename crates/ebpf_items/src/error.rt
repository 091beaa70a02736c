//! The errors of object files.

ghost use Rattle.std.specs.Prelude.{◌≡◌};
ghost use Rattle.ebpf_items.specs.declared.error.ParseError.TheVariants.{ElfError, OutOfMemory};
ghost use Rattle.ebpf_items.specs.Error.{parse_error_of};

use btf_records::BtfError;
use elf64::ElfError;
use std::alloc::{AllocError, AllocFailed};
use std::error::Error;
use std::fmt;

/// Why an object, or a part of it, is refused.
#[derive(Debug, Drop)]
pub enum ParseError {
    /// The file isn't an ELF64 file that can be read.
    ElfError(ElfError),
    /// The type information can't be read, or doesn't fit the object.
    BtfError(BtfError),
    /// The section `license` doesn't end with a NUL.
    MissingLicenseNullTerminator {
        bytes: Vec<u8>,
    },
    /// The section `license` is too short, or holds a NUL before its last byte.
    InvalidLicense {
        bytes: Vec<u8>,
    },
    /// The section `version` isn't four bytes.
    InvalidKernelVersion {
        bytes: Vec<u8>,
    },
    /// A section's name or bytes can't be read. `index` counts the section headers.
    SectionError {
        index: usize,
        error: ElfError,
    },
    /// A relocation has no symbol.
    UnsupportedRelocationTarget,
    /// A section's name names no kind of program.
    InvalidProgramSection {
        section: String,
    },
    /// A function begins below its section's address, its bytes lie outside the section, or they
    /// aren't whole instruction slots.
    InvalidProgramCode,
    /// A map's definition doesn't fit in its section, or its size doesn't fit in 32 bits.
    InvalidMapDefinition {
        name: String,
    },
    /// Two functions of a section begin at the same address, by their symbols.
    SymbolTableConflict {
        section_index: usize,
        address: u64,
    },
    /// No function of a section begins at an address.
    UnknownSymbol {
        section_index: usize,
        address: u64,
    },
    /// A function's symbol has no size. `index` counts the symbol table's entries.
    InvalidSymbol {
        index: usize,
        name: Option<String>,
    },
    /// No symbol has this name.
    SymbolNotFound {
        name: String,
    },
    /// The size of a global variable's value isn't that of its symbol, or the symbol lies outside
    /// its map. Both sizes are in bytes.
    InvalidGlobalData {
        name: String,
        sym_size: u64,
        data_size: usize,
    },
    /// No map is made of this section. `index` counts the section headers; 0 means no section.
    MapNotFound {
        index: usize,
    },
    /// The symbol of a map has no name. `i` counts the symbol table's entries.
    MapSymbolNameNotFound {
        i: usize,
    },
    /// No symbol is in this section.
    NoSymbolsForSection {
        section_name: String,
    },
    /// Maps are defined by types, and the object has no type information.
    NoBTF,
    /// Memory ran out.
    OutOfMemory,
}

/// The forms of the error messages.
enum Form<'a> {
    Text(&'a str),
    /// A text before a name, and one after it.
    Name(&'a str, &'a str, &'a str),
    /// A text before bytes, and one after them.
    Bytes(&'a str, &'a [u8], &'a str),
    /// A text before an index.
    Index(&'a str, usize),
    /// A text before a section, and an address in it.
    Address(&'a str, usize, u64),
    Elf(&'a ElfError),
    Btf(&'a BtfError),
    Section(usize, &'a ElfError),
    Symbol(usize, &'a str),
    /// A variable's name, and the sizes of its value and of its symbol.
    Sizes(&'a str, usize, u64),
}

/// The message of an error, in its form.
fn form_of(error: &ParseError) -> Form<'_> {
    match error {
        ParseError::ElfError(error) => Form::Elf(error),
        ParseError::BtfError(error) => Form::Btf(error),
        ParseError::MissingLicenseNullTerminator { bytes } => {
            Form::Bytes("license \"", bytes.as_slice(), "\" doesn't end with a NUL")
        }
        ParseError::InvalidLicense { bytes } => {
            Form::Bytes("invalid license \"", bytes.as_slice(), "\"")
        }
        ParseError::InvalidKernelVersion { bytes } => {
            Form::Bytes("invalid kernel version \"", bytes.as_slice(), "\"")
        }
        ParseError::SectionError { index, error } => Form::Section(*index, error),
        ParseError::UnsupportedRelocationTarget => Form::Text("relocation without a symbol"),
        ParseError::InvalidProgramSection { section } => {
            Form::Name("invalid program section ", section, "")
        }
        ParseError::InvalidProgramCode => Form::Text("invalid program code"),
        ParseError::InvalidMapDefinition { name } => {
            Form::Name("invalid definition of map ", name, "")
        }
        ParseError::SymbolTableConflict {
            section_index,
            address,
        } => Form::Address("two functions", *section_index, *address),
        ParseError::UnknownSymbol {
            section_index,
            address,
        } => Form::Address("no function", *section_index, *address),
        ParseError::InvalidSymbol { index, name } => {
            Form::Symbol(*index, name.as_deref().unwrap_or(""))
        }
        ParseError::SymbolNotFound { name } => Form::Name("no symbol named ", name, ""),
        ParseError::InvalidGlobalData {
            name,
            sym_size,
            data_size,
        } => Form::Sizes(name, *data_size, *sym_size),
        ParseError::MapNotFound { index } => Form::Index("no map for section ", *index),
        ParseError::MapSymbolNameNotFound { i } => {
            Form::Index("no name for the map of symbol ", *i)
        }
        ParseError::NoSymbolsForSection { section_name } => {
            Form::Name("no symbols in section ", section_name, "")
        }
        ParseError::NoBTF => Form::Text("no BTF in the object"),
        ParseError::OutOfMemory => Form::Text("out of memory"),
    }
}

impl fmt::Display for ParseError {
    fn fmt<W: fmt::Write>(&self, f: &mut fmt::Formatter<W>) -> fmt::Result {
        match form_of(self) {
            Form::Text(text) => f.write_str(text),
            Form::Name(before, name, after) => write!(f, "{before}{name:?}{after}"),
            Form::Bytes(before, bytes, after) => {
                write!(f, "{before}{}{after}", bytes.escape_ascii())
            }
            Form::Index(before, index) => write!(f, "{before}{index}"),
            Form::Address(before, section_index, address) => {
                write!(
                    f,
                    "{before} of section {section_index} at address {address:#x}"
                )
            }
            Form::Elf(error) => write!(f, "error parsing ELF data: {error}"),
            Form::Btf(error) => write!(f, "BTF error: {error}"),
            Form::Section(index, error) => write!(f, "error parsing section {index}: {error}"),
            Form::Symbol(index, name) => {
                write!(f, "invalid symbol {index} {name:?}: it has no size")
            }
            Form::Sizes(name, data_size, sym_size) => write!(
                f,
                "invalid data for global {name:?}: {data_size} bytes for a symbol of {sym_size}"
            ),
        }
    }
}

impl Error for ParseError {}

impl From<ElfError> for ParseError {
    ghost from_gives = { λ error e. e ≡ ElfError error };

    fn from(error: ElfError) -> ParseError {
        ParseError::ElfError(error)
    }
}

/// An `OutOfMemory` of types becomes the `OutOfMemory` here.
impl From<BtfError> for ParseError {
    ghost from_gives = { λ error e. e ≡ parse_error_of error };

    fn from(error: BtfError) -> ParseError {
        match error {
            BtfError::OutOfMemory => ParseError::OutOfMemory,
            error => ParseError::BtfError(error),
        }
    }
}

impl From<AllocError> for ParseError {
    ghost from_gives = { λ _ e. e ≡ OutOfMemory };

    fn from(_error: AllocError) -> ParseError {
        ParseError::OutOfMemory
    }
}

impl<T: Drop> From<AllocFailed<T>> for ParseError {
    ghost from_gives = { λ _ e. e ≡ OutOfMemory };

    fn from(_error: AllocFailed<T>) -> ParseError {
        ParseError::OutOfMemory
    }
}
