//! The errors of type information.

ghost use Rattle.std.specs.Prelude.{◌≡◌};
ghost use Rattle.btf_records.specs.declared.error.BtfError.TheVariants.{OutOfMemory};

use std::alloc::{AllocError, AllocFailed};
use std::error::Error;
use std::fmt;

/// Why type information, or a query of it, is refused.
#[derive(Debug, Drop)]
pub enum BtfError {
    /// The header, or the strings that it names, reach past the end of the section.
    InvalidHeader,
    /// A type record is cut off; the types reach past the end of the section; there are more than
    /// 2^32 - 1 types, or more than 2^32 - 1 bytes of types; or a product or a shift overflows its
    /// integer.
    InvalidTypeInfo,
    /// A type relocation record is cut off.
    InvalidRelocationInfo,
    /// No type record has this kind.
    InvalidTypeKind {
        kind: u32,
    },
    /// No type relocation has this kind.
    InvalidRelocationKind {
        kind: u32,
    },
    /// No text can be read at this offset of the strings.
    InvalidStringOffset {
        offset: usize,
    },
    /// A region of function, line or relocation records reaches past the end of the section, or is
    /// too short to give the size of its records; or function records are cut off.
    InvalidInfo {
        offset: usize,
        len: usize,
        section_len: usize,
    },
    /// A region of line records is cut off.
    InvalidLineInfo {
        offset: usize,
        len: usize,
        section_len: usize,
    },
    /// No type has this id.
    UnknownBtfType {
        type_id: u32,
    },
    /// The type of this id is of a kind that isn't allowed here.
    UnexpectedBtfType {
        type_id: u32,
    },
    /// No type of the wanted kind has this name.
    UnknownBtfTypeName {
        type_name: String,
    },
    /// A chain of types is too long, or leads back into itself.
    MaximumTypeDepthReached {
        type_id: u32,
    },
    /// A variable has no symbol.
    SymbolOffsetNotFound {
        symbol_name: String,
    },
    /// An entry of a section record refers to a record that isn't allowed there, or its offset is
    /// too great.
    InvalidDatasec,
    /// A section record names a section that the object doesn't have.
    UnknownSectionSize {
        section_name: String,
    },
    /// A symbol's name can't be read, or a name has no symbol.
    InvalidSymbolName,
    /// The definition of an inner map sets `pinning`.
    InnerMapCannotBePinned {
        name: String,
    },
    /// The definition of an inner map sets `values`.
    MultiLevelMapInMapNotSupported {
        name: String,
    },
    /// The member `values` of a map definition has an unknown form.
    InvalidValuesSpec {
        name: String,
    },
    /// Memory ran out.
    OutOfMemory,
}

/// The forms of the error messages.
enum Form<'a> {
    Text(&'a str),
    /// A text before a number, and one after it.
    Number(&'a str, u64, &'a str),
    /// A text before a name, and one after it.
    Name(&'a str, &'a str, &'a str),
    /// A text, the offset and length of a region, and the length of its section.
    Region(&'a str, usize, usize, usize),
}

/// The message of an error, in its form.
fn form_of(error: &BtfError) -> Form<'_> {
    match error {
        BtfError::InvalidHeader => Form::Text("invalid BTF header"),
        BtfError::InvalidTypeInfo => Form::Text("invalid BTF type info"),
        BtfError::InvalidRelocationInfo => Form::Text("invalid BTF relocation info"),
        BtfError::InvalidTypeKind { kind } => {
            Form::Number("invalid BTF type kind ", u64::from(*kind), "")
        }
        BtfError::InvalidRelocationKind { kind } => {
            Form::Number("invalid BTF relocation kind ", u64::from(*kind), "")
        }
        BtfError::InvalidStringOffset { offset } => {
            Form::Number("invalid BTF string offset ", *offset as u64, "")
        }
        BtfError::InvalidInfo {
            offset,
            len,
            section_len,
        } => Form::Region("invalid BTF info", *offset, *len, *section_len),
        BtfError::InvalidLineInfo {
            offset,
            len,
            section_len,
        } => Form::Region("invalid BTF line info", *offset, *len, *section_len),
        BtfError::UnknownBtfType { type_id } => {
            Form::Number("unknown BTF type id ", u64::from(*type_id), "")
        }
        BtfError::UnexpectedBtfType { type_id } => {
            Form::Number("unexpected BTF type id ", u64::from(*type_id), "")
        }
        BtfError::UnknownBtfTypeName { type_name } => Form::Name(
            "no BTF type named ",
            type_name,
            "",
        ),
        BtfError::MaximumTypeDepthReached { type_id } => {
            Form::Number("BTF type id ", u64::from(*type_id), " is nested too deep")
        }
        BtfError::SymbolOffsetNotFound { symbol_name } => {
            Form::Name("no symbol offset for ", symbol_name, "")
        }
        BtfError::InvalidDatasec => Form::Text("invalid BTF section record"),
        BtfError::UnknownSectionSize { section_name } => {
            Form::Name("unknown size of section ", section_name, "")
        }
        BtfError::InvalidSymbolName => Form::Text("invalid symbol name"),
        BtfError::InnerMapCannotBePinned { name } => {
            Form::Name("inner map of ", name, " can't be pinned")
        }
        BtfError::MultiLevelMapInMapNotSupported { name } => {
            Form::Name("inner map of ", name, " can't hold maps")
        }
        BtfError::InvalidValuesSpec { name } => Form::Name("invalid `values` of map ", name, ""),
        BtfError::OutOfMemory => Form::Text("out of memory"),
    }
}

impl fmt::Display for BtfError {
    fn fmt<W: fmt::Write>(&self, f: &mut fmt::Formatter<W>) -> fmt::Result {
        match form_of(self) {
            Form::Text(text) => f.write_str(text),
            Form::Number(before, number, after) => write!(f, "{before}{number}{after}"),
            Form::Name(before, name, after) => write!(f, "{before}{name:?}{after}"),
            Form::Region(text, offset, len, section_len) => write!(
                f,
                "{text}: offset {offset}, length {len}, section length {section_len}"
            ),
        }
    }
}

impl Error for BtfError {}

impl From<AllocError> for BtfError {
    ghost from_gives = { λ _ e. e ≡ OutOfMemory };

    fn from(_error: AllocError) -> BtfError {
        BtfError::OutOfMemory
    }
}

impl<T: Drop> From<AllocFailed<T>> for BtfError {
    ghost from_gives = { λ _ e. e ≡ OutOfMemory };

    fn from(_error: AllocFailed<T>) -> BtfError {
        BtfError::OutOfMemory
    }
}
