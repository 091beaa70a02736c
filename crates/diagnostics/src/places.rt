//! Places of faults whose errors don't have them.

ghost use Rattle.std.specs.Prelude.{IfSome, IfOk};
ghost use Rattle.diagnostics.specs.Places.{IsPlace};

use btf_records::BtfError;
use ebpf_items::ParseError;
use object_file::{OpenedFile, unnamed_symbol};
use object_parse::function_without_code;
use std::alloc::{AllocError, Global};
use std::fmt;

/// The place of a fault whose error doesn't have it.
#[derive(Debug, Drop)]
pub enum FaultPlace {
    /// In a function of the section with this index.
    Function {
        index: usize,
        section: String,
        name: String,
    },
    /// In the symbol with this index.
    Symbol {
        index: usize,
    },
}

impl fmt::Display for FaultPlace {
    fn fmt<W: fmt::Write>(&self, f: &mut fmt::Formatter<W>) -> fmt::Result {
        match self {
            FaultPlace::Function {
                index,
                section,
                name,
            } => write!(f, "function {name:?} of section {index} {section:?}"),
            FaultPlace::Symbol { index } => write!(f, "symbol {index}"),
        }
    }
}

/// The place of a fault of an opened file, if a function lacks code.
fn place_in(alloc: Global, file: &OpenedFile<'_>) -> Result<Option<FaultPlace>, AllocError>
    ensures { IfOk result (λ place. IfSome place (IsPlace file.now ParseError.InvalidProgramCode)) }
{
    let Some((index, section, name)) = function_without_code(alloc, file) else {
        return Ok(None);
    };
    Ok(Some(FaultPlace::Function {
        index,
        section: String::from_str(alloc, section)?,
        name: String::from_str(alloc, name)?,
    }))
}

/// The first function of an object file that has no code.
fn place_of_function(alloc: Global, object: &[u8]) -> Option<FaultPlace>
    ensures { IfSome result (IsPlace object.now ParseError.InvalidProgramCode) }
{
    let file = OpenedFile::parse(alloc, object).ok()?;
    match place_in(alloc, &file) {
        Ok(place) => place,
        Err(_) => None,
    }
}

/// The first symbol of an object file whose name can't be read.
fn place_of_symbol(object: &[u8]) -> Option<FaultPlace>
    ensures { IfSome result (IsPlace object.now (ParseError.BtfError BtfError.InvalidSymbolName)) }
{
    let index = unnamed_symbol(object)?;
    Some(FaultPlace::Symbol { index })
}

/// The place of a fault of an object file, for the errors that don't have it: a function without
/// code, a symbol whose name can't be read. None for other errors, and where memory runs out.
pub fn place_of_error(alloc: Global, object: &[u8], error: &ParseError) -> Option<FaultPlace>
    ensures { IfSome result (IsPlace object.now error.now) }
{
    match error {
        ParseError::InvalidProgramCode => place_of_function(alloc, object),
        ParseError::BtfError(BtfError::InvalidSymbolName) => place_of_symbol(object),
        _ => None,
    }
}
