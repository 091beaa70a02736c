//! Errors of relocations, with the functions that they occur in.

ghost use Rattle.std.specs.Prelude.{◌≡◌, ◌≢◌, None, Some, [], unwrap_or};
ghost use Rattle.std.specs.Option.{option_map};
ghost use Rattle.std.specs.String.{string_bytes};
ghost use Rattle.relocation_errors.specs.declared.error.RelocationError.TheVariants.{OutOfMemory};

use std::alloc::{AllocError, AllocFailed, Global};
use thiserror::Error;

/// Why a relocation, or a call of a function, can't be resolved.
#[derive(Debug, Drop, Error)]
pub enum RelocationError {
    /// The symbol table has no such symbol, or the symbol can't be referred to. `index` is the
    /// symbol's index in the symbol table.
    #[error("unknown symbol, index {index}")]
    UnknownSymbol {
        index: usize,
    },
    /// No map is given for the symbol or its section. `section_index` is an index of the section
    /// headers, `symbol_index` one of the symbol table.
    #[error("no map for section {section_index} of symbol {symbol_index} {:?}", symbol_name.as_deref().unwrap_or(""))]
    SectionNotFound {
        section_index: usize,
        symbol_index: usize,
        symbol_name: Option<String>,
    },
    /// No function begins at the address that a function refers to. `address` is taken modulo 2^64.
    #[error("function {caller_name:?} refers to address {address:#x}, where no function begins")]
    UnknownFunction {
        address: u64,
        caller_name: String,
    },
    /// A function's records don't fit those of the program that it is linked to: only one of the
    /// two has function records, or a line record of the function comes before its first one.
    #[error("the records of function {name:?} don't fit those of the program")]
    FunctionInfoMismatch {
        name: String,
    },
    /// No extern has this name.
    #[error("no extern named {name:?}")]
    ExternNotFound {
        name: String,
    },
    /// An extern has no value that the instruction could hold.
    #[error("extern {name:?} can't be resolved")]
    UnresolvableSymbol {
        name: String,
    },
    /// No function begins at a program's address.
    #[error("no function of section {section_index} at address {address:#x}")]
    UnknownProgram {
        section_index: usize,
        address: u64,
    },
    /// A relocation doesn't apply to a whole instruction, or its value doesn't fit. `offset` is in
    /// bytes from the section's beginning. `relocation_number` is the index among the section's
    /// relocations in order of offset. Both are 0 for a program that is too long.
    #[error("relocation {relocation_number} at offset {offset:#x} is invalid")]
    InvalidRelocationOffset {
        offset: u64,
        relocation_number: usize,
    },
    /// Memory ran out.
    #[error("out of memory")]
    OutOfMemory,
}

impl From<AllocError> for RelocationError {
    ghost from_gives = { λ _ e. e ≡ OutOfMemory };

    fn from(_error: AllocError) -> RelocationError {
        RelocationError::OutOfMemory
    }
}

impl<T: Drop> From<AllocFailed<T>> for RelocationError {
    ghost from_gives = { λ _ e. e ≡ OutOfMemory };

    fn from(_error: AllocFailed<T>) -> RelocationError {
        RelocationError::OutOfMemory
    }
}

/// Why a relocation of a function can't be made, with the function's name.
#[derive(Debug, Drop, Error)]
#[error("error relocating function {:?}: {error}", function.as_deref().unwrap_or(""))]
pub struct EbpfRelocationError {
    function: Option<String>,
    error: RelocationError,
}

impl EbpfRelocationError {
    /// A fault of a function. It is `OutOfMemory` where memory runs out for the name.
    pub fn new(alloc: Global, function: &str, error: RelocationError) -> EbpfRelocationError
        ensures error { result.error ≢ OutOfMemory → result.error ≡ error }
        ensures function { result.error ≢ OutOfMemory
            → option_map string_bytes result.function ≡ Some function.now }
    {
        match String::from_str(alloc, function) {
            Ok(function) => EbpfRelocationError {
                function: Some(function),
                error,
            },
            Err(_) => EbpfRelocationError {
                function: None,
                error: RelocationError::OutOfMemory,
            },
        }
    }

    /// The function's name, empty where memory ran out before it was known.
    pub fn function(&self) -> &str
        ensures { result.now ≡ unwrap_or (option_map string_bytes self.now.function) [] }
    {
        match &self.function {
            Some(function) => function.as_str(),
            None => "",
        }
    }

    /// The fault.
    pub fn error(&self) -> &RelocationError
        ensures { result.now ≡ self.now.error }
    {
        &self.error
    }
}

impl From<AllocError> for EbpfRelocationError {
    ghost from_gives = { λ _ e. e ≡ record { function = None; error = OutOfMemory } };

    fn from(_error: AllocError) -> EbpfRelocationError {
        EbpfRelocationError {
            function: None,
            error: RelocationError::OutOfMemory,
        }
    }
}

impl<T: Drop> From<AllocFailed<T>> for EbpfRelocationError {
    ghost from_gives = { λ _ e. e ≡ record { function = None; error = OutOfMemory } };

    fn from(_error: AllocFailed<T>) -> EbpfRelocationError {
        EbpfRelocationError {
            function: None,
            error: RelocationError::OutOfMemory,
        }
    }
}
