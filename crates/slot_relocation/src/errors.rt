//! The errors for faults of relocations that the file holds.

ghost use Rattle.std.specs.Prelude.{◌≡◌, ◌≢◌, Some, unwrap_or, IfErr, IfOk, OnErr, OnOk};
ghost use Rattle.std.specs.Option.{option_map};
ghost use Rattle.std.specs.String.{string_bytes};
ghost use Rattle.relocation_errors.specs.declared.error.RelocationError.TheVariants.{OutOfMemory};
ghost use Rattle.slot_relocation.specs.BySymbol.{symbol_rule};
ghost use Rattle.slot_relocation.specs.Writes.{AreRelocated, CanBeRelocated, HasErrorIn, IsErrorOf, name_of, number_of, text_of};
ghost use Rattle.slot_relocation.specs.Walks.{IsErrorFor};

use crate::by_symbol::{BySymbol, SymbolRule};
use crate::driver::{FaultAt, Stop, relocate_functions};
use crate::outcome::Fault;
use object_file::ObjectFile;
use object_parts::Functions;
use relocation_errors::{EbpfRelocationError, RelocationError};
use std::alloc::{AllocError, Global};

/// The number of the relocation at an offset of a section: how many relocations come before it.
fn number_of(file: &ObjectFile<'_>, section_index: usize, offset: u64) -> usize
    ensures { result ≡ number_of file.now section_index offset }
{
    file.relocations_in(section_index, 0, offset).count()
}

/// The name of the symbol with this index.
fn name_of(
    alloc: Global,
    file: &ObjectFile<'_>,
    symbol_index: usize,
) -> Result<Option<String>, AllocError>
    ensures { IfOk result (λ name. option_map string_bytes name ≡ name_of file.now symbol_index) }
{
    match file.symbol_at(symbol_index) {
        Some(symbol) => Ok(Some(String::from_str(alloc, symbol.name())?)),
        None => Ok(None),
    }
}

/// The name of the symbol with this index, empty where it has none.
fn text_of(alloc: Global, file: &ObjectFile<'_>, symbol_index: usize) -> Result<String, AllocError>
    ensures { IfOk result (λ name. string_bytes name ≡ text_of file.now symbol_index) }
{
    let text = match file.symbol_at(symbol_index) {
        Some(symbol) => symbol.name(),
        None => "",
    };
    String::from_str(alloc, text)
}

/// The error for a fault.
fn error_of(alloc: Global, file: &ObjectFile<'_>, at: &FaultAt<'_, Fault>) -> RelocationError
    ensures { result ≢ OutOfMemory
        → IsErrorOf file.now at.now.section_index at.now.offset at.now.fault result }
{
    match at.fault {
        Fault::InvalidOffset => RelocationError::InvalidRelocationOffset {
            offset: at.offset,
            relocation_number: number_of(file, at.section_index, at.offset),
        },
        Fault::UnknownSymbol { index } => RelocationError::UnknownSymbol { index },
        Fault::NoMap {
            section_index,
            symbol_index,
        } => match name_of(alloc, file, symbol_index) {
            Ok(symbol_name) => RelocationError::SectionNotFound {
                section_index,
                symbol_index,
                symbol_name,
            },
            Err(error) => RelocationError::from(error),
        },
        Fault::NoExtern { symbol_index } => match text_of(alloc, file, symbol_index) {
            Ok(name) => RelocationError::ExternNotFound { name },
            Err(error) => RelocationError::from(error),
        },
        Fault::Unresolvable { symbol_index } => match text_of(alloc, file, symbol_index) {
            Ok(name) => RelocationError::UnresolvableSymbol { name },
            Err(error) => RelocationError::from(error),
        },
    }
}

/// The error for what stopped a pass, with the function's name.
fn error_for(alloc: Global, file: &ObjectFile<'_>, stop: Stop<'_, Fault>) -> EbpfRelocationError
    ensures { result.error ≢ OutOfMemory
        → IsErrorFor file.now stop.entry (option_map string_bytes result.function) result.error }
{
    match stop {
        Stop::Fault(at) => {
            let error = error_of(alloc, file, &at);
            EbpfRelocationError::new(alloc, at.function, error)
        }
        Stop::OutOfMemory => EbpfRelocationError::from(AllocError),
    }
}

/// Makes the relocations that the file holds in all functions, by a rule on their symbols. Of
/// several faults the first in order of section and offset is returned. The functions then stay as
/// they are.
pub fn relocate_by_symbol<'f, S: SymbolRule + Drop>(
    alloc: Global,
    file: &ObjectFile<'_>,
    rule: S,
    functions: &mut Functions<'f>,
) -> Result<(), EbpfRelocationError>
    ensures relocated { OnOk result
        (AreRelocated (symbol_rule file.now (S.does rule)) file.now functions.old functions.new) }
    ensures sound { OnOk result
        (CanBeRelocated (symbol_rule file.now (S.does rule)) file.now functions.old) }
    ensures fault { IfErr result (λ e.
        e.error ≢ OutOfMemory
        → HasErrorIn (symbol_rule file.now (S.does rule)) file.now functions.old
        (option_map string_bytes e.function) e.error) }
    ensures unchanged { OnErr result (functions.new ≡ functions.old) }
{
    let pass = BySymbol { file, rule };
    match relocate_functions(alloc, &pass, functions) {
        Ok(()) => Ok(()),
        Err(stop) => Err(error_for(alloc, file, stop)),
    }
}
