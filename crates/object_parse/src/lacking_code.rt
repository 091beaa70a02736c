//! Functions without code, which the error `InvalidProgramCode` doesn't name.

ghost use Rattle.std.specs.Prelude.{◌≡◌, ◌==◌, find, IfSome, Some};
ghost use Rattle.std.specs.Option.{option_copied};
ghost use Rattle.object_file.specs.Reading.{read_sections};
ghost use Rattle.object_parse.specs.Programs.{has_no_code};
ghost use Rattle.object_parse.specs.LackingCode.{function_without_code_in, name_at, place_without_code};

use crate::code::{code_of, function_name};
use ebpf_items::EbpfSectionKind;
use object_file::{ObjectFile, OpenedFile, ReadSection, ReadSymbol};
use std::alloc::Global;

/// Whether a symbol of a section is a function without code in the section's bytes.
fn has_no_code(section: &ReadSection<'_>, symbol: &ReadSymbol<'_>) -> bool
    ensures { result ≡ has_no_code section.now symbol.now }
{
    function_name(symbol).is_some() && code_of(section, symbol).is_none()
}

/// The first of some symbols that is a function without code.
fn first_without_code<'b, 'a>(
    section: &ReadSection<'_>,
    symbols: &'b [ReadSymbol<'a>],
) -> Option<&'b ReadSymbol<'a>>
    ensures { option_copied result ≡ find (has_no_code section.now) symbols.entry.now }
{
    symbols.iter().find(|symbol| has_no_code(section, symbol))
}

/// The first function without code of a section, if it is a program section.
fn function_without_code_in<'f, 'a>(
    file: &'f OpenedFile<'a>,
    section: &ReadSection<'a>,
) -> Option<&'f ReadSymbol<'a>>
    ensures { option_copied result ≡ function_without_code_in file.entry.now section.now }
{
    if section.kind() != EbpfSectionKind::Program {
        return None;
    }
    first_without_code(section, file.symbols_in(section.index()))
}

/// The first function without code, which is reported as `InvalidProgramCode`: the index and the
/// name of its section, and its name. None where a section before it can't be read, or memory runs
/// out.
pub fn function_without_code<'a>(
    alloc: Global,
    file: &OpenedFile<'a>,
) -> Option<(usize, &'a str, &'a str)>
    ensures { IfSome result (λ p. place_without_code file.now ≡ Some (p.0, p.1.now, p.2.now)) }
{
    for view in file.sections(alloc).ok()? {
        let Ok(section) = file.read_section(view) else {
            return None;
        };
        if let Some(symbol) = function_without_code_in(file, &section) {
            return Some((section.index(), section.name(), symbol.name()));
        }
    }
    None
}

/// The section at an index, if it is read.
fn section_at<'f, 'a>(file: &'f ObjectFile<'a>, index: usize) -> Option<&'f ReadSection<'a>>
    ensures { option_copied result ≡ find (λ s. s.index == index) (read_sections file.entry.now) }
{
    file.sections()
        .iter()
        .find(|section| section.index() == index)
}

/// The name of the section at an index; empty where no such section is read.
pub fn name_at<'a>(file: &ObjectFile<'a>, index: usize) -> &'a str
    ensures { result.now ≡ name_at file.now index }
{
    match section_at(file, index) {
        Some(section) => section.name(),
        None => "",
    }
}
