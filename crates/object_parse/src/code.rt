//! The functions of program sections, and their code.

ghost use Rattle.std.specs.Prelude.{◌≡◌, ◌↔◌, ◌%◌, true, Some, is_none, length, IsSome, IfSome};
ghost use Rattle.std.specs.Option.{option_copied};
ghost use Rattle.object_parse.specs.Programs.{is_function, code_in, code_of, first_slot, lacks_code};

use elf64::{SymbolKind, SymbolView};
use object_file::{ReadSection, ReadSymbol};

/// The name of a symbol of a program section that is a function: a symbol of kind Text whose name
/// isn't empty.
pub fn function_name<'a>(symbol: &ReadSymbol<'a>) -> Option<&'a str>
    ensures found { IsSome result ↔ (is_function symbol.now ≡ true) }
    ensures name { IfSome result (λ name. symbol.now.name ≡ Some name.now) }
{
    if symbol.view().kind() != SymbolKind::Text {
        return None;
    }
    let name = symbol.name();
    if name.is_empty() {
        return None;
    }
    Some(name)
}

/// The code of a symbol, if its range lies in a section's bytes and is whole slots.
fn code_in<'a>(bytes: &'a [u8], address: u64, symbol: &SymbolView<'_>) -> Option<&'a [u8]>
    ensures whole { IfSome result (λ code. length code.now % 8 ≡ 0) }
    ensures value { option_copied result ≡ code_in bytes.now address symbol.now }
{
    let start = symbol.address();
    let end = start.checked_add(symbol.size())?;
    if start < address || end > bytes.len() as u64 || symbol.size() % 8 != 0 {
        return None;
    }
    Some(&bytes[start as usize..end as usize])
}

/// The code of a symbol of a section, if its range lies in the section's bytes and is whole slots.
pub fn code_of<'a>(section: &ReadSection<'a>, symbol: &ReadSymbol<'_>) -> Option<&'a [u8]>
    ensures value { option_copied result ≡ code_of section.now symbol.now }
    ensures none { is_none result ≡ lacks_code section.now symbol.now }
    ensures whole { IfSome result (λ code. length code.now % 8 ≡ 0) }
{
    code_in(section.bytes(), section.address(), symbol.view())
}

/// The index in slots of a function's first slot in its section.
pub(crate) fn first_slot(section: &ReadSection<'_>, symbol: &ReadSymbol<'_>) -> u64
    ensures { result ≡ first_slot section.now symbol.now }
{
    symbol.view().address().saturating_sub(section.address()) / 8
}
