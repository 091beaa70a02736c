//! The address that a line gives a wanted symbol.

ghost use Rattle.std.specs.Prelude.{◌≡◌, true, IfErr, OnOk};
ghost use Rattle.std.specs.Str.{IsAscii, is_utf8};
ghost use Rattle.kernel_symbols.specs.Addresses.{address_in};
ghost use Rattle.kernel_symbols.specs.Reading.{RefusesLine, TakesLine, settled};

use crate::error::SymbolsError;
use crate::wanted::Wanted;
use crate::wanted_names::WantedByName;
use crate::words::first_and_third;
use std::io;
use std::io::ErrorKind;

/// Whether a line is UTF-8. A line that is known to be ASCII isn't checked.
#[tactic(auto, using(crate::proofs::Utf8::ascii_text))]
fn is_text(line: &[u8], is_ascii: bool) -> bool
    requires { is_ascii ≡ true → IsAscii line.now }
    ensures { result ≡ is_utf8 line.now }
{
    if is_ascii {
        return true;
    }
    str::from_utf8(line).is_ok()
}

/// The address in a word: a number of 64 bits in hexadecimal digits, after an optional `+`.
#[tactic(auto, using(crate::proofs::AddressLemmas::foreign_word, crate::proofs::AddressLemmas::parsed))]
fn address_in(word: &[u8]) -> Option<u64>
    ensures { result ≡ address_in word.now }
{
    match str::from_utf8(word) {
        Ok(digits) => u64::from_str_radix(digits, 16).ok(),
        Err(_) => None,
    }
}

/// The address of a wanted symbol after a line that names it, with the line's first word.
fn settled<'a>(wanted: &Wanted<'a>, word: &[u8]) -> Result<Option<u64>, SymbolsError<'a>>
    ensures { result ≡ settled wanted.now (address_in word.now) }
{
    let name = wanted.name;
    match (address_in(word), wanted.address) {
        (None, _) => Err(SymbolsError::UnreadableAddress(name)),
        (Some(0), found) => Ok(found),
        (Some(address), None) => Ok(Some(address)),
        (Some(address), Some(first)) if first == address => Ok(Some(first)),
        (Some(second_addr), Some(first_addr)) => Err(SymbolsError::Ambiguous {
            name,
            first_addr,
            second_addr,
        }),
    }
}

/// Records the address that a line gives a wanted symbol. If `is_ascii` is set, the line is known
/// to be ASCII.
pub(crate) fn take_line<'a>(
    by_name: &mut WantedByName<'a>,
    line: &[u8],
    is_ascii: bool,
) -> Result<(), SymbolsError<'a>>
    requires { is_ascii ≡ true → IsAscii line.now }
    ensures taken { OnOk result (TakesLine by_name.old by_name.new line.now) }
    ensures refused { IfErr result (RefusesLine by_name.old line.now) }
{
    if !is_text(line, is_ascii) {
        return Err(SymbolsError::Access(io::Error::from(ErrorKind::InvalidData)));
    }
    let Some((word, name)) = first_and_third(line) else {
        return Ok(());
    };
    let Some(wanted) = by_name.get(name) else {
        return Ok(());
    };
    let address = settled(&wanted, word)?;
    by_name.put(name, address);
    Ok(())
}
