//! Access strings.

ghost use Rattle.std.specs.Prelude.{◌≡◌, ◌≢◌, IfOk, IfErr, None, Some};
ghost use Rattle.core_spec.specs.AccessStrings.{access_numbers, number_in};
ghost use Rattle.core_spec.specs.declared.error.AccessError.TheVariants.{BtfError as TypeError, InvalidAccessString};
ghost use Rattle.btf_records.specs.declared.error.BtfError.TheVariants.{OutOfMemory};

use crate::error::AccessError;
use std::alloc::Global;

/// The 64-bit number of a text in decimal digits, after an optional `+`.
#[tactic(auto, using(crate::proofs::AccessStrings::parsed_number))]
fn number_in(text: &str) -> Option<u64>
    ensures { result ≡ number_in text.now }
{
    text.parse::<u64>().ok()
}

/// The numbers of an access string.
///
/// `InvalidAccessString` where it isn't numbers of 64 bits joined by `:`.
pub(crate) fn access_numbers(alloc: Global, text: &str) -> Result<Vec<u64>, AccessError>
    ensures value { IfOk result (λ numbers. access_numbers text.now ≡ Some numbers.items) }
    ensures refused { IfErr result (λ e.
        e ≢ TypeError OutOfMemory → (e ≡ InvalidAccessString) × (access_numbers text.now ≡ None)) }
{
    let mut numbers = Vec::new(alloc);
    let mut rest = text;
    while let Some((piece, more)) = rest.split_once(':') {
        let Some(number) = number_in(piece) else {
            return Err(AccessError::InvalidAccessString);
        };
        numbers.push(number)?;
        rest = more;
    }
    let Some(number) = number_in(rest) else {
        return Err(AccessError::InvalidAccessString);
    };
    numbers.push(number)?;
    Ok(numbers)
}
