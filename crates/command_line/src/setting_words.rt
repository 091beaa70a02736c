//! Arguments that set something: the number of a map, or the bytes of a global variable.

ghost use Rattle.std.specs.Prelude.{◌≡◌, ◌≢◌, ◌<◌, ◌^◌, map, true, IfErr, IfOk, None, OnOk, Some};
ghost use Rattle.std.specs.Option.{IsSomeAnd};
ghost use Rattle.std.specs.Str.{all_ascii_digits};
ghost use Rattle.command_line.specs.SettingWords.{are_digits, global_of, map_of, number_of, small_number, split_word, unset_global, unset_map, with_global, with_globals, with_map, with_maps, IsBytesFault, IsGlobalFault, IsMapFault, IsNumberFault, IsSplitFault};
ghost use Rattle.hex.specs.Hex.{decode_of};
ghost use Rattle.run_settings.specs.Documents.{if_decoded};
ghost use Rattle.command_line.specs.declared.setting_words.WordError.TheVariants.{OutOfMemory};

use hex::FromHexError;
use run_settings::RunSettings;
use std::alloc::{AllocError, Global};
use thiserror::Error;

/// Why an argument sets nothing.
#[derive(Debug, Drop, Error)]
pub enum WordError {
    /// There is no `=` between a name and its value.
    #[error("{word:?} has no '=' after a name")]
    NoSign { word: String },
    /// The number of a map isn't written in decimal digits.
    #[error("the number in {word:?} isn't written in decimal digits")]
    NoNumber { word: String },
    /// The number of a map isn't below 2^31.
    #[error("the number in {word:?} isn't below 2147483648")]
    LargeNumber { word: String },
    /// The bytes of a variable aren't written in two hexadecimal digits each.
    #[error("the bytes in {word:?} aren't written in two hexadecimal digits each")]
    NoBytes { word: String },
    #[error("out of memory")]
    OutOfMemory,
}

impl From<AllocError> for WordError {
    ghost use Rattle.std.specs.Prelude.{◌≡◌};
    ghost use Rattle.command_line.specs.declared.setting_words.WordError.TheVariants.{OutOfMemory};

    ghost from_gives = { λ _ e. e ≡ OutOfMemory };

    fn from(_error: AllocError) -> WordError {
        WordError::OutOfMemory
    }
}

/// The text before the last `=` of an argument, and the text after it.
fn name_and_rest(alloc: Global, word: &str) -> Result<(&str, &str), WordError>
    ensures ok { IfOk result (λ parts. split_word word.now ≡ Some (parts.0.now, parts.1.now)) }
    ensures refused { IfErr result (λ e. e ≢ OutOfMemory → IsSplitFault word.now e) }
{
    match word.rsplit_once('=') {
        Some(parts) => Ok(parts),
        None => Err(WordError::NoSign {
            word: String::from_str(alloc, word)?,
        }),
    }
}

/// Whether a text is one decimal digit or more. A sign isn't among them.
fn are_digits(digits: &str) -> bool
    ensures { result ≡ are_digits digits.now }
{
    !digits.is_empty() && are_ascii_digits(digits.as_bytes())
}

fn are_ascii_digits(bytes: &[u8]) -> bool
    ensures { result ≡ all_ascii_digits bytes.now }
{
    for byte in bytes {
        if !byte.is_ascii_digit() {
            return false;
        }
    }
    true
}

/// The number that decimal digits write, if it is below 2^31.
fn small_number(digits: &str) -> Option<u32>
    requires { are_digits digits.now ≡ true }
    ensures { result ≡ small_number digits.now }
{
    match digits.parse::<u32>() {
        Ok(number) if number <= i32::MAX as u32 => Some(number),
        _ => None,
    }
}

/// The number of a map in decimal digits.
fn number_of(alloc: Global, word: &str, digits: &str) -> Result<u32, WordError>
    ensures small { IfOk result (λ number. number < 2 ^ 31) }
    ensures ok { IfOk result (λ number. number_of digits.now ≡ Some number) }
    ensures refused { IfErr result (λ e. e ≢ OutOfMemory → IsNumberFault word.now digits.now e) }
{
    if !are_digits(digits) {
        return Err(WordError::NoNumber {
            word: String::from_str(alloc, word)?,
        });
    }
    match small_number(digits) {
        Some(number) => Ok(number),
        None => Err(WordError::LargeNumber {
            word: String::from_str(alloc, word)?,
        }),
    }
}

/// The bytes of a variable.
fn bytes_of(alloc: Global, word: &str, digits: &str) -> Result<Vec<u8>, WordError>
    ensures ok { IfOk result (λ bytes. if_decoded (decode_of digits.now) ≡ Some bytes.items) }
    ensures refused { IfErr result (λ e. e ≢ OutOfMemory → IsBytesFault word.now digits.now e) }
{
    match hex::decode(alloc, digits.as_bytes()) {
        Ok(bytes) => Ok(bytes),
        Err(FromHexError::OutOfMemory) => Err(WordError::OutOfMemory),
        Err(_) => Err(WordError::NoBytes {
            word: String::from_str(alloc, word)?,
        }),
    }
}

/// Sets the number of a map by `NAME=NUMBER`.
fn set_map(alloc: Global, settings: &mut RunSettings, word: &str) -> Result<(), WordError>
    ensures ok { OnOk result (with_map settings.old word.now ≡ Some settings.new) }
    ensures refused { IfErr result (λ e. e ≢ OutOfMemory → IsMapFault word.now e) }
    ensures unset { IfErr result (λ e. e ≢ OutOfMemory → map_of word.now ≡ None) }
{
    let (name, digits) = name_and_rest(alloc, word)?;
    let number = number_of(alloc, word, digits)?;
    settings.settings.set_map(name, number)?;
    Ok(())
}

/// Sets the bytes of a global variable by `NAME=HEX`.
fn set_global(alloc: Global, settings: &mut RunSettings, word: &str) -> Result<(), WordError>
    ensures ok { OnOk result (with_global settings.old word.now ≡ Some settings.new) }
    ensures refused { IfErr result (λ e. e ≢ OutOfMemory → IsGlobalFault word.now e) }
    ensures unset { IfErr result (λ e. e ≢ OutOfMemory → global_of word.now ≡ None) }
{
    let (name, digits) = name_and_rest(alloc, word)?;
    let bytes = bytes_of(alloc, word, digits)?;
    settings.settings.set_global(name, &bytes, true)?;
    Ok(())
}

/// Sets numbers of maps.
pub(crate) fn set_maps(
    alloc: Global,
    settings: &mut RunSettings,
    words: &[&str],
) -> Result<(), WordError>
    ensures ok { OnOk result
        (with_maps settings.old (map (λ word. word.now) words.now) ≡ Some settings.new) }
    ensures none { OnOk result (unset_map (map (λ word. word.now) words.now) ≡ None) }
    ensures refused { IfErr result (λ e. e ≢ OutOfMemory
        → IsSomeAnd (unset_map (map (λ word. word.now) words.now)) (λ word. IsMapFault word e)) }
{
    for word in words {
        set_map(alloc, settings, word)?;
    }
    Ok(())
}

/// Sets the bytes of global variables.
pub(crate) fn set_globals(
    alloc: Global,
    settings: &mut RunSettings,
    words: &[&str],
) -> Result<(), WordError>
    ensures ok { OnOk result
        (with_globals settings.old (map (λ word. word.now) words.now) ≡ Some settings.new) }
    ensures refused { IfErr result (λ e. e ≢ OutOfMemory
        → IsSomeAnd (unset_global (map (λ word. word.now) words.now))
        (λ word. IsGlobalFault word e)) }
{
    for word in words {
        set_global(alloc, settings, word)?;
    }
    Ok(())
}
