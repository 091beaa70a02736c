//! Numbers, kinds and texts.

use crate::error::ExerciseError;
use btf::BtfKind;
use ebpf_items::RelocationKind;

/// The kinds of types in order of number (btf.rst).
const TYPES: &str = "UNKN INT PTR ARRAY STRUCT UNION ENUM FWD TYPEDEF VOLATILE CONST RESTRICT FUNC \
    FUNC_PROTO VAR DATASEC FLOAT DECL_TAG TYPE_TAG ENUM64";

/// The kinds of type relocations in order of number (`enum bpf_core_relo_kind`).
const RELOCATIONS: &str = "field_byte_offset field_byte_size field_exists field_signed \
    field_lshift_u64 field_rshift_u64 type_id_local type_id_target type_exists type_size \
    enumval_exists enumval_value";

/// The number of a word of a list.
fn number_in(list: &str, word: &str) -> Result<u32, ExerciseError> {
    match list.split(' ').position(|other| other == word) {
        Some(at) => u32::try_from(at).map_err(|_| ExerciseError::Usage),
        None => Err(ExerciseError::Usage),
    }
}

/// The kind of type that a word names.
pub(crate) fn type_kind(word: &str) -> Result<BtfKind, ExerciseError> {
    Ok(BtfKind::try_from(number_in(TYPES, word)?)?)
}

/// The kind of type relocation that a word names.
pub(crate) fn relocation_kind(word: &str) -> Result<RelocationKind, ExerciseError> {
    Ok(RelocationKind::try_from(number_in(RELOCATIONS, word)?)?)
}

/// A number in decimal, or after `0x` in hexadecimal.
pub(crate) fn number(word: &str) -> Result<u32, ExerciseError> {
    let read = match word.strip_prefix("0x") {
        Some(digits) => u32::from_str_radix(digits, 16),
        None => word.parse::<u32>(),
    };
    read.map_err(|_| ExerciseError::Usage)
}

/// An info word: `KIND` or `KIND/ITEMS`, and `!` for the kind flag.
pub(crate) fn info_word(word: &str) -> Result<u32, ExerciseError> {
    let (text, flag) = match word.strip_suffix('!') {
        Some(text) => (text, 1 << 31),
        None => (word, 0),
    };
    let (kind, items) = text.split_once('/').unwrap_or((text, "0"));
    Ok(flag | number_in(TYPES, kind)? << 24 | number(items)?)
}

/// A text without escaped bytes.
pub(crate) fn plain_text(word: &str) -> &str {
    if word == "-" { "" } else { word }
}

/// Appends a byte by its two hexadecimal digits, and the text after them.
fn push_escaped(out: &mut Vec<u8>, part: &str) -> Result<(), ExerciseError> {
    let Some((digits, text)) = part.split_at_checked(2) else {
        return Err(ExerciseError::Usage);
    };
    out.push(u8::from_str_radix(digits, 16).map_err(|_| ExerciseError::Usage)?)?;
    Ok(out.extend_from_slice(text.as_bytes())?)
}

/// Appends a text, in which `\x` and two hexadecimal digits are a byte.
pub(crate) fn push_text(out: &mut Vec<u8>, word: &str) -> Result<(), ExerciseError> {
    let mut parts = plain_text(word).split("\\x");
    out.extend_from_slice(parts.next().unwrap_or("").as_bytes())?;
    for part in parts {
        push_escaped(out, part)?;
    }
    Ok(())
}
