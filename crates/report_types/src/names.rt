//! Names in types that the kernel takes.

use btf_tables::Btf;

/// The most bytes of a name (`KSYM_NAME_LEN` of Linux 6.1).
const MAX_LEN: usize = 512;

/// Whether a byte can stand in an identifier, if not at its beginning (`btf_name_char_ok`). Dots can
/// since Linux 6.5 and in stable versions before.
fn is_identifier_byte(byte: u8) -> bool {
    byte.is_ascii_alphanumeric() || byte == b'_' || byte == b'.'
}

/// Whether a text is an identifier (`btf_name_valid_identifier`).
fn is_identifier(text: &str) -> bool {
    let bytes = text.as_bytes();
    match bytes.first() {
        Some(first) => {
            !first.is_ascii_digit()
                && bytes.len() <= MAX_LEN
                && bytes.iter().all(|byte| is_identifier_byte(*byte))
        }
        None => false,
    }
}

/// Whether a text names a section (`btf_name_valid_section`): its bytes can be printed. Before Linux
/// 6.7 it had to be an identifier.
fn is_section_name(text: &str) -> bool {
    let bytes = text.as_bytes();
    !bytes.is_empty()
        && bytes.len() <= MAX_LEN
        && bytes
            .iter()
            .all(|byte| byte.is_ascii_graphic() || *byte == b' ')
}

/// Whether a record must have a name, and which.
#[derive(Clone, Copy, Debug, PartialEq, Eq)]
pub(crate) enum NameRule {
    /// Any name, or none.
    Any,
    /// None.
    Nameless,
    /// Some name.
    Named,
    Identifier,
    /// An identifier, or none.
    OptionalIdentifier,
    /// The name of a section.
    Section,
}

impl NameRule {
    /// Whether a name is as the rule asks.
    fn takes(self, text: &str) -> bool {
        match self {
            NameRule::Any => true,
            NameRule::Nameless => text.is_empty(),
            NameRule::Named => !text.is_empty(),
            NameRule::Identifier => is_identifier(text),
            NameRule::OptionalIdentifier => text.is_empty() || is_identifier(text),
            NameRule::Section => is_section_name(text),
        }
    }

    /// Whether the name at an offset is as the rule asks. One that can't be read is.
    pub(crate) fn is_met(self, types: &Btf<'_>, name_offset: u32) -> bool {
        match types.string_at(name_offset) {
            Ok(text) => self.takes(text),
            Err(_error) => true,
        }
    }
}
