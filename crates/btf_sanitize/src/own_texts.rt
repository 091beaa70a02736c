//! The texts of the rewritten names of sections.

ghost use Rattle.std.specs.Prelude.{◌≡◌, ◌+◌, ◌<◌, ◌^◌, false, length, true};
ghost use Rattle.btf_storage.specs.Growth.{TooMany};
ghost use Rattle.btf_sanitize.specs.Knowledge.{facts_of};
ghost use Rattle.btf_sanitize.specs.OwnTexts.{own_text, own_texts};
ghost use Rattle.btf_sanitize.specs.SectionNames.{sought};

use crate::known::Known;
use crate::names::has_byte;
use btf_encoding::TypeRef;
use btf_records::{BtfFeature, BtfKind};
use btf_storage::MOST;

/// The byte that is replaced in names of sections.
fn sought(known: &Known<'_, '_, '_>) -> u8
    ensures { result ≡ sought (facts_of known.now) }
{
    if known.grants(BtfFeature::DataSec) {
        b'/'
    } else {
        b'.'
    }
}

/// The number of bytes of a record's rewritten name, with its NUL; 0 where the record isn't a
/// section or its name stays.
fn own_text_len(known: &Known<'_, '_, '_>, t: &TypeRef<'_>) -> usize
    ensures { result ≡ own_text (facts_of known.now) t.now }
{
    if t.kind() != BtfKind::DataSec {
        return 0;
    }
    let Some(name) = known.text_at(t.name_offset()) else {
        return 0;
    };
    if !has_byte(name.as_bytes(), sought(known)) {
        return 0;
    }
    name.len() + 1
}

/// Whether the number of bytes of the strings and of the rewritten names of sections fits in 32
/// bits. Many sections may have one long name, and each gets a copy of it, so this is checked
/// before the first copy is written.
pub(crate) fn own_texts_fit(known: &Known<'_, '_, '_>) -> bool
    requires { length (facts_of known.now).strings < 2 ^ 32 }
    ensures fit { result ≡ true
        → length (facts_of known.now).strings
        + own_texts (facts_of known.now) (facts_of known.now).types < 2 ^ 32 }
    ensures unfit { result ≡ false
        → TooMany (length (facts_of known.now).strings
        + own_texts (facts_of known.now) (facts_of known.now).types) }
{
    let mut left = MOST - known.strings.len();
    let mut index = 0;
    while let Some(t) = known.types.get(index) {
        let len = own_text_len(known, &t);
        if len > left {
            return false;
        }
        left -= len;
        index += 1;
    }
    true
}
