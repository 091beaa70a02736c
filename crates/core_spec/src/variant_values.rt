//! Values of variants of enums.

ghost use Rattle.std.specs.Prelude.{◌≡◌};
ghost use Rattle.core_spec.specs.VariantValues.{sign_extended, variant_value};

use btf_encoding::TypeRef;
use btf_records::BtfKind;

/// A 32-bit number, sign-extended to 64 bits.
fn sign_extended(value: u32) -> u64
    ensures { result ≡ sign_extended value }
{
    let extended = u64::from(value);
    if value < 0x8000_0000 {
        extended
    } else {
        extended + 0xffff_ffff_0000_0000
    }
}

/// The value of a variant of an enum, or of a union that stands for one, in 64 bits.
pub(crate) fn variant_value(t: &TypeRef<'_>, index: usize) -> Option<u64>
    ensures { result ≡ variant_value t.now index }
{
    match t.kind() {
        BtfKind::Enum => {
            let value = t.variant(index)?.value;
            if t.flag() {
                Some(sign_extended(value))
            } else {
                Some(u64::from(value))
            }
        }
        BtfKind::Enum64 => Some(t.variant64(index)?.value()),
        BtfKind::Union => {
            let fallback = t.enum64_fallback()?;
            let variant = fallback.variants.as_slice().get(index).copied()?;
            Some(variant.value())
        }
        _ => None,
    }
}
