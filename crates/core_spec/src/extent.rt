//! The bytes and bits of a field.

ghost use Rattle.std.specs.Prelude.{◌≡◌, ◌<◌, ◌+◌, ◌*◌, ◌/◌, ◌^◌, IfSome};
ghost use Rattle.core_spec.specs.Extents.{bit_field_extent, extent_of, fits_unit, unit_of};

/// The greatest number of units that are tried for a type: for a type of 1 byte, units of 1, 2, 4
/// and 8 bytes.
const UNITS: u32 = 4;

/// The field of a member.
#[derive(Clone, Copy, Debug)]
pub(crate) struct Field {
    /// The id of its type, after modifiers.
    pub(crate) type_id: u32,
    /// The size of its type in bytes.
    pub(crate) size: u32,
    /// The size of a bit field in bits; 0 where it isn't a bit field.
    pub(crate) bit_size: u32,
}

/// The bytes that hold a field, and its bits in them.
#[derive(Clone, Copy)]
pub(crate) struct Extent {
    /// The offset of the first byte.
    pub(crate) byte_offset: u64,
    /// The number of bytes.
    pub(crate) byte_size: u32,
    /// The number of bits before the field.
    pub(crate) start: u64,
    /// The number of bits of the field.
    pub(crate) bits: u64,
}

/// Whether a bit field fits in the aligned unit of `unit` bytes where it begins.
fn fits_unit(at: u32, bits: u32, unit: u32) -> bool
    requires { 0 < unit }
    ensures { result ≡ fits_unit at bits unit }
{
    let unit_bits = 8 * u64::from(unit);
    u64::from(at) % unit_bits + u64::from(bits) <= unit_bits
}

/// The size in bytes of the least aligned unit that a bit field fits in. The first unit has the
/// size of the field's type, and each further one twice the size of the one before. A unit of 8
/// bytes or more isn't doubled.
#[tactic(auto, using(crate::proofs::Units::no_rounds, crate::proofs::Units::fitting_unit, crate::proofs::Units::large_unit, crate::proofs::Units::next_unit))]
fn unit_of(size: u32, at: u32, bits: u32) -> Option<u32>
    ensures value { result ≡ unit_of size at bits }
    ensures some { IfSome result (λ unit. 0 < unit) }
{
    if size == 0 {
        return None;
    }
    let mut unit = size;
    for _ in 0..UNITS {
        if fits_unit(at, bits, unit) {
            return Some(unit);
        }
        if unit >= 8 {
            return None;
        }
        unit *= 2;
    }
    None
}

/// The offset of the first byte of the aligned unit that a bit is in.
fn unit_start(at: u32, unit: u32) -> u64
    requires { 0 < unit }
    ensures { result ≡ at / (8 * unit) * unit }
{
    u64::from(at) / (8 * u64::from(unit)) * u64::from(unit)
}

/// The extent of a bit field in a unit of `unit` bytes.
fn bit_field_extent(unit: u32, at: u32, bits: u32) -> Extent
    requires { 0 < unit }
    ensures { result ≡ bit_field_extent unit at bits }
{
    Extent {
        byte_offset: unit_start(at, unit),
        byte_size: unit,
        start: u64::from(at) % (8 * u64::from(unit)),
        bits: u64::from(bits),
    }
}

/// The extent of a field at the offset `at`, in bits; none where a bit field has no unit.
pub(crate) fn extent_of(field: Field, at: u32) -> Option<Extent>
    ensures value { result ≡ extent_of field at }
    ensures few { IfSome result (λ extent. extent.start + extent.bits < 2 ^ 64) }
{
    if field.bit_size == 0 {
        return Some(Extent {
            byte_offset: u64::from(at / 8),
            byte_size: field.size,
            start: u64::from(at % 8),
            bits: 8 * u64::from(field.size),
        });
    }
    let unit = unit_of(field.size, at, field.bit_size)?;
    Some(bit_field_extent(unit, at, field.bit_size))
}
