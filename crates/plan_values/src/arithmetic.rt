//! Arithmetic of known numbers.

ghost use Rattle.std.specs.Prelude.{◌≡◌, ◌/◌, ◌%◌, ◌^◌};
ghost use Rattle.std.specs.Int.{w32, w64};
ghost use Rattle.plan_values.specs.Arithmetic.{copied, number_result, result_of, shifted, shifted_left, shifted_right, shifted_signed};

use ebpf_items::bpf_insn;

/// What MOV and MOVSX of 64 bits copy.
#[tactic(auto, unfolding(crate::specs::Arithmetic::copied))]
fn copied_64(off: i16, number: u64) -> Option<u64>
    ensures { result ≡ copied w64 off number }
{
    match off {
        0 => Some(number),
        8 => Some(i64::from(((number % (1 << 8)) as u8).cast_signed()).cast_unsigned()),
        16 => Some(i64::from(((number % (1 << 16)) as u16).cast_signed()).cast_unsigned()),
        32 => Some(i64::from(((number % (1 << 32)) as u32).cast_signed()).cast_unsigned()),
        _ => None,
    }
}

/// What MOV and MOVSX of 32 bits copy.
#[tactic(auto, unfolding(crate::specs::Arithmetic::copied))]
fn copied_32(off: i16, number: u32) -> Option<u32>
    ensures { result ≡ copied w32 off number }
{
    match off {
        0 | 32 => Some(number),
        8 => Some(i32::from(((number % (1 << 8)) as u8).cast_signed()).cast_unsigned()),
        16 => Some(i32::from(((number % (1 << 16)) as u16).cast_signed()).cast_unsigned()),
        _ => None,
    }
}

#[tactic(auto, unfolding(crate::specs::Arithmetic::shifted_left))]
fn shifted_left_64(number: u64, amount: u64) -> Option<u64>
    ensures { result ≡ shifted_left w64 number amount }
{
    if amount < 64 {
        Some(number << amount as u32)
    } else {
        None
    }
}

#[tactic(auto, unfolding(crate::specs::Arithmetic::shifted_right))]
fn shifted_right_64(number: u64, amount: u64) -> Option<u64>
    ensures { result ≡ shifted_right w64 number amount }
{
    if amount < 64 {
        Some(number >> amount as u32)
    } else {
        None
    }
}

#[tactic(auto, unfolding(crate::specs::Arithmetic::shifted_signed))]
fn shifted_signed_64(number: u64, amount: u64) -> Option<u64>
    ensures { result ≡ shifted_signed w64 number amount }
{
    if amount < 64 {
        Some((number.cast_signed() >> amount as u32).cast_unsigned())
    } else {
        None
    }
}

#[tactic(auto, unfolding(crate::specs::Arithmetic::shifted_left))]
fn shifted_left_32(number: u32, amount: u64) -> Option<u32>
    ensures { result ≡ shifted_left w32 number amount }
{
    if amount < 32 {
        Some(number << amount as u32)
    } else {
        None
    }
}

#[tactic(auto, unfolding(crate::specs::Arithmetic::shifted_right))]
fn shifted_right_32(number: u32, amount: u64) -> Option<u32>
    ensures { result ≡ shifted_right w32 number amount }
{
    if amount < 32 {
        Some(number >> amount as u32)
    } else {
        None
    }
}

#[tactic(auto, unfolding(crate::specs::Arithmetic::shifted_signed))]
fn shifted_signed_32(number: u32, amount: u64) -> Option<u32>
    ensures { result ≡ shifted_signed w32 number amount }
{
    if amount < 32 {
        Some((number.cast_signed() >> amount as u32).cast_unsigned())
    } else {
        None
    }
}

/// What an operation of 64 bits, a shift, makes of a number.
#[tactic(auto, unfolding(crate::specs::Arithmetic::shifted))]
fn shifted_64(operation: u8, number: u64, amount: u64) -> Option<u64>
    ensures { result ≡ shifted w64 operation number amount }
{
    match operation {
        6 => shifted_left_64(number, amount),
        7 => shifted_right_64(number, amount),
        12 => shifted_signed_64(number, amount),
        _ => None,
    }
}

/// The same for 32 bits.
#[tactic(auto, unfolding(crate::specs::Arithmetic::shifted))]
fn shifted_32(operation: u8, number: u32, amount: u64) -> Option<u32>
    ensures { result ≡ shifted w32 operation number amount }
{
    match operation {
        6 => shifted_left_32(number, amount),
        7 => shifted_right_32(number, amount),
        12 => shifted_signed_32(number, amount),
        _ => None,
    }
}

/// The result of an operation of 64 bits.
#[tactic(auto, unfolding(crate::specs::Arithmetic::result_of))]
fn result_64(operation: u8, off: i16, x: u64, y: u64) -> Option<u64>
    ensures { result ≡ result_of w64 operation off x y y }
{
    match operation {
        0 => Some(x.wrapping_add(y)),
        1 => Some(x.wrapping_sub(y)),
        2 => Some(x.wrapping_mul(y)),
        4 => Some(x | y),
        5 => Some(x & y),
        10 => Some(x ^ y),
        11 => copied_64(off, y),
        _ => shifted_64(operation, x, y),
    }
}

/// The result of an operation of 32 bits. `amount` is by how much a shift shifts.
#[tactic(auto, unfolding(crate::specs::Arithmetic::result_of))]
fn result_32(operation: u8, off: i16, x: u32, y: u32, amount: u64) -> Option<u32>
    ensures { result ≡ result_of w32 operation off x y amount }
{
    match operation {
        0 => Some(x.wrapping_add(y)),
        1 => Some(x.wrapping_sub(y)),
        2 => Some(x.wrapping_mul(y)),
        4 => Some(x | y),
        5 => Some(x & y),
        10 => Some(x ^ y),
        11 => copied_32(off, y),
        _ => shifted_32(operation, x, amount),
    }
}

fn low_result(slot: bpf_insn, x: u64, y: u64) -> Option<u64>
    ensures { result ≡ result_of w32 (slot.code / 16) slot.off (x % 2 ^ 32) (y % 2 ^ 32) y }
{
    let low_x = (x % (1 << 32)) as u32;
    let low_y = (y % (1 << 32)) as u32;
    let number = result_32(slot.code / 16, slot.off, low_x, low_y, y)?;
    Some(number as u64)
}

/// The number that an instruction of the classes ALU and ALU64 makes of two numbers, if it is
/// known.
pub fn number_result(slot: bpf_insn, x: u64, y: u64) -> Option<u64>
    ensures { result ≡ number_result slot x y }
{
    if slot.code % 8 == 7 {
        result_64(slot.code / 16, slot.off, x, y)
    } else {
        low_result(slot, x, y)
    }
}
