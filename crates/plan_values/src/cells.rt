//! What is known of a frame.

ghost use Rattle.std.specs.Prelude.{◌≡◌, ◌<◌, ◌*◌, ◌%◌, ◌^◌};
ghost use Rattle.plan_values.specs.Sizes.{width_of};
ghost use Rattle.plan_values.specs.Cells.{keeps, part_of, position, read_cell, read_number, stored_value};

use crate::program::Verifier;
use crate::size::Size;
use crate::value::Value;

/// Where a byte stands that lies some bytes behind an address of the frame, among the bytes that are
/// kept track of.
pub(crate) fn position(offset: u64, distance: u64) -> u64
    ensures { result ≡ position offset distance }
{
    offset.wrapping_add(distance).wrapping_add(128)
}

/// The number of bytes of a size.
pub(crate) fn width_of(size: Size) -> u8
    ensures value { result ≡ width_of size }
    ensures positive { 0 < result }
{
    match size {
        Size::One => 1,
        Size::Two => 2,
        Size::Four => 4,
        Size::Eight => 8,
    }
}

/// The low bytes of a number.
fn low_bytes(number: u64, size: Size) -> u64
    ensures { result ≡ number % 2 ^ (8 * width_of size) }
{
    match size {
        Size::One => number % (1 << 8),
        Size::Two => number % (1 << 16),
        Size::Four => number % (1 << 32),
        Size::Eight => number,
    }
}

/// What a load gives of a number of which `written` bytes were stored from byte `start` on.
fn read_number(number: u64, start: u8, written: u8, first: u8, size: Size) -> Value
    ensures { result ≡ read_number number start written first (width_of size) }
{
    let width = width_of(size);
    if start == first && written == width {
        return Value::Number(low_bytes(number, size));
    }
    if number == 0
        && start <= first
        && first as u16 + width as u16 <= start as u16 + written as u16
    {
        return Value::Number(0);
    }
    Value::Plain
}

/// What a load from byte `first` of eight bytes on gives.
#[tactic(auto, unfolding(crate::specs::Cells::read_cell))]
pub(crate) fn read_cell(cell: Value, first: u8, size: Size) -> Value
    ensures { result ≡ read_cell cell first (width_of size) }
{
    match cell {
        Value::Number(number) => read_number(number, 0, 8, first, size),
        Value::Part {
            number,
            start,
            size: written,
        } => read_number(number, start, written, first, size),
        _ if width_of(size) == 8 => cell,
        _ => Value::Plain,
    }
}

/// Whether the verifier keeps a number that is stored.
fn keeps(verifier: Verifier, is_immediate: bool, number: u64, first: u8, width: u8) -> bool
    ensures { result ≡ keeps verifier is_immediate number first width }
{
    if is_immediate && !verifier.stored_immediates {
        return false;
    }
    if number == 0 {
        verifier.stored_zeros
    } else if width == 8 {
        verifier.stored_numbers
    } else {
        first == 0 && verifier.stored_parts
    }
}

fn part_of(number: u64, first: u8, width: u8) -> Value
    ensures { result ≡ part_of number first width }
{
    if width == 8 {
        Value::Number(number)
    } else {
        Value::Part {
            number,
            start: first,
            size: width,
        }
    }
}

/// What is known of eight bytes after a store from byte `first` on.
#[tactic(auto, unfolding(crate::specs::Cells::stored_value))]
pub(crate) fn stored_value(
    verifier: Verifier,
    is_immediate: bool,
    first: u8,
    width: u8,
    value: Value,
) -> Value
    ensures { result ≡ stored_value verifier is_immediate first width value }
{
    match value {
        Value::Number(number) if keeps(verifier, is_immediate, number, first, width) => {
            part_of(number, first, width)
        }
        Value::Number(_) => Value::Plain,
        _ if width == 8 => value,
        _ => Value::Plain,
    }
}
