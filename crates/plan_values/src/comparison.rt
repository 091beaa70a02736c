//! Comparisons of numbers.

ghost use Rattle.std.specs.Prelude.{◌≡◌};
ghost use Rattle.std.specs.Int.{w32, cast_signed};
ghost use Rattle.plan_values.specs.Comparisons.{compared, outcome};

/// Whether a comparison of two numbers holds, given the operation of the jump. `x` and `y` are the
/// numbers unsigned, `i` and `j` signed.
fn compared(operation: u8, x: u64, y: u64, i: i64, j: i64) -> Option<bool>
    ensures { result ≡ compared operation x y i j }
{
    match operation {
        1 => Some(x == y),
        2 => Some(x > y),
        3 => Some(x >= y),
        4 => Some(x & y != 0),
        5 => Some(x != y),
        6 => Some(i > j),
        7 => Some(i >= j),
        10 => Some(x < y),
        11 => Some(x <= y),
        12 => Some(i < j),
        13 => Some(i <= j),
        _ => None,
    }
}

fn compared_32(operation: u8, x: u32, y: u32) -> Option<bool>
    ensures { result ≡ compared operation x y (cast_signed w32 x) (cast_signed w32 y) }
{
    compared(
        operation,
        x as u64,
        y as u64,
        x.cast_signed() as i64,
        y.cast_signed() as i64,
    )
}

/// Whether the comparison of a conditional jump holds, given its code and two numbers of 64 bits. The
/// class JMP compares all bits, and JMP32 the low 32.
#[tactic(auto, unfolding(crate::specs::Comparisons::outcome))]
pub fn outcome(code: u8, x: u64, y: u64) -> Option<bool>
    ensures { result ≡ outcome code x y }
{
    if code % 8 == 5 {
        return compared(code / 16, x, y, x.cast_signed(), y.cast_signed());
    }
    if code % 8 == 6 {
        return compared_32(code / 16, (x % (1 << 32)) as u32, (y % (1 << 32)) as u32);
    }
    None
}
