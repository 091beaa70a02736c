//! What is known of the registers.

ghost use Rattle.std.specs.Prelude.{◌≡◌, [], ◌∷◌, length, slice_set};
ghost use Rattle.plan_values.specs.Knowledge.{entry, forgotten, is_same, keeps_frame, meet, value_in};

use crate::value::Value;

/// The number of registers that instructions can name.
pub(crate) const REGISTERS: usize = 16;

/// The number of registers, and of eights of bytes of the frame behind them.
pub const PLACES: usize = 32;

/// What is known of each register, and of each eight of the last 128 bytes of the frame.
pub type Known = [Value; PLACES];

/// Nothing is known.
pub const NOTHING: Known = [Value::Unknown; PLACES];

/// The start of a function that has some arguments.
pub fn entry(a: Value, b: Value, c: Value, d: Value, e: Value) -> Known
    ensures { result ≡ entry (a ∷ b ∷ c ∷ d ∷ e ∷ []) }
{
    let mut known = [Value::Plain; PLACES];
    known[1] = a;
    known[2] = b;
    known[3] = c;
    known[4] = d;
    known[5] = e;
    known[10] = Value::Frame(0);
    known
}

/// Whether no argument of a call may be an address of the frame.
pub(crate) fn keeps_frame(known: &Known) -> bool
    ensures { result ≡ keeps_frame known.now }
{
    known[1].is_plain()
        && known[2].is_plain()
        && known[3].is_plain()
        && known[4].is_plain()
        && known[5].is_plain()
}

/// The same, with nothing known of the frame.
pub(crate) fn forgotten(known: &Known) -> Known
    ensures { result ≡ forgotten known.now }
{
    let mut new = NOTHING;
    for i in 0..REGISTERS {
        new[i] = known[i];
    }
    new
}

/// What is known of a register.
pub fn value_in(known: &Known, register: u8) -> Value
    ensures { result ≡ value_in known.now register }
{
    match known.get(register as usize) {
        Some(value) => *value,
        None => Value::Unknown,
    }
}

/// The same, with another value in a register.
pub(crate) fn with_value(known: Known, register: u8, value: Value) -> Known
    ensures { result ≡ slice_set known register value }
{
    let mut new = known;
    let register = register as usize;
    if register < PLACES {
        new[register] = value;
    }
    new
}

/// What is known both times.
pub fn meet(a: Known, b: Known) -> Known
    ensures value { result ≡ meet a b }
    ensures left { length a ≡ 32 }
    ensures right { length b ≡ 32 }
{
    let mut met = a;
    for i in 0..PLACES {
        met[i] = met[i].meet(b[i]);
    }
    met
}

/// Whether both say the same.
pub fn is_same(a: &Known, b: &Known) -> bool
    ensures { result ≡ is_same a.now b.now }
{
    for i in 0..PLACES {
        if a[i] != b[i] {
            return false;
        }
    }
    true
}
