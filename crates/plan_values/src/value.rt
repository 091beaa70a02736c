//! What is known of a value.

ghost use Rattle.std.specs.Prelude.{◌≡◌};
ghost use Rattle.plan_values.specs.Values.{is_plain, meet_values, moved, outside, plain_if};

/// What is known of a register's value, or of eight bytes of a frame.
#[derive(Clone, Copy, Debug, PartialEq, Eq)]
pub enum Value {
    /// Nothing is known of it.
    Unknown,
    /// It is no address in a frame, nor of a function of the program.
    Plain,
    /// It is this number.
    Number(u64),
    /// It is an address other than 0.
    Address,
    /// It is the address of the value of the frozen map of a number, plus an offset modulo 2^64.
    Map { map: u32, offset: u64 },
    /// It is the address of the program's context, plus an offset modulo 2^64.
    Context(u64),
    /// It is the address of the end of the function's own frame, plus an offset modulo 2^64.
    Frame(u64),
    /// The last write put the low bytes of a number into `size` of the eight bytes, from byte `start`
    /// on.
    Part { number: u64, start: u8, size: u8 },
}

/// A value that is plain or unknown.
pub(crate) fn plain_if(is_plain: bool) -> Value
    ensures { result ≡ plain_if is_plain }
{
    if is_plain {
        Value::Plain
    } else {
        Value::Unknown
    }
}

impl Value {
    /// Whether this is known to be no address in a frame, nor of a function of the program.
    pub(crate) fn is_plain(self) -> bool
        ensures { result ≡ is_plain self }
    {
        !matches!(self, Value::Unknown | Value::Frame(_))
    }

    /// The value in another call's registers.
    pub fn outside(self) -> Value
        ensures { result ≡ outside self }
    {
        match self {
            Value::Frame(_) => Value::Unknown,
            _ => self,
        }
    }

    /// The value that lies some bytes behind this one.
    pub(crate) fn moved(self, distance: u64) -> Value
        ensures { result ≡ moved self distance }
    {
        match self {
            Value::Map { map, offset } => Value::Map {
                map,
                offset: offset.wrapping_add(distance),
            },
            Value::Context(offset) => Value::Context(offset.wrapping_add(distance)),
            Value::Frame(offset) => Value::Frame(offset.wrapping_add(distance)),
            _ => plain_if(self.is_plain()),
        }
    }

    /// What is known of the value both times.
    pub(crate) fn meet(self, other: Value) -> Value
        ensures { result ≡ meet_values self other }
    {
        if self == other {
            self
        } else {
            plain_if(self.is_plain() && other.is_plain())
        }
    }
}
