//! The fields of an instruction.

ghost use Rattle.std.specs.Prelude.{◌≡◌, ◌<◌, ◌^◌};
ghost use Rattle.instruction_text.specs.Fields.{are_same, copied, first_slot, high_in, high_of, is_plain, lower_half, number_in, of_halves, parts_of, second_slot_of, upper_half, with_bits};

use ebpf_items::bpf_insn;

/// The code of a load of 64 bits, which takes two slots.
pub(crate) const WIDE_LOAD: u8 = 0x18;

/// The fields of an instruction.
#[derive(Clone, Copy)]
pub(crate) struct Parts {
    pub(crate) code: u8,
    pub(crate) destination: u8,
    pub(crate) source: u8,
    pub(crate) offset: i16,
    pub(crate) immediate: i32,
    /// The immediate of the second slot, 0 where there is none.
    pub(crate) high: i32,
}

/// A number that a text shows.
#[derive(Clone, Copy)]
pub(crate) enum Field {
    Destination,
    Source,
    Offset,
    Immediate,
    /// The lower 16 bits of the immediate.
    LowerHalf,
    /// The upper 16 bits of the immediate.
    UpperHalf,
    High,
    /// Both immediates, as one number of 64 bits.
    Wide,
}

fn lower_half(immediate: i32) -> u32
    ensures value { result ≡ lower_half immediate }
    ensures few { result < 2 ^ 16 }
{
    immediate.cast_unsigned() % (1 << 16)
}

fn upper_half(immediate: i32) -> u32
    ensures value { result ≡ upper_half immediate }
    ensures few { result < 2 ^ 16 }
{
    immediate.cast_unsigned() / (1 << 16)
}

/// The immediate of two halves.
fn of_halves(lower: u32, upper: u32) -> i32
    requires lower { lower < 2 ^ 16 }
    requires upper { upper < 2 ^ 16 }
    ensures { result ≡ of_halves lower upper }
{
    (lower + (1 << 16) * upper).cast_signed()
}

impl Parts {
    /// The number in a field.
    pub(crate) fn number(&self, field: Field) -> i64
        ensures { result ≡ number_in field self.now }
    {
        match field {
            Field::Destination => i64::from(self.destination),
            Field::Source => i64::from(self.source),
            Field::Offset => i64::from(self.offset),
            Field::Immediate => i64::from(self.immediate),
            Field::LowerHalf => i64::from(lower_half(self.immediate)),
            Field::UpperHalf => i64::from(upper_half(self.immediate)),
            Field::High => i64::from(self.high),
            Field::Wide => {
                let low = self.immediate.cast_unsigned() as u64;
                let high = self.high.cast_unsigned() as u64;
                (low + (1 << 32) * high).cast_signed()
            }
        }
    }

    /// These fields, one of them from other ones.
    pub(crate) fn with_copied(self, field: Field, from: &Parts) -> Parts
        ensures { result ≡ copied field from.now self }
    {
        let mut parts = self;
        match field {
            Field::Destination => parts.destination = from.destination,
            Field::Source => parts.source = from.source,
            Field::Offset => parts.offset = from.offset,
            Field::Immediate => parts.immediate = from.immediate,
            Field::LowerHalf => {
                parts.immediate = of_halves(lower_half(from.immediate), upper_half(self.immediate));
            }
            Field::UpperHalf => {
                parts.immediate = of_halves(lower_half(self.immediate), upper_half(from.immediate));
            }
            Field::High => parts.high = from.high,
            Field::Wide => {
                parts.immediate = from.immediate;
                parts.high = from.high;
            }
        }
        parts
    }

    /// These fields, with the low bits of a number in one of them.
    pub(crate) fn with_bits(self, field: Field, bits: u64) -> Parts
        ensures { result ≡ with_bits field bits self }
    {
        let mut parts = self;
        match field {
            Field::Destination => parts.destination = (bits % 16) as u8,
            Field::Source => parts.source = (bits % 16) as u8,
            Field::Offset => parts.offset = ((bits % (1 << 16)) as u16).cast_signed(),
            Field::Immediate => parts.immediate = ((bits % (1 << 32)) as u32).cast_signed(),
            Field::LowerHalf => {
                let lower = (bits % (1 << 16)) as u32;
                parts.immediate = of_halves(lower, upper_half(self.immediate));
            }
            Field::UpperHalf => {
                let upper = (bits % (1 << 16)) as u32;
                parts.immediate = of_halves(lower_half(self.immediate), upper);
            }
            Field::High => parts.high = ((bits % (1 << 32)) as u32).cast_signed(),
            Field::Wide => {
                parts.immediate = ((bits % (1 << 32)) as u32).cast_signed();
                parts.high = ((bits / (1 << 32)) as u32).cast_signed();
            }
        }
        parts
    }

    /// Whether all fields are the same.
    pub(crate) fn is(&self, other: &Parts) -> bool
        ensures { result ≡ are_same self.now other.now }
    {
        self.code == other.code
            && self.destination == other.destination
            && self.source == other.source
            && self.offset == other.offset
            && self.immediate == other.immediate
            && self.high == other.high
    }

    /// The first slot.
    pub(crate) fn first_slot(&self) -> bpf_insn
        ensures { result ≡ first_slot self.now }
    {
        let registers = self.source % 16 * 16 + self.destination % 16;
        let mut slot = bpf_insn::from_bytes([self.code, registers, 0, 0, 0, 0, 0, 0]);
        slot.off = self.offset;
        slot.imm = self.immediate;
        slot
    }

    /// The second slot, if there is one.
    pub(crate) fn second_slot(&self) -> Option<bpf_insn>
        ensures { result ≡ second_slot_of self.now }
    {
        if self.code == WIDE_LOAD {
            let mut slot = bpf_insn::from_bytes([0; 8]);
            slot.imm = self.high;
            Some(slot)
        } else {
            None
        }
    }
}

fn is_plain(slot: bpf_insn) -> bool
    ensures { result ≡ is_plain slot }
{
    slot.code == 0 && slot.dst_reg() == 0 && slot.src_reg() == 0 && slot.off == 0
}

fn high_in(second: Option<bpf_insn>) -> Option<i32>
    ensures { result ≡ high_in second }
{
    match second {
        Some(slot) if is_plain(slot) => Some(slot.imm),
        _ => None,
    }
}

fn high_of(first: bpf_insn, second: Option<bpf_insn>) -> Option<i32>
    ensures { result ≡ high_of first second }
{
    if first.code == WIDE_LOAD {
        high_in(second)
    } else {
        Some(0)
    }
}

/// The fields of the instruction in a slot and the slot behind it, unless a second slot is missing.
pub(crate) fn parts_of(first: bpf_insn, second: Option<bpf_insn>) -> Option<Parts>
    ensures { result ≡ parts_of first second }
{
    let high = high_of(first, second)?;
    Some(Parts {
        code: first.code,
        destination: first.dst_reg(),
        source: first.src_reg(),
        offset: first.off,
        immediate: first.imm,
        high,
    })
}
