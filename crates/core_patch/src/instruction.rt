//! Values in instructions.

ghost use Rattle.std.specs.Prelude.{◌≡◌, ◌<◌, ◌^◌, ◌%◌, ◌/◌};
ghost use Rattle.slot_relocation.specs.Walks.{NextFits};
ghost use Rattle.core_patch.specs.Instructions.{high_word, low_word, of_arithmetic, of_memory, of_poison, of_value, of_wide_load, patched, poison, width_bits, with_width, with_width_bits};

use crate::patch::{Patch, Width};
use ebpf_items::bpf_insn;
use slot_relocation::{Outcome, Write};

/// Why a value can't be written into an instruction.
#[derive(Clone, Copy, Debug)]
pub enum WriteError {
    /// Arithmetic has a register as its source.
    SourceRegister,
    /// An offset doesn't fit 16 signed bits.
    LargeOffset,
    /// The field has another size than the instruction was compiled for, and the instruction can't
    /// get that size.
    OtherWidth,
    /// Instructions of the class hold no such value.
    OtherClass,
    /// No slot follows a load of 64 bits that gets a value.
    NoNextSlot,
    /// No slot follows a load of 64 bits that is to become one that can't be run.
    NoNextPoison,
}

/// The operation code of a load of 64 bits: `BPF_LD | BPF_IMM | BPF_DW`.
const LOAD_64: u8 = 0x18;

/// The classes of instructions: the low three bits of the operation code.
const BPF_LD: u8 = 0;

const BPF_LDX: u8 = 1;

const BPF_ST: u8 = 2;

const BPF_STX: u8 = 3;

const BPF_ALU: u8 = 4;

const BPF_ALU64: u8 = 7;

/// The low word of a value.
fn low_word(value: u64) -> i32
    ensures { result ≡ low_word value }
{
    ((value % (1 << 32)) as u32).cast_signed()
}

/// The high word of a value.
fn high_word(value: u64) -> i32
    ensures { result ≡ high_word value }
{
    ((value / (1 << 32)) as u32).cast_signed()
}

/// Arithmetic with an immediate: the low word becomes the immediate.
fn of_arithmetic(slot: bpf_insn, value: u64) -> Outcome<WriteError>
    ensures { result ≡ of_arithmetic slot value }
{
    if slot.src_reg() != 0 {
        return Outcome::Refused(WriteError::SourceRegister);
    }
    let mut first = slot;
    first.imm = low_word(value);
    Outcome::Written(Write { first, next: None })
}

/// The bits of an operation code for a width in bytes.
fn width_bits(size: u32) -> Option<u8>
    ensures { result ≡ width_bits size }
{
    match size {
        1 => Some(0x10),
        2 => Some(0x08),
        4 => Some(0x00),
        8 => Some(0x18),
        _ => None,
    }
}

/// A load or a store with another width.
fn with_width(slot: bpf_insn, width: Width) -> Outcome<WriteError>
    ensures { result ≡ with_width slot width }
{
    let mut first = slot;
    match width {
        Width::Kept => {}
        Width::Changed(size) => {
            let Some(bits) = width_bits(size) else {
                return Outcome::Refused(WriteError::OtherWidth);
            };
            first.code = slot.code / 32 * 32 + bits + slot.code % 8;
        }
        Width::Unknown => return Outcome::Refused(WriteError::OtherWidth),
    }
    Outcome::Written(Write { first, next: None })
}

/// A load or a store: the value becomes the offset.
fn of_memory(slot: bpf_insn, value: u64, width: Width) -> Outcome<WriteError>
    ensures { result ≡ of_memory slot value width }
{
    let Ok(off) = i16::try_from(value) else {
        return Outcome::Refused(WriteError::LargeOffset);
    };
    let mut first = slot;
    first.off = off;
    with_width(first, width)
}

/// A load of 64 bits: the low word goes into its own slot, the high word into the next one.
fn of_wide_load(slot: bpf_insn, next: Option<bpf_insn>, value: u64) -> Outcome<WriteError>
    ensures value { result ≡ of_wide_load slot next value }
    ensures within { NextFits next result }
{
    let Some(mut next) = next else {
        return Outcome::Refused(WriteError::NoNextSlot);
    };
    let mut first = slot;
    first.imm = low_word(value);
    next.imm = high_word(value);
    Outcome::Written(Write {
        first,
        next: Some(next),
    })
}

/// What a value changes in an instruction.
fn of_value(slot: bpf_insn, next: Option<bpf_insn>, value: u64, width: Width) -> Outcome<WriteError>
    ensures value { result ≡ of_value slot next value width }
    ensures within { NextFits next result }
{
    match slot.code % 8 {
        BPF_ALU | BPF_ALU64 => of_arithmetic(slot, value),
        BPF_LD => of_wide_load(slot, next, value),
        BPF_LDX | BPF_ST | BPF_STX => of_memory(slot, value, width),
        _ => Outcome::Refused(WriteError::OtherClass),
    }
}

/// A call of a helper that no kernel has: the verifier refuses it if it is reached.
fn poison() -> bpf_insn
    ensures { result ≡ poison }
{
    bpf_insn::from_bytes([0x85, 0, 0, 0, 0x10, 0x23, 0xad, 0x0b])
}

/// Replaces an instruction by one that can't be run.
fn of_poison(slot: bpf_insn, next: Option<bpf_insn>) -> Outcome<WriteError>
    ensures value { result ≡ of_poison slot next }
    ensures within { NextFits next result }
{
    if slot.code != LOAD_64 {
        return Outcome::Written(Write {
            first: poison(),
            next: None,
        });
    }
    match next {
        Some(_) => Outcome::Written(Write {
            first: poison(),
            next: Some(poison()),
        }),
        None => Outcome::Refused(WriteError::NoNextPoison),
    }
}

/// What a type relocation changes in an instruction; `next` is the slot after it.
pub fn patched(slot: bpf_insn, next: Option<bpf_insn>, patch: Patch) -> Outcome<WriteError>
    ensures value { result ≡ patched slot next patch }
    ensures within { NextFits next result }
{
    match patch {
        Patch::Value { value, width } => of_value(slot, next, value, width),
        Patch::Poison => of_poison(slot, next),
    }
}
