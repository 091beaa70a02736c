//! What is known after an instruction.

ghost use Rattle.std.specs.Prelude.{◌≡◌, ◌<◌, slice_set};
ghost use Rattle.ebpf_items.specs.Instruction.{dst_reg_of, src_reg_of};
ghost use Rattle.plan_values.specs.Sizes.{width_of};
ghost use Rattle.plan_values.specs.Knowledge.{value_in};
ghost use Rattle.plan_values.specs.Effects.{adds, after, after_atomic, after_call, after_frame_store, after_kind, after_result, after_store, arithmetic_value, call_result, copied_value, copies, difference_wraps, frame_value, is_frozen, is_negative, is_plain_atomic, is_unknown, kind_of, known_result, loaded_value, map_value, moved_address, moved_second, number_value, operand, paired_value, stored_operand, stores_immediate, subtracts, sum_wraps, wide_value, with_frame, with_three, wraps};

use crate::arithmetic::number_result;
use crate::cells::{position, read_cell, stored_value, width_of};
use crate::known::{Known, forgotten, keeps_frame, value_in, with_value};
use crate::program::{Program, Verifier, bytes_in};
use crate::size::Size;
use crate::value::{Value, plain_if};
use ebpf_items::bpf_insn;

/// What kind of instruction a code stands for (RFC 9669, sections 4 and 5).
#[derive(Clone, Copy, Debug, PartialEq, Eq)]
pub enum Kind {
    /// A call, of a number or by a register.
    Call,
    /// The load of two immediates.
    Wide,
    /// An instruction of the classes ALU and ALU64.
    Arithmetic,
    /// A load of the class LDX with the mode MEM.
    Load,
    /// A load that extends a sign, and what isn't defined.
    OtherLoad,
    /// A load from a packet.
    Packet,
    /// An atomic operation.
    Atomic,
    /// A store of the classes ST and STX with the mode MEM.
    Store,
    /// It writes neither a register nor memory.
    NoWrite,
}

/// The kind of instruction that a code stands for (RFC 9669, section 3).
#[tactic(auto, unfolding(crate::specs::Effects::kind_of))]
pub fn kind_of(code: u8) -> Kind
    ensures { result ≡ kind_of code }
{
    if code == 0x85 || code == 0x8d {
        return Kind::Call;
    }
    if code == 0x18 {
        return Kind::Wide;
    }
    if code % 8 == 4 || code % 8 == 7 {
        return Kind::Arithmetic;
    }
    if code % 8 == 1 {
        return if code / 32 == 3 {
            Kind::Load
        } else {
            Kind::OtherLoad
        };
    }
    if code % 8 == 0 {
        return Kind::Packet;
    }
    if code % 8 == 3 && code / 32 == 6 {
        return Kind::Atomic;
    }
    if (code % 8 == 2 || code % 8 == 3) && code / 32 == 3 {
        Kind::Store
    } else {
        Kind::NoWrite
    }
}

/// The operand beside the destination register: a register or the immediate (RFC 9669, section 4).
pub fn operand(slot: bpf_insn, known: &Known) -> Value
    ensures { result ≡ operand slot known.now }
{
    if slot.code / 8 % 2 == 1 {
        value_in(known, slot.src_reg())
    } else {
        Value::Number(i64::from(slot.imm).cast_unsigned())
    }
}

fn number_value(number: Option<u64>) -> Value
    ensures { result ≡ number_value number }
{
    match number {
        Some(number) => Value::Number(number),
        None => Value::Plain,
    }
}

fn copies(slot: bpf_insn) -> bool
    ensures { result ≡ copies slot }
{
    slot.code == 0xbf && slot.off == 0
}

fn adds(slot: bpf_insn) -> bool
    ensures { result ≡ adds slot }
{
    slot.code == 0x07 || slot.code == 0x0f
}

fn subtracts(slot: bpf_insn) -> bool
    ensures { result ≡ subtracts slot }
{
    slot.code == 0x17 || slot.code == 0x1f
}

/// Whether 64 bits are a negative number with a sign.
fn is_negative(number: u64) -> bool
    ensures { result ≡ is_negative number }
{
    number >= 1 << 63
}

/// Whether the sum of two numbers wraps both without and with a sign.
fn sum_wraps(x: u64, y: u64) -> bool
    ensures { result ≡ sum_wraps x y }
{
    is_negative(x) && is_negative(y) && !is_negative(x.wrapping_add(y))
}

/// The same of their difference.
fn difference_wraps(x: u64, y: u64) -> bool
    ensures { result ≡ difference_wraps x y }
{
    !is_negative(x) && is_negative(y) && is_negative(x.wrapping_sub(y))
}

fn wraps(slot: bpf_insn, x: u64, y: u64) -> bool
    ensures { result ≡ wraps slot x y }
{
    (adds(slot) && sum_wraps(x, y)) || (subtracts(slot) && difference_wraps(x, y))
}

/// Whether the verifier knows nothing of the result of an instruction on two numbers.
fn is_unknown(verifier: Verifier, slot: bpf_insn, x: u64, y: u64) -> bool
    ensures { result ≡ is_unknown verifier slot x y }
{
    let shifts_signed = slot.code == 0xc7 || slot.code == 0xcf;
    let shifts_low_signed = slot.code == 0xc4 || slot.code == 0xcc;
    (slot.code / 16 == 10 && !verifier.exclusive_or)
        || (slot.code == 0xbc && !verifier.low_moves)
        || (shifts_signed && !verifier.signed_shifts)
        || (shifts_low_signed && !verifier.low_signed_shifts)
        || (wraps(slot, x, y) && !verifier.wrapped_sums)
}

/// The result of an instruction on two numbers, as far as the verifier knows it.
fn known_result(verifier: Verifier, slot: bpf_insn, x: u64, y: u64) -> Option<u64>
    ensures { result ≡ known_result verifier slot x y }
{
    if is_unknown(verifier, slot, x, y) {
        None
    } else {
        number_result(slot, x, y)
    }
}

/// An address, moved by an addition or a subtraction.
fn moved_address(slot: bpf_insn, address: Value, distance: u64) -> Value
    ensures { result ≡ moved_address slot address distance }
{
    if adds(slot) {
        address.moved(distance)
    } else if subtracts(slot) {
        address.moved(0u64.wrapping_sub(distance))
    } else {
        plain_if(address.is_plain())
    }
}

/// An address that is the second operand, moved by an addition.
fn moved_second(slot: bpf_insn, address: Value, distance: u64) -> Value
    ensures { result ≡ moved_second slot address distance }
{
    if slot.code == 0x0f {
        address.moved(distance)
    } else {
        plain_if(address.is_plain())
    }
}

fn copied_value(verifier: Verifier, slot: bpf_insn, value: Value) -> Value
    ensures { result ≡ copied_value verifier slot value }
{
    match value {
        Value::Number(number) => number_value(known_result(verifier, slot, 0, number)),
        _ => plain_if(value.is_plain()),
    }
}

fn paired_value(verifier: Verifier, slot: bpf_insn, x: Value, y: Value) -> Value
    ensures { result ≡ paired_value verifier slot x y }
{
    match (x, y) {
        (Value::Number(x), Value::Number(y)) => number_value(known_result(verifier, slot, x, y)),
        (Value::Number(distance), Value::Map { .. } | Value::Context(_) | Value::Frame(_)) => {
            moved_second(slot, y, distance)
        }
        (Value::Map { .. } | Value::Context(_) | Value::Frame(_), Value::Number(distance)) => {
            moved_address(slot, x, distance)
        }
        _ => plain_if(x.is_plain() && y.is_plain()),
    }
}

/// What arithmetic leaves in the destination register.
#[tactic(auto, unfolding(crate::specs::Effects::arithmetic_value))]
fn arithmetic_value(verifier: Verifier, slot: bpf_insn, x: Value, y: Value) -> Value
    ensures { result ≡ arithmetic_value verifier slot x y }
{
    if copies(slot) {
        return y;
    }
    if slot.code / 16 == 11 {
        copied_value(verifier, slot, y)
    } else {
        paired_value(verifier, slot, x, y)
    }
}

fn map_value(program: &Program<'_>, map: u32, offset: u32) -> Value
    ensures { result ≡ map_value program.now map offset }
{
    if !bytes_in(program.maps, map).is_empty() {
        return Value::Map {
            map,
            offset: offset as u64,
        };
    }
    if program.verifier.map_values {
        Value::Address
    } else {
        Value::Plain
    }
}

/// What the load of two immediates leaves.
#[tactic(auto, unfolding(crate::specs::Effects::wide_value))]
fn wide_value(program: &Program<'_>, slot: bpf_insn, next: Option<bpf_insn>) -> Value
    ensures { result ≡ wide_value program.now slot next }
{
    let Some(next) = next else {
        return Value::Unknown;
    };
    let low = slot.imm.cast_unsigned();
    let high = next.imm.cast_unsigned();
    match slot.src_reg() {
        0 => Value::Number(low as u64 + (1 << 32) * high as u64),
        2 => map_value(program, low, high),
        3 if program.verifier.functions => Value::Address,
        4 => Value::Unknown,
        _ => Value::Plain,
    }
}

/// What a load at a position of the frame gives.
fn frame_value(known: &Known, at: u64, size: Size) -> Value
    ensures { result ≡ frame_value known.now at (width_of size) }
{
    let width = width_of(size);
    if at < 128 && at % width as u64 == 0 {
        let cell = value_in(known, 16 + (at / 8) as u8);
        return read_cell(cell, (at % 8) as u8, size);
    }
    plain_if(width != 8)
}

/// What a load from an address gives.
#[tactic(auto, unfolding(crate::specs::Effects::loaded_value))]
fn loaded_value(program: &Program<'_>, slot: bpf_insn, known: &Known, address: Value) -> Value
    ensures { result ≡ loaded_value program.now slot known.now address }
{
    let distance = i64::from(slot.off).cast_unsigned();
    let size = Size::of_code(slot.code);
    match address {
        Value::Map { map, offset } => {
            let bytes = bytes_in(program.maps, map);
            number_value(size.number_in(bytes, offset.wrapping_add(distance)))
        }
        Value::Frame(offset) => frame_value(known, position(offset, distance), size),
        _ => plain_if(address.is_plain()),
    }
}

fn stores_immediate(slot: bpf_insn) -> bool
    ensures { result ≡ stores_immediate slot }
{
    slot.code % 8 == 2
}

/// The operand that ST and STX store.
fn stored_operand(slot: bpf_insn, known: &Known) -> Value
    ensures { result ≡ stored_operand slot known.now }
{
    if stores_immediate(slot) {
        Value::Number(i64::from(slot.imm).cast_unsigned())
    } else {
        value_in(known, slot.src_reg())
    }
}

/// What is known after a store at a position of the frame.
fn after_frame_store(verifier: Verifier, slot: bpf_insn, known: Known, at: u64, width: u8) -> Known
    requires { 0 < width }
    ensures { result ≡ after_frame_store verifier slot known at width }
{
    if at % width as u64 != 0 {
        return forgotten(&known);
    }
    if at >= 128 {
        return known;
    }
    let operand = stored_operand(slot, &known);
    let value = stored_value(
        verifier,
        stores_immediate(slot),
        (at % 8) as u8,
        width,
        operand,
    );
    with_value(known, 16 + (at / 8) as u8, value)
}

/// What is known after a store to an address.
#[tactic(auto, unfolding(crate::specs::Effects::after_store))]
fn after_store(verifier: Verifier, slot: bpf_insn, known: Known, address: Value) -> Known
    ensures { result ≡ after_store verifier slot known address }
{
    match address {
        Value::Frame(offset) => {
            let at = position(offset, i64::from(slot.off).cast_unsigned());
            let width = width_of(Size::of_code(slot.code));
            after_frame_store(verifier, slot, known, at, width)
        }
        _ if address.is_plain() => known,
        _ => forgotten(&known),
    }
}

/// What is known behind a call that gives a result. Registers 1 to 5 are no addresses of a frame then,
/// and nothing more is known of them.
pub fn after_result(given: Value, known: &Known) -> Known
    ensures { result ≡ after_result given known.now }
{
    let mut new = *known;
    new[0] = given;
    new[1] = Value::Plain;
    new[2] = Value::Plain;
    new[3] = Value::Plain;
    new[4] = Value::Plain;
    new[5] = Value::Plain;
    new
}

/// What is known of the frame after a call.
pub fn with_frame(known: &Known) -> Known
    ensures { result ≡ with_frame known.now }
{
    if keeps_frame(known) {
        *known
    } else {
        forgotten(known)
    }
}

fn call_result(slot: bpf_insn, known: &Known) -> Value
    ensures { result ≡ call_result slot known.now }
{
    plain_if(slot.src_reg() == 0 || (slot.src_reg() == 2 && keeps_frame(known)))
}

/// What is known behind a call that control comes back from at once.
fn after_call(slot: bpf_insn, known: &Known) -> Known
    ensures { result ≡ after_call slot known.now }
{
    after_result(call_result(slot, known), &with_frame(known))
}

fn after_arithmetic(verifier: Verifier, slot: bpf_insn, known: Known) -> Known
    ensures { result
        ≡ slice_set known (dst_reg_of slot)
        (arithmetic_value verifier slot (value_in known (dst_reg_of slot)) (operand slot known)) }
{
    let x = value_in(&known, slot.dst_reg());
    let y = operand(slot, &known);
    let value = arithmetic_value(verifier, slot, x, y);
    with_value(known, slot.dst_reg(), value)
}

fn with_three(slot: bpf_insn, value: Value, known: Known) -> Known
    ensures { result ≡ with_three slot value known }
{
    let new = with_value(known, slot.dst_reg(), value);
    let new = with_value(new, slot.src_reg(), value);
    with_value(new, 0, value)
}

/// Whether neither a register of an atomic operation nor register 0 may be an address of a frame.
fn is_plain_atomic(slot: bpf_insn, known: &Known) -> bool
    ensures { result ≡ is_plain_atomic slot known.now }
{
    value_in(known, slot.dst_reg()).is_plain()
        && value_in(known, slot.src_reg()).is_plain()
        && value_in(known, 0).is_plain()
}

fn after_atomic(slot: bpf_insn, known: Known) -> Known
    ensures { result ≡ after_atomic slot known }
{
    if is_plain_atomic(slot, &known) {
        with_three(slot, Value::Plain, known)
    } else {
        with_three(slot, Value::Unknown, forgotten(&known))
    }
}

/// What is known after an instruction (RFC 9669, sections 4.1, 4.3 and 5); `next` is the slot that
/// follows it.
pub fn after(program: &Program<'_>, slot: bpf_insn, next: Option<bpf_insn>, known: Known) -> Known
    ensures { result ≡ after program.now slot next known }
{
    match kind_of(slot.code) {
        Kind::Call => after_call(slot, &known),
        Kind::Packet => after_result(Value::Plain, &known),
        Kind::Wide => with_value(known, slot.dst_reg(), wide_value(program, slot, next)),
        Kind::Arithmetic => after_arithmetic(program.verifier, slot, known),
        Kind::Load => {
            let address = value_in(&known, slot.src_reg());
            with_value(
                known,
                slot.dst_reg(),
                loaded_value(program, slot, &known, address),
            )
        }
        Kind::OtherLoad => with_value(known, slot.dst_reg(), Value::Plain),
        Kind::Atomic => after_atomic(slot, known),
        Kind::Store => {
            let address = value_in(&known, slot.dst_reg());
            after_store(program.verifier, slot, known, address)
        }
        Kind::NoWrite => known,
    }
}
