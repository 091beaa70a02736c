//! Where control goes from a slot.

ghost use Rattle.std.specs.Prelude.{◌≡◌, pos};
ghost use Rattle.plan_values.specs.Knowledge.{any_entry, at_start};
ghost use Rattle.plan_values.specs.Programs.{target};
ghost use Rattle.plan_registers.specs.Flow.{after_return, allows, decided, decided_numbers, decided_values, decides, distance, entered_known, is_global, is_inside, is_jump, is_static_call, is_tail_call, passed, result_at, result_value, returned, stops, with_address, with_map};

use ebpf_items::bpf_insn;
use plan_values::{
    Kind, Known, NOTHING, Program, Value, Verifier, after_result, bytes_in, entry, index_in,
    kind_of, operand, outcome, target, value_in, with_frame,
};

/// The start of a program: the address of its context is in register 1.
pub(crate) fn at_start() -> Known
    ensures { result ≡ at_start }
{
    entry(
        Value::Context(0),
        Value::Plain,
        Value::Plain,
        Value::Plain,
        Value::Plain,
    )
}

/// The start of a function of whose arguments nothing is known.
pub(crate) fn any_entry() -> Known
    ensures { result ≡ any_entry }
{
    entry(
        Value::Unknown,
        Value::Unknown,
        Value::Unknown,
        Value::Unknown,
        Value::Unknown,
    )
}

/// Whether a jump is taken that compares an address other than 0 with a number.
fn with_address(code: u8, number: u64) -> Option<bool>
    ensures { result ≡ with_address code number }
{
    if number != 0 {
        return None;
    }
    if code == 0x15 || code == 0x1d {
        return Some(false);
    }
    if code == 0x55 || code == 0x5d {
        return Some(true);
    }
    None
}

fn is_inside(program: &Program<'_>, map: u32, offset: u64) -> bool
    ensures { result ≡ is_inside program.now map offset }
{
    program.verifier.map_values && offset < bytes_in(program.maps, map).len() as u64
}

/// The same for the address of a map's value, plus an offset.
fn with_map(program: &Program<'_>, code: u8, map: u32, offset: u64, number: u64) -> Option<bool>
    ensures { result ≡ with_map program.now code map offset number }
{
    if is_inside(program, map, offset) {
        with_address(code, number)
    } else {
        None
    }
}

/// Whether the verifier decides a comparison of two numbers.
fn decides(verifier: Verifier, code: u8, x: u64, y: u64) -> bool
    ensures { result ≡ decides verifier code x y }
{
    let is_equality = code / 16 == 1 || code / 16 == 5;
    let is_signed_greater = code / 16 == 6;
    verifier.comparisons
        && (verifier.unequal_numbers || x == y)
        && (verifier.two_registers || code / 8 % 2 != 1)
        && (verifier.orders || is_equality)
        && (verifier.signed_equals || !(is_signed_greater && x % (1 << 32) == y % (1 << 32)))
}

fn decided_numbers(verifier: Verifier, code: u8, x: u64, y: u64) -> Option<bool>
    ensures { result ≡ decided_numbers verifier code x y }
{
    if decides(verifier, code, x, y) {
        outcome(code, x, y)
    } else {
        None
    }
}

fn decided_values(program: &Program<'_>, code: u8, x: Value, y: Value) -> Option<bool>
    ensures { result ≡ decided_values program.now code x y }
{
    match (x, y) {
        (Value::Number(x), Value::Number(y)) => decided_numbers(program.verifier, code, x, y),
        (Value::Address, Value::Number(number)) => with_address(code, number),
        (Value::Map { map, offset }, Value::Number(number)) => {
            with_map(program, code, map, offset, number)
        }
        _ => None,
    }
}

/// Whether a conditional jump is taken, if that is known.
pub(crate) fn decided(program: &Program<'_>, slot: bpf_insn, known: &Known) -> Option<bool>
    ensures { result ≡ decided program.now slot known.now }
{
    let x = value_in(known, slot.dst_reg());
    let y = operand(slot, known);
    decided_values(program, slot.code, x, y)
}

/// Whether a decision allows a branch to be taken, or not taken.
pub(crate) fn allows(decision: Option<bool>, taken: bool) -> bool
    ensures { result ≡ allows decision taken }
{
    match decision {
        None => true,
        Some(true) => taken,
        Some(false) => !taken,
    }
}

fn is_jump(code: u8) -> bool
    ensures { result ≡ is_jump code }
{
    code != 0x85 && (code % 8 == 5 || code % 8 == 6)
}

/// How many slots control moves on from a slot that doesn't exit. A call comes back to the slot
/// behind it.
pub(crate) fn distance(slot: bpf_insn, taken: bool) -> i64
    ensures { result ≡ distance slot taken }
{
    if slot.code == 0x18 {
        return 2;
    }
    if slot.code == 0x05 {
        return 1 + slot.off as i64;
    }
    if slot.code == 0x06 {
        return 1 + slot.imm as i64;
    }
    if is_jump(slot.code) && taken {
        return 1 + slot.off as i64;
    }
    1
}

/// Whether a global function begins at a slot of the program.
fn is_global(program: &Program<'_>, slot: i128) -> bool
    ensures { result ≡ is_global program.now slot }
{
    match index_in(program.len(), slot) {
        Some(index) => program.global_functions.contains(&index),
        None => false,
    }
}

/// What is known in a function that isn't global: the arguments.
fn passed(known: &Known) -> Known
    ensures { result ≡ passed known.now }
{
    entry(
        known[1].outside(),
        known[2].outside(),
        known[3].outside(),
        known[4].outside(),
        known[5].outside(),
    )
}

/// What is known in the function that a call names.
pub(crate) fn entered_known(
    program: &Program<'_>,
    slot: bpf_insn,
    position: usize,
    known: &Known,
) -> Known
    ensures { result ≡ entered_known program.now (target slot position) known.now }
{
    if is_global(program, target(slot, position)) {
        any_entry()
    } else {
        passed(known)
    }
}

/// Whether a slot calls a function that isn't global.
pub(crate) fn is_static_call(program: &Program<'_>, slot: bpf_insn, position: usize) -> bool
    ensures { result ≡ is_static_call program.now slot position }
{
    slot.is_pseudo_call() && !is_global(program, target(slot, position))
}

/// Whether control doesn't go on from a slot by itself.
pub(crate) fn stops(program: &Program<'_>, slot: bpf_insn, position: usize) -> bool
    ensures { result ≡ stops program.now slot position }
{
    slot.code == 0x95 || is_static_call(program, slot, position)
}

/// The index of the facts on the result of the function that has a slot.
pub(crate) fn result_at(program: &Program<'_>, slot: usize) -> i128
    ensures { result ≡ pos (result_at program.now slot) }
{
    program.len() as i128 + program.function_of(slot) as i128
}

/// What is known where a function returns.
pub(crate) fn returned(given: Value) -> Known
    ensures { result ≡ returned given }
{
    let mut new = NOTHING;
    new[0] = given;
    new
}

fn is_tail_call(slot: bpf_insn) -> bool
    ensures { result ≡ is_tail_call slot }
{
    slot.code == 0x85 && slot.src_reg() == 0 && slot.imm == 12
}

/// What a function returns that ends at a slot.
pub(crate) fn result_value(slot: bpf_insn, known: &Known) -> Option<Value>
    ensures { result ≡ result_value slot known.now }
{
    if slot.code == 0x95 {
        return Some(value_in(known, 0).outside());
    }
    if is_tail_call(slot) {
        return Some(Value::Unknown);
    }
    match kind_of(slot.code) {
        Kind::Packet => Some(Value::Number(0)),
        _ => None,
    }
}

/// What is known behind a call, given what is known where the function returns.
pub(crate) fn after_return(known: &Known, returned: &Known) -> Known
    ensures { result ≡ after_return known.now returned.now }
{
    after_result(value_in(returned, 0), &with_frame(known))
}
