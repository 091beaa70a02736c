//! Reading an instruction's text.

ghost use Rattle.std.specs.Prelude.{◌≡◌, ◌<◌, ◌≤◌, ◌+◌, IfSome, Some, Option, map, length};
ghost use Rattle.std.specs.Option.{option_map};
ghost use Rattle.ebpf_items.specs.declared.instruction.bpf_insn.{bpf_insn};
ghost use Rattle.instruction_text.specs.Forms.{form_of};
ghost use Rattle.instruction_text.specs.Laws.{IsSlot, IsTextOf};
ghost use Rattle.instruction_text.specs.Reading.{after_sign, after_space, byte_at, checked_option, digits_from, hex_value, instruction_in, is_digit, is_minus, number_at, read_bytes, read_form, read_in, read_mark, read_piece, signed_bits, state, with_digit};
ghost use Rattle.instruction_text.specs.Texts.{taken, text_of};

use crate::comparing::is_text_of;
use crate::forms::fields_of;
use crate::instruction::Instruction;
use crate::parts::Parts;
use crate::piece::{Piece, piece_of};
use crate::table::{
    Row, arithmetic_rows, atomic_rows, jump_rows, memory_rows, other_arithmetic_rows, other_rows,
};
use ebpf_items::bpf_insn;

/// The length of a text that shows the bytes of a slot.
const BYTES_LEN: usize = 52;

fn is_minus(text: &[u8]) -> bool
    ensures { result ≡ is_minus text.now }
{
    match text {
        [first, ..] => *first == b'-',
        [] => false,
    }
}

fn after_sign(text: &[u8]) -> &[u8]
    ensures { result.now ≡ after_sign text.now }
{
    match text {
        [first, rest @ ..] if *first == b'+' || *first == b'-' => rest,
        _ => text,
    }
}

fn after_space(text: &[u8]) -> &[u8]
    ensures { result.now ≡ after_space text.now }
{
    match text {
        [first, rest @ ..] if *first == b' ' => rest,
        _ => text,
    }
}

fn is_digit(letter: u8) -> bool
    ensures { result ≡ is_digit letter }
{
    48 <= letter && letter <= 57
}

fn with_digit(value: u64, digit: u8) -> u64
    requires { 48 ≤ digit }
    ensures { result ≡ with_digit value digit }
{
    value.wrapping_mul(10).wrapping_add((digit - b'0') as u64)
}

/// The number that digits write, and the text behind them.
fn digits(text: &[u8]) -> (u64, &[u8])
    ensures bits { result.0 ≡ (digits_from 0 text.now).bits }
    ensures rest { result.1.now ≡ (digits_from 0 text.now).rest }
{
    let mut value = 0;
    let mut left = text;
    while let [letter, rest @ ..] = left {
        if !is_digit(*letter) {
            return (value, left);
        }
        value = with_digit(value, *letter);
        left = rest;
    }
    (value, left)
}

fn signed_bits(is_minus: bool, value: u64) -> u64
    ensures { result ≡ signed_bits is_minus value }
{
    if is_minus {
        0u64.wrapping_sub(value)
    } else {
        value
    }
}

/// The bits of the number at the front of a text, and the text behind it.
fn number_at(text: &[u8]) -> (u64, &[u8])
    ensures bits { result.0 ≡ (number_at text.now).bits }
    ensures rest { result.1.now ≡ (number_at text.now).rest }
{
    let (value, rest) = digits(after_space(after_sign(text)));
    (signed_bits(is_minus(text), value), rest)
}

/// What is read so far of a text.
#[derive(Clone, Copy)]
struct Reading<'a> {
    rest: &'a [u8],
    parts: Parts,
}

fn read_mark(letter: u8, text: &[u8], parts: Parts) -> Option<Reading<'_>>
    ensures { option_map (λ s. state s.rest.now s.parts) result ≡ read_mark letter text.now parts }
{
    match text {
        [first, rest @ ..] if *first == letter => Some(Reading { rest, parts }),
        _ => None,
    }
}

fn read_piece(piece: Piece, text: &[u8], parts: Parts) -> Option<Reading<'_>>
    ensures { option_map (λ s. state s.rest.now s.parts) result ≡ read_piece piece (state text.now parts) }
{
    match piece {
        Piece::Mark(letter) => read_mark(letter, text, parts),
        Piece::Number(field, _style) => {
            let (bits, rest) = number_at(text);
            Some(Reading {
                rest,
                parts: parts.with_bits(field, bits),
            })
        }
    }
}

/// The instruction that a text shows in a form.
fn read_row(row: &Row, text: &[u8]) -> Option<Instruction>
    ensures { result ≡ read_form (form_of row.now) text.now }
{
    let mut letters = row.text();
    let mut left = text;
    let mut parts = fields_of(row);
    while let [letter, more @ ..] = letters {
        let reading = read_piece(piece_of(*letter), left, parts)?;
        left = reading.rest;
        parts = reading.parts;
        letters = more;
    }
    if left.is_empty() {
        Some(Instruction {
            first: parts.first_slot(),
            second: parts.second_slot(),
        })
    } else {
        None
    }
}

fn hex_value(digit: u8) -> u8
    ensures value { result ≡ hex_value digit }
    ensures small { result < 16 }
{
    if digit < 64 {
        digit % 16
    } else {
        (digit % 16 + 9) % 16
    }
}

fn byte_at(text: &[u8], index: usize) -> u8
    requires { index + 1 < length text.now }
    ensures { result ≡ byte_at text.now index }
{
    hex_value(text[index]) * 16 + hex_value(text[index + 1])
}

/// The slot whose bytes a text shows.
fn read_bytes(text: &[u8]) -> Option<Instruction>
    ensures { result ≡ read_bytes text.now }
{
    if text.len() != BYTES_LEN {
        return None;
    }
    let bytes = [
        byte_at(text, 8),
        byte_at(text, 14),
        byte_at(text, 20),
        byte_at(text, 26),
        byte_at(text, 32),
        byte_at(text, 38),
        byte_at(text, 44),
        byte_at(text, 50),
    ];
    Some(Instruction {
        first: bpf_insn::from_bytes(bytes),
        second: None,
    })
}

/// An instruction, if this is its text.
fn checked(text: &[u8], found: Option<Instruction>) -> Option<Instruction>
    ensures { result ≡ checked_option text.now found }
{
    let Instruction { first, second } = found?;
    if is_text_of(text, first, second) {
        Some(Instruction::of_slots(first, second))
    } else {
        None
    }
}

/// The first instruction of some forms whose text this is.
fn read_in(rows: &[Row], text: &[u8]) -> Option<Instruction>
    ensures { result ≡ read_in (map form_of rows.now) text.now }
{
    let mut left = rows;
    while let [row, rest @ ..] = left {
        let found = checked(text, read_row(row, text));
        if found.is_some() {
            return found;
        }
        left = rest;
    }
    None
}

#[tactic(auto, using(crate::proofs::Finds::read_both))]
fn instruction_in(text: &[u8]) -> Option<Instruction>
    ensures { result ≡ instruction_in text.now }
{
    if let Some(instruction) = read_in(arithmetic_rows(), text) {
        return Some(instruction);
    }
    if let Some(instruction) = read_in(other_arithmetic_rows(), text) {
        return Some(instruction);
    }
    if let Some(instruction) = read_in(memory_rows(), text) {
        return Some(instruction);
    }
    if let Some(instruction) = read_in(atomic_rows(), text) {
        return Some(instruction);
    }
    if let Some(instruction) = read_in(jump_rows(), text) {
        return Some(instruction);
    }
    if let Some(instruction) = read_in(other_rows(), text) {
        return Some(instruction);
    }
    checked(text, read_bytes(text))
}

/// The instruction with this text, if there is one.
///
/// The text must be exactly as [`instruction_text`](crate::instruction_text) writes it: other
/// spaces or digits are refused.
pub fn read_instruction(text: &str) -> Option<Instruction>
    ensures found { IfSome result (IsTextOf text.now) }
    ensures again { (first : bpf_insn) (second : Option bpf_insn)
        → IsSlot first
        → IfSome second IsSlot
        → text.now ≡ text_of first second
        → result ≡ Some (taken first second) }
{
    instruction_in(text.as_bytes())
}
