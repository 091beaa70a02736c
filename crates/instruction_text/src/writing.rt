//! Writing an instruction's text.

ghost use Rattle.std.specs.Prelude.{◌≡◌, ◌<◌, ◌++◌, [], ◌∷◌, OnOk};
ghost use Rattle.std.specs.String.{string_bytes};
ghost use Rattle.instruction_text.specs.Forms.{form_of};
ghost use Rattle.instruction_text.specs.Texts.{byte_text, form_for, hex_byte, hex_digit, listed_bytes, more_bytes, pieces_of, rendered, shown, shown_number, sign, text_by, text_of};

use crate::forms::row_for;
use crate::parts::{Parts, parts_of};
use crate::piece::{Piece, Style, piece_of};
use crate::table::Row;
use ebpf_items::bpf_insn;
use itoa::Buffer;
use std::alloc::{AllocError, Global};

pub(crate) fn sign(style: Style, is_negative: bool) -> &'static str
    ensures { result.now ≡ sign style is_negative }
{
    match (style, is_negative) {
        (Style::Plain, false) => "",
        (Style::Signed, false) => "+",
        (Style::Spaced, false) => "+ ",
        (Style::Plain | Style::Signed, true) => "-",
        (Style::Spaced, true) => "- ",
    }
}

fn push_number(text: &mut String, style: Style, number: i64) -> Result<(), AllocError>
    ensures { OnOk result (string_bytes text.new ≡ string_bytes text.old ++ shown_number style number) }
{
    let mut buffer = Buffer::new();
    text.push_str(sign(style, number < 0))?;
    text.push_str(buffer.format(number.unsigned_abs()))
}

fn push_piece(text: &mut String, piece: Piece, parts: &Parts) -> Result<(), AllocError>
    ensures { OnOk result (string_bytes text.new ≡ string_bytes text.old ++ shown piece parts.now) }
{
    match piece {
        Piece::Mark(letter) => text.push(char::from(letter))?,
        Piece::Number(field, style) => push_number(text, style, parts.number(field))?,
    }
    Ok(())
}

fn push_form(text: &mut String, row: &Row, parts: &Parts) -> Result<(), AllocError>
    ensures { OnOk result (string_bytes text.new
        ≡ string_bytes text.old ++ rendered (pieces_of (form_of row.now)) parts.now) }
{
    let mut letters = row.text();
    while let [letter, rest @ ..] = letters {
        push_piece(text, piece_of(*letter), parts)?;
        letters = rest;
    }
    Ok(())
}

pub(crate) fn hex_digit(number: u8) -> u8
    requires { number < 16 }
    ensures { result ≡ hex_digit number }
{
    if number < 10 {
        b'0' + number
    } else {
        b'a' + (number - 10)
    }
}

fn push_digit(text: &mut String, number: u8) -> Result<(), AllocError>
    requires { number < 16 }
    ensures { OnOk result (string_bytes text.new ≡ string_bytes text.old ++ hex_digit number ∷ []) }
{
    text.push(char::from(hex_digit(number)))
}

fn push_byte(text: &mut String, byte: u8) -> Result<(), AllocError>
    ensures { OnOk result (string_bytes text.new ≡ string_bytes text.old ++ hex_byte byte) }
{
    text.push_str("0x")?;
    push_digit(text, byte / 16)?;
    push_digit(text, byte % 16)
}

fn push_more_bytes(text: &mut String, bytes: &[u8]) -> Result<(), AllocError>
    ensures { OnOk result (string_bytes text.new ≡ string_bytes text.old ++ more_bytes bytes.now) }
{
    let mut left = bytes;
    while let [byte, rest @ ..] = left {
        text.push_str(", ")?;
        push_byte(text, *byte)?;
        left = rest;
    }
    Ok(())
}

fn push_listed_bytes(text: &mut String, bytes: &[u8]) -> Result<(), AllocError>
    ensures { OnOk result (string_bytes text.new ≡ string_bytes text.old ++ listed_bytes bytes.now) }
{
    let [byte, more @ ..] = bytes else {
        return Ok(());
    };
    push_byte(text, *byte)?;
    push_more_bytes(text, more)
}

#[tactic(auto, unfolding(crate::specs::Texts::byte_text))]
fn push_bytes(text: &mut String, bytes: &[u8]) -> Result<(), AllocError>
    ensures { OnOk result (string_bytes text.new ≡ string_bytes text.old ++ byte_text bytes.now) }
{
    text.push_str(".byte ")?;
    push_listed_bytes(text, bytes)
}

fn push_parts(text: &mut String, first: bpf_insn, parts: &Parts) -> Result<(), AllocError>
    ensures { OnOk result (string_bytes text.new
        ≡ string_bytes text.old ++ text_by first parts.now (form_for parts.now)) }
{
    match row_for(parts) {
        Some(row) => push_form(text, row, parts),
        None => push_bytes(text, &first.to_bytes()),
    }
}

/// Writes the text of the instruction in a slot and the slot behind it at the end.
pub(crate) fn push_instruction(
    text: &mut String,
    first: bpf_insn,
    second: Option<bpf_insn>,
) -> Result<(), AllocError>
    ensures { OnOk result (string_bytes text.new ≡ string_bytes text.old ++ text_of first second) }
{
    match parts_of(first, second) {
        Some(parts) => push_parts(text, first, &parts),
        None => push_bytes(text, &first.to_bytes()),
    }
}
