//! Comparing a text to an instruction's.

ghost use Rattle.std.specs.Prelude.{◌≡◌, bytes_eq};
ghost use Rattle.std.specs.Option.{option_map};
ghost use Rattle.instruction_text.specs.Forms.{form_of};
ghost use Rattle.instruction_text.specs.Reading.{after_front, after_pieces, is_done};
ghost use Rattle.instruction_text.specs.Texts.{byte_text, form_for, hex_byte, listed_bytes, more_bytes, pieces_of, shown, shown_number, text_by, text_of};

use crate::forms::row_for;
use crate::parts::{Parts, parts_of};
use crate::piece::{Piece, Style, piece_of};
use crate::table::Row;
use crate::writing::{hex_digit, sign};
use ebpf_items::bpf_insn;
use itoa::Buffer;

/// The text behind its front.
#[tactic(auto, using(crate::proofs::Fronts::stripped, crate::proofs::Fronts::not_stripped))]
fn after<'a>(text: &'a [u8], front: &[u8]) -> Option<&'a [u8]>
    ensures { option_map (λ rest. rest.now) result ≡ after_front front.now text.now }
{
    text.strip_prefix(front)
}

#[tactic(auto, using(crate::proofs::Fronts::after_both))]
fn after_number(text: &[u8], style: Style, number: i64) -> Option<&[u8]>
    ensures { option_map (λ rest. rest.now) result ≡ after_front (shown_number style number) text.now }
{
    let mut buffer = Buffer::new();
    let rest = after(text, sign(style, number < 0).as_bytes())?;
    after(rest, buffer.format(number.unsigned_abs()).as_bytes())
}

fn after_piece<'a>(text: &'a [u8], piece: Piece, parts: &Parts) -> Option<&'a [u8]>
    ensures { option_map (λ rest. rest.now) result ≡ after_front (shown piece parts.now) text.now }
{
    match piece {
        Piece::Mark(letter) => {
            let mut bytes = [0; 4];
            after(text, char::from(letter).encode_utf8(&mut bytes).as_bytes())
        }
        Piece::Number(field, style) => after_number(text, style, parts.number(field)),
    }
}

fn after_form<'a>(text: &'a [u8], row: &Row, parts: &Parts) -> Option<&'a [u8]>
    ensures { option_map (λ rest. rest.now) result
        ≡ after_pieces (pieces_of (form_of row.now)) parts.now text.now }
{
    let mut letters = row.text();
    let mut left = text;
    while let [letter, rest @ ..] = letters {
        left = after_piece(left, piece_of(*letter), parts)?;
        letters = rest;
    }
    Some(left)
}

fn after_byte(text: &[u8], byte: u8) -> Option<&[u8]>
    ensures { option_map (λ rest. rest.now) result ≡ after_front (hex_byte byte) text.now }
{
    let shown = [b'0', b'x', hex_digit(byte / 16), hex_digit(byte % 16)];
    after(text, &shown)
}

#[tactic(auto, using(crate::proofs::Fronts::after_both))]
fn after_more_bytes<'a>(text: &'a [u8], bytes: &[u8]) -> Option<&'a [u8]>
    ensures { option_map (λ rest. rest.now) result ≡ after_front (more_bytes bytes.now) text.now }
{
    let mut left = text;
    let mut more = bytes;
    while let [byte, rest @ ..] = more {
        left = after_byte(after(left, b", ")?, *byte)?;
        more = rest;
    }
    Some(left)
}

#[tactic(auto, using(crate::proofs::Fronts::after_both))]
fn after_listed_bytes<'a>(text: &'a [u8], bytes: &[u8]) -> Option<&'a [u8]>
    ensures { option_map (λ rest. rest.now) result ≡ after_front (listed_bytes bytes.now) text.now }
{
    let [byte, more @ ..] = bytes else {
        return Some(text);
    };
    after_more_bytes(after_byte(text, *byte)?, more)
}

#[tactic(auto, using(crate::proofs::Fronts::after_both), unfolding(crate::specs::Texts::byte_text))]
fn after_bytes<'a>(text: &'a [u8], bytes: &[u8]) -> Option<&'a [u8]>
    ensures { option_map (λ rest. rest.now) result ≡ after_front (byte_text bytes.now) text.now }
{
    after_listed_bytes(after(text, b".byte ")?, bytes)
}

#[tactic(auto, using(crate::proofs::Fronts::pieces_are))]
fn after_parts<'a>(text: &'a [u8], first: bpf_insn, parts: &Parts) -> Option<&'a [u8]>
    ensures { option_map (λ rest. rest.now) result
        ≡ after_front (text_by first parts.now (form_for parts.now)) text.now }
{
    match row_for(parts) {
        Some(row) => after_form(text, row, parts),
        None => after_bytes(text, &first.to_bytes()),
    }
}

fn after_instruction(text: &[u8], first: bpf_insn, second: Option<bpf_insn>) -> Option<&[u8]>
    ensures { option_map (λ rest. rest.now) result ≡ after_front (text_of first second) text.now }
{
    match parts_of(first, second) {
        Some(parts) => after_parts(text, first, &parts),
        None => after_bytes(text, &first.to_bytes()),
    }
}

fn is_done(rest: Option<&[u8]>) -> bool
    ensures { result ≡ is_done (option_map (λ text. text.now) rest.entry) }
{
    match rest {
        Some(text) => text.is_empty(),
        None => false,
    }
}

/// Whether this is the text of the instruction in a slot and the slot behind it.
#[tactic(auto, using(crate::proofs::Fronts::done_is))]
pub(crate) fn is_text_of(text: &[u8], first: bpf_insn, second: Option<bpf_insn>) -> bool
    ensures { result ≡ bytes_eq (text_of first second) text.now }
{
    is_done(after_instruction(text, first, second))
}
