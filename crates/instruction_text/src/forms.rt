//! The form that an instruction is of.

ghost use Rattle.std.specs.Prelude.{◌≡◌, find, is_some, map};
ghost use Rattle.std.specs.Option.{option_map};
ghost use Rattle.instruction_text.specs.Forms.{form_of};
ghost use Rattle.instruction_text.specs.Texts.{fields_of, filled, filled_one, form_for, pieces_of, takes};

use crate::parts::Parts;
use crate::piece::{Piece, piece_of};
use crate::table::{
    Row, arithmetic_rows, atomic_rows, jump_rows, memory_rows, other_arithmetic_rows, other_rows,
};

/// The fields of a form; where its text names a field, that one is any.
pub(crate) fn fields_of(row: &Row) -> Parts
    ensures { result ≡ fields_of (form_of row.now) }
{
    let &Row(code, source, offset, immediate, _text) = row;
    Parts {
        code,
        destination: 0,
        source,
        offset,
        immediate,
        high: 0,
    }
}

fn filled_one(piece: Piece, from: &Parts, parts: Parts) -> Parts
    ensures { result ≡ filled_one piece from.now parts }
{
    match piece {
        Piece::Mark(_letter) => parts,
        Piece::Number(field, _style) => parts.with_copied(field, from),
    }
}

/// The fields of a form, those that its text names from an instruction.
fn filled(row: &Row, from: &Parts) -> Parts
    ensures { result ≡ filled (pieces_of (form_of row.now)) from.now (fields_of (form_of row.now)) }
{
    let mut letters = row.text();
    let mut parts = fields_of(row);
    while let [letter, rest @ ..] = letters {
        parts = filled_one(piece_of(*letter), from, parts);
        letters = rest;
    }
    parts
}

fn takes(parts: &Parts, row: &Row) -> bool
    ensures { result ≡ takes parts.now (form_of row.now) }
{
    parts.code == row.code()
        && parts.destination <= 10
        && parts.source <= 10
        && filled(row, parts).is(parts)
}

fn row_in(rows: &'static [Row], parts: &Parts) -> Option<&'static Row>
    ensures { option_map (λ row. form_of row.now) result ≡ find (takes parts.now) (map form_of rows.now) }
{
    let mut left = rows;
    while let [row, rest @ ..] = left {
        if takes(parts, row) {
            return Some(row);
        }
        left = rest;
    }
    None
}

/// The first form that an instruction is of.
#[tactic(auto, using(crate::proofs::Finds::find_both))]
pub(crate) fn row_for(parts: &Parts) -> Option<&'static Row>
    ensures { option_map (λ row. form_of row.now) result ≡ form_for parts.now }
{
    if let Some(row) = row_in(arithmetic_rows(), parts) {
        return Some(row);
    }
    if let Some(row) = row_in(other_arithmetic_rows(), parts) {
        return Some(row);
    }
    if let Some(row) = row_in(memory_rows(), parts) {
        return Some(row);
    }
    if let Some(row) = row_in(atomic_rows(), parts) {
        return Some(row);
    }
    if let Some(row) = row_in(jump_rows(), parts) {
        return Some(row);
    }
    row_in(other_rows(), parts)
}

/// Whether an instruction is of a form.
pub(crate) fn has_form(parts: &Parts) -> bool
    ensures { result ≡ is_some (form_for parts.now) }
{
    row_for(parts).is_some()
}
