//! The letters in the text of a form.

ghost use Rattle.std.specs.Prelude.{◌≡◌};
ghost use Rattle.instruction_text.specs.Texts.{piece_of};

use crate::parts::Field;

/// How a number is shown.
#[derive(Clone, Copy)]
pub(crate) enum Style {
    /// With a minus sign below 0.
    Plain,
    /// With a plus or a minus sign.
    Signed,
    /// With a plus or a minus sign, and a space behind it.
    Spaced,
}

/// What a letter in the text of a form stands for.
#[derive(Clone, Copy)]
pub(crate) enum Piece {
    /// Itself.
    Mark(u8),
    /// A field.
    Number(Field, Style),
}

/// What a letter in the text of a form stands for.
pub(crate) fn piece_of(letter: u8) -> Piece
    ensures { result ≡ piece_of letter }
{
    match letter {
        b'D' => Piece::Number(Field::Destination, Style::Plain),
        b'S' => Piece::Number(Field::Source, Style::Plain),
        b'J' => Piece::Number(Field::Offset, Style::Signed),
        b'O' => Piece::Number(Field::Offset, Style::Spaced),
        b'I' => Piece::Number(Field::Immediate, Style::Plain),
        b'C' => Piece::Number(Field::Immediate, Style::Signed),
        b'M' => Piece::Number(Field::Immediate, Style::Spaced),
        b'F' => Piece::Number(Field::LowerHalf, Style::Plain),
        b'T' => Piece::Number(Field::UpperHalf, Style::Plain),
        b'H' => Piece::Number(Field::High, Style::Signed),
        b'W' => Piece::Number(Field::Wide, Style::Plain),
        mark => Piece::Mark(mark),
    }
}
