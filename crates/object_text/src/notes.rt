//! Notes.

use lints::Note;
use std::io;
use std::io::Write;

/// Writes the notes on the object.
pub(crate) fn write_notes<W: Write>(notes: &[Note<'_>], out: &mut W) -> io::Result<()> {
    for note in notes {
        writeln!(out, "note {note}")?;
    }
    Ok(())
}
