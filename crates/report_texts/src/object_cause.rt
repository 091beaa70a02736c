//! Why no kernel takes the object of a file.

ghost use Rattle.std.specs.Prelude.{◌≡◌, is_some, map, IfOk};
ghost use Rattle.std.specs.List.{list_any};
ghost use Rattle.lints.specs.Notes.{note_content};
ghost use Rattle.report_texts.specs.ObjectCauses.{is_cause, is_never_taken};

use lints::{Note, header_notes};
use std::alloc::{AllocError, Global};

/// Whether a note on a file's header is a cause for which no kernel takes the object. Old versions of
/// LLVM write 0 as the machine, which loaders take.
fn is_cause(note: &Note<'_>) -> bool
    ensures { result ≡ is_cause (note_content note.now) }
{
    match note {
        Note::OtherMachine { machine } => *machine != 0,
        Note::BigEndian => true,
        _ => false,
    }
}

/// The first note that is a cause.
fn first_cause<'n, 'a>(notes: &'n [Note<'a>]) -> Option<&'n Note<'a>>
    ensures { is_some result ≡ list_any is_cause (map note_content notes.now) }
{
    for note in notes {
        if is_cause(note) {
            return Some(note);
        }
    }
    None
}

/// Why no kernel takes the object of a file, by the file's header, if so.
///
/// # Errors
///
/// `AllocError` where memory runs out.
pub(crate) fn object_cause(alloc: Global, file: &[u8]) -> Result<Option<String>, AllocError>
    ensures { IfOk result (λ cause. is_some cause ≡ is_never_taken file.now) }
{
    let notes = header_notes(alloc, file)?;
    match first_cause(&notes) {
        Some(note) => Ok(Some(format!(in alloc; "{note}")?)),
        None => Ok(None),
    }
}
