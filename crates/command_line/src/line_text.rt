//! Messages about a command line, in one line.

ghost use Rattle.std.specs.Prelude.{◌≡◌, ◌≢◌, ◌↔◌, IfOk, IsErr, IsTrue};
ghost use Rattle.clap.specs.Values.{kind_of};
ghost use Rattle.clap.specs.declared.error.kind.ErrorKind.TheVariants.{DisplayHelp, DisplayVersion, OutOfMemory};
ghost use Rattle.command_line.specs.Messages.{is_fault};

use clap::Error;
use clap::error::ErrorKind;
use std::alloc::{AllocError, Global};

/// What a user is told in place of an answer.
#[derive(Debug, Drop)]
pub enum LineMessage {
    /// The command line is invalid: what is wrong with it, in one line.
    Fault { text: String },
    /// The command line asks for the help or the version: its text.
    Asked { text: String },
}

/// Appends the words of a line, one space before each but the first.
fn push_words(text: &mut String, line: &str) -> Result<(), AllocError> {
    for word in line.split_whitespace() {
        if !text.is_empty() {
            text.push(' ')?;
        }
        text.push_str(word)?;
    }
    Ok(())
}

/// The lines of a text up to the first empty one, joined to one line.
pub fn first_paragraph(alloc: Global, text: &str) -> Result<String, AllocError> {
    let mut paragraph = String::new(alloc);
    for line in text.lines() {
        if line.is_empty() {
            break;
        }
        push_words(&mut paragraph, line)?;
    }
    Ok(paragraph)
}

/// What is wrong with a command line, in one line: the first paragraph of the error's text.
fn fault_text(alloc: Global, error: &Error) -> Result<String, AllocError> {
    let text = format!(in alloc; "{error}")?;
    let said = text.strip_prefix("error: ").unwrap_or(&text);
    first_paragraph(alloc, said)
}

/// What a user is told where clap answers with an error.
///
/// # Errors
///
/// `AllocError` where clap's error is one of memory, and where memory runs out for the text.
pub fn line_message(alloc: Global, error: &Error) -> Result<LineMessage, AllocError>
    ensures memory { kind_of error.now ≡ OutOfMemory → IsErr result }
    ensures kind { IfOk result (λ message.
        IsTrue (is_fault message) ↔ ((kind_of error.now ≢ DisplayHelp)
        × (kind_of error.now ≢ DisplayVersion))) }
{
    if error.kind() == ErrorKind::OutOfMemory {
        return Err(AllocError);
    }
    if error.use_stderr() {
        return Ok(LineMessage::Fault {
            text: fault_text(alloc, error)?,
        });
    }
    Ok(LineMessage::Asked {
        text: format!(in alloc; "{error}")?,
    })
}
