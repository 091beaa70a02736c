//! Output, and why it can't be written.

ghost use Rattle.std.specs.Prelude.{◌≡◌, is_some, true, IfErr, None, Some};

use std::io::Write;
use std::{fmt, fs, io};

/// Something can't be written, with the reason where it is known.
#[derive(Clone, Copy, Debug)]
pub struct Unwritten {
    error: Option<io::Error>,
}

impl Unwritten {
    /// Something can't be written for this reason.
    pub fn because(error: io::Error) -> Unwritten
        ensures { result.error ≡ Some error }
    {
        Unwritten { error: Some(error) }
    }
}

impl fmt::Display for Unwritten {
    fn fmt<W: fmt::Write>(&self, f: &mut fmt::Formatter<W>) -> fmt::Result {
        match self.error {
            Some(error) => write!(f, "can't be written: {error}"),
            None => write!(f, "can't be written"),
        }
    }
}

/// Prints a text.
pub fn print_text(rt: &HostRuntime, text: &str) -> Result<(), Unwritten>
    ensures { IfErr result (λ unwritten. is_some unwritten.error ≡ true) }
{
    match print!(rt; "{text}") {
        Ok(()) => Ok(()),
        Err(error) => Err(Unwritten::because(error)),
    }
}

/// Writes a file that isn't there yet. What can't be written whole isn't there afterwards.
///
/// # Errors
///
/// `Unwritten` where the file is there already, or can't be made or written.
pub(crate) fn write_new(rt: &HostRuntime, path: &str, bytes: &[u8]) -> Result<(), Unwritten> {
    let mut file = match fs::File::create_new(rt, path) {
        Ok(file) => file,
        Err(error) => return Err(Unwritten::because(error)),
    };
    match file.write_all(bytes) {
        Ok(()) => Ok(()),
        Err(error) => {
            let _ = fs::remove_file(rt, path);
            Err(Unwritten::because(error))
        }
    }
}

/// A writer that keeps its last error.
#[derive(Debug, Drop)]
pub struct Kept<W> {
    inner: W,
    error: Option<io::Error>,
}

impl<W: Write> Kept<W> {
    /// The writer, without an error so far.
    pub fn new(inner: W) -> Kept<W>
        ensures { result.error ≡ None }
    {
        Kept { inner, error: None }
    }

    /// Something can't be written, for the reason of the last call that failed.
    pub fn unwritten(&self) -> Unwritten
        ensures { result.error ≡ self.now.error }
    {
        Unwritten { error: self.error }
    }
}

impl<W: Write> Write for Kept<W> {
    ghost contents = { λ k. W.contents k.inner };

    fn write(&mut self, buf: &[u8]) -> io::Result<usize> {
        let written = self.inner.write(buf);
        if let Err(error) = written {
            self.error = Some(error);
        }
        written
    }

    fn flush(&mut self) -> io::Result<()> {
        let flushed = self.inner.flush();
        if let Err(error) = flushed {
            self.error = Some(error);
        }
        flushed
    }
}
