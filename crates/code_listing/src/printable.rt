//! Texts of objects inside of a line.

use std::fmt;

/// The longest text that is printed whole, in bytes. Many lines of a listing may show one long
/// text.
const WHOLE: usize = 256;

/// A byte of a text.
#[derive(Drop)]
struct PrintableByte(u8);

impl fmt::Display for PrintableByte {
    fn fmt<W: fmt::Write>(&self, f: &mut fmt::Formatter<W>) -> fmt::Result {
        match self.0 {
            b'\t' => write!(f, " "),
            b' '..=b'~' => write!(f, "{}", char::from(self.0)),
            byte => write!(f, "\\x{byte:02x}"),
        }
    }
}

/// A text inside of a line: a tab is printed as a space, and any other byte that isn't printable
/// ASCII as `\x` and two hexadecimal digits. Of a text of more than 256 bytes, its beginning and
/// its length in bytes are printed.
#[derive(Drop)]
pub(crate) struct Printable<'a>(pub(crate) &'a str);

impl<'a> fmt::Display for Printable<'a> {
    fn fmt<W: fmt::Write>(&self, f: &mut fmt::Formatter<W>) -> fmt::Result {
        let text = self.0;
        let (beginning, rest) = text.split_at(text.floor_char_boundary(WHOLE));
        for byte in beginning.as_bytes() {
            write!(f, "{}", PrintableByte(*byte))?;
        }
        if rest.is_empty() {
            return Ok(());
        }
        write!(f, ".. ({} bytes)", text.len())
    }
}
