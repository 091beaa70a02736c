//! The words of a line.

ghost use Rattle.std.specs.Prelude.{◌≡◌, Some, flat_map};
ghost use Rattle.std.specs.List.{list_all};
ghost use Rattle.std.specs.Option.{option_copied};
ghost use Rattle.quoting.specs.Words.{two_digits, hex_word, is_plain, is_plain_byte, is_printed, number_word, quoted_byte, quoted_word, text_word};

use std::fmt;

/// Whether a byte is printed as it is inside double quotes.
fn is_printed(byte: u8) -> bool
    ensures { result ≡ is_printed byte }
{
    byte >= b' ' && byte <= b'~' && byte != b'"' && byte != b'\\'
}

/// Whether a byte is printed as it is without double quotes.
fn is_plain_byte(byte: u8) -> bool
    ensures { result ≡ is_plain_byte byte }
{
    is_printed(byte) && byte != b' '
}

fn are_plain_bytes(bytes: &[u8]) -> bool
    ensures { result ≡ list_all is_plain_byte bytes.now }
{
    bytes.iter().all(|byte| is_plain_byte(*byte))
}

/// Whether a text is a word without double quotes.
fn is_plain(bytes: &[u8]) -> bool
    ensures { result ≡ is_plain bytes.now }
{
    !bytes.is_empty() && bytes != b"-".as_slice() && are_plain_bytes(bytes)
}

/// Two hexadecimal digits.
#[derive(Drop)]
struct HexByte(u8);

impl fmt::Display for HexByte {
    ghost output = { λ b. Some (two_digits b.0) };

    #[tactic(auto, using(std::proofs::lemmas::Fmt::hex_byte))]
    fn fmt<W: fmt::Write>(&self, f: &mut fmt::Formatter<W>) -> fmt::Result {
        let byte = self.0;
        write!(f, "{byte:02x}")
    }
}

/// A byte inside of double quotes.
#[derive(Drop)]
struct QuotedByte(u8);

impl fmt::Display for QuotedByte {
    ghost output = { λ b. Some (quoted_byte b.0) };

    fn fmt<W: fmt::Write>(&self, f: &mut fmt::Formatter<W>) -> fmt::Result {
        if is_printed(self.0) {
            return write!(f, "{}", char::from(self.0));
        }
        write!(f, "\\x{}", HexByte(self.0))
    }
}

/// Bytes inside of double quotes.
#[derive(Drop)]
struct Quoted<'a>(&'a [u8]);

impl<'a> fmt::Display for Quoted<'a> {
    ghost output = { λ q. Some (flat_map quoted_byte q.0.now) };

    fn fmt<W: fmt::Write>(&self, f: &mut fmt::Formatter<W>) -> fmt::Result {
        for byte in self.0 {
            write!(f, "{}", QuotedByte(*byte))?;
        }
        Ok(())
    }
}

/// A text as a word of a line; a dash stands for none. A text is printed as it is if it is
/// printable ASCII without a space, a double quote or a backslash, and neither empty nor a dash.
/// Any other text is printed in double quotes, in which a double quote, a backslash and each byte
/// that isn't printable ASCII is `\x` and two hexadecimal digits.
#[derive(Debug, Drop)]
pub struct Text<'a>(pub Option<&'a [u8]>);

impl<'a> Text<'a> {
    pub fn of(text: &'a str) -> Text<'a>
        ensures { option_copied result.0 ≡ Some text.now }
    {
        Text(Some(text.as_bytes()))
    }
}

impl<'a> fmt::Display for Text<'a> {
    ghost output = { λ t. Some (text_word (option_copied t.0)) };

    fn fmt<W: fmt::Write>(&self, f: &mut fmt::Formatter<W>) -> fmt::Result {
        let Some(bytes) = self.0 else {
            return write!(f, "-");
        };
        if is_plain(bytes) {
            write!(f, "{}", Quoted(bytes))
        } else {
            write!(f, "\"{}\"", Quoted(bytes))
        }
    }
}

/// A text as a word that is always in double quotes, with the escapes of [`Text`].
#[derive(Debug, Drop)]
pub struct QuotedText<'a>(pub &'a str);

impl<'a> fmt::Display for QuotedText<'a> {
    ghost output = { λ t. Some (quoted_word t.0.now) };

    fn fmt<W: fmt::Write>(&self, f: &mut fmt::Formatter<W>) -> fmt::Result {
        write!(f, "\"{}\"", Quoted(self.0.as_bytes()))
    }
}

/// Bytes in hexadecimal; a dash stands for none.
#[derive(Debug, Drop)]
pub struct Hex<'a>(pub &'a [u8]);

impl<'a> fmt::Display for Hex<'a> {
    ghost output = { λ h. Some (hex_word h.0.now) };

    fn fmt<W: fmt::Write>(&self, f: &mut fmt::Formatter<W>) -> fmt::Result {
        if self.0.is_empty() {
            return write!(f, "-");
        }
        for byte in self.0 {
            write!(f, "{}", HexByte(*byte))?;
        }
        Ok(())
    }
}

/// A number, or a dash where there is none.
#[derive(Debug, Drop)]
pub struct Number(pub Option<u64>);

impl fmt::Display for Number {
    ghost output = { λ n. Some (number_word n.0) };

    fn fmt<W: fmt::Write>(&self, f: &mut fmt::Formatter<W>) -> fmt::Result {
        match self.0 {
            Some(number) => write!(f, "{number}"),
            None => write!(f, "-"),
        }
    }
}

impl Number {
    /// The number of an index.
    pub fn of_index(index: Option<usize>) -> Number
        ensures { result.0 ≡ index }
    {
        match index {
            Some(index) => Number(Some(index as u64)),
            None => Number(None),
        }
    }
}

/// The id of a type, or a dash where there is none.
#[derive(Debug, Drop)]
pub struct Id(pub Option<u32>);

impl fmt::Display for Id {
    ghost output = { λ i. Some (number_word i.0) };

    fn fmt<W: fmt::Write>(&self, f: &mut fmt::Formatter<W>) -> fmt::Result {
        match self.0 {
            Some(id) => write!(f, "{id}"),
            None => write!(f, "-"),
        }
    }
}
