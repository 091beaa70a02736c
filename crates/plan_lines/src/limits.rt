//! Names and numbers fit the words of a line, by their types.

ghost use Rattle.plan_lines.specs.Lines.{AreWithin, IsName, numbers_of, word_limits};
ghost use Rattle.plan_lines.specs.Words.{AreBytes};

use crate::map_words::MapWords;

/// Bytes are below 256.
pub fn bytes_fit(bytes: &[u8])
    ensures { AreBytes bytes.now }
{}

/// A text is bytes in UTF-8.
pub fn name_fits(name: &str)
    ensures { IsName name.now }
{
    bytes_fit(name.as_bytes());
}

/// The numbers that define a map are within their limits.
pub fn words_fit(words: MapWords)
    ensures { AreWithin word_limits (numbers_of words) }
{}
