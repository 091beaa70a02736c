//! A text that comes slowly.

use std::io;
use std::io::{BufRead, ErrorKind, Read};

/// A reader that gives a text one byte per call, and fails after `fails_at` bytes.
#[derive(Drop)]
pub(crate) struct SlowText {
    text: &'static [u8],
    at: usize,
    fails_at: usize,
}

impl SlowText {
    /// The text from its beginning on.
    pub(crate) fn new(text: &'static [u8], fails_at: usize) -> SlowText {
        SlowText {
            text,
            at: 0,
            fails_at,
        }
    }
}

impl Read for SlowText {
    fn read(&mut self, _buf: &mut [u8]) -> io::Result<usize> {
        Ok(0)
    }
}

impl BufRead for SlowText {
    fn fill_buf(&mut self) -> io::Result<&[u8]> {
        if self.at >= self.fails_at {
            return Err(io::Error::from(ErrorKind::Other));
        }
        if self.at < self.text.len() {
            return Ok(&self.text[self.at..self.at + 1]);
        }
        Ok(b"")
    }

    fn consume(&mut self, amount: usize) {
        self.at = self.at.saturating_add(amount);
    }
}
