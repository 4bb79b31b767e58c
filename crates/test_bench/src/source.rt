//! A reader that gives up, as a pipe whose other end is closed does.

use std::io::{self, ErrorKind, Read};

/// Gives a text in pieces, and then nothing but errors, which it counts; or the end of the text, if
/// it has no error to give.
#[derive(Drop)]
pub struct Source<'a> {
    left: &'a [u8],
    piece: usize,
    error: Option<ErrorKind>,
    calls: u32,
    errors: u32,
}

impl<'a> Source<'a> {
    /// Gives this text in pieces of `piece` bytes, and then errors of this kind.
    pub fn new(text: &'a [u8], piece: usize, error: Option<ErrorKind>) -> Source<'a> {
        Source {
            left: text,
            piece,
            error,
            calls: 0,
            errors: 0,
        }
    }

    /// Gives this text at once.
    pub fn whole(text: &'a str) -> Source<'a> {
        Source::new(text.as_bytes(), usize::MAX, None)
    }

    /// How many bytes it has not given.
    pub fn left(&self) -> usize {
        self.left.len()
    }

    /// How often it was read.
    pub fn calls(&self) -> u32 {
        self.calls
    }

    /// How often it gave an error.
    pub fn errors(&self) -> u32 {
        self.errors
    }
}

impl Read for Source<'_> {
    fn read(&mut self, buf: &mut [u8]) -> io::Result<usize> {
        self.calls = self.calls.saturating_add(1);
        if self.left.is_empty() {
            if let Some(kind) = self.error {
                self.errors = self.errors.saturating_add(1);
                return Err(io::Error::from(kind));
            }
        }
        let count = self.piece.min(self.left.len()).min(buf.len());
        let (given, left) = self.left.split_at(count);
        buf[..count].copy_from_slice(given);
        self.left = left;
        Ok(count)
    }
}
