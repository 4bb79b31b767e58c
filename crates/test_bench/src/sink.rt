//! A writer that gives up, as a pipe whose other end is closed does.

use std::alloc::Global;
use std::io::{self, ErrorKind, Write};

/// How a writer gives up.
#[derive(Clone, Copy)]
pub enum Failure {
    /// It gives errors of this kind.
    Error(ErrorKind),
    /// It takes no byte.
    TakesNothing,
    /// It takes every byte, but its flush is an error.
    Flush,
}

/// Takes `room` bytes in pieces, and then fails at each call. It counts calls and failures.
#[derive(Drop)]
pub struct Sink {
    taken: Vec<u8>,
    room: usize,
    piece: usize,
    failure: Failure,
    failures: u32,
    calls: u32,
    most: usize,
}

impl Sink {
    /// Takes all.
    pub fn ample(alloc: Global) -> Sink {
        Sink::new(alloc, usize::MAX, usize::MAX, Failure::TakesNothing)
    }

    /// Takes `room` bytes in pieces, and then fails in this way.
    pub fn new(alloc: Global, room: usize, piece: usize, failure: Failure) -> Sink {
        Sink {
            taken: Vec::new(alloc),
            room,
            piece,
            failure,
            failures: 0,
            calls: 0,
            most: 0,
        }
    }

    /// The bytes that it took.
    pub fn taken(&self) -> &[u8] {
        self.taken.as_slice()
    }

    /// How often it failed.
    pub fn failures(&self) -> u32 {
        self.failures
    }

    /// How often it was written to, and the most bytes that it was given at once.
    pub fn calls(&self) -> (u32, usize) {
        (self.calls, self.most)
    }
}

impl Write for Sink {
    fn write(&mut self, buf: &[u8]) -> io::Result<usize> {
        self.calls = self.calls.saturating_add(1);
        self.most = self.most.max(buf.len());
        if self.room == 0 {
            self.failures = self.failures.saturating_add(1);
            return match self.failure {
                Failure::Error(kind) => Err(io::Error::from(kind)),
                Failure::TakesNothing | Failure::Flush => Ok(0),
            };
        }
        let count = self.piece.min(self.room).min(buf.len());
        self.taken.extend_from_slice(&buf[..count])?;
        self.room -= count;
        Ok(count)
    }

    fn flush(&mut self) -> io::Result<()> {
        if matches!(self.failure, Failure::Flush) {
            self.failures = self.failures.saturating_add(1);
            return Err(io::Error::from(ErrorKind::Interrupted));
        }
        Ok(())
    }
}
