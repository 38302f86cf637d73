//! Readers that give an input in pieces, and a writer that takes an answer in pieces. Each call is counted, and one of them may
//! fail.

use std::alloc::Global;
use std::io::{ErrorKind, Read, Write};
use std::{cmp, io};

/// How many calls of a device are made to fail, one after the other, at most.
pub(crate) const CALLS: usize = 10_000;

/// Gives a text some bytes at a time.
#[derive(Drop)]
pub(crate) struct Pieces<'a> {
    /// What is left of the text.
    left: &'a [u8],
    /// How many bytes come at a time.
    size: usize,
    /// The number of the read that fails. The first one is 1.
    failing: usize,
    /// How many reads were made.
    pub(crate) calls: usize,
}

impl<'a> Pieces<'a> {
    /// Gives this text, so many bytes at a time. The read with the number `failing` fails; there is no read 0.
    pub(crate) fn new(left: &'a [u8], size: usize, failing: usize) -> Pieces<'a> {
        Pieces {
            left,
            size,
            failing,
            calls: 0,
        }
    }
}

impl<'a> Read for Pieces<'a> {
    fn read(&mut self, buf: &mut [u8]) -> io::Result<usize> {
        self.calls = self.calls.saturating_add(1);
        if self.calls == self.failing {
            return Err(io::Error::from(ErrorKind::Interrupted));
        }
        let count = cmp::min(cmp::min(self.size, buf.len()), self.left.len());
        buf[..count].copy_from_slice(&self.left[..count]);
        self.left = &self.left[count..];
        Ok(count)
    }
}

/// As many blanks as come at a time, at most.
const BLANKS: [u8; 4_096] = [b' '; 4_096];

/// Gives blanks.
#[derive(Drop)]
pub(crate) struct Blanks {
    /// How many are left. `usize::MAX` is more than any test reads.
    pub(crate) left: usize,
    /// How many come at a time.
    pub(crate) size: usize,
    /// How many reads were made.
    pub(crate) calls: usize,
}

impl Read for Blanks {
    fn read(&mut self, buf: &mut [u8]) -> io::Result<usize> {
        self.calls = self.calls.saturating_add(1);
        let room = cmp::min(buf.len(), BLANKS.len());
        let count = cmp::min(cmp::min(self.size, self.left), room);
        buf[..count].copy_from_slice(&BLANKS[..count]);
        self.left -= count;
        Ok(count)
    }
}

/// How a call of a writer fails.
#[derive(Clone, Copy)]
pub(crate) enum Failure {
    /// It returns an error.
    Error,
    /// It returns that it was interrupted.
    Interrupted,
    /// It takes nothing. A flush returns an error.
    Full,
}

/// Keeps what is written, some bytes at a time.
#[derive(Drop)]
pub(crate) struct Kept {
    /// What was written.
    pub(crate) text: Vec<u8>,
    /// How many bytes it takes at a time.
    size: usize,
    /// The number of the call that fails, a write or a flush. The first one is 1.
    failing: usize,
    /// How it fails.
    failure: Failure,
    /// How many calls were made.
    pub(crate) calls: usize,
}

impl Kept {
    /// Takes all that is written.
    pub(crate) fn new(alloc: Global) -> Kept {
        Kept::failing(alloc, usize::MAX, 0, Failure::Error)
    }

    /// Takes so many bytes at a time. The call with the number `failing` fails; there is no call 0.
    pub(crate) fn failing(alloc: Global, size: usize, failing: usize, failure: Failure) -> Kept {
        Kept {
            text: Vec::new(alloc),
            size,
            failing,
            failure,
            calls: 0,
        }
    }
}

impl Write for Kept {
    fn write(&mut self, buf: &[u8]) -> io::Result<usize> {
        self.calls = self.calls.saturating_add(1);
        if self.calls == self.failing {
            return match self.failure {
                Failure::Error => Err(io::Error::from(ErrorKind::Other)),
                Failure::Interrupted => Err(io::Error::from(ErrorKind::Interrupted)),
                Failure::Full => Ok(0),
            };
        }
        let count = cmp::min(buf.len(), self.size);
        self.text.extend_from_slice(&buf[..count])?;
        Ok(count)
    }

    fn flush(&mut self) -> io::Result<()> {
        self.calls = self.calls.saturating_add(1);
        if self.calls == self.failing {
            return Err(io::Error::from(ErrorKind::Other));
        }
        Ok(())
    }
}
