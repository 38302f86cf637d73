//! Readers and writers that take a text in pieces, and that fail.

use std::alloc::Global;
use std::io::{ErrorKind, Read, Write};
use std::{cmp, io};

/// Gives a text some bytes at a time.
#[derive(Drop)]
pub(crate) struct Pieces<'a> {
    /// What is left of the text.
    pub(crate) left: &'a [u8],
    /// How many bytes come at a time.
    pub(crate) size: usize,
}

impl<'a> Read for Pieces<'a> {
    fn read(&mut self, buf: &mut [u8]) -> io::Result<usize> {
        let count = cmp::min(cmp::min(self.size, buf.len()), self.left.len());
        buf[..count].copy_from_slice(&self.left[..count]);
        self.left = &self.left[count..];
        Ok(count)
    }
}

/// Gives a text one byte at a time, and then fails.
#[derive(Drop)]
pub(crate) struct Failing<'a> {
    /// What is left of the text.
    pub(crate) left: &'a [u8],
}

impl<'a> Read for Failing<'a> {
    fn read(&mut self, buf: &mut [u8]) -> io::Result<usize> {
        match self.left.split_first() {
            Some((byte, rest)) if !buf.is_empty() => {
                buf[0] = *byte;
                self.left = rest;
                Ok(1)
            }
            _ => Err(io::Error::from(ErrorKind::Interrupted)),
        }
    }
}

/// Keeps what is written, at most 1,000 bytes at a time, and fails after some writes.
#[derive(Drop)]
pub(crate) struct Kept {
    /// What was written.
    pub(crate) text: Vec<u8>,
    /// How many writes are left.
    pub(crate) writes: usize,
}

impl Kept {
    /// A writer that has kept nothing yet.
    pub(crate) fn new(alloc: Global, writes: usize) -> Kept {
        Kept {
            text: Vec::new(alloc),
            writes,
        }
    }
}

impl Write for Kept {
    fn write(&mut self, buf: &[u8]) -> io::Result<usize> {
        if self.writes == 0 {
            return Err(io::Error::from(ErrorKind::Other));
        }
        self.writes -= 1;
        let count = cmp::min(buf.len(), 1000);
        self.text.extend_from_slice(&buf[..count])?;
        Ok(count)
    }

    fn flush(&mut self) -> io::Result<()> {
        Ok(())
    }
}
