//! Devices of which the first bytes are kept.
ghost use Rattle.std.specs.Prelude.{◌≡◌};

use hub_remarks::FirstBytes;
use std::alloc::{AllocError, Global};
use std::cell::RefCell;
use std::io;
use std::io::{Read, Write};

/// The first bytes that passed through a device, up to a limit, and the device's last error.
#[derive(Drop)]
pub struct Prefix {
    bytes: Vec<u8>,
    limit: usize,
    is_whole: bool,
    is_lost: bool,
    error: Option<io::Error>,
}

impl Prefix {
    /// Nothing has passed, and so many bytes are kept at most. It doesn't allocate.
    pub fn new(alloc: Global, limit: usize) -> Prefix {
        Prefix {
            bytes: Vec::new(alloc),
            limit,
            is_whole: true,
            is_lost: false,
            error: None,
        }
    }

    /// Borrows the bytes. An error if memory for some of them was refused.
    pub fn first_bytes(&self) -> Result<FirstBytes<'_>, AllocError> {
        if self.is_lost {
            return Err(AllocError);
        }
        Ok(FirstBytes {
            bytes: self.bytes.as_slice(),
            is_whole: self.is_whole,
        })
    }

    /// The device's last error.
    pub fn error(&self) -> Option<io::Error> {
        self.error
    }

    /// Keeps the first of these bytes, as many as there is room for. When memory is out, it keeps no more.
    fn keep(&mut self, bytes: &[u8]) {
        let room = self.limit.saturating_sub(self.bytes.len());
        let count = bytes.len().min(room);
        if count < bytes.len() {
            self.is_whole = false;
        }
        if self.bytes.extend_from_slice(&bytes[..count]).is_err() {
            self.limit = 0;
            self.is_lost = true;
        }
    }
}

/// A reader or a writer of which the first bytes are kept elsewhere. The calls are passed on to the device as they are.
#[derive(Drop)]
pub struct Captured<'a, D> {
    device: D,
    prefix: &'a RefCell<Prefix>,
}

impl<'a, D> Captured<'a, D> {
    /// Keeps there what passes through a device.
    pub fn new(device: D, prefix: &'a RefCell<Prefix>) -> Captured<'a, D>
        ensures { result.device ≡ device }
    {
        Captured { device, prefix }
    }
}

impl<'a, R: Read> Read for Captured<'a, R> {
    ghost remaining = { λ k. R.remaining k.device };

    fn read(&mut self, buffer: &mut [u8]) -> io::Result<usize> {
        let result = self.device.read(buffer);
        match result {
            Ok(count) => keep(self.prefix, &buffer[..count]),
            Err(error) => keep_error(self.prefix, error),
        }
        result
    }
}

impl<'a, W: Write> Write for Captured<'a, W> {
    ghost contents = { λ k. W.contents k.device };

    fn write(&mut self, bytes: &[u8]) -> io::Result<usize> {
        let result = self.device.write(bytes);
        match result {
            Ok(count) => keep(self.prefix, &bytes[..count]),
            Err(error) => keep_error(self.prefix, error),
        }
        result
    }

    fn flush(&mut self) -> io::Result<()> {
        let result = self.device.flush();
        if let Err(error) = result {
            keep_error(self.prefix, error);
        }
        result
    }
}

/// Keeps bytes.
fn keep(prefix: &RefCell<Prefix>, bytes: &[u8]) {
    if let Ok(mut prefix) = prefix.try_borrow_mut() {
        prefix.keep(bytes);
    }
}

/// Keeps an error.
fn keep_error(prefix: &RefCell<Prefix>, error: io::Error) {
    if let Ok(mut prefix) = prefix.try_borrow_mut() {
        prefix.error = Some(error);
    }
}
