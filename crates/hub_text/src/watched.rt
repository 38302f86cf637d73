ghost use Rattle.std.specs.Prelude.{◌≡◌, ◌||◌, ◌+◌, length, false, OnOk, is_err};
ghost use Rattle.std.specs.Io.{ReadsAtMost, WritesAtMost};
ghost use Rattle.std.specs.Io.KnownBytes.{Appends, Keeps, ReadConsumes, WriteAppends};
ghost use Rattle.hub_text.specs.Devices.{is_failed_write, is_end, AppendsPrefix};

use std::io;
use std::io::{ErrorKind, Read, Write};

/// A reader or a writer with a count of its reads, and with two flags that no later call clears: one that its first failed
/// call sets, and one that the first read sets that meets the end of the input.
///
/// A call that returns an error has failed, an interrupted one too, and so has a write that takes nothing of a piece
/// that isn't empty. A read has met the end if it gives nothing for a buffer that isn't empty. The calls are passed on to
/// the device as they are. Only after `u64::MAX` reads, more than any machine can make, a read fails without asking the
/// device: so the count is always exact.
#[derive(Drop)]
pub struct Watched<D> {
    device: D,
    failed: bool,
    at_end: bool,
    reads: u64,
}

impl<D> Watched<D> {
    /// Watches a device, of which no call was made yet.
    pub fn new(device: D) -> Watched<D>
        ensures device { result.device ≡ device }
        ensures failed { result.failed ≡ false }
        ensures at_end { result.at_end ≡ false }
        ensures reads { result.reads ≡ 0 }
    {
        Watched {
            device,
            failed: false,
            at_end: false,
            reads: 0,
        }
    }

    /// Returns whether a call of the device has failed since `new`.
    pub fn failed(&self) -> bool
        ensures { result ≡ self.now.failed }
    {
        self.failed
    }

    /// Returns whether a read has met the end of the input since `new`.
    pub fn at_end(&self) -> bool
        ensures { result ≡ self.now.at_end }
    {
        self.at_end
    }

    /// Returns how many reads were made since `new`.
    pub fn reads(&self) -> u64
        ensures { result ≡ self.now.reads }
    {
        self.reads
    }

    /// Returns the device, and watches it no longer.
    pub fn into_inner(self) -> D
        ensures { result ≡ self.device }
    {
        self.device
    }
}

impl<R: Read> Read for Watched<R> {
    ghost remaining = { λ w. R.remaining w.device };

    fn read(&mut self, buffer: &mut [u8]) -> io::Result<usize>
        ensures bound { ReadsAtMost result buffer.new }
        ensures bytes { ReadConsumes (R.remaining self.old.device) (R.remaining self.new.device)
            result buffer.new }
        ensures failed { self.new.failed ≡ (self.old.failed || is_err result) }
        ensures at_end { self.new.at_end ≡ (self.old.at_end || is_end (length buffer.new) result) }
        ensures reads { OnOk result (self.new.reads ≡ self.old.reads + 1) }
    {
        let Some(reads) = self.reads.checked_add(1) else {
            self.failed = true;
            return Err(io::Error::from(ErrorKind::Other));
        };
        self.reads = reads;
        let result = self.device.read(buffer);
        match result {
            Ok(0) if !buffer.is_empty() => self.at_end = true,
            Ok(_) => (),
            Err(_) => self.failed = true,
        }
        result
    }
}

impl<W: Write> Write for Watched<W> {
    ghost contents = { λ w. W.contents w.device };

    fn write(&mut self, bytes: &[u8]) -> io::Result<usize>
        ensures bound { WritesAtMost result bytes.now }
        ensures bytes { WriteAppends (W.contents self.old.device) (W.contents self.new.device)
            result bytes.now }
        ensures failed { self.new.failed
            ≡ (self.old.failed || is_failed_write (length bytes.now) result) }
    {
        let result = self.device.write(bytes);
        if is_failed(&result, bytes) {
            self.failed = true;
        }
        result
    }

    fn flush(&mut self) -> io::Result<()>
        ensures bytes { Keeps (W.contents self.old.device) (W.contents self.new.device) }
        ensures failed { self.new.failed ≡ (self.old.failed || is_err result) }
    {
        let result = self.device.flush();
        if result.is_err() {
            self.failed = true;
        }
        result
    }

    /// Writes all of these bytes, or a prefix of them up to the first call that fails. Unlike other writers' `write_all`
    /// it doesn't retry an interrupted call.
    fn write_all(&mut self, bytes: &[u8]) -> io::Result<()>
        ensures bytes { OnOk result (Appends (W.contents self.old.device)
            (W.contents self.new.device) bytes.now) }
        ensures prefix { AppendsPrefix (W.contents self.old.device)
            (W.contents self.new.device) bytes.now }
        ensures failed { self.new.failed ≡ (self.old.failed || is_err result) }
    {
        let mut rest = bytes;
        while !rest.is_empty() {
            let count = self.write(rest)?;
            if count == 0 {
                return Err(io::Error::from(ErrorKind::WriteZero));
            }
            rest = &rest[count..];
        }
        Ok(())
    }
}

/// Returns whether a write of these bytes failed.
fn is_failed(outcome: &io::Result<usize>, bytes: &[u8]) -> bool
    ensures { result ≡ is_failed_write (length bytes.now) outcome.now }
{
    match outcome {
        Ok(count) => *count == 0 && !bytes.is_empty(),
        Err(_) => true,
    }
}
