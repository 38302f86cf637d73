//! Questions about watched devices.
ghost use Rattle.std.specs.Prelude.{◌≤◌, IfOk};

use anyhow::{Result, bail};
use hub_text::Watched;
use std::alloc::Global;
use std::io;
use std::io::{ErrorKind, Read, Write};
use test_kit::yes_or_no;

/// A device whose calls take so many bytes, or fail.
#[derive(Drop)]
struct Device {
    answer: Option<usize>,
}

impl Device {
    fn call(&self, room: usize) -> io::Result<usize>
        ensures { IfOk result (λ count. count ≤ room) }
    {
        match self.answer {
            Some(count) => Ok(count.min(room)),
            None => Err(io::Error::from(ErrorKind::Interrupted)),
        }
    }
}

impl Read for Device {
    fn read(&mut self, buffer: &mut [u8]) -> io::Result<usize> {
        self.call(buffer.len())
    }
}

impl Write for Device {
    fn write(&mut self, bytes: &[u8]) -> io::Result<usize> {
        self.call(bytes.len())
    }

    fn flush(&mut self) -> io::Result<()> {
        self.call(0)?;
        Ok(())
    }
}

/// Answers whether a device has failed after a call. The first field is how many bytes the call takes, or `error`.
///
/// The calls are `write` with the bytes of a second field, `read` and `flush`.
pub(crate) fn answer(alloc: Global, call: &str, texts: &[String]) -> Result<String> {
    let (answer, bytes) = match texts {
        [answer] => (answer.as_str(), ""),
        [answer, bytes] => (answer.as_str(), bytes.as_str()),
        _ => bail!("not one or two fields"),
    };
    let answer = taken(answer)?;
    let failed = has_failed(call, Device { answer }, bytes.as_bytes())?;
    yes_or_no(alloc, failed)
}

/// How many bytes a call takes, unless it fails.
fn taken(text: &str) -> Result<Option<usize>> {
    if text == "error" {
        return Ok(None);
    }
    Ok(Some(text.parse::<usize>()?))
}

/// Returns whether a device has failed after a call.
fn has_failed(call: &str, device: Device, bytes: &[u8]) -> Result<bool> {
    let mut device = Watched::new(device);
    make_call(call, &mut device, bytes)?;
    Ok(device.failed())
}

/// Makes a call of a device, whatever comes of it.
fn make_call(call: &str, device: &mut Watched<Device>, bytes: &[u8]) -> Result<()> {
    match call {
        "write" => {
            let _ = device.write(bytes);
        }
        "read" => {
            let _ = device.read(&mut [0]);
        }
        "flush" => {
            let _ = device.flush();
        }
        _ => bail!("an unknown call"),
    }
    Ok(())
}
