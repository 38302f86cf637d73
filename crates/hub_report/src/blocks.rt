//! Texts in blocks.
ghost use Rattle.std.specs.Prelude.{◌≡◌, ◌++◌, IfOk, OnErr, OnOk, Some};
ghost use Rattle.std.specs.Io.{WritesAtMost};
ghost use Rattle.std.specs.Io.KnownBytes.{Keeps, WriteAppends};
ghost use Rattle.std.specs.List.{flat_map};
ghost use Rattle.hub_report.specs.Blocks.{bytes_in};

use std::alloc::{AllocError, Global};
use std::io;
use std::io::Write;

/// What is written goes to the last block until this has so many bytes, 64 KiB. So a short text is written at once.
const BLOCK_BYTES: usize = 65_536;

/// A text in blocks. What is written to it goes to its last block, or to a new one if that has 64 KiB. So a long text stays
/// where it is as it grows.
#[derive(Drop)]
pub struct Blocks {
    alloc: Global,
    blocks: Vec<Vec<u8>>,
}

impl Blocks {
    /// A text of one block.
    pub fn new(alloc: Global, block: Vec<u8>) -> Result<Blocks, AllocError>
        ensures { IfOk result (λ t. bytes_in t ≡ block.items) }
    {
        let mut blocks = Vec::new(alloc);
        blocks.push(block)?;
        Ok(Blocks { alloc, blocks })
    }

    /// Adds a block of these bytes.
    fn push(&mut self, bytes: &[u8]) -> Result<(), AllocError>
        ensures ok { OnOk result (bytes_in self.new ≡ bytes_in self.old ++ bytes.now) }
        ensures err { OnErr result (bytes_in self.new ≡ bytes_in self.old) }
    {
        let block = Vec::from_slice(self.alloc, bytes)?;
        match self.blocks.push(block) {
            Ok(()) => Ok(()),
            Err(_) => Err(AllocError),
        }
    }

    /// Borrows the blocks, in order.
    pub fn as_slice(&self) -> &[Vec<u8>]
        ensures { flat_map (λ b. b.items) result.now ≡ bytes_in self.now }
    {
        self.blocks.as_slice()
    }
}

/// A text of one block, with these bytes.
pub fn block_of(alloc: Global, text: &str) -> Result<Blocks, AllocError>
    ensures { IfOk result (λ t. bytes_in t ≡ text.now) }
{
    Blocks::new(alloc, Vec::from_slice(alloc, text.as_bytes())?)
}

impl Write for Blocks {
    ghost use Rattle.std.specs.Prelude.{Some};
    ghost use Rattle.hub_report.specs.Blocks.{bytes_in};

    ghost contents = { λ t. Some (bytes_in t) };

    fn write(&mut self, bytes: &[u8]) -> io::Result<usize>
        ensures bound { WritesAtMost result bytes.now }
        ensures bytes { WriteAppends (Some (bytes_in self.old)) (Some (bytes_in self.new))
            result bytes.now }
    {
        match self.blocks.last_mut() {
            Some(last) if last.len() < BLOCK_BYTES => last.extend_from_slice(bytes)?,
            _ => self.push(bytes)?,
        }
        Ok(bytes.len())
    }

    fn flush(&mut self) -> io::Result<()>
        ensures { Keeps (Some (bytes_in self.old)) (Some (bytes_in self.new)) }
    {
        Ok(())
    }
}
