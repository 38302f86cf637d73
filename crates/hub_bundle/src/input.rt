//! The bytes of an input, in bounded reads.
ghost use Rattle.std.specs.Prelude.{◌≡◌, ◌+◌, ◌≤◌, length, false, true, IfOk, IfSome, IsErrOf, OnOk};
ghost use Rattle.hub_bundle.specs.Input.{says_read_failed};

use hub_text::Watched;
use std::alloc::{AllocError, Global};
use std::io::Read;
use thiserror::Error;

/// How many bytes one read of the input asks for at most.
pub const READ_BYTES: usize = 4_096;

/// How many reads one input may take. The read that meets its end counts too.
pub const READ_TURNS: usize = 1_000_000;

/// Why an input was not read.
#[derive(Clone, Copy, Debug, PartialEq, Eq, Error)]
pub enum InputFault {
    /// A read failed.
    #[error("ReadFailed")]
    ReadFailed,
    /// `READ_TURNS` reads did not reach the end.
    #[error("TurnsSpent")]
    TurnsSpent,
    /// Out of memory.
    #[error("OutOfMemory")]
    OutOfMemory,
}

impl From<AllocError> for InputFault {
    ghost use Rattle.hub_bundle.specs.declared.input.InputFault.TheVariants.{OutOfMemory};
    ghost use Rattle.std.specs.Prelude.{◌≡◌};

    ghost from_gives = { λ _ e. e ≡ OutOfMemory };

    fn from(_: AllocError) -> Self {
        InputFault::OutOfMemory
    }
}

/// Reads all bytes of the input, in reads of at most `READ_BYTES` bytes.
///
/// Returns `ReadFailed` exactly when a read failed, and reads no further then. Returns `TurnsSpent` only if `READ_TURNS` reads
/// were made and none of them met the end: such an input has at least `READ_TURNS` bytes. Returns `OutOfMemory` if there is no
/// memory for the bytes. Returns the bytes only if a read met the end. So for an input that never ends, the result is a fault.
/// After a fault, the input is where the last read left it.
pub fn read_input<R: Read>(alloc: Global, input: &mut Watched<R>) -> Result<Vec<u8>, InputFault>
    requires { input.old.failed ≡ false }
    ensures whole { IfOk result (λ v. IfSome (R.remaining input.old.device)
        (λ bytes. v.items ≡ bytes)) }
    ensures turns_spent { IsErrOf result InputFault.TurnsSpent
        → IfSome (R.remaining input.old.device) (λ bytes. READ_TURNS ≤ length bytes) }
    ensures failed { input.new.failed ≡ says_read_failed result }
    ensures at_end { OnOk result (input.new.at_end ≡ true) }
    ensures reads { IsErrOf result InputFault.TurnsSpent
        → input.new.reads ≡ input.old.reads + READ_TURNS }
    ensures no_end { IsErrOf result InputFault.TurnsSpent
        → input.new.at_end ≡ input.old.at_end }
{
    let mut bytes = Vec::new(alloc);
    let mut buffer = [0; READ_BYTES];
    for _ in 0..READ_TURNS {
        let Ok(count) = input.read(&mut buffer) else {
            return Err(InputFault::ReadFailed);
        };
        if count == 0 {
            return Ok(bytes);
        }
        bytes.extend_from_slice(&buffer[..count])?;
    }
    Err(InputFault::TurnsSpent)
}
