//! Reading certificates.
ghost use Rattle.std.specs.Prelude.{◌≡◌, ◌⊎◌, Ok, Err, IfOk, IfErr};
ghost use Rattle.hub_cert.specs.Reading as reading;

use crate::certificate::Certificate;
use crate::certificate::draft::Draft;
use crate::fault::CheckFault;
use hub_text::{Items, Lines};
use std::alloc::Global;

/// Reads certificates from the bytes of their text (docs/CERTIFICATES.md).
///
/// The fault is `BadText` with the number of the lowest line that is faulty, from 1 on; if none is and there is no `end`,
/// with the number of the line after the last. Any call may instead report `OutOfMemory`.
pub fn read_certificates(alloc: Global, bytes: &[u8]) -> Result<Items<Certificate>, CheckFault>
    ensures ok { IfOk result (λ cs. reading.certificates_in bytes.now ≡ Ok cs) }
    ensures err { IfErr result (λ e. (e ≡ CheckFault.OutOfMemory)
        ⊎ (reading.certificates_in bytes.now ≡ Err e)) }
{
    let mut draft = Draft::new(alloc);
    let mut number = 0;
    for line in Lines::new(bytes) {
        number += 1;
        match draft.with_line(alloc, line)? {
            Some(next) => draft = next,
            None => return Err(CheckFault::BadText { line: number }),
        }
    }
    draft.finish(number + 1)
}
