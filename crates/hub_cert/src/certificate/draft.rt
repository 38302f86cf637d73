//! What the lines of a text of certificates say so far.
ghost use Rattle.std.specs.Prelude.{◌≡◌, ◌⊎◌, ◌≤◌, Ok, Err, IfOk, IfErr};
ghost use Rattle.hub_text.specs.Takes.{of_bytes};
ghost use Rattle.hub_cert.specs.Reading as reading;

use crate::certificate::Certificate;
use crate::certificate::row::{read_goal, read_stage};
use crate::fault::CheckFault;
use crate::goal::Goal;
use crate::verifier::stage_texts::StageTexts;
use hub_text::{Items, Line};
use std::alloc::{AllocError, Global};

/// What may come next.
#[derive(Clone, Copy, Debug)]
pub(crate) enum Part {
    /// The header.
    Header,
    /// A goal, a stage of the last goal, or the end.
    Certificates,
    /// Nothing: the end has been read.
    Nothing,
}

/// The certificates that have been read. Stage lines add to the last one.
#[derive(Debug, Drop)]
pub(crate) struct Draft {
    part: Part,
    certificates: Items<Certificate>,
    last: Option<Certificate>,
}

impl Draft {
    /// Begins before the first line.
    pub(crate) fn new(alloc: Global) -> Draft
        ensures { result ≡ reading.nothing_read }
    {
        Draft {
            part: Part::Header,
            certificates: Items::new(alloc),
            last: None,
        }
    }

    /// Takes the next line. Returns `None` if it is faulty.
    pub(crate) fn with_line(
        self,
        alloc: Global,
        line: Line<&[u8]>,
    ) -> Result<Option<Draft>, AllocError>
        ensures { IfOk result (λ o. o ≡ reading.with_line self (of_bytes line.entry)) }
    {
        match self.part {
            Part::Header => Ok(self.with_header(line)),
            Part::Certificates => self.with_body(alloc, line),
            Part::Nothing => Ok(None),
        }
    }

    /// Returns the certificates after the last line. `line` is the number of the line after it.
    pub(crate) fn finish(self, line: usize) -> Result<Items<Certificate>, CheckFault>
        ensures { result ≡ reading.finished_list self.part self.certificates line }
    {
        match self.part {
            Part::Header | Part::Certificates => Err(CheckFault::BadText { line }),
            Part::Nothing => Ok(self.certificates),
        }
    }

    fn with_header(self, line: Line<&[u8]>) -> Option<Draft>
        ensures { result ≡ reading.with_header self (of_bytes line.entry) }
    {
        if line.is_ended && line.text == b"hubsync certificates 1".as_slice() {
            Some(Draft {
                part: Part::Certificates,
                certificates: self.certificates,
                last: self.last,
            })
        } else {
            None
        }
    }

    fn with_body(self, alloc: Global, line: Line<&[u8]>) -> Result<Option<Draft>, AllocError>
        ensures { IfOk result (λ o. o ≡ reading.with_body self (of_bytes line.entry)) }
    {
        if line.text == b"end".as_slice() {
            return Ok(Some(self.with_end()?));
        }
        if !line.is_ended {
            return Ok(None);
        }
        match read_goal(line.text) {
            Some(goal) => Ok(Some(self.with_goal(alloc, goal)?)),
            None => self.with_stage(alloc, line.text),
        }
    }

    fn with_end(self) -> Result<Draft, AllocError>
        ensures { IfOk result (λ d. d ≡ reading.with_end self) }
    {
        Ok(Draft {
            part: Part::Nothing,
            certificates: self.closed()?,
            last: None,
        })
    }

    /// Begins the certificate of a goal.
    fn with_goal(self, alloc: Global, goal: Goal) -> Result<Draft, AllocError>
        ensures { IfOk result (λ d. d ≡ reading.with_goal self goal) }
    {
        Ok(Draft {
            part: Part::Certificates,
            certificates: self.closed()?,
            last: Some(Certificate {
                goal,
                stages: StageTexts::new(alloc),
            }),
        })
    }

    /// Adds a stage line's text to the last certificate.
    fn with_stage(self, alloc: Global, line: &[u8]) -> Result<Option<Draft>, AllocError>
        ensures { IfOk result (λ o. o ≡ reading.with_stage self (reading.stage_text_in line.now)) }
    {
        let Draft {
            part,
            certificates,
            last,
        } = self;
        match with_text(alloc, last, line)? {
            Some(last) => Ok(Some(Draft {
                part,
                certificates,
                last: Some(last),
            })),
            None => Ok(None),
        }
    }

    /// Returns all certificates, with the last one.
    fn closed(self) -> Result<Items<Certificate>, AllocError>
        ensures { IfOk result (λ cs. cs ≡ reading.all_certificates self) }
    {
        let Draft {
            part: _,
            mut certificates,
            last,
        } = self;
        if let Some(Certificate { goal, mut stages }) = last {
            stages.shrink_to_fit();
            certificates.push(Certificate { goal, stages })?;
        }
        Ok(certificates)
    }
}

/// Adds a stage line's text to a certificate, if there is one and the line is a stage line.
fn with_text(
    alloc: Global,
    last: Option<Certificate>,
    line: &[u8],
) -> Result<Option<Certificate>, AllocError>
    ensures { IfOk result (λ o. o ≡ reading.with_stage_text last (reading.stage_text_in line.now)) }
{
    let Some(certificate) = last else {
        return Ok(None);
    };
    let Some(text) = read_stage(alloc, line)? else {
        return Ok(None);
    };
    let Certificate { goal, mut stages } = certificate;
    stages.push(text.as_str())?;
    Ok(Some(Certificate { goal, stages }))
}
