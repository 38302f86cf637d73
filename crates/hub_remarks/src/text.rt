//! Remarks on faults of a state and of certificates.

use hub_source::{Said, Source, SourceLine, say, say_line};
use hub_state::{Fault, StateFault};

/// What `certify` writes of a set that isn't safe.
const REFUSALS: &[&str] = &[
    "overlap: ",
    "breach: ",
    "refused: ",
    "too large: ",
    "fault: ",
];

/// Says what to do about a fault of the state, by its section.
pub(crate) fn say_state_fault(
    out: &mut String,
    source: &Source<'_>,
    section: usize,
    fault: StateFault,
) -> Said {
    let Some(line) = source.line(section, fault.line) else {
        return say(out, state_remedy(fault.fault));
    };
    say_line(out, source.alloc(), &line)?;
    say(out, line_remedy(source, &line, fault.fault))
}

/// What to do about a line of a state that has a fault.
fn line_remedy(source: &Source<'_>, line: &SourceLine<'_>, fault: Fault) -> &'static str {
    if line.bytes.ends_with(b"\r") {
        return "lines of a state end with LF alone, and this one with CR and LF";
    }
    if is_below_end(source, line) {
        return "nothing may follow the line end of a state, not even a blank line";
    }
    state_remedy(fault)
}

/// Returns whether the line `end` of its section stands above a line.
fn is_below_end(source: &Source<'_>, line: &SourceLine<'_>) -> bool {
    for other in source.section_lines(line.section) {
        if other.number < line.number && other.bytes == b"end".as_slice() {
            return true;
        }
    }
    false
}

/// What to do about a fault of a state's line.
fn state_remedy(fault: Fault) -> &'static str {
    match fault {
        Fault::BadHeader => "the first line below %state is hubsync state 1 or hubsync state 2",
        Fault::BadLine => {
            "a state has no blank lines and no comments: docs/REFERENCE.md shows its lines"
        }
        Fault::BadPath => "a path of a state is below its root, without a / at an end, . and ..",
        Fault::BadHex => "file, one space, hexadecimal digits or -, one space, the path",
        Fault::NoParent => "a line dir for the folder of this path is missing above it",
        Fault::Repeated => "it is in the state already: keep one of the two lines",
        Fault::TooLarge => {
            "a file has at most 1,048,576 bytes, and a state at most 100,000 entries"
        }
        Fault::Truncated => "the last line of a state is end, and a line end follows it",
        Fault::UnknownBlob => "a line blob with this SHA-256 is missing above it",
        Fault::WrongDigest => "the bytes of the blob have another SHA-256: they were changed",
        _ => "docs/REFERENCE.md shows the lines of a state",
    }
}

/// Says what to do about a faulty line of the certificates, by their section.
pub(crate) fn say_certificates_fault(
    out: &mut String,
    source: &Source<'_>,
    section: usize,
    number: usize,
) -> Said {
    let Some(line) = source.line(section, number) else {
        return say(out, "certificates are as hubsync certify wrote them");
    };
    say_line(out, source.alloc(), &line)?;
    say(out, certificates_remedy(&line))
}

/// What to do about a faulty line of the certificates.
fn certificates_remedy(line: &SourceLine<'_>) -> &'static str {
    if is_refusal(line.text()) {
        return "hubsync certify wrote this answer and no certificates";
    }
    if line.bytes.ends_with(b"\r") {
        return "lines of certificates end with LF alone, and this one with CR and LF";
    }
    "certificates are as hubsync certify wrote them: make them anew"
}

/// Returns whether a line is an answer that refuses a set.
fn is_refusal(line: &str) -> bool {
    REFUSALS.iter().any(|start| line.starts_with(*start))
}
