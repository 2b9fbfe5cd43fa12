// Whether a source is a program.
use rx_escape::unescape;
use rx_packages::{Checked, check_source};
use std::alloc::{AllocError, Global};

/// What a case comes to, a source.
pub fn tell_check(alloc: Global, case: &str) -> Result<String, AllocError> {
    let source = unescape(alloc, case.as_bytes())?;
    match check_source(alloc, source.as_slice()) {
        Checked::Fine => format!(in alloc; "fine"),
        Checked::Refused { line, number } => format!(in alloc; "line {line} error {number}"),
        Checked::LongSource => format!(in alloc; "too long"),
        Checked::DeepSource => format!(in alloc; "too deep"),
        Checked::NoMemory => Err(AllocError),
    }
}
