// Whether a source is a program.
ghost use Rattle.rx_packages.specs.Checking.{IsChecked};

use crate::program::parse_package;
use crate::refused::SourceRefused;
use std::alloc::Global;

/// What a check of a source tells.
#[derive(Clone, Copy, Debug, PartialEq, Eq)]
pub enum Checked {
    /// It is a program.
    Fine,
    /// It breaks a rule of the language: the line, from 1, and the error's number.
    Refused { line: u32, number: u8 },
    /// It has more than 4,194,304 bytes.
    LongSource,
    /// More than 250 brackets are open at once.
    DeepSource,
    /// A growth of memory was refused.
    NoMemory,
}

/// Whether a source is a program, and else why it is none. The refusals are tried in the order of `parse_package`.
pub fn check_source(alloc: Global, source: &[u8]) -> Checked
    ensures checked { IsChecked source.now result }
{
    match parse_package(alloc, source) {
        Ok(_) => Checked::Fine,
        Err(SourceRefused::Bad { line, number }) => Checked::Refused { line, number },
        Err(SourceRefused::Long) => Checked::LongSource,
        Err(SourceRefused::Deep) => Checked::DeepSource,
        Err(SourceRefused::OutOfMemory) => Checked::NoMemory,
    }
}
