// Whether the source of a file is a program.
ghost use Rattle.std.specs.Prelude.{◌≡◌, ℕ, List, IfOk, Option};
ghost use Rattle.rx_top.specs.Conclusions.{ChecksFile, IsToldOf};
ghost use Rattle.rx_top.specs.Ports.{supplies};

use crate::conclusion::Conclusion;
use crate::loading::ASKED;
use crate::refusing::{tell_bad, tell_deep, tell_long};
use rx_packages::{Checked, check_source};
use rx_ports::{Fetched, Shelf};
use rx_tree::OutOfMemory;
use std::alloc::Global;

// What there is to tell of a source by what its check tells, or want of memory.
fn tell_checked(alloc: Global, checked: Checked) -> Result<Conclusion, OutOfMemory>
    ensures { IfOk result (IsToldOf checked) }
{
    match checked {
        Checked::Fine => Conclusion::fine(alloc, b"ok\n"),
        Checked::Refused { line, number } => tell_bad(alloc, line, number),
        Checked::LongSource => tell_long(alloc),
        Checked::DeepSource => tell_deep(alloc),
        Checked::NoMemory => Err(OutOfMemory),
    }
}

/// Tells whether the source of a file is a program, and else why it is none; or wants memory. It reads no input.
pub fn check_file<F: Shelf>(
    alloc: Global,
    shelf: &mut F,
    name: &[u8],
) -> Result<Conclusion, OutOfMemory>
    ensures conclusion { IfOk result (λ told. (input : Option (List ℕ)) (faults : ℕ) → ChecksFile name.now
        (supplies (F.files shelf.old) (F.faults shelf.old) input faults) (supplies (F.files shelf.new) (F.faults shelf.new) input faults) told) }
    ensures files { F.files shelf.new ≡ F.files shelf.old }
{
    match shelf.fetch(alloc, name, ASKED) {
        Fetched::Bytes(source) => tell_checked(alloc, check_source(alloc, source.as_slice())),
        Fetched::Failed => Conclusion::refused(alloc, 244, b"REX244 shelf\n"),
        Fetched::NoMemory => Err(OutOfMemory),
    }
}
