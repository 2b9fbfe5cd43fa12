// Runs of programs.
ghost use Rattle.std.specs.Prelude.{◌≡◌, ◌+◌, ◌<◌, ◌≤◌, length};
ghost use Rattle.rx_classes.specs.Installing.{CanInstall};
ghost use Rattle.rx_classes.specs.Natives.{message_class};
ghost use Rattle.rx_heap.specs.Objects.{most_objects};

use crate::showing::show_run;
use rx_clause_tree::Package;
use rx_kernel::{Kernel, Stepped};
use rx_machine::{End, first_unbuilt, robin_is_enabled};
use rx_packages::{SourceRefused, parse_package, program_laws};
use rx_tree::{OutOfMemory, Steps, Text};
use std::alloc::{AllocError, Global};
use std::marker::Brand;
use std::sync::ledger::{Blank, Ledger};

/// How many steps a run may take.
const BUDGET: u64 = 1_000;

// Takes the step of an enabled activity. Where it wants a line, the input is at its end. Gives the last activity that took a step.
fn step<L: Ledger>(
    kernel: &mut Kernel,
    last: u32,
    looks: &mut Steps<L>,
) -> Result<Option<u32>, OutOfMemory> {
    robin_is_enabled();
    let End::Going = kernel.finish() else {
        return Ok(None);
    };
    let Some(a) = kernel.next_enabled(last) else {
        return Ok(None);
    };
    match kernel.step(a, looks)? {
        Stepped::Done => Ok(Some(a)),
        Stepped::WantsLine => {
            kernel.give_line(None)?;
            Ok(Some(last))
        }
    }
}

// Runs to the end: each turn is a step, or gives the end of the input, once.
fn run<L: Ledger>(kernel: &mut Kernel, blank: Blank) -> Result<(), OutOfMemory>
    requires name { blank.name ≡ L.name }
    requires parts { blank.parts ≡ L.parts }
    requires some { 0 < blank.parts }
{
    let mut looks = Steps::<L>::new(blank);
    let mut last = 0;
    for _ in 0..BUDGET + 1 {
        match step(kernel, last, &mut looks)? {
            Some(a) => last = a,
            None => return Ok(()),
        }
    }
    Ok(())
}

// The kernel of a program before its first step, with this line of input.
fn begin(alloc: Global, written: Package, line: Option<&[u8]>) -> Result<Kernel, OutOfMemory>
    requires classes { CanInstall written.classes }
    requires few { message_class + length written.classes ≤ most_objects }
{
    let mut kernel = Kernel::begin(alloc, written, None, BUDGET)?;
    if let Some(line) = line {
        if line.len() > Text::LONGEST {
            return Err(OutOfMemory);
        }
        kernel.give_line(Some(Text::from_slice(alloc, line)?))?;
    }
    Ok(kernel)
}

// What a program comes to.
fn tell_program(alloc: Global, written: Package, line: Option<&[u8]>) -> Result<String, AllocError>
    requires classes { CanInstall written.classes }
    requires few { message_class + length written.classes ≤ most_objects }
{
    if let Some(at) = first_unbuilt(&written) {
        return format!(in alloc; "line {at} doesn't run");
    }
    let Ok(mut kernel) = begin(alloc, written, line) else {
        return String::from_str(alloc, "want of memory");
    };
    match run::<Brand>(&mut kernel, Blank::new(1)) {
        Ok(()) => show_run(alloc, &kernel),
        Err(_) => String::from_str(alloc, "want of memory"),
    }
}

/// What a source comes to with this line of input, or with none.
pub fn tell_run(alloc: Global, source: &[u8], line: Option<&[u8]>) -> Result<String, AllocError> {
    program_laws();
    match parse_package(alloc, source) {
        Ok(written) => tell_program(alloc, written, line),
        Err(SourceRefused::Bad { line, number }) => format!(in alloc; "line {line} error {number}"),
        Err(_) => String::from_str(alloc, "no program"),
    }
}
