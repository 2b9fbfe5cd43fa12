// A run from its first step to its end.
ghost use Rattle.std.specs.Prelude.{◌≡◌, [], false, IfOk, IsTrue, Ok, OnOk};
ghost use Rattle.rx_ports.specs.Causes.{HasCause};
ghost use Rattle.rx_machine.specs.Enabled.{enabled};
ghost use Rattle.rx_machine.specs.End.{end};
ghost use Rattle.rx_machine.specs.Laws.{IsTaken};
ghost use Rattle.rx_machine.specs.Step.{step};
ghost use Rattle.rx_machine.specs.World.{WantsLine};
ghost use Rattle.rx_top.specs.Ports.{Shrinks};
ghost use Rattle.rx_top.specs.Running.{IsCourse, IsNextPick, IsStarved, IsTakenBy, IsTried};

use crate::feeding::{Fed, feed};
use rx_kernel::{Kernel, Stepped};
use rx_machine::End;
use rx_ports::Source;
use rx_tree::{OutOfMemory, Steps};
use std::alloc::Global;
use std::sync::ledger::Ledger;

/// What a run came to, with the activities that took its steps, in order.
#[derive(Drop)]
pub enum Course {
    /// It ended.
    Ended(Vec<u32>),
    /// Its next step wanted a line of input, which could not be read.
    Starved(Vec<u32>),
}

// The next pick in a circle while the run goes on.
fn next_pick(kernel: &Kernel, last: u32) -> Option<u32>
    ensures { IsNextPick kernel.now last result }
{
    match kernel.finish() {
        End::Going => kernel.next_enabled(last),
        End::Finished | End::Stuck | End::Spent => None,
    }
}

// Takes the step of an activity that wanted a line of input and has got it, or the end.
fn step_fed<L: Ledger>(kernel: &mut Kernel, a: u32, looks: &mut Steps<L>) -> Result<(), OutOfMemory>
    requires enabled { IsTrue (enabled kernel.old a) }
    requires going { end kernel.old ≡ End.Going }
    requires taken { IsTaken (step kernel.old a) }
    ensures { OnOk result (IsTakenBy (step kernel.old a) kernel.new) }
{
    match kernel.step(a, looks)? {
        Stepped::Done => Ok(()),
        Stepped::WantsLine => unreachable!(),
    }
}

// Takes the step of an activity that wants a line of the input, once it has got that, or the end.
fn step_behind<L: Ledger, I: Source>(
    alloc: Global,
    kernel: &mut Kernel,
    a: u32,
    input: &mut I,
    looks: &mut Steps<L>,
) -> Result<Fed, OutOfMemory>
    requires enabled { IsTrue (enabled kernel.old a) }
    requires going { end kernel.old ≡ End.Going }
    requires wants { step kernel.old a ≡ WantsLine }
    ensures tried { IfOk result (IsTried kernel.old kernel.new a (I.left input.old) (I.left input.new)) }
    ensures cause { HasCause (I.faults input.old) (I.faults input.new) (result ≡ Ok Fed.Failed) }
    ensures shrinks { Shrinks (I.left input.old) (I.left input.new) }
{
    let fed = feed(alloc, kernel, input)?;
    if let Fed::Done = fed {
        step_fed(kernel, a, looks)?;
    }
    Ok(fed)
}

// Takes the step of an activity, with a line of the input where it wants one.
fn try_step<L: Ledger, I: Source>(
    alloc: Global,
    kernel: &mut Kernel,
    a: u32,
    input: &mut I,
    looks: &mut Steps<L>,
) -> Result<Fed, OutOfMemory>
    requires enabled { IsTrue (enabled kernel.old a) }
    requires going { end kernel.old ≡ End.Going }
    ensures tried { IfOk result (IsTried kernel.old kernel.new a (I.left input.old) (I.left input.new)) }
    ensures cause { HasCause (I.faults input.old) (I.faults input.new) (result ≡ Ok Fed.Failed) }
    ensures shrinks { Shrinks (I.left input.old) (I.left input.new) }
{
    match kernel.step(a, looks)? {
        Stepped::Done => Ok(Fed::Done),
        Stepped::WantsLine => step_behind(alloc, kernel, a, input, looks),
    }
}

/// Runs to the end, or to a line that can't be read: each pick is the next in a circle. Or memory is wanted.
pub fn run_serial<L: Ledger, I: Source>(
    alloc: Global,
    kernel: &mut Kernel,
    input: &mut I,
    looks: &mut Steps<L>,
) -> Result<Course, OutOfMemory>
    requires none { kernel.old.rest ≡ [] }
    requires unknown { kernel.old.ended ≡ false }
    ensures course { IfOk result (IsCourse kernel.old kernel.new (I.left input.old) (I.left input.new)) }
    ensures cause { HasCause (I.faults input.old) (I.faults input.new) (IsStarved result) }
    ensures shrinks { Shrinks (I.left input.old) (I.left input.new) }
{
    let mut picks = Vec::new(alloc);
    let mut last = 0;
    while let Some(a) = next_pick(kernel, last) {
        match try_step(alloc, kernel, a, input, looks)? {
            Fed::Done => picks.push(a)?,
            Fed::Failed => return Ok(Course::Starved(picks)),
        }
        last = a;
    }
    Ok(Course::Ended(picks))
}
