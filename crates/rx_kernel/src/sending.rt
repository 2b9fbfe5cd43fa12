// Messages that activities send.
ghost use Rattle.std.specs.Prelude.{◌≡◌, IsTrue, OnOk};
ghost use Rattle.rx_frames.specs.Activities.{IsBegun};
ghost use Rattle.rx_native.specs.Fitting.{AreThere, IsThere, IsThereIfGiven};
ghost use Rattle.rx_machine.specs.Sending.{sends};
ghost use Rattle.rx_kernel.specs.States.{world_of};

use crate::state::State;
use rx_heap::Heap;
use rx_sends::{SendRefused, Sent, send, sending_laws};
use rx_tree::{OutOfMemory, Value};
use std::alloc::Global;

// The error of a message without a method.
const METHOD_NOT_FOUND: u8 = 97;

// Whether a value is a string, or an object that is there.
fn is_there(heap: &Heap, value: &Value) -> bool
    ensures { IsTrue result → IsThere heap.now value.now }
{
    match value {
        Value::Str(_) => true,
        Value::Ref(object) => *object > 0 && *object <= heap.count(),
    }
}

// Whether an argument is so, where it is given.
fn is_there_if_given(heap: &Heap, arg: &Option<Value>) -> bool
    ensures { IsTrue result → IsThereIfGiven heap.now arg.now }
{
    match arg {
        Some(value) => is_there(heap, value),
        None => true,
    }
}

// Whether each argument is so.
fn are_there(heap: &Heap, args: &[Option<Value>]) -> bool
    ensures { IsTrue result → AreThere heap.now args.now }
{
    for arg in args {
        if !is_there_if_given(heap, arg) {
            return false;
        }
    }
    true
}

impl State {
    /// The activity sends a message from a clause at this line, or wants memory.
    pub(crate) fn sends(
        &mut self,
        alloc: Global,
        a: u32,
        line: u32,
        sent: Sent,
    ) -> Result<(), OutOfMemory>
        requires begun { IsBegun self.old.parts.stacks a }
        ensures { OnOk result (world_of self.new ≡ sends (world_of self.old) a line sent) }
    {
        // Each object that a value names is there.
        if self.closed
            || !is_there(&self.parts.heap, &sent.target)
            || !are_there(&self.parts.heap, sent.args.as_slice())
        {
            return Err(OutOfMemory);
        }
        sending_laws();
        match send(alloc, &mut self.parts, a, sent) {
            Ok(()) => Ok(()),
            Err(SendRefused::Raised(number)) => self.raise(a, number, line),
            Err(SendRefused::NoMethod) => self.raise(a, METHOD_NOT_FOUND, line),
            Err(SendRefused::OutOfMemory) => {
                self.closed = true;
                Err(OutOfMemory)
            }
        }
    }
}
