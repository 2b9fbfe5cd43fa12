// Errors that are raised, and Messages that are completed.
ghost use Rattle.std.specs.Prelude.{◌≡◌, ◌==◌, ◌↔◌, if◌then◌else◌, IsTrue, OnOk};
ghost use Rattle.rx_heap.specs.Objects.{IsOfKind};
ghost use Rattle.rx_frames.specs.Activities.{IsBegun, frames_at, with_change_at};
ghost use Rattle.rx_sends.specs.Sending.{completed};
ghost use Rattle.rx_machine.specs.Raising.{raised};
ghost use Rattle.rx_machine.specs.World.{Failed};
ghost use Rattle.rx_kernel.specs.States.{ending_of, world_of};
ghost use Rattle.rx_kernel.specs.Unwinding.{ended, unwound};

use crate::main_end::MainEnd;
use crate::state::State;
use rx_frames::{Stacks, Wait};
use rx_heap::{Heap, Kind};
use rx_tree::{Note, OutOfMemory, Outcome};

/// Whether this is the number of a Message.
pub(crate) fn is_message(heap: &Heap, object: u32) -> bool
    ensures { IsTrue result ↔ IsOfKind heap.now object Kind.Message }
{
    object > 0 && object <= heap.count() && heap.kind(object) == Kind::Message
}

/// A Message's message has come to this, where there is one to complete.
pub(crate) fn complete(heap: &mut Heap, message: Option<u32>, outcome: Outcome)
    ensures { heap.new ≡ completed heap.old message outcome }
{
    let Some(message) = message else {
        return;
    };
    if is_message(heap, message) {
        heap.message_mut(message).outcome = outcome;
    }
}

// All frames of an activity end by an error, the top one first, and then the activity does.
fn unwind(stacks: &mut Stacks, heap: &mut Heap, a: u32, number: u8)
    requires { IsBegun stacks.old a }
    ensures objects { heap.new ≡ unwound heap.old (frames_at stacks.old a) number }
    ensures activities { stacks.new ≡ with_change_at stacks.old a ended }
{
    while let Some(frame) = stacks.pop(a) {
        complete(heap, frame.completes(), Outcome::Failed(number));
    }
    stacks.wait(a, Wait::Nothing);
}

// Where the main program's activity ends by an error, that is how the main program ended.
fn end_main(main: &mut MainEnd, a: u32, number: u8)
    ensures { ending_of main.new ≡ (if a == 1 then Failed number else ending_of main.old) }
{
    if a == 1 {
        *main = MainEnd::Failed(number);
    }
}

impl State {
    /// The error of this number is raised by the activity's clause at this line: none of its frames traps it, and all of them end.
    pub(crate) fn raise(&mut self, a: u32, number: u8, line: u32) -> Result<(), OutOfMemory>
        requires begun { IsBegun self.old.parts.stacks a }
        ensures { OnOk result (world_of self.new ≡ raised (world_of self.old) a number line) }
    {
        self.notes.push(Note::Error {
            number,
            line,
            activity: a,
        })?;
        let first = self.parts.stacks.first_message(a);
        complete(&mut self.parts.heap, first, Outcome::Failed(number));
        unwind(&mut self.parts.stacks, &mut self.parts.heap, a, number);
        end_main(&mut self.main, a, number);
        Ok(())
    }
}
