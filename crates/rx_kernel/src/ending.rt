// Frames that end.
ghost use Rattle.std.specs.Prelude.{◌≡◌, ◌==◌, if◌then◌else◌, slice_get, IfOk, OnOk, Some};
ghost use Rattle.rx_native.specs.Outcomes.{or_nil};
ghost use Rattle.rx_frames.specs.Activities.{IsBegun, frames_at};
ghost use Rattle.rx_frames.specs.declared.position.Position.{Position};
ghost use Rattle.rx_frames.specs.Frames.{Frame as Framed};
ghost use Rattle.rx_machine.specs.Ending.{ended, ending_of as ending};
ghost use Rattle.rx_kernel.specs.Readings.{reading};
ghost use Rattle.rx_kernel.specs.States.{ending_of, world_of};
ghost use Rattle.rx_kernel.specs.Endings.{given_by, handed_to, main_with};
ghost use Rattle.rx_kernel.specs.Views.{frame_view};

use crate::main_end::MainEnd;
use crate::raising::complete;
use crate::state::State;
use rx_frames::{Frame, Stacks};
use rx_tree::{OutOfMemory, Outcome, Value};

const NIL: u32 = 1;

// What a Message has for a value, or for none.
fn or_nil(value: &Option<Value>) -> Result<Value, OutOfMemory>
    ensures { IfOk result (λ given. given ≡ or_nil value.now) }
{
    match value {
        Some(value) => Ok(value.share()?),
        None => Ok(Value::Ref(NIL)),
    }
}

// What a frame gives that ends with this: one that NEW began as INIT gives its object.
fn given_by(frame: &Frame, value: Option<Value>) -> Option<Value>
    ensures { result ≡ given_by frame.now value }
{
    if frame.made() {
        frame.own().map(|own| Value::Ref(own.object))
    } else {
        value
    }
}

// Where the main program's activity is over, that is how the main program ended.
fn give_main(main: &mut MainEnd, a: u32, value: Option<Value>)
    ensures { ending_of main.new ≡ (if a == 1 then ending value else ending_of main.old) }
{
    if a == 1 {
        *main = match value {
            Some(value) => MainEnd::Given(value),
            None => MainEnd::NoValue,
        };
    }
}

// The frame on top has the value, if there is one; else the activity is over.
fn hand(stacks: &mut Stacks, main: &mut MainEnd, a: u32, value: Option<Value>)
    requires { IsBegun stacks.old a }
    ensures main { ending_of main.new ≡ main_with (frames_at stacks.old a) a value (ending_of main.old) }
    ensures activities { stacks.new ≡ handed_to stacks.old a value (frames_at stacks.old a) }
{
    if stacks.height(a) == 0 {
        give_main(main, a, value);
    } else {
        stacks.answer(a, value);
    }
}

impl State {
    /// The frame on top of an activity ends with a value or without one, and gives back its reservation. It completes its Message,
    /// and gives its value to the frame beneath.
    pub(crate) fn end_frame(&mut self, a: u32, value: Option<Value>) -> Result<(), OutOfMemory>
        requires begun { IsBegun self.old.parts.stacks a }
        ensures { (frame : Framed Position) → slice_get (frames_at self.old.parts.stacks a) 0 ≡ Some frame
            → OnOk result (world_of self.new ≡ ended (world_of self.old) a (frame_view (reading self.old.program) frame) value) }
    {
        let Some(frame) = self.parts.stacks.top(a) else {
            return Err(OutOfMemory);
        };
        let completes = frame.completes();
        let given = given_by(frame, value);
        let outcome = Outcome::Given(or_nil(&given)?);
        let _ended = self.parts.stacks.pop(a);
        complete(&mut self.parts.heap, completes, outcome);
        hand(&mut self.parts.stacks, &mut self.main, a, given);
        Ok(())
    }
}
