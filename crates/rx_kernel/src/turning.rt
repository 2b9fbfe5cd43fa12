// What a step does to the frame on top.
ghost use Rattle.std.specs.Prelude.{◌≡◌, true, false, IsTrue};
ghost use Rattle.std.specs.Bool.{OnFalse};
ghost use Rattle.rx_frames.specs.Activities.{IsBegun, with_frame};
ghost use Rattle.rx_frames.specs.declared.position.Position.{Position as Placed};
ghost use Rattle.rx_frames.specs.Frames.{Frame};
ghost use Rattle.rx_machine.specs.Scenes.{body_of};
ghost use Rattle.rx_machine.specs.Step.{takes};
ghost use Rattle.rx_machine.specs.World.{with_top};
ghost use Rattle.rx_kernel.specs.Readings.{reading};
ghost use Rattle.rx_kernel.specs.States.{world_of};
ghost use Rattle.rx_kernel.specs.Turning.{IsTop, awaiting, going_on, going_to_wait, gone_on, taken};
ghost use Rattle.rx_kernel.specs.Views.{frame_view};

use crate::state::State;
use rx_eval::Paused;
use rx_frames::{CallState, Marks, Operands, Stacks};
use rx_tree::Awaited;

// The frame on top goes on at this place.
fn go_on(stacks: &mut Stacks, a: u32, place: u32)
    requires { IsBegun stacks.old a }
    ensures { (frame : Frame Placed) → IsTop stacks.old a frame → stacks.new ≡ with_frame stacks.old a 0 (gone_on place frame) }
{
    let Some(frame) = stacks.top_mut(a) else {
        return;
    };
    frame.set_place(place);
    frame.set_operands(Operands {
        rest: None,
        call: CallState::NoCall,
    });
    frame.set_marks(Marks::NoGuard);
}

// The frame on top awaits the answer of a call.
fn wait(stacks: &mut Stacks, a: u32, place: u32, paused: Paused, how: Awaited)
    requires { IsBegun stacks.old a }
    ensures { (frame : Frame Placed) → IsTop stacks.old a frame → stacks.new ≡ with_frame stacks.old a 0 (awaiting place paused how frame) }
{
    let Some(frame) = stacks.top_mut(a) else {
        return;
    };
    frame.set_place(place);
    frame.set_operands(Operands {
        rest: Some(paused),
        call: CallState::Awaiting(how),
    });
    frame.set_marks(Marks::NoGuard);
}

// Where the frame on top asks for its pool, it reserves it. Whether it asked.
fn reserve(stacks: &mut Stacks, a: u32) -> bool
    requires { IsBegun stacks.old a }
    ensures asked { (frame : Frame Placed) → IsTop stacks.old a frame → result ≡ frame.asks }
    ensures taken { (frame : Frame Placed) → IsTop stacks.old a frame → IsTrue result → stacks.new ≡ with_frame stacks.old a 0 (taken frame) }
    ensures same { OnFalse result (stacks.new ≡ stacks.old) }
{
    match stacks.top_mut(a) {
        Some(frame) => frame.reserve(),
        None => false,
    }
}

impl State {
    /// The clause of the frame on top is done: it goes on at this place.
    pub(crate) fn go_on(&mut self, a: u32, place: u32)
        requires begun { IsBegun self.old.parts.stacks a }
        requires frame { (frame : Frame Placed) × IsTop self.old.parts.stacks a frame }
        ensures goes_on { (frame : Frame Placed) → IsTop self.old.parts.stacks a frame
            → world_of self.new ≡ with_top (world_of self.old) a (going_on self.old.program frame place) }
        ensures begun { IsBegun self.new.parts.stacks a }
        ensures program { self.new.program ≡ self.old.program }
    {
        go_on(&mut self.parts.stacks, a, place);
    }

    /// The clause at this place, of the frame on top, awaits the answer of a call.
    pub(crate) fn wait(&mut self, a: u32, place: u32, paused: Paused, how: Awaited)
        requires begun { IsBegun self.old.parts.stacks a }
        requires frame { (frame : Frame Placed) × IsTop self.old.parts.stacks a frame }
        requires code { (frame : Frame Placed) → IsTop self.old.parts.stacks a frame
            → paused.code.body ≡ body_of self.old.program frame.body }
        ensures waits { (frame : Frame Placed) → IsTop self.old.parts.stacks a frame
            → world_of self.new ≡ with_top (world_of self.old) a (going_to_wait self.old.program frame place paused how) }
        ensures begun { IsBegun self.new.parts.stacks a }
        ensures program { self.new.program ≡ self.old.program }
    {
        wait(&mut self.parts.stacks, a, place, paused, how);
    }

    /// Where the frame on top asks for its pool, it reserves it. Whether it asked.
    pub(crate) fn take_pool(&mut self, a: u32) -> bool
        requires begun { IsBegun self.old.parts.stacks a }
        requires frame { (frame : Frame Placed) × IsTop self.old.parts.stacks a frame }
        ensures asked { (frame : Frame Placed) → IsTop self.old.parts.stacks a frame → result ≡ frame.asks }
        ensures takes { (frame : Frame Placed) → IsTop self.old.parts.stacks a frame → IsTrue result
            → world_of self.new ≡ takes (world_of self.old) a (frame_view (reading self.old.program) frame) }
        ensures same { OnFalse result (self.new ≡ self.old) }
    {
        reserve(&mut self.parts.stacks, a)
    }
}
