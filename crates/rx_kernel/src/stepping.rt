// The step of an activity.
ghost use Rattle.std.specs.Prelude.{◌≡◌, ◌<◌, true, false, option_map, IfOk, OnErr};
ghost use Rattle.rx_flow.specs.Rules.{Does};
ghost use Rattle.rx_flow.specs.Todo.{past_labels};
ghost use Rattle.rx_frames.specs.Activities.{IsBegun, frames_at};
ghost use Rattle.rx_frames.specs.declared.position.Position.{Position};
ghost use Rattle.rx_frames.specs.Frames.{Frame as Recorded};
ghost use Rattle.rx_machine.specs.Scenes.{body_of};
ghost use Rattle.rx_machine.specs.Step.{goes, step, step_frame, step_frames, step_items};
ghost use Rattle.rx_machine.specs.Turns.{Turn};
ghost use Rattle.rx_kernel.specs.Readings.{reading};
ghost use Rattle.rx_kernel.specs.States.{world_of};
ghost use Rattle.rx_kernel.specs.Stepping.{IsKept, IsOf, IsStepped, IsTurn, goes_with, resumed_of};
ghost use Rattle.rx_kernel.specs.Turning.{IsTop, items_from};
ghost use Rattle.rx_kernel.specs.Views.{frame_view};

use crate::next::next_clause;
use crate::onward::{Onward, goes_on_with};
use crate::state::State;
use crate::stepped::{Here, Next, Stepped};
use rx_clause_tree::Simple;
use rx_codes::Program;
use rx_tree::OutOfMemory;
use std::alloc::Global;

impl State {
    // A clause goes on so, or not where its answer is still awaited.
    fn go_onward(
        &mut self,
        alloc: Global,
        a: u32,
        here: Here,
        simple: &Simple,
        onward: Option<Onward>,
    ) -> Result<Stepped, OutOfMemory>
        requires begun { IsBegun self.old.parts.stacks a }
        requires turn { (t : Turn) × IsTurn self.old a here t }
        requires code { (frame : Recorded Position) → IsTop self.old.parts.stacks a frame
            → IsOf (body_of self.old.program frame.body) onward }
        ensures { (t : Turn) → IsTurn self.old a here t → IfOk result (λ stepped.
            IsStepped (world_of self.old) (goes_with t simple.now (option_map resumed_of onward)) stepped (world_of self.new)) }
    {
        match onward {
            Some(Onward::With(ready)) => self.stretch(alloc, a, here, simple, ready),
            Some(Onward::Without) => self.finish(alloc, a, here, simple, &[]),
            Some(Onward::Raises(number)) => {
                self.raise(a, number, here.line)?;
                Ok(Stepped::Done)
            }
            None => Ok(Stepped::Done),
        }
    }

    // The step of the frame on top with this clause, which is kept under a number.
    fn step_simple(
        &mut self,
        alloc: Global,
        a: u32,
        program: &Program,
        next: Next,
        simple: &Simple,
    ) -> Result<Stepped, OutOfMemory>
        requires begun { IsBegun self.old.parts.stacks a }
        requires turn { (t : Turn) × IsTurn self.old a next.here t }
        requires running { self.old.closed ≡ false }
        requires program { program.now ≡ self.old.program }
        requires kept { (frame : Recorded Position) → IsTop self.old.parts.stacks a frame
            → IsKept program.now frame.body next.number simple.now }
        ensures { (t : Turn) → IsTurn self.old a next.here t → IfOk result (λ stepped.
            IsStepped (world_of self.old) (goes t (Does simple.now)) stepped (world_of self.new)) }
    {
        let Some(frame) = self.parts.stacks.top(a) else {
            // A clause is one of a frame.
            return Err(OutOfMemory);
        };
        let onward = goes_on_with(alloc, program, frame, next.number, simple)?;
        self.go_onward(alloc, a, next.here, simple, onward)
    }

    // The step of the frame on top, which asks for no pool.
    fn step_clause(&mut self, alloc: Global, a: u32) -> Result<Stepped, OutOfMemory>
        requires begun { IsBegun self.old.parts.stacks a }
        requires running { self.old.closed ≡ false }
        ensures { (frame : Recorded Position) → IsTop self.old.parts.stacks a frame → IfOk result (λ stepped.
            IsStepped (world_of self.old) (step_items (world_of self.old) a (frame_view (reading self.old.program) frame)
            (past_labels (items_from self.old.program frame frame.todo.place))) stepped (world_of self.new)) }
    {
        let Some(frame) = self.parts.stacks.top(a) else {
            // It never comes: an activity without a frame sends its first message.
            return Err(OutOfMemory);
        };
        let program = self.program.share()?;
        match next_clause(&program, frame)? {
            Some((next, simple)) => self.step_simple(alloc, a, &program, next, simple),
            None => {
                self.end_frame(a, None)?;
                Ok(Stepped::Done)
            }
        }
    }

    // The step of the frame on top.
    fn step_frame(&mut self, alloc: Global, a: u32) -> Result<Stepped, OutOfMemory>
        requires begun { IsBegun self.old.parts.stacks a }
        requires frame { (frame : Recorded Position) × IsTop self.old.parts.stacks a frame }
        requires running { self.old.closed ≡ false }
        ensures { (frame : Recorded Position) → IsTop self.old.parts.stacks a frame → IfOk result (λ stepped. IsStepped (world_of self.old)
            (step_frame (world_of self.old) a (frame_view (reading self.old.program) frame)) stepped (world_of self.new)) }
    {
        if self.take_pool(a) {
            return Ok(Stepped::Done);
        }
        self.step_clause(alloc, a)
    }

    // The first kind of step that applies to an activity.
    fn step_top(&mut self, alloc: Global, a: u32) -> Result<Stepped, OutOfMemory>
        requires begun { IsBegun self.old.parts.stacks a }
        requires running { self.old.closed ≡ false }
        ensures { IfOk result (λ stepped. IsStepped (world_of self.old)
            (step_frames (world_of self.old) a (frames_at (world_of self.old).activities a)) stepped (world_of self.new)) }
    {
        if self.parts.stacks.height(a) == 0 {
            self.send_first(alloc, a)?;
            return Ok(Stepped::Done);
        }
        self.step_frame(alloc, a)
    }

    /// The step of an enabled activity, counted; or want of memory, after which no further step is taken. A step that wants a
    /// line of input that isn't there changes nothing, and isn't counted.
    pub fn step(&mut self, alloc: Global, a: u32) -> Result<Stepped, OutOfMemory>
        requires begun { IsBegun self.old.parts.stacks a }
        requires steps_left { self.old.steps < self.old.budget }
        ensures stepped { IfOk result (λ stepped. IsStepped (world_of self.old) (step (world_of self.old) a) stepped (world_of self.new)) }
        ensures steps { OnErr result (self.new.steps ≡ self.old.steps) }
        ensures closed { OnErr result (self.new.closed ≡ true) }
    {
        if self.closed {
            return Err(OutOfMemory);
        }
        let steps = self.steps;
        self.steps = steps + 1;
        let stepped = self.step_top(alloc, a);
        match stepped {
            Ok(Stepped::Done) => {}
            Ok(Stepped::WantsLine) => self.steps = steps,
            Err(_) => {
                self.steps = steps;
                self.closed = true;
            }
        }
        stepped
    }
}
