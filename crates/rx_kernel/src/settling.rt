// Expressions of clauses that are evaluated, and the calls that they come to.
ghost use Rattle.std.specs.Prelude.{◌≡◌, [], IfOk, OnOk};
ghost use Rattle.rx_frames.specs.Activities.{IsBegun};
ghost use Rattle.rx_frames.specs.declared.position.Position.{Position};
ghost use Rattle.rx_frames.specs.Frames.{Frame as Recorded};
ghost use Rattle.rx_eval.specs.Pauses.{left_of, trees_of};
ghost use Rattle.rx_machine.specs.Answers.{awaited_by};
ghost use Rattle.rx_machine.specs.Scenes.{body_of};
ghost use Rattle.rx_machine.specs.Sending.{calls};
ghost use Rattle.rx_machine.specs.Step.{stretch};
ghost use Rattle.rx_machine.specs.Turns.{Turn, awaits};
ghost use Rattle.rx_kernel.specs.States.{world_of};
ghost use Rattle.rx_kernel.specs.Stepping.{IsStepped, IsTurn};
ghost use Rattle.rx_kernel.specs.Turning.{IsTop};

use crate::state::State;
use crate::stepped::{Here, Stepped};
use rx_clause_tree::Simple;
use rx_eval::{Paused, Pending, Reached, Ready, Sent as Called};
use rx_sends::Sent;
use rx_tree::{Awaited, OutOfMemory};
use std::alloc::Global;

// How a clause awaits the answer of a call: a message clause does without the value of its last message.
fn awaited_by(simple: &Simple, how: Awaited, paused: &Paused) -> Awaited
    ensures { result ≡ awaited_by simple.now how (left_of paused.now) }
{
    match simple {
        Simple::Message(_) if paused.is_bare() => Awaited::Anything,
        _ => how,
    }
}

impl State {
    // A clause at this line calls. No label and no routine is called in the language that runs.
    fn calls(&mut self, alloc: Global, a: u32, line: u32, called: Called) -> Result<(), OutOfMemory>
        requires begun { IsBegun self.old.parts.stacks a }
        ensures { OnOk result (world_of self.new ≡ calls (world_of self.old) a line called) }
    {
        match called {
            Called::Message(target, name, above, args) => {
                let sent = Sent {
                    target,
                    name,
                    above,
                    args,
                };
                self.sends(alloc, a, line, sent)
            }
            Called::Label(_, _) | Called::Routine(_, _) => Ok(()),
        }
    }

    // A clause calls, and awaits the answer.
    fn await_call(
        &mut self,
        alloc: Global,
        a: u32,
        here: Here,
        simple: &Simple,
        pending: Pending,
        paused: Paused,
    ) -> Result<(), OutOfMemory>
        requires begun { IsBegun self.old.parts.stacks a }
        requires turn { (t : Turn) × IsTurn self.old a here t }
        requires code { (frame : Recorded Position) → IsTop self.old.parts.stacks a frame
            → paused.code.body ≡ body_of self.old.program frame.body }
        ensures { (t : Turn) → IsTurn self.old a here t → OnOk result (world_of self.new
            ≡ calls (awaits t (awaited_by simple.now pending.awaited (left_of paused)) (left_of paused)) a here.line pending.sent) }
    {
        let how = awaited_by(simple, pending.awaited, &paused);
        self.wait(a, here.at, paused, how);
        self.calls(alloc, a, here.line, pending.into_sent())
    }

    /// A clause goes on with these expressions, to its next call or to its end.
    pub(crate) fn stretch(
        &mut self,
        alloc: Global,
        a: u32,
        here: Here,
        simple: &Simple,
        ready: Ready,
    ) -> Result<Stepped, OutOfMemory>
        requires begun { IsBegun self.old.parts.stacks a }
        requires turn { (t : Turn) × IsTurn self.old a here t }
        requires code { (frame : Recorded Position) → IsTop self.old.parts.stacks a frame
            → ready.code.body ≡ body_of self.old.program frame.body }
        ensures { (t : Turn) → IsTurn self.old a here t
            → IfOk result (λ stepped. IsStepped (world_of self.old) (stretch t simple.now (trees_of ready)) stepped (world_of self.new)) }
    {
        match self.evaluate(alloc, a, ready)? {
            Reached::Done(values) => self.finish(alloc, a, here, simple, values.as_slice()),
            Reached::Raise(number) => {
                self.raise(a, number, here.line)?;
                Ok(Stepped::Done)
            }
            Reached::NoValue(_) => {
                self.go_on(a, here.next);
                Ok(Stepped::Done)
            }
            Reached::Call(pending, paused) => {
                self.await_call(alloc, a, here, simple, pending, paused)?;
                Ok(Stepped::Done)
            }
        }
    }
}
