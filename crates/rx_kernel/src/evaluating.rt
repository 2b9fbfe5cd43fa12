// What the expressions of a frame come to.
ghost use Rattle.std.specs.Prelude.{◌≡◌, ◌≤◌, ◌++◌, false, [], slice_get, IfOk, OnOk, Some};
ghost use Rattle.std.specs.Option.{option_copied};
ghost use Rattle.rx_frames.specs.declared.position.Position.{Position};
ghost use Rattle.rx_frames.specs.Activities.{IsBegun, frames_at};
ghost use Rattle.rx_frames.specs.Frames.{Frame as Recorded};
ghost use Rattle.rx_eval.specs.Names.{derived_names, known};
ghost use Rattle.rx_eval.specs.Pauses.{trees_of};
ghost use Rattle.rx_eval.specs.Reaching.{IsReached};
ghost use Rattle.rx_eval.specs.Reading.{derive as named};
ghost use Rattle.rx_machine.specs.Scenes.{body_of, comes_to, read_of};
ghost use Rattle.rx_kernel.specs.Noted.{AreValued, if_known, value_for, valued};
ghost use Rattle.rx_kernel.specs.Readings.{reading};
ghost use Rattle.rx_kernel.specs.States.{world_of};
ghost use Rattle.rx_kernel.specs.Views.{frame_view};

use crate::state::State;
use rx_eval::{Facts, Reached, Reads, Ready};
use rx_frames::Frame;
use rx_names::{NamesRefused, derive, value};
use rx_sends::Parts;
use rx_tree::{Caught, Derived, Name, OutOfMemory, Value};
use std::alloc::Global;

// An equal condition, if there is one, or want of memory.
fn share_caught(caught: Option<&Caught>) -> Result<Option<Caught>, OutOfMemory>
    ensures { IfOk result (λ shared. shared ≡ option_copied caught.entry) }
{
    match caught {
        None => Ok(None),
        Some(caught) => {
            let name = caught.name.share()?;
            let detail = caught.detail.share()?;
            Ok(Some(Caught {
                name,
                detail,
                by_call: caught.by_call,
            }))
        }
    }
}

// An equal value, if there is one, or want of memory.
fn share_value(value: Option<&Value>) -> Result<Option<Value>, OutOfMemory>
    ensures { IfOk result (λ shared. shared ≡ option_copied value.entry) }
{
    match value {
        None => Ok(None),
        Some(value) => Ok(Some(value.share()?)),
    }
}

// The variable for which a name stands. One that is too long stands for none.
fn variable_of(
    alloc: Global,
    parts: &Parts,
    a: u32,
    name: &Name,
) -> Result<Option<Derived>, OutOfMemory>
    requires begun { IsBegun parts.now.stacks a }
    ensures { IfOk result (λ variable. variable ≡ if_known (named false (value_for parts.now a) name.now)) }
{
    match derive(alloc, &parts.stacks, &parts.pools, a, name) {
        Ok(derived) => Ok(Some(derived)),
        Err(NamesRefused::Long) => match name {
            Name::Compound(_, _) => Ok(None),
            // No text is too long.
            Name::Simple(_) | Name::Stem(_) => Err(OutOfMemory),
        },
        Err(NamesRefused::OutOfMemory) => Err(OutOfMemory),
    }
}

// Notes the variable for which a name stands, with its value.
fn note_name(
    alloc: Global,
    parts: &Parts,
    a: u32,
    name: &Name,
    noted: &mut Reads,
) -> Result<(), OutOfMemory>
    requires begun { IsBegun parts.now.stacks a }
    requires valued { AreValued (value_for parts.now a) noted.old }
    ensures { OnOk result (noted.new ≡ noted.old
        ++ valued (value_for parts.now a) (known (named false (value_for parts.now a) name.now) [])) }
{
    if let Some(variable) = variable_of(alloc, parts, a, name)? {
        let value = share_value(value(&parts.stacks, &parts.pools, a, &variable))?;
        noted.push(variable, value)?;
    }
    Ok(())
}

// The variables for which names stand, each with its value.
fn note_names(alloc: Global, parts: &Parts, a: u32, names: &[Name]) -> Result<Reads, OutOfMemory>
    requires begun { IsBegun parts.now.stacks a }
    ensures { IfOk result
        (λ noted. noted ≡ valued (value_for parts.now a) (derived_names (value_for parts.now a) names.now)) }
{
    let mut noted = Reads::new(alloc);
    for name in names {
        note_name(alloc, parts, a, name, &mut noted)?;
    }
    Ok(noted)
}

impl State {
    // What functions read for a frame.
    fn read_of(&self, frame: &Frame) -> Result<rx_builtin::Facts, OutOfMemory>
        ensures read { IfOk result
            (λ read. read ≡ read_of (world_of self.now) (frame_view (reading self.now.program) frame.now)) }
        ensures least { IfOk result (λ read. 1 ≤ read.digits) }
        ensures most { IfOk result (λ read. read.digits ≤ 18) }
    {
        let arguments = frame.arguments().share()?;
        let condition = share_caught(frame.caught())?;
        let lines = self.program.lines()?;
        Ok(rx_builtin::Facts {
            digits: frame.digits(),
            arguments,
            queued: self.queue.count(),
            condition,
            lines,
        })
    }

    /// What an evaluation of an activity's frame on top comes to, or want of memory.
    pub(crate) fn evaluate(
        &self,
        alloc: Global,
        a: u32,
        ready: Ready,
    ) -> Result<Reached, OutOfMemory>
        requires begun { IsBegun self.now.parts.stacks a }
        ensures { (frame : Recorded Position) → slice_get (frames_at self.now.parts.stacks a) 0 ≡ Some frame
            → ready.code.body ≡ body_of self.now.program frame.body
            → IfOk result (IsReached ready.code
            (comes_to (world_of self.now) a (frame_view (reading self.now.program) frame) (trees_of ready))) }
    {
        let Some(frame) = self.parts.stacks.top(a) else {
            // Expressions are those of a frame.
            return Err(OutOfMemory);
        };
        let facts = Facts {
            frame: self.read_of(frame)?,
            reads: note_names(alloc, &self.parts, a, ready.names())?,
            novalue: false,
        };
        ready.resume(alloc, &facts)
    }
}
