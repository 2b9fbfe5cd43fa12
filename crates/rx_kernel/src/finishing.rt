// What clauses do at their end.
ghost use Rattle.std.specs.Prelude.{◌≡◌, codes, IfOk, OnOk};
ghost use Rattle.rx_frames.specs.Activities.{IsBegun};
ghost use Rattle.rx_frames.specs.declared.position.Position.{Position};
ghost use Rattle.rx_frames.specs.Frames.{Frame as Recorded};
ghost use Rattle.rx_machine.specs.Clauses.{finish};
ghost use Rattle.rx_machine.specs.Turns.{Turn, goes_on};
ghost use Rattle.rx_machine.specs.Values.{first_value};
ghost use Rattle.rx_kernel.specs.States.{world_of};
ghost use Rattle.rx_kernel.specs.Turning.{IsTop};
ghost use Rattle.rx_kernel.specs.Stepping.{IsStepped, IsTurn, does_behind, exposes_in};

use crate::state::State;
use crate::stepped::{Here, Stepped};
use rx_clause_tree::Simple;
use rx_frames::Own;
use rx_tree::{Name, OutOfMemory, Shared, Text, Value};
use std::alloc::Global;

/// What the frame on top has of its own, as its clauses read it at their end.
pub(crate) struct Scene {
    /// The object, the scope and the pool of a method's frame.
    own: Option<Own>,
    arguments: Shared<Option<Value>>,
}

impl Drop for Scene {
    fn drop(self) {
        let Scene {
            own: _,
            arguments: _,
        } = self;
    }
}

// An equal first value, if there is one, or want of memory.
fn first_value(values: &[Value]) -> Result<Option<Value>, OutOfMemory>
    ensures { IfOk result (λ first. first ≡ first_value values.now) }
{
    match values {
        [value, ..] => Ok(Some(value.share()?)),
        [] => Ok(None),
    }
}

// The variable that has the value of a message clause.
fn result_name(alloc: Global) -> Result<Name, OutOfMemory>
    ensures { IfOk result (λ name. name ≡ Name.Simple (codes "RESULT")) }
{
    Ok(Name::Simple(Text::from_slice(alloc, b"RESULT")?))
}

impl State {
    // The names are exposed in the pool of the frame's object and scope, if it has one.
    fn expose_own(
        &mut self,
        alloc: Global,
        a: u32,
        line: u32,
        own: Option<Own>,
        names: &[Name],
    ) -> Result<(), OutOfMemory>
        requires begun { IsBegun self.old.parts.stacks a }
        ensures { OnOk result (world_of self.new ≡ exposes_in (world_of self.old) a line own names.now) }
    {
        match own {
            Some(own) => self.exposes(alloc, a, line, own.pool, names),
            None => Ok(()),
        }
    }

    // What a clause does once its frame has gone on.
    fn finish_behind(
        &mut self,
        alloc: Global,
        a: u32,
        line: u32,
        simple: &Simple,
        scene: &Scene,
        values: &[Value],
    ) -> Result<(), OutOfMemory>
        requires begun { IsBegun self.old.parts.stacks a }
        ensures { OnOk result (world_of self.new
            ≡ does_behind (world_of self.old) a line scene.now.own scene.now.arguments simple.now values.now) }
    {
        match simple {
            Simple::Say(_) => self.say(values),
            Simple::Push(_) => self.push_line(alloc, values),
            Simple::Queue(_) => self.queue_line(alloc, values),
            Simple::Assign(name, _) => {
                let value = first_value(values)?;
                self.sets(alloc, a, line, name, value)
            }
            Simple::Message(_) => {
                let name = result_name(alloc)?;
                let value = first_value(values)?;
                self.sets(alloc, a, line, &name, value)
            }
            Simple::Drop(names) => self.drops(alloc, a, line, names.as_slice()),
            Simple::Expose(names) => self.expose_own(alloc, a, line, scene.own, names.as_slice()),
            Simple::UseArg(_, parameters) => {
                let arguments = scene.arguments.as_slice();
                self.uses(alloc, a, line, parameters.as_slice(), arguments, values)
            }
            _ => Ok(()),
        }
    }

    // What the frame on top has of its own, as its clauses read it at their end.
    fn scene(&self, a: u32) -> Result<Scene, OutOfMemory>
        requires begun { IsBegun self.now.parts.stacks a }
        ensures own { (frame : Recorded Position) → IsTop self.now.parts.stacks a frame → IfOk result (λ scene. scene.own ≡ frame.own) }
        ensures arguments { (frame : Recorded Position) → IsTop self.now.parts.stacks a frame
            → IfOk result (λ scene. scene.arguments ≡ frame.arguments) }
    {
        let Some(frame) = self.parts.stacks.top(a) else {
            // A clause is one of a frame.
            return Err(OutOfMemory);
        };
        Ok(Scene {
            own: frame.own(),
            arguments: frame.arguments().share()?,
        })
    }

    // A clause ends that lets its frame go on.
    fn finish_onward(
        &mut self,
        alloc: Global,
        a: u32,
        here: Here,
        simple: &Simple,
        values: &[Value],
    ) -> Result<(), OutOfMemory>
        requires begun { IsBegun self.old.parts.stacks a }
        requires turn { (t : Turn) × IsTurn self.old a here t }
        ensures { (t : Turn) → IsTurn self.old a here t → OnOk result (world_of self.new
            ≡ does_behind (goes_on t) a here.line t.frame.own t.frame.arguments simple.now values.now) }
    {
        let scene = self.scene(a)?;
        self.go_on(a, here.next);
        self.finish_behind(alloc, a, here.line, simple, &scene, values)
    }

    /// A clause ends, when its expressions have these values.
    pub(crate) fn finish(
        &mut self,
        alloc: Global,
        a: u32,
        here: Here,
        simple: &Simple,
        values: &[Value],
    ) -> Result<Stepped, OutOfMemory>
        requires begun { IsBegun self.old.parts.stacks a }
        requires turn { (t : Turn) × IsTurn self.old a here t }
        ensures { (t : Turn) → IsTurn self.old a here t
            → IfOk result (λ stepped. IsStepped (world_of self.old) (finish t simple.now values.now) stepped (world_of self.new)) }
    {
        match simple {
            Simple::Return(_) => {
                let value = first_value(values)?;
                self.end_frame(a, value)?;
                Ok(Stepped::Done)
            }
            Simple::Parse(parse) => self.parses(alloc, a, here, parse, values),
            _ => {
                self.finish_onward(alloc, a, here, simple, values)?;
                Ok(Stepped::Done)
            }
        }
    }
}
