// The texts that PARSE cuts.
ghost use Rattle.std.specs.Prelude.{◌≡◌, [], ◌∷◌, map, option_map, IfOk, None, Ok};
ghost use Rattle.rx_frames.specs.Activities.{IsBegun};
ghost use Rattle.rx_frames.specs.declared.position.Position.{Position};
ghost use Rattle.rx_frames.specs.Frames.{Frame};
ghost use Rattle.rx_machine.specs.Templates.{argument_text, input_line, pulled_line, texts_from};
ghost use Rattle.rx_machine.specs.Turns.{Turn};
ghost use Rattle.rx_kernel.specs.declared.stepped.Here.{Here as Place};
ghost use Rattle.rx_kernel.specs.Parsing.{taken_with};
ghost use Rattle.rx_kernel.specs.States.{world_of};
ghost use Rattle.rx_kernel.specs.Stepping.{IsTurn};
ghost use Rattle.rx_kernel.specs.Turning.{IsTop};

use crate::saying::text_of;
use crate::state::State;
use crate::texts::value_text;
use rx_clause_tree::ParseFrom;
use rx_tree::{OutOfMemory, Text, Value};
use sqlite_items::Items;
use std::alloc::Global;

// The text of an argument: it is empty where that is omitted.
fn argument_text(alloc: Global, argument: &Option<Value>) -> Result<Text, OutOfMemory>
    ensures { IfOk result (λ text. text ≡ argument_text argument.now) }
{
    match argument {
        Some(value) => value_text(alloc, value),
        None => Text::from_slice(alloc, b""),
    }
}

// The texts of arguments.
fn argument_texts(alloc: Global, arguments: &[Option<Value>]) -> Result<Items<Text>, OutOfMemory>
    ensures { IfOk result (λ texts. texts ≡ map argument_text arguments.now) }
{
    let mut texts = Items::new(alloc);
    for argument in arguments {
        let text = argument_text(alloc, argument)?;
        texts.push(text)?;
    }
    Ok(texts)
}

// One text alone.
fn alone(alloc: Global, text: Text) -> Result<Items<Text>, OutOfMemory>
    ensures { IfOk result (λ texts. texts ≡ text ∷ []) }
{
    let mut texts = Items::new(alloc);
    texts.push(text)?;
    Ok(texts)
}

// The texts of a line, if there is one.
fn texts_of(alloc: Global, line: Option<Text>) -> Result<Option<Items<Text>>, OutOfMemory>
    ensures { IfOk result (λ texts. texts ≡ option_map (λ text. text ∷ []) line) }
{
    match line {
        Some(line) => Ok(Some(alone(alloc, line)?)),
        None => Ok(None),
    }
}

impl State {
    // Takes a line of the input: an empty one at its end, and none where the line isn't there yet.
    fn input_line(&mut self, alloc: Global) -> Result<Option<Text>, OutOfMemory>
        ensures line { IfOk result (λ line. taken_with (world_of self.new) line ≡ input_line (world_of self.old)) }
        ensures same { result ≡ Ok None → world_of self.new ≡ world_of self.old }
        ensures parts { self.new.parts ≡ self.old.parts }
        ensures program { self.new.program ≡ self.old.program }
    {
        if let Some(line) = self.lines.pop_front() {
            return Ok(Some(line));
        }
        if !self.ended {
            return Ok(None);
        }
        let line = Text::from_slice(alloc, b"")?;
        Ok(Some(line))
    }

    // Takes the front of the queue, or where that is empty a line of the input.
    fn pulled_line(&mut self, alloc: Global) -> Result<Option<Text>, OutOfMemory>
        ensures line { IfOk result (λ line. taken_with (world_of self.new) line ≡ pulled_line (world_of self.old)) }
        ensures same { result ≡ Ok None → world_of self.new ≡ world_of self.old }
        ensures parts { self.new.parts ≡ self.old.parts }
        ensures program { self.new.program ≡ self.old.program }
    {
        match self.queue.pop_front() {
            Some(line) => Ok(Some(line)),
            None => self.input_line(alloc),
        }
    }

    // The texts of the arguments of an activity's frame on top.
    fn argument_texts(&self, alloc: Global, a: u32) -> Result<Items<Text>, OutOfMemory>
        requires begun { IsBegun self.now.parts.stacks a }
        ensures { (frame : Frame Position) → IsTop self.now.parts.stacks a frame
            → IfOk result (λ texts. texts ≡ map argument_text frame.arguments) }
    {
        let Some(frame) = self.parts.stacks.top(a) else {
            // A clause is that of a frame.
            return Err(OutOfMemory);
        };
        argument_texts(alloc, frame.arguments().as_slice())
    }

    /// Takes the texts that a clause of an activity's frame on top cuts, where it has these values, or tells that it wants a line
    /// that isn't there yet.
    pub(crate) fn take_texts(
        &mut self,
        alloc: Global,
        a: u32,
        from: &ParseFrom,
        values: &[Value],
    ) -> Result<Option<Items<Text>>, OutOfMemory>
        requires begun { IsBegun self.old.parts.stacks a }
        ensures texts { (here : Place) (t : Turn) → IsTurn self.old a here t
            → IfOk result (λ texts. taken_with (world_of self.new) texts ≡ texts_from t values.now from.now) }
        ensures same { result ≡ Ok None → world_of self.new ≡ world_of self.old }
        ensures parts { self.new.parts ≡ self.old.parts }
        ensures program { self.new.program ≡ self.old.program }
    {
        match from {
            ParseFrom::Arg => Ok(Some(self.argument_texts(alloc, a)?)),
            ParseFrom::Pull => {
                let line = self.pulled_line(alloc)?;
                texts_of(alloc, line)
            }
            ParseFrom::LineIn => {
                let line = self.input_line(alloc)?;
                texts_of(alloc, line)
            }
            ParseFrom::Var(_) | ParseFrom::Value(_) => {
                let text = text_of(alloc, values)?;
                Ok(Some(alone(alloc, text)?))
            }
        }
    }
}
