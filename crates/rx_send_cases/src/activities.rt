// What is told of activities and their frames.
ghost use Rattle.std.specs.Prelude.{◌≡◌, ◌<◌};
ghost use Rattle.rx_frames.specs.Activities.{IsBegun};

use crate::frames::answer_on_top;
use crate::line::text_of;
use crate::told::{told_answer, told_arguments, told_scope, told_value, told_word};
use rx_classes::ClassTable;
use rx_frames::{CallState, Frame, Look, Own, Stacks};
use rx_sends::Parts;
use rx_tree::{Awaited, Derived, FrameKind, OutOfMemory, Steps};
use rx_vars::{Place, Vars};
use std::alloc::Global;
use std::marker::Brand;
use std::sync::ledger::{Blank, Ledger};

fn look_with<L: Ledger>(stacks: &Stacks, a: u32, blank: Blank) -> Look
    requires begun { IsBegun stacks.now a }
    requires name { blank.name ≡ L.name }
    requires parts { blank.parts ≡ L.parts }
    requires some { 0 < blank.parts }
{
    stacks.look(a, &mut Steps::<L>::new(blank))
}

// What is seen of an activity, with a count of looks that nobody reads.
fn look(stacks: &Stacks, a: u32) -> Look
    requires { IsBegun stacks.now a }
{
    look_with::<Brand>(stacks, a, Blank::new(1))
}

fn told_look(alloc: Global, look: Look) -> Result<String, OutOfMemory> {
    match look {
        Look::Ended => told_word(alloc, "ended"),
        Look::Runs => told_word(alloc, "runs"),
        Look::Asks(pool) => Ok(format!(in alloc; "asks for pool {pool}")?),
        Look::Message(message) => Ok(format!(in alloc; "waits for #{message}")?),
        Look::Guard => told_word(alloc, "waits at a guard"),
    }
}

fn kind_name(kind: FrameKind) -> &'static str {
    match kind {
        FrameKind::Main => "main",
        FrameKind::Method => "method",
        FrameKind::Routine => "routine",
        FrameKind::Internal => "internal",
    }
}

fn awaited_name(awaited: Awaited) -> &'static str {
    match awaited {
        Awaited::Dropped => "dropped",
        Awaited::Anything => "anything",
        Awaited::Message => "message",
        Awaited::Function => "function",
        Awaited::String => "string",
    }
}

fn told_own(alloc: Global, classes: &ClassTable, own: Own) -> Result<String, OutOfMemory> {
    let scope = told_scope(alloc, classes, own.scope)?;
    let object = own.object;
    let pool = own.pool;
    Ok(format!(in alloc; " on #{object} in {scope}, pool {pool}")?)
}

// A simple variable with its value, where it has one.
fn tell_variable(
    alloc: Global,
    told: &mut String,
    variables: &Vars,
    name: &str,
) -> Result<(), OutOfMemory> {
    let derived = Derived::Simple(text_of(alloc, name.as_bytes())?);
    if let Some(value) = variables.get(&derived) {
        let value = told_value(alloc, value)?;
        told.push_str(format!(in alloc; ", {name} {value}")?.as_str())?;
    }
    if let Place::Pool(pool) = variables.place(&derived) {
        told.push_str(format!(in alloc; ", {name} in pool {pool}")?.as_str())?;
    }
    Ok(())
}

// Whether a frame shares the variables of its caller.
fn tell_shared(alloc: Global, told: &mut String, variables: &Vars) -> Result<(), OutOfMemory> {
    let name = Derived::Simple(text_of(alloc, b"SELF")?);
    if variables.place(&name) == Place::Below {
        told.push_str(", shares variables")?;
    }
    Ok(())
}

// How a frame was begun.
fn tell_beginning(alloc: Global, told: &mut String, frame: &Frame) -> Result<(), OutOfMemory> {
    if frame.made() {
        told.push_str(", made")?;
    }
    if let Some(message) = frame.completes() {
        told.push_str(format!(in alloc; ", completes #{message}")?.as_str())?;
    }
    let args = frame.arguments().as_slice();
    if !args.is_empty() {
        told.push_str(", args")?;
        told.push_str(told_arguments(alloc, args)?.as_str())?;
    }
    Ok(())
}

// What a message reads of a frame.
fn tell_settings(alloc: Global, told: &mut String, frame: &Frame) -> Result<(), OutOfMemory> {
    let digits = frame.digits();
    if digits != 9 {
        told.push_str(format!(in alloc; ", digits {digits}")?.as_str())?;
    }
    let traps = frame.traps().len();
    if traps > 0 {
        told.push_str(format!(in alloc; ", traps {traps}")?.as_str())?;
    }
    Ok(())
}

// How a frame awaits an answer, or awaited the one that it has.
fn tell_call(alloc: Global, told: &mut String, call: &CallState) -> Result<(), OutOfMemory> {
    match call {
        CallState::NoCall => {}
        CallState::Awaiting(awaited) => {
            let awaited = awaited_name(*awaited);
            told.push_str(format!(in alloc; ", awaits {awaited}")?.as_str())?;
        }
        CallState::Answered(awaited, answer) => {
            let awaited = awaited_name(*awaited);
            let answer = told_answer(alloc, answer)?;
            told.push_str(format!(in alloc; ", answered {awaited} {answer}")?.as_str())?;
        }
    }
    Ok(())
}

fn told_frame(alloc: Global, classes: &ClassTable, frame: &Frame) -> Result<String, OutOfMemory> {
    let kind = kind_name(frame.kind());
    let body = frame.body();
    let mut told = format!(in alloc; "  {kind} {body}")?;
    if let Some(own) = frame.own() {
        told.push_str(told_own(alloc, classes, own)?.as_str())?;
    }
    let variables = frame.variables();
    tell_variable(alloc, &mut told, variables, "SELF")?;
    tell_variable(alloc, &mut told, variables, "SUPER")?;
    tell_shared(alloc, &mut told, variables)?;
    tell_beginning(alloc, &mut told, frame)?;
    tell_settings(alloc, &mut told, frame)?;
    tell_call(alloc, &mut told, &frame.operands().call)?;
    Ok(told)
}

/// An activity, and of its frames at most so many, the top first.
pub fn told_activity(alloc: Global, parts: &Parts, a: u32, most: u32) -> Result<String, OutOfMemory>
    requires { IsBegun parts.now.stacks a }
{
    let height = parts.stacks.height(a);
    let seen = told_look(alloc, look(&parts.stacks, a))?;
    let mut told = format!(in alloc; "activity {a}: frames {height}, {seen}")?;
    if let Some(message) = parts.stacks.first_message(a) {
        told.push_str(format!(in alloc; ", first message #{message}")?.as_str())?;
    }
    for down in 0..height.min(most) {
        if let Some(frame) = parts.stacks.lower(a, down) {
            told.push_str("\n")?;
            told.push_str(told_frame(alloc, &parts.classes, frame)?.as_str())?;
        }
    }
    Ok(told)
}

/// What is told of a message that is done, and whose answer the frame on top of an activity
/// awaited.
pub fn told_gift(alloc: Global, stacks: &Stacks, a: u32) -> Result<String, OutOfMemory> {
    match answer_on_top(stacks, a) {
        Some(answer) => {
            let answer = told_answer(alloc, answer)?;
            Ok(format!(in alloc; "gives {answer}")?)
        }
        None => told_word(alloc, "done"),
    }
}
