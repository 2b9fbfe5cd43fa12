// Calls on activities and their frames.
ghost use Rattle.std.specs.Prelude.{IsTrue};
ghost use Rattle.rx_frames.specs.Activities.{IsBegun};

use crate::line::{Line, text_of};
use rx_frames::{BeginRefused, CallState, Frame, Operands, PushRefused, Stacks, Trap, Wait};
use rx_tree::{Awaited, Condition, FrameKind, OutOfMemory, Shared, Value};
use sqlite_items::Items;
use std::alloc::Global;

/// Whether an activity of this number was begun.
pub fn is_begun(stacks: &Stacks, a: u32) -> bool
    ensures { IsTrue result → IsBegun stacks.now a }
{
    0 < a && a <= stacks.count()
}

/// Begins so many activities, or as many as there is room for.
pub fn begin(stacks: &mut Stacks, count: u32) -> Result<(), OutOfMemory> {
    for _ in 0..count {
        match stacks.begin() {
            Ok(_) => {}
            Err(BeginRefused::Full) => return Ok(()),
            Err(BeginRefused::OutOfMemory) => return Err(OutOfMemory),
        }
    }
    Ok(())
}

// What has become of the call that a frame has met. Nothing is left of its expressions.
fn set_call(frame: &mut Frame, call: CallState) {
    frame.set_operands(Operands { rest: None, call });
}

/// Pushes a frame of body 0 that awaits anything, where the activity was begun. Whether there was
/// room.
pub fn push(
    alloc: Global,
    stacks: &mut Stacks,
    a: u32,
    kind: FrameKind,
) -> Result<bool, OutOfMemory> {
    if !is_begun(stacks, a) {
        return Ok(false);
    }
    let arguments = Shared::new(alloc, Items::new(alloc))?;
    let mut frame = Frame::new(alloc, kind, 0, None, arguments);
    set_call(&mut frame, CallState::Awaiting(Awaited::Anything));
    match stacks.push(a, frame) {
        Ok(()) => Ok(true),
        Err(PushRefused::Deep) => Ok(false),
        Err(PushRefused::OutOfMemory) => Err(OutOfMemory),
    }
}

/// Pushes so many frames of internal routines, or as many as there is room for.
pub fn push_more(
    alloc: Global,
    stacks: &mut Stacks,
    a: u32,
    count: u32,
) -> Result<(), OutOfMemory> {
    for _ in 0..count {
        if !push(alloc, stacks, a, FrameKind::Internal)? {
            return Ok(());
        }
    }
    Ok(())
}

/// The kind of frame that a word tells.
pub fn kind_of(word: &[u8]) -> FrameKind {
    match word {
        b"main" => FrameKind::Main,
        b"routine" => FrameKind::Routine,
        _ => FrameKind::Internal,
    }
}

// How a call's answer is awaited that a word tells.
fn awaited_of(word: &[u8]) -> Option<Awaited> {
    match word {
        b"dropped" => Some(Awaited::Dropped),
        b"anything" => Some(Awaited::Anything),
        b"message" => Some(Awaited::Message),
        b"function" => Some(Awaited::Function),
        b"string" => Some(Awaited::String),
        _ => None,
    }
}

// The call whose answer is awaited as a word tells. No call is met where it tells nothing.
fn call_of(word: &[u8]) -> CallState {
    match awaited_of(word) {
        Some(awaited) => CallState::Awaiting(awaited),
        None => CallState::NoCall,
    }
}

// How a frame awaits the answer of the next message that it sends: as that of the one before, or
// anything.
fn awaited_next(call: &CallState) -> Awaited {
    match call {
        CallState::NoCall => Awaited::Anything,
        CallState::Awaiting(awaited) => *awaited,
        CallState::Answered(awaited, _) => *awaited,
    }
}

/// The top frame of an activity, if it has one, awaits the answer of the next message, where it is
/// to.
pub fn await_next(alloc: Global, stacks: &mut Stacks, a: u32, awaits: bool)
    requires { IsBegun stacks.old a }
    ensures { IsBegun stacks.new a }
{
    if !awaits {
        return;
    }
    if let Some(frame) = stacks.top_mut(a) {
        let awaited = awaited_next(&frame.operands().call);
        set_call(frame, CallState::Awaiting(awaited));
    }
}

/// Whether the top frame of an activity, if it has one, awaits an answer.
pub fn is_awaiting(stacks: &Stacks, a: u32) -> bool
    requires { IsBegun stacks.now a }
{
    match stacks.top(a) {
        Some(frame) => matches!(frame.operands().call, CallState::Awaiting(_)),
        None => false,
    }
}

/// The answer that the top frame of an activity has, if there is one: a value or none.
pub fn answer_on_top(stacks: &Stacks, a: u32) -> Option<&Option<Value>> {
    if !is_begun(stacks, a) {
        return None;
    }
    match &stacks.top(a)?.operands().call {
        CallState::Answered(_, answer) => Some(answer),
        _ => None,
    }
}

// The condition that a word names.
fn condition_of(alloc: Global, word: &[u8]) -> Result<Condition, OutOfMemory> {
    match word {
        b"nomethod" => Ok(Condition::NoMethod),
        b"novalue" => Ok(Condition::NoValue),
        b"syntax" => Ok(Condition::Syntax),
        name => Ok(Condition::User(text_of(alloc, name)?)),
    }
}

// Traps of the conditions that a line names.
fn traps_of(alloc: Global, line: &Line) -> Result<Items<Trap>, OutOfMemory> {
    let mut traps = Items::new(alloc);
    for place in 2..line.count() {
        traps.push(Trap {
            condition: condition_of(alloc, line.bytes(place))?,
            by_call: false,
            label: text_of(alloc, b"TRAPPED")?,
        })?;
    }
    Ok(traps)
}

/// Equal values, or want of memory.
pub fn shared(
    alloc: Global,
    values: &[Option<Value>],
) -> Result<Items<Option<Value>>, OutOfMemory> {
    let mut shared = Items::new(alloc);
    for value in values {
        match value {
            Some(value) => shared.push(Some(value.share()?))?,
            None => shared.push(None)?,
        }
    }
    Ok(shared)
}

/// Changes the top frame of an activity as a line says. Whether there is one.
pub fn change_top(
    alloc: Global,
    stacks: &mut Stacks,
    a: u32,
    line: &Line,
) -> Result<bool, OutOfMemory>
    requires { IsBegun stacks.old a }
{
    let Some(frame) = stacks.top_mut(a) else {
        return Ok(false);
    };
    match line.bytes(0) {
        b"digits" => frame.set_digits(line.number(2).clamp(1, 18) as u8),
        b"trap" => frame.set_traps(traps_of(alloc, line)?),
        _ => set_call(frame, call_of(line.bytes(2))),
    }
    Ok(true)
}

/// What an activity waits for as a line says.
pub fn wait_of(line: &Line) -> Wait {
    let message = line.number(3);
    match line.bytes(2) {
        b"first" => Wait::First(message),
        b"message" => Wait::Message(message),
        b"guard" => Wait::Guard,
        b"later" => Wait::NotLive(message),
        _ => Wait::Nothing,
    }
}
