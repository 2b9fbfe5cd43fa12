// Calls of frames.
ghost use Rattle.std.specs.Prelude.{◌≡◌, ◌<◌, IsTrue};
ghost use Rattle.rx_frames.specs.Activities.{IsBegun};

use crate::line::{Line, wanting};
use crate::pools::small;
use rx_frames::{BeginRefused, Frame, Look, Own, PushRefused, Stacks, Wait};
use rx_pools::Pools;
use rx_tree::{Derived, FrameKind, Place, Scope, Shared, Steps};
use rx_vars::Vars;
use sqlite_items::Items;
use std::alloc::{AllocError, Global};
use std::marker::Brand;
use std::sync::ledger::{Blank, Ledger};

/// Whether an activity of this number was begun.
pub fn is_begun(stacks: &Stacks, a: u32) -> bool
    ensures { IsTrue result → IsBegun stacks.now a }
{
    0 < a && a <= stacks.count()
}

fn kind_of(word: &[u8]) -> FrameKind {
    match word {
        b"main" => FrameKind::Main,
        b"method" => FrameKind::Method,
        b"routine" => FrameKind::Routine,
        _ => FrameKind::Internal,
    }
}

fn wait_of(line: &Line) -> Wait {
    let message = small(line.number(3));
    match line.bytes(2) {
        b"first" => Wait::First(message),
        b"message" => Wait::Message(message),
        b"guard" => Wait::Guard,
        b"later" => Wait::NotLive(message),
        _ => Wait::Nothing,
    }
}

/// Begins so many activities, at least one, and tells of the last.
pub fn begin(alloc: Global, stacks: &mut Stacks, count: u64) -> Result<String, AllocError> {
    let mut last = 0;
    for _ in 0..count.max(1) {
        match stacks.begin() {
            Ok(number) => last = number,
            Err(BeginRefused::Full) => return String::from_str(alloc, "full"),
            Err(BeginRefused::OutOfMemory) => return Err(AllocError),
        }
    }
    format!(in alloc; "activity {last}")
}

// Pushes a frame, where its activity was begun. Whether there was room.
fn push_one(
    alloc: Global,
    stacks: &mut Stacks,
    a: u32,
    kind: FrameKind,
) -> Result<bool, AllocError> {
    if !is_begun(stacks, a) {
        return Ok(false);
    }
    let arguments = Shared::new(alloc, Items::new(alloc)).map_err(|_| AllocError)?;
    let frame = Frame::new(alloc, kind, 1, None, arguments);
    match stacks.push(a, frame) {
        Ok(()) => Ok(true),
        Err(PushRefused::Deep) => Ok(false),
        Err(PushRefused::OutOfMemory) => Err(AllocError),
    }
}

fn push(alloc: Global, stacks: &mut Stacks, a: u32, line: &Line) -> Result<String, AllocError> {
    let kind = kind_of(line.bytes(2));
    for _ in 0..line.number(3).max(1) {
        if !push_one(alloc, stacks, a, kind)? {
            return String::from_str(alloc, "deep");
        }
    }
    String::from_str(alloc, "pushed")
}

// Gives the top frame an object, and the pool of this and a class.
fn own(
    alloc: Global,
    stacks: &mut Stacks,
    pools: &mut Pools,
    a: u32,
    line: &Line,
) -> Result<String, AllocError>
    requires { IsBegun stacks.old a }
{
    let object = small(line.number(2));
    let scope = Scope {
        class: small(line.number(3)),
        class_side: false,
    };
    let pool = pools.pool_of(object, scope).map_err(wanting)?;
    if let Some(frame) = stacks.top_mut(a) {
        frame.set_own(Some(Own {
            object,
            scope,
            pool,
        }));
    }
    format!(in alloc; "pool {pool}")
}

/// Exposes a name in an activity's top frame.
pub fn expose(stacks: &mut Stacks, a: u32, name: &Derived, place: Place) -> Result<(), AllocError>
    requires { IsBegun stacks.old a }
{
    match stacks.top_mut(a) {
        Some(frame) => frame.variables_mut().expose(name, place).map_err(wanting),
        None => Ok(()),
    }
}

fn look_with<L: Ledger>(stacks: &Stacks, a: u32, blank: Blank) -> Look
    requires begun { IsBegun stacks.now a }
    requires name { blank.name ≡ L.name }
    requires parts { blank.parts ≡ L.parts }
    requires some { 0 < blank.parts }
{
    stacks.look(a, &mut Steps::<L>::new(blank))
}

// What is seen of an activity, with a count of looks that nobody reads.
fn look(stacks: &Stacks, a: u32) -> Look
    requires { IsBegun stacks.now a }
{
    look_with::<Brand>(stacks, a, Blank::new(1))
}

fn told_look(alloc: Global, look: Look) -> Result<String, AllocError> {
    match look {
        Look::Ended => String::from_str(alloc, "ended"),
        Look::Runs => String::from_str(alloc, "runs"),
        Look::Asks(pool) => format!(in alloc; "asks for pool {pool}"),
        Look::Message(message) => format!(in alloc; "waits for message {message}"),
        Look::Guard => String::from_str(alloc, "waits at a guard"),
    }
}

fn told_number(alloc: Global, number: Option<u32>) -> Result<String, AllocError> {
    match number {
        Some(number) => format!(in alloc; "{number}"),
        None => String::from_str(alloc, "none"),
    }
}

// What a call that only reads comes to.
fn tell_of(
    alloc: Global,
    stacks: &Stacks,
    a: u32,
    line: &Line,
) -> Result<Option<String>, AllocError>
    requires { IsBegun stacks.now a }
{
    match line.bytes(0) {
        b"seen" => Ok(Some(told_look(alloc, look(stacks, a))?)),
        b"first" => Ok(Some(told_number(alloc, stacks.first_message(a))?)),
        b"height" => Ok(Some(told_number(alloc, Some(stacks.height(a)))?)),
        _ => Ok(None),
    }
}

// Changes the top frame of an activity. Whether there is such a call.
fn change_top(alloc: Global, stacks: &mut Stacks, a: u32, line: &Line) -> bool
    requires { IsBegun stacks.old a }
{
    let Some(frame) = stacks.top_mut(a) else {
        return false;
    };
    match line.bytes(0) {
        b"alone" => frame.set_variables(Vars::new(alloc, true)),
        b"asks" => frame.set_asks(true),
        b"takes" => frame.set_asks(false),
        _ => return false,
    }
    true
}

/// What a call of the frames of an activity comes to.
pub fn tell(
    alloc: Global,
    stacks: &mut Stacks,
    pools: &mut Pools,
    a: u32,
    line: &Line,
) -> Result<Option<String>, AllocError>
    requires { IsBegun stacks.old a }
{
    if let Some(told) = tell_of(alloc, stacks, a, line)? {
        return Ok(Some(told));
    }
    match line.bytes(0) {
        b"push" => return Ok(Some(push(alloc, stacks, a, line)?)),
        b"own" => return Ok(Some(own(alloc, stacks, pools, a, line)?)),
        b"pop" => {
            let _ = stacks.pop(a);
        }
        b"waits" => stacks.wait(a, wait_of(line)),
        _ if change_top(alloc, stacks, a, line) => {}
        _ => return Ok(None),
    }
    Ok(Some(String::from_str(alloc, "done")?))
}
