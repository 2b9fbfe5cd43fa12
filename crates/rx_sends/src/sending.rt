// Messages that are sent.
ghost use Rattle.std.specs.Prelude.{◌≡◌};
ghost use Rattle.std.specs.List.{list_any};
ghost use Rattle.rx_builtin.specs.declared.facts.Facts.{Facts};
ghost use Rattle.rx_frames.specs.Activities.{IsBegun, frames_at};
ghost use Rattle.rx_frames.specs.Frames.{positions};
ghost use Rattle.rx_native.specs.Fitting.{AreThere, Fits, IsThere};
ghost use Rattle.rx_sends.specs.Refusals.{untrapped};
ghost use Rattle.rx_sends.specs.Senders.{sender_of as sender};
ghost use Rattle.rx_sends.specs.Sending.{Sends};
ghost use Rattle.rx_sends.specs.Sending as spec;
ghost use Rattle.rx_sends.specs.Parts.{parts_of};

use crate::delivering::deliver;
use crate::parts::{Parts, Sent};
use crate::refused::{EXECUTION_ERROR, METHOD_NOT_FOUND, SendRefused};
use crate::sender::sender_of;
use rx_frames::{Stacks, Trap};
use rx_tree::{Condition, FrameKind};
use std::alloc::Global;

fn is_no_method(condition: &Condition) -> bool
    ensures { result ≡ spec.is_no_method condition.now }
{
    matches!(condition, Condition::NoMethod)
}

// Whether one of these traps is that of NOMETHOD.
fn has_no_method(traps: &[Trap]) -> bool
    ensures { result ≡ list_any (λ trap. spec.is_no_method trap.condition) traps.now }
{
    traps.iter().any(|trap| is_no_method(&trap.condition))
}

// Whether the frame on top traps NOMETHOD.
fn traps_no_method(stacks: &Stacks, a: u32) -> bool
    requires { IsBegun stacks.now a }
    ensures { result ≡ spec.traps_no_method (frames_at stacks.now a) }
{
    match stacks.top(a) {
        Some(frame) => has_no_method(frame.traps()),
        None => false,
    }
}

// A refusal, as it is where NOMETHOD is trapped or not.
fn untrapped(traps: bool, refused: SendRefused) -> SendRefused
    ensures { result ≡ untrapped traps refused }
{
    match refused {
        SendRefused::NoMethod if !traps => SendRefused::Raised(METHOD_NOT_FOUND),
        refused => refused,
    }
}

// Whether the frame on top is that of an internal routine.
fn is_internal(stacks: &Stacks, a: u32) -> bool
    requires { IsBegun stacks.now a }
    ensures { result ≡ spec.is_internal (frames_at stacks.now a) }
{
    match stacks.top(a) {
        Some(frame) => matches!(frame.kind(), FrameKind::Internal),
        None => false,
    }
}

/// Sends a message: the frame on top of an activity does, or it is the activity's first message.
///
/// A method of the package is begun: its frame is on top then. A native method is done: its value, or that it gives none, is the
/// answer that the frame awaits, or of a first message what its Message has come to, and then the activity has ended. START
/// begins an activity that is to send a Message.
///
/// # Errors
///
/// `NoMethod` where there is no method of the name that the sender may send, no UNKNOWN, and the sender traps NOMETHOD. `Raised`
/// with 97 where it doesn't trap that; 93 where the search is to begin at a class that it doesn't go through, or UNKNOWN would
/// have more than 1,048,576 arguments in its Array; 11 where a frame is to be put on 1,000; 5 where an activity is to be begun
/// after 65,536, or an object after 1,048,576; else the error of the native method. An object whose INIT is refused stays made, and
/// so does the Array for an UNKNOWN that is refused; nothing else has changed then. After `OutOfMemory` nothing is told.
pub fn send(alloc: Global, parts: &mut Parts, a: u32, sent: Sent) -> Result<(), SendRefused>
    requires begun { IsBegun parts.old.stacks a }
    requires target_there { IsThere parts.old.heap sent.target }
    requires args_there { AreThere parts.old.heap sent.args }
    requires fits { Fits parts.old.classes parts.old.heap }
    ensures sends { (facts : Facts) → facts.digits ≡ (sender parts.old.stacks a).digits
        → Sends result (parts_of parts.new) (spec.sent positions facts (parts_of parts.old) a sent) }
{
    let sender = sender_of(&parts.stacks, a);
    match deliver(alloc, &mut parts.heap, &parts.classes, sender, sent) {
        Ok(reply) => Ok(parts.reply(alloc, a, reply)?),
        Err(refused) => Err(untrapped(traps_no_method(&parts.stacks, a), refused)),
    }
}

/// Sends a message by FORWARD: as [`send`] does. What becomes of the answer is told by how the frame awaits it.
///
/// # Errors
///
/// `Raised` with 98 where the frame on top is that of an internal routine, and nothing has changed then. Else those of [`send`].
pub fn forward(alloc: Global, parts: &mut Parts, a: u32, sent: Sent) -> Result<(), SendRefused>
    requires begun { IsBegun parts.old.stacks a }
    requires target_there { IsThere parts.old.heap sent.target }
    requires args_there { AreThere parts.old.heap sent.args }
    requires fits { Fits parts.old.classes parts.old.heap }
    ensures sends { (facts : Facts) → facts.digits ≡ (sender parts.old.stacks a).digits
        → Sends result (parts_of parts.new) (spec.forwarded positions facts (parts_of parts.old) a sent) }
{
    if is_internal(&parts.stacks, a) {
        return Err(SendRefused::Raised(EXECUTION_ERROR));
    }
    send(alloc, parts, a, sent)
}
