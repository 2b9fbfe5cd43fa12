// What a message's reply does to the frames, the objects and the pools.
ghost use Rattle.std.specs.Prelude.{◌≡◌, ◌↔◌, ◌++◌, [], ◌∷◌, IsTrue, OnOk};
ghost use Rattle.rx_frames.specs.Activities.{IsBegun, waiting};
ghost use Rattle.rx_frames.specs.Frames.{positions};
ghost use Rattle.rx_heap.specs.Objects.{IsOfKind};
ghost use Rattle.rx_native.specs.Outcomes.{or_nil};
ghost use Rattle.rx_sends.specs.Sending as spec;
ghost use Rattle.rx_sends.specs.Parts.{parts_of};

use crate::call::{Call, NIL};
use crate::parts::Parts;
use crate::reply::Reply;
use rx_frames::{Frame, Stacks, Wait};
use rx_heap::{Heap, Kind, Outcome};
use rx_tree::{OutOfMemory, Value};
use std::alloc::Global;

fn or_nil(value: Option<Value>) -> Value
    ensures { result ≡ or_nil value }
{
    match value {
        Some(value) => value,
        None => Value::Ref(NIL),
    }
}

// Whether this is the number of a Message.
fn is_message(heap: &Heap, object: u32) -> bool
    ensures { IsTrue result ↔ IsOfKind heap.now object Kind.Message }
{
    object > 0 && object <= heap.count() && heap.kind(object) == Kind::Message
}

// A Message's message has given this value.
fn complete(heap: &mut Heap, message: u32, value: Value)
    ensures { heap.new ≡ spec.with_outcome heap.old message (Outcome.Given value) }
{
    if is_message(heap, message) {
        heap.message_mut(message).outcome = Outcome::Given(value);
    }
}

// Puts a frame on top of an activity's. There is room for it, as was seen when the message was delivered.
fn put_on_top(stacks: &mut Stacks, a: u32, frame: Frame) -> Result<(), OutOfMemory>
    requires { IsBegun stacks.old a }
    ensures { OnOk result (stacks.new ≡ spec.with_top stacks.old a frame) }
{
    match stacks.push(a, frame) {
        Ok(()) => Ok(()),
        Err(_) => Err(OutOfMemory),
    }
}

// Begins an activity that is to send a Message's message. There is room for it, as was seen when the message was delivered.
fn begin_first(stacks: &mut Stacks, message: u32) -> Result<(), OutOfMemory>
    ensures { OnOk result (stacks.new ≡ stacks.old ++ waiting (Wait.First message) [] ∷ []) }
{
    match stacks.begin() {
        Ok(begun) => {
            stacks.wait(begun, Wait::First(message));
            Ok(())
        }
        Err(_) => Err(OutOfMemory),
    }
}

impl Parts {
    // An activity's first message has given a value, or none: its Message is complete, and the activity has ended.
    fn end_first(&mut self, a: u32, value: Option<Value>)
        requires { IsBegun self.old.stacks a }
        ensures { parts_of self.new ≡ spec.first_answered (parts_of self.old) a value }
    {
        if let Some(message) = self.stacks.first_message(a) {
            complete(&mut self.heap, message, or_nil(value));
        }
        self.stacks.wait(a, Wait::Nothing);
    }

    // The sender has a value, or none.
    fn give(&mut self, a: u32, value: Option<Value>)
        requires { IsBegun self.old.stacks a }
        ensures { parts_of self.new ≡ spec.given positions (parts_of self.old) a value }
    {
        if self.stacks.height(a) == 0 {
            self.end_first(a, value);
        } else {
            self.stacks.answer(a, value);
        }
    }

    // A method's frame is put on top of the sender's.
    fn begin(&mut self, alloc: Global, a: u32, call: Call) -> Result<(), OutOfMemory>
        requires { IsBegun self.old.stacks a }
        ensures { OnOk result (parts_of self.new ≡ spec.begun positions (parts_of self.old) a call) }
    {
        let pool = self.pools.pool_of(call.object, call.method.scope)?;
        let completes = self.stacks.first_message(a);
        let frame = call.into_frame(alloc, pool, completes)?;
        put_on_top(&mut self.stacks, a, frame)?;
        self.stacks.wait(a, Wait::Nothing);
        Ok(())
    }

    // An activity is begun that sends a Message's message, and the sender has the Message.
    fn start(&mut self, a: u32, message: u32) -> Result<(), OutOfMemory>
        requires { IsBegun self.old.stacks a }
        ensures { OnOk result (parts_of self.new ≡ spec.started positions (parts_of self.old) a message) }
    {
        begin_first(&mut self.stacks, message)?;
        self.give(a, Some(Value::Ref(message)));
        Ok(())
    }

    /// The sender of a message has this, or memory is wanted.
    pub(crate) fn reply(&mut self, alloc: Global, a: u32, reply: Reply) -> Result<(), OutOfMemory>
        requires { IsBegun self.old.stacks a }
        ensures { OnOk result (parts_of self.new ≡ spec.with_reply positions (parts_of self.old) a reply) }
    {
        match reply {
            Reply::Gives(value) => {
                self.give(a, value);
                Ok(())
            }
            Reply::Calls(call) => self.begin(alloc, a, call),
            Reply::Starts(message) => self.start(a, message),
        }
    }
}
