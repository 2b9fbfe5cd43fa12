// The messages with which activities begin.
ghost use Rattle.std.specs.Prelude.{◌≡◌, ℕ, IfOk, None, OnOk};
ghost use Rattle.rx_heap.specs.Objects.{contents_at};
ghost use Rattle.rx_frames.specs.Activities.{IsBegun};
ghost use Rattle.rx_machine.specs.Sending.{first_sent, sends_first};
ghost use Rattle.rx_machine.specs.World.{World};
ghost use Rattle.rx_kernel.specs.First.{with_first};
ghost use Rattle.rx_kernel.specs.States.{world_of};

use crate::raising::is_message;
use crate::state::State;
use rx_heap::{Heap, MessageRow};
use rx_sends::Sent;
use rx_tree::{OutOfMemory, Value};
use sqlite_items::Items;
use std::alloc::Global;

// Equal arguments, or want of memory.
fn share_args(alloc: Global, args: &[Option<Value>]) -> Result<Items<Option<Value>>, OutOfMemory>
    ensures { IfOk result (λ shared. shared ≡ args.now) }
{
    let mut shared = Items::new(alloc);
    for arg in args {
        let arg = match arg {
            Some(value) => Some(value.share()?),
            None => None,
        };
        shared.push(arg)?;
    }
    Ok(shared)
}

// The message of a Message's row, or want of memory.
fn message_of(alloc: Global, row: &MessageRow) -> Result<Sent, OutOfMemory>
    ensures target { IfOk result (λ sent. sent.target ≡ row.now.target) }
    ensures name { IfOk result (λ sent. sent.name ≡ row.now.name) }
    ensures above { IfOk result (λ sent. sent.above ≡ None) }
    ensures args { IfOk result (λ sent. sent.args ≡ row.now.args) }
{
    let target = row.target.share()?;
    let name = row.name.share()?;
    let args = share_args(alloc, row.args.as_slice())?;
    Ok(Sent {
        target,
        name,
        above: None,
        args,
    })
}

// What an activity sends first for the object of this number: the message of a Message.
fn sent_for(alloc: Global, heap: &Heap, object: u32) -> Result<Option<Sent>, OutOfMemory>
    ensures { (w : World) (a : ℕ) → IfOk result (λ first. with_first w a first ≡ first_sent w a (contents_at heap.now object)) }
{
    if is_message(heap, object) {
        return Ok(Some(message_of(alloc, heap.message(object))?));
    }
    Ok(None)
}

impl State {
    // What an activity sends first, if it was begun for a Message.
    fn first_sent(&self, alloc: Global, a: u32) -> Result<Option<Sent>, OutOfMemory>
        requires begun { IsBegun self.now.parts.stacks a }
        ensures { IfOk result (λ first. with_first (world_of self.now) a first ≡ sends_first (world_of self.now) a) }
    {
        match self.parts.stacks.first_message(a) {
            Some(object) => sent_for(alloc, &self.parts.heap, object),
            None => Ok(None),
        }
    }

    /// An activity that was begun for a Message sends its message, or wants memory.
    pub(crate) fn send_first(&mut self, alloc: Global, a: u32) -> Result<(), OutOfMemory>
        requires begun { IsBegun self.old.parts.stacks a }
        ensures { OnOk result (world_of self.new ≡ sends_first (world_of self.old) a) }
    {
        match self.first_sent(alloc, a)? {
            Some(sent) => self.sends(alloc, a, 0, sent),
            None => Ok(()),
        }
    }
}
