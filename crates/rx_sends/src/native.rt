// Native methods.
ghost use Rattle.std.specs.Prelude.{◌≡◌, ◌&&◌, ◌≤◌, List};
ghost use Rattle.rx_builtin.specs.declared.facts.Facts.{Facts};
ghost use Rattle.rx_native.specs.Fitting.{AreThere, Fits, IsReached, IsThere};
ghost use Rattle.rx_native.specs.Outcomes.{Outcome};
ghost use Rattle.rx_tree.specs.Object.{Object};
ghost use Rattle.rx_sends.specs.Native as spec;
ghost use Rattle.rx_sends.specs.Numbers as numbers;
ghost use Rattle.rx_sends.specs.Replies.{Comes, Delivers};
ghost use Rattle.rx_sends.specs.Settings.{setting};

use crate::calling::call_native;
use crate::making::{is_new, new};
use crate::refused::{INCORRECT_METHOD_CALL, RESOURCES_EXHAUSTED, SendRefused};
use crate::reply::{Reply, reply_of};
use crate::sender::Sender;
use rx_classes::ClassTable;
use rx_heap::Heap;
use rx_native::{NativeAnswer, is_built};
use rx_tree::Value;
use sqlite_items::Items;
use std::alloc::Global;

// START of Object.
const START: u16 = 8;

// NEW of the class Message itself.
const NEW_MESSAGE: u16 = 82;

fn is_start(id: u16) -> bool
    ensures { result ≡ numbers.is_start id }
{
    id == START
}

// A method of Message: these aren't here yet.
fn without_method(id: u16) -> Result<Reply, SendRefused>
    ensures { (objects : List Object) → Delivers result objects (spec.without_method id objects) }
{
    if id == NEW_MESSAGE {
        Err(SendRefused::Raised(INCORRECT_METHOD_CALL))
    } else {
        Err(SendRefused::NoMethod)
    }
}

// Whether there is no room for the activity that START begins.
fn lacks_room(sender: Sender, id: u16) -> bool
    ensures { result ≡ (sender.is_full && numbers.is_start id) }
{
    sender.is_full && is_start(id)
}

// What a native method gives.
fn replied(answer: Result<NativeAnswer, SendRefused>) -> Result<Reply, SendRefused>
    ensures { (before : List Object) (after : List Object) (outcome : Outcome)
        → Comes answer before after outcome → Delivers result after (spec.native_after before outcome) }
{
    match answer {
        Ok(answer) => Ok(reply_of(answer)),
        Err(refused) => Err(refused),
    }
}

/// A native method that the receiver reaches.
pub(crate) fn native(
    alloc: Global,
    heap: &mut Heap,
    classes: &ClassTable,
    sender: Sender,
    target: &Value,
    id: u16,
    args: Items<Option<Value>>,
) -> Result<Reply, SendRefused>
    requires at_least_1 { 1 ≤ sender.digits }
    requires at_most_18 { sender.digits ≤ 18 }
    requires reached { IsReached classes.now heap.old target.now id }
    requires target_there { IsThere heap.old target.now }
    requires args_there { AreThere heap.old args }
    requires fits { Fits classes.now heap.old }
    ensures { (facts : Facts) → facts.digits ≡ sender.digits → Delivers result heap.new
        (spec.natives (setting facts classes.now sender) heap.old target.now id args) }
{
    if !is_built(id) {
        return without_method(id);
    }
    if is_new(id) {
        return new(alloc, heap, classes, sender, target, id, args);
    }
    if lacks_room(sender, id) {
        return Err(SendRefused::Raised(RESOURCES_EXHAUSTED));
    }
    replied(call_native(alloc, heap, classes, sender, target, id, args.as_slice()))
}
